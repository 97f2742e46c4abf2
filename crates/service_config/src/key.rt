use crate::ConfigError;
use base_types::Bytes;
use base64::DecodeAllocError;
use base64::engine::general_purpose::URL_SAFE_NO_PAD;
use std::alloc::{AllocError, Global};
use std::marker::Model;

/// A key of HS256 (RFC 7518, section 3.2), of 32 to 128 bytes, which contracts see as its bytes.
#[derive(Debug, Drop)]
pub struct Key {
    bytes: Bytes,
}

impl Model for Key {
    ghost use Rattle.std.specs.Prelude.{ℕ, List, ◌≤◌, length};

    ghost Value = { List ℕ };

    ghost view = { λ key. key.bytes };

    ghost invariant = { λ key. (32 ≤ length key.bytes) × (length key.bytes ≤ 128) };
}

impl Key {
    ghost use Rattle.std.specs.Prelude.{◌≡◌, ◌≤◌, IfOk, length};
    ghost use Rattle.base_types.specs.Forms.{has_size, passing};
    ghost use Rattle.service_config.specs.Configuration.{Reads, key_of};

    /// The key of these bytes, where they are so many.
    pub fn new(bytes: Bytes) -> Option<Self>
        ensures { result ≡ passing (has_size 32 128) bytes }
    {
        let size = bytes.as_slice().len();
        if 32 <= size && size <= 128 {
            Some(Key { bytes })
        } else {
            None
        }
    }

    /// The key of a text in base64url without padding (RFC 4648, section 5), read strictly.
    pub fn read(alloc: Global, text: &str) -> Result<Self, ConfigError>
        ensures { Reads (λ key. key) result (key_of text.now) }
    {
        match URL_SAFE_NO_PAD.decode(alloc, text.as_bytes()) {
            Ok(key) => match Key::new(Bytes::new(key)) {
                Some(key) => Ok(key),
                None => Err(ConfigError::Form),
            },
            Err(DecodeAllocError::OutOfMemory) => Err(ConfigError::Memory),
            Err(_) => Err(ConfigError::Form),
        }
    }

    pub fn as_slice(&self) -> &[u8]
        ensures bytes { result.now ≡ self.now }
        ensures enough { 32 ≤ length self.now }
    {
        self.bytes.as_slice()
    }

    /// The same once more.
    pub fn copy(&self, alloc: Global) -> Result<Self, AllocError>
        ensures { IfOk result (λ key. key ≡ self.now) }
    {
        Ok(Key {
            bytes: self.bytes.copy(alloc)?,
        })
    }
}
