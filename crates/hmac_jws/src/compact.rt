ghost use Rattle.std.specs.Prelude.{◌≡◌, ◌≤◌, ◌<◌, ◌^◌, ◌∷◌, ◌++◌, ℕ, List, length, IfOk, OnOk};
ghost use Rattle.std.specs.String.{string_bytes};
ghost use Rattle.base64.specs.Rfc4648.{unpadded_len};
ghost use Rattle.hmac_jws.specs.Compact.{base64url, compact, dot};

use crate::mac::hmac;
use base64::engine::general_purpose::URL_SAFE_NO_PAD;
use std::alloc::{AllocError, Global};

pub(crate) const HEADER: &str = "{\"alg\":\"HS256\",\"typ\":\"JWT\"}";

const MAC_LENGTH: usize = 32;

fn push_part(text: &mut String, bytes: &[u8]) -> Result<(), AllocError>
    ensures { OnOk result (string_bytes text.new ≡ string_bytes text.old ++ dot ∷ base64url bytes.now) }
{
    text.push_str(".")?;
    URL_SAFE_NO_PAD.encode_string(bytes, text)
}

/// The compact form of a payload under a key of at least 32 bytes (RFC 7515, section 7.1).
#[tactic(auto, unfolding(crate::specs::Compact::compact))]
pub fn sign(alloc: Global, key: &[u8], payload: &[u8]) -> Result<String, AllocError>
    requires { 32 ≤ length key.now }
    ensures { IfOk result (λ text. string_bytes text ≡ compact key.now payload.now) }
{
    let mut text = URL_SAFE_NO_PAD.encode(alloc, HEADER.as_bytes())?;
    push_part(&mut text, payload)?;
    let mac = hmac(key, text.as_bytes());
    push_part(&mut text, &mac)?;
    Ok(text)
}

// The length of a part of so many bytes.
fn part_length(bytes: usize) -> usize
    requires { bytes < 2 ^ 63 }
    ensures { result ≡ unpadded_len bytes }
{
    bytes + (bytes + 2) / 3
}

/// The length of the compact form of a payload of so many bytes, under any key.
pub fn signed_length(payload: usize) -> usize
    requires { payload < 2 ^ 63 }
    ensures { (key bytes : List ℕ) → length bytes ≡ payload → length (compact key bytes) ≡ result }
{
    part_length(HEADER.len()) + 1 + part_length(payload) + 1 + part_length(MAC_LENGTH)
}
