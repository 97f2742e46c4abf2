ghost use Rattle.std.specs.Prelude.{◌≡◌, ◌≢◌, ◌⊎◌, ◌≤◌, length, Some, None, Err, IfOk, IfErr};
ghost use Rattle.hmac_jws.specs.Compact.{base64url_bytes};
ghost use Rattle.hmac_jws.specs.declared.fault.JwsFault.{JwsFault};
ghost use Rattle.hmac_jws.specs.Verified.{MacGood, first_jws_fault, payload_of};

use crate::fault::JwsFault;
use crate::header::check_header;
use crate::mac::{hmac, is_same_mac};
use crate::parts::{parts_of, signed_input};
use base_types::Bytes;
use base64::DecodeAllocError;
use base64::engine::general_purpose::URL_SAFE_NO_PAD;
use std::alloc::Global;

/// What a text says whose MAC was verified.
#[derive(Debug, Drop)]
pub struct Verified {
    pub payload: Bytes,
}

#[tactic(auto, unfolding(crate::specs::Compact::base64url_bytes))]
fn decode_part(alloc: Global, text: &str, part: u8) -> Result<Vec<u8>, JwsFault>
    ensures decoded { IfOk result (λ bytes. base64url_bytes text.now ≡ Some bytes.items) }
    ensures refused { IfErr result (λ fault. (fault ≡ JwsFault.Memory)
        ⊎ ((fault ≡ JwsFault.Base64 part) × (base64url_bytes text.now ≡ None))) }
{
    match URL_SAFE_NO_PAD.decode(alloc, text.as_bytes()) {
        Ok(bytes) => Ok(bytes),
        Err(DecodeAllocError::DecodeError(_)) => Err(JwsFault::Base64 { part }),
        Err(DecodeAllocError::OutOfMemory) => Err(JwsFault::Memory),
    }
}

fn verify_parts(alloc: Global, key: &[u8], text: &str) -> Result<Verified, JwsFault>
    ensures verified { IfOk result (λ v. MacGood key.now text.now × (v.payload ≡ payload_of text.now)) }
    ensures refused { IfErr result (λ fault. (fault ≡ JwsFault.Memory)
        ⊎ (first_jws_fault key.now text.now ≡ Some fault)) }
{
    let Some(parts) = parts_of(text) else {
        return Err(JwsFault::Parts);
    };
    let header = decode_part(alloc, parts.header, 0)?;
    let payload = decode_part(alloc, parts.payload, 1)?;
    let mac = decode_part(alloc, parts.mac, 2)?;
    check_header(alloc, header.as_slice())?;
    if !is_same_mac(mac.as_slice(), &hmac(key, signed_input(text, &parts))) {
        return Err(JwsFault::Mac);
    }
    Ok(Verified {
        payload: Bytes::new(payload),
    })
}

/// The payload of a text whose MAC under a key of at least 32 bytes is right (RFC 7515, section 5.2).
/// It decodes each part, hashes the text and reads the header once.
pub fn verify(alloc: Global, key: &[u8], text: &str) -> Result<Verified, JwsFault>
    requires { 32 ≤ length key.now }
    ensures verified { IfOk result (λ v. MacGood key.now text.now × (v.payload ≡ payload_of text.now)) }
    ensures refused { IfErr result (λ fault. fault ≢ JwsFault.Memory
        → first_jws_fault key.now text.now ≡ Some fault) }

    // A text that fails no rule is verified, and one that fails a rule is refused by it.
    ensures good { MacGood key.now text.now → IfErr result (λ fault. fault ≡ JwsFault.Memory) }
    ensures faulty { (fault : JwsFault) → first_jws_fault key.now text.now ≡ Some fault
        → (result ≡ Err fault) ⊎ (result ≡ Err JwsFault.Memory) }
{
    verify_parts(alloc, key, text)
}
