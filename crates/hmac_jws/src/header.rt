ghost use Rattle.std.specs.Prelude.{◌≡◌, ◌⊎◌, Some, None, IfErr, IsTrue, OnOk, codes};
ghost use Rattle.serde_json.specs.View.{view};
ghost use Rattle.json_text.specs.Document.{document, text_at as text_member};
ghost use Rattle.hmac_jws.specs.Verified.{first_header_fault, is_text};

use crate::compact::HEADER;
use crate::fault::JwsFault;
use json_text::{DocumentFault, read_document, text_at};
use serde_json::Value;
use std::alloc::Global;

fn is_hs256(header: &Value) -> bool
    ensures { result ≡ is_text (codes "HS256") (text_member (codes "alg") (view header.now)) }
{
    match text_at(header, "alg") {
        None => false,
        Some(name) => name == "HS256",
    }
}

fn fault_of_header(header: &Value) -> Option<JwsFault>
    ensures { result ≡ first_header_fault (Some (view header.now)) }
{
    if !header.is_object() {
        return Some(JwsFault::Header);
    }
    if !is_hs256(header) {
        return Some(JwsFault::Alg);
    }
    if header.get("crit").is_some() {
        return Some(JwsFault::Crit);
    }
    None
}

// Whether bytes are the header that `sign` writes.
fn is_written(bytes: &[u8]) -> bool
    ensures { IsTrue result → first_header_fault (document bytes.now) ≡ None }
{
    bytes == HEADER.as_bytes()
}

/// Whether bytes are a header that this crate verifies under. That of most tokens is the one that `sign` writes, which needn't be read.
pub(crate) fn check_header(alloc: Global, bytes: &[u8]) -> Result<(), JwsFault>
    ensures good { OnOk result (first_header_fault (document bytes.now) ≡ None) }
    ensures faulty { IfErr result (λ fault. (fault ≡ JwsFault.Memory)
        ⊎ (first_header_fault (document bytes.now) ≡ Some fault)) }
{
    if is_written(bytes) {
        return Ok(());
    }
    read_header(alloc, bytes)
}

fn read_header(alloc: Global, bytes: &[u8]) -> Result<(), JwsFault>
    ensures good { OnOk result (first_header_fault (document bytes.now) ≡ None) }
    ensures faulty { IfErr result (λ fault. (fault ≡ JwsFault.Memory)
        ⊎ (first_header_fault (document bytes.now) ≡ Some fault)) }
{
    match read_document(alloc, bytes) {
        Err(DocumentFault::NoJson) => Err(JwsFault::Header),
        Err(DocumentFault::Memory) => Err(JwsFault::Memory),
        Ok(header) => match fault_of_header(&header) {
            Some(fault) => Err(fault),
            None => Ok(()),
        },
    }
}
