ghost use Rattle.std.specs.Prelude.{◌≡◌, ◌≢◌, ◌≤◌, ◌<◌, ◌-◌, ◌^◌, ℕ, List, IfOk, None, Some, length, codes, option_and_then};
ghost use Rattle.std.specs.Fmt.{decimal};
ghost use Rattle.base64.specs.GeneralPurpose.{IsBytes};
ghost use Rattle.hmac_jws.specs.Compact.{compact};
ghost use Rattle.hmac_jws.specs.declared.fault.JwsFault.{JwsFault};
ghost use Rattle.json_text.specs.Document.{document, text_at as text_member};
ghost use Rattle.links.specs.Issued.{issued_link, is_text_of};
ghost use Rattle.links.specs.State.{chain};

use crate::State;
use crate::numbered::render;
use hmac_jws::{JwsFault, signed_text_verifies, verify};
use json_text::{DocumentFault, read_document, text_at};
use std::alloc::{AllocError, Global};

/// The number of the link whose token the text is. The token's own words say where to look.
pub fn find_issued(alloc: Global, state: &State, text: &str) -> Result<Option<u32>, AllocError>
    ensures { IfOk result (λ found. found ≡ issued_link state.now.content text.now) }
{
    state.has_a_lawful_journal();
    let Some(number) = told_number(alloc, state.key(), text)? else {
        return Ok(None);
    };
    if is_token_of(alloc, state, number, text)? {
        return Ok(Some(number));
    }
    Ok(None)
}

// The number that a token tells, which is right where it is one of ours.
fn told_number(alloc: Global, key: &[u8], text: &str) -> Result<Option<u32>, AllocError>
    requires { 32 ≤ length key.now }
    ensures { IfOk result (λ told. (payload : List ℕ) (n : ℕ) → IsBytes payload → n < 2 ^ 32 → text.now ≡ compact key.now payload
        → option_and_then (text_member (codes "jti")) (document payload) ≡ Some (decimal n) → told ≡ Some n) }
{
    signed_text_verifies();
    match verify(alloc, key, text) {
        Ok(verified) => number_in(alloc, verified.payload.as_slice()),
        Err(fault) => none_after(fault),
    }
}

fn none_after(fault: JwsFault) -> Result<Option<u32>, AllocError>
    ensures none { IfOk result (λ told. told ≡ None) }
    ensures memory { IfOk result (λ told. fault ≢ JwsFault.Memory) }
{
    match fault {
        JwsFault::Memory => Err(AllocError),
        _ => Ok(None),
    }
}

// The number that a payload's `jti` is.
fn number_in(alloc: Global, payload: &[u8]) -> Result<Option<u32>, AllocError>
    ensures { IfOk result (λ told. (n : ℕ) → n < 2 ^ 32
        → option_and_then (text_member (codes "jti")) (document payload.now) ≡ Some (decimal n) → told ≡ Some n) }
{
    match read_document(alloc, payload) {
        Ok(json) => match text_at(&json, "jti") {
            Some(text) => Ok(number_of(text)),
            None => Ok(None),
        },
        Err(DocumentFault::NoJson) => Ok(None),
        Err(DocumentFault::Memory) => Err(AllocError),
    }
}

fn number_of(text: &str) -> Option<u32>
    ensures { (n : ℕ) → n < 2 ^ 32 → text.now ≡ decimal n → result ≡ Some n }
{
    text.parse::<u32>().ok()
}

// Whether the text is the token of the link of that number.
fn is_token_of(alloc: Global, state: &State, number: u32, text: &str) -> Result<bool, AllocError>
    ensures { IfOk result (λ same. same ≡ is_text_of state.now.content text.now (chain state.now.content number)) }
{
    if number >= state.link_count() {
        return Ok(false);
    }
    let token = render(alloc, state, number)?;
    Ok(token.as_str() == text)
}
