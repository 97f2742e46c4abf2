ghost use Rattle.std.specs.Prelude.{◌≡◌, ◌<◌, ◌∷◌, ◌++◌, [], length, true, Some, IfOk, option_map};
ghost use Rattle.access_token.specs.Forms.{are_words};
ghost use Rattle.access_token.specs.Payload.{payload_text};
ghost use Rattle.links.specs.Chain.{own};
ghost use Rattle.links.specs.Facts.{exp_of as expiry, facts_of as facts_in, numbers_of};
ghost use Rattle.links.specs.State.{chain, token_text};

use crate::{RecordedKind, State};
use access_token::{Facts, last_words, write_payload};
use base_types::Text;
use hmac_jws::sign;
use iam_names::ScopeWord;
use std::alloc::{AllocError, Global};

/// What the token of a link says.
pub fn facts_of(state: &State, number: u32) -> &Facts
    requires { number < length state.now.content.links }
    ensures { option_map facts_in (chain state.now.content number) ≡ Some result.now }
{
    &state.recorded(number).facts
}

/// The moment from which on the link isn't live.
pub fn exp_of(state: &State, number: u32) -> u64
    requires { number < length state.now.content.links }
    ensures { option_map expiry (chain state.now.content number) ≡ Some result }
{
    facts_of(state, number).exp
}

/// The link's own scope words.
pub fn words_of(state: &State, number: u32) -> &[ScopeWord]
    requires { number < length state.now.content.links }
    ensures words { option_map (λ found. (own found).words) (chain state.now.content number) ≡ Some result.now }
    ensures formed { are_words result.now ≡ true }
{
    state.has_a_lawful_journal();
    last_words(facts_of(state, number).scopes.as_slice())
}

/// The numbers of the links that the link goes back to through parents and subjects, from the first to its own.
pub fn chain_of(alloc: Global, state: &State, number: u32) -> Result<Vec<u32>, AllocError>
    requires { number < length state.now.content.links }
    ensures { IfOk result (λ numbers. option_map numbers_of (chain state.now.content number) ≡ Some numbers.items) }
{
    state.has_a_lawful_journal();
    match state.recorded(number).kind {
        RecordedKind::Federated { .. } => with_last(Vec::new(alloc), number),
        RecordedKind::Narrow { parent, .. } | RecordedKind::Impersonate { parent, .. } => {
            with_last(chain_of(alloc, state, parent)?, number)
        }
        RecordedKind::Delegate { subject, .. } => {
            with_last(chain_of(alloc, state, subject)?, number)
        }
    }
}

fn with_last(mut numbers: Vec<u32>, number: u32) -> Result<Vec<u32>, AllocError>
    ensures { IfOk result (λ more. more.items ≡ numbers.items ++ number ∷ []) }
{
    numbers.push(number)?;
    Ok(numbers)
}

/// The payload of the link's token.
pub fn payload_of(alloc: Global, state: &State, number: u32) -> Result<Text, AllocError>
    requires { number < length state.now.content.links }
    ensures { IfOk result (λ payload. option_map (λ found. payload_text state.now.content.issuer (facts_in found))
        (chain state.now.content number) ≡ Some payload) }
{
    write_payload(alloc, state.issuer(), facts_of(state, number))
}

/// The text of the link's token.
pub fn render(alloc: Global, state: &State, number: u32) -> Result<Text, AllocError>
    requires { number < length state.now.content.links }
    ensures { IfOk result (λ token. option_map (token_text state.now.content) (chain state.now.content number) ≡ Some token) }
{
    let payload = payload_of(alloc, state, number)?;
    Ok(Text::new(sign(alloc, state.key(), payload.as_str().as_bytes())?))
}
