ghost use Rattle.std.specs.Prelude.{◌≡◌, ◌<◌, IfOk, length};
ghost use Rattle.links.specs.State.{chain};
ghost use Rattle.sts_core.specs.Check.{issued_chain};
ghost use Rattle.sts_core.specs.Machine.{introspection_reply, is_bearer as bearer_is, told};

use access_token::write_active;
use base_types::Text;
use exchange_form::{is_all_text, once, read_form};
use links::{State, facts_of, find_issued, live};
use std::alloc::{AllocError, Global};
use sts_replies::{inactive, json_reply, no_bearer, no_text, no_token};
use wif_base::{Reply, Request};

/// Answers an introspection (RFC 7662).
#[tactic(auto, unfolding(crate::specs::Machine::introspection_reply))]
pub(crate) fn introspect(
    alloc: Global,
    gate: &Text,
    state: &State,
    request: &Request,
    now: u64,
) -> Result<Reply, AllocError>
    ensures { IfOk result (λ reply. reply ≡ introspection_reply gate.now state.now.content request.now now) }
{
    if !is_bearer(gate, &request.bearer) {
        return no_bearer(alloc);
    }
    let form = read_form(alloc, request.body.as_slice())?;
    if !is_all_text(form.as_slice()) {
        return no_text(alloc);
    }
    match once(form.as_slice(), "token") {
        Some(token) => tell(alloc, state, token, now),
        None => no_token(alloc),
    }
}

/// Whether the bearer is the secret.
pub(crate) fn is_bearer(secret: &Text, bearer: &Option<Text>) -> bool
    ensures { result ≡ bearer_is secret.now bearer.now }
{
    match bearer {
        Some(text) => text.as_str() == secret.as_str(),
        None => false,
    }
}

// What is told of a token.
fn tell(alloc: Global, state: &State, token: &str, now: u64) -> Result<Reply, AllocError>
    ensures { IfOk result (λ reply. reply ≡ told state.now.content now (issued_chain state.now.content token.now)) }
{
    let Some(number) = find_issued(alloc, state, token)? else {
        return inactive(alloc);
    };
    if number >= state.link_count() {
        return inactive(alloc);
    }
    tell_link(alloc, state, number, now)
}

// What is told of the token of a link.
fn tell_link(alloc: Global, state: &State, number: u32, now: u64) -> Result<Reply, AllocError>
    requires { number < length state.now.content.links }
    ensures { IfOk result (λ reply. reply ≡ told state.now.content now (chain state.now.content number)) }
{
    if !live(state, number, now) {
        return inactive(alloc);
    }
    json_reply(write_active(alloc, state.issuer(), facts_of(state, number))?)
}
