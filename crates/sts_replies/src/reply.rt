ghost use Rattle.std.specs.Prelude.{◌≡◌, ◌≤◌, ◌-◌, pos, IfOk, IfSome, OnOk};
ghost use Rattle.cel_builtins.specs.Timestamps.{moment_text};
ghost use Rattle.serde_json.specs.Data.{object, no_members};
ghost use Rattle.serde_json.specs.View.{members_view};
ghost use Rattle.serde_json.specs.Written.{compact_text};
ghost use Rattle.sts_replies.specs.Replies as replies;

use access_token::{last_words, words_text};
use base_types::{Bytes, Text};
use cel_builtins::time_text;
use exchange_form::ACCESS_TOKEN_TYPE;
use grant_gate::{Decision, GateRule};
use iam_names::ScopeWord;
use json_text::put_text;
use links::Prepared;
use serde_json::{Map, Value};
use std::alloc::{AllocError, Global};
use wif_base::Reply;

fn reply_of(alloc: Global, status: u16, body: &[u8]) -> Result<Reply, AllocError>
    ensures { IfOk result (λ reply. reply ≡ record { status = status; body = body.now }) }
{
    Ok(Reply {
        status,
        body: Bytes::copy_of(alloc, body)?,
    })
}

/// The reply to a path without a route.
pub fn not_found(alloc: Global) -> Result<Reply, AllocError>
    ensures { IfOk result (λ reply. reply ≡ replies.not_found) }
{
    reply_of(
        alloc,
        404,
        b"{\"error\":\"not_found\",\"error_description\":\"H4\"}",
    )
}

/// The bearer isn't the secret.
pub fn no_bearer(alloc: Global) -> Result<Reply, AllocError>
    ensures { IfOk result (λ reply. reply ≡ replies.u1) }
{
    reply_of(
        alloc,
        401,
        b"{\"error\":\"invalid_token\",\"error_description\":\"U1\"}",
    )
}

/// A name or a value of the form isn't UTF-8.
pub fn no_text(alloc: Global) -> Result<Reply, AllocError>
    ensures { IfOk result (λ reply. reply ≡ replies.n1) }
{
    reply_of(
        alloc,
        400,
        b"{\"error\":\"invalid_request\",\"error_description\":\"N1\"}",
    )
}

/// The token isn't there exactly once with a value.
pub fn no_token(alloc: Global) -> Result<Reply, AllocError>
    ensures { IfOk result (λ reply. reply ≡ replies.n2) }
{
    reply_of(
        alloc,
        400,
        b"{\"error\":\"invalid_request\",\"error_description\":\"N2\"}",
    )
}

/// The reply where the journal has no room for the entry.
pub fn journal_full(alloc: Global, text: &str) -> Result<Reply, AllocError>
    ensures { IfOk result (λ reply. reply ≡ replies.journal_full text.now) }
{
    refused(alloc, 503, "journal_full", text)
}

/// A refusal of what a body says.
pub fn bad_argument(alloc: Global, text: &str) -> Result<Reply, AllocError>
    ensures { IfOk result (λ reply. reply ≡ replies.bad_argument text.now) }
{
    refused(alloc, 400, "invalid_argument", text)
}

/// A token that isn't active (RFC 7662, section 2.2).
pub fn inactive(alloc: Global) -> Result<Reply, AllocError>
    ensures { IfOk result (λ reply. reply ≡ replies.inactive) }
{
    reply_of(alloc, 200, b"{\"active\":false}")
}

/// A refusal with its word and its text.
pub(crate) fn refused(
    alloc: Global,
    status: u16,
    word: &str,
    text: &str,
) -> Result<Reply, AllocError>
    ensures { IfOk result (λ reply. reply ≡ replies.refusal status word.now text.now) }
{
    let mut body = String::new(alloc);
    body.push_str("{\"error\":\"")?;
    body.push_str(word)?;
    body.push_str("\",\"error_description\":\"")?;
    body.push_str(text)?;
    body.push_str("\"}")?;
    Ok(Reply {
        status,
        body: Bytes::new(body.into_bytes()),
    })
}

/// A reply that is a JSON text.
pub fn json_reply(text: Text) -> Result<Reply, AllocError>
    ensures { IfOk result (λ reply. reply ≡ record { status = 200; body = text }) }
{
    Ok(Reply {
        status: 200,
        body: Bytes::new(text.into_string().into_bytes()),
    })
}

/// The reply to an exchange whose entry was prepared (RFC 8693, section 2.2.1).
#[tactic(auto, unfolding(crate::specs::Replies::issued))]
pub fn issued(alloc: Global, prepared: &Prepared) -> Result<Reply, AllocError>
    ensures { IfOk result (λ reply. reply ≡ replies.issued prepared.now) }
{
    let token = prepared.token().unwrap_or("");
    match prepared.recorded() {
        Some(link) => {
            let facts = &link.facts;
            let words = last_words(facts.scopes.as_slice());
            token_reply(alloc, token, facts.exp.saturating_sub(facts.iat), words)
        }
        None => token_reply(alloc, token, 0, &[]),
    }
}

fn token_reply(
    alloc: Global,
    token: &str,
    seconds: u64,
    words: &[ScopeWord],
) -> Result<Reply, AllocError>
    ensures { IfOk result (λ reply. reply ≡ replies.token_reply token.now seconds words.now) }
{
    let scope = words_text(alloc, words)?;
    json_reply(issued_text(alloc, token, seconds, scope.as_str())?)
}

/// The reply to a command that is recorded: its entry's number, from 0.
pub fn entered(alloc: Global, number: u32) -> Result<Reply, AllocError>
    ensures { IfOk result (λ reply. reply ≡ replies.entered number) }
{
    json_reply(Text::new(format!(in alloc; "{{\"entry\":{number}}}")?))
}

fn issued_text(alloc: Global, token: &str, seconds: u64, scope: &str) -> Result<Text, AllocError>
    ensures { IfOk result (λ text. text ≡ compact_text (replies.issued_data token.now seconds scope.now)) }
{
    let mut members = Map::new(alloc);
    put_issued(alloc, &mut members, token, seconds, scope)?;
    Ok(Text::new(Value::Object(members).to_string(alloc)?))
}

#[tactic(auto, unfolding(crate::specs::Replies::issued_data))]
fn put_issued(
    alloc: Global,
    members: &mut Map<String, Value>,
    token: &str,
    seconds: u64,
    scope: &str,
) -> Result<(), AllocError>
    requires { members_view members.old.entries ≡ no_members }
    ensures { OnOk result (object (members_view members.new.entries) ≡ replies.issued_data token.now seconds scope.now) }
{
    put_text(alloc, members, "access_token", token)?;
    serde_json::put(members, alloc, "expires_in", Value::from(seconds))?;
    put_text(alloc, members, "issued_token_type", ACCESS_TOKEN_TYPE)?;
    put_text(alloc, members, "scope", scope)?;
    put_text(alloc, members, "token_type", "Bearer")
}

/// The reply to an impersonation whose entry was prepared.
#[tactic(auto, unfolding(crate::specs::Replies::generated))]
pub fn generated(alloc: Global, prepared: &Prepared) -> Result<Reply, AllocError>
    requires { IfSome prepared.now.recorded (λ link. link.facts.exp ≤ 200_000_003_600) }
    ensures { IfOk result (λ reply. reply ≡ replies.generated prepared.now) }
{
    let token = prepared.token().unwrap_or("");
    match prepared.recorded() {
        Some(link) => account_reply(alloc, token, link.facts.exp),
        None => account_reply(alloc, token, 0),
    }
}

fn account_reply(alloc: Global, token: &str, end: u64) -> Result<Reply, AllocError>
    requires { end ≤ 200_000_003_600 }
    ensures { IfOk result (λ reply. reply ≡ record { status = 200; body = compact_text (replies.generated_data token.now (moment_text (pos end))) }) }
{
    let time = Text::new(time_text(alloc, end as i64)?);
    json_reply(generated_text(alloc, token, time.as_str())?)
}

fn generated_text(alloc: Global, token: &str, time: &str) -> Result<Text, AllocError>
    ensures { IfOk result (λ text. text ≡ compact_text (replies.generated_data token.now time.now)) }
{
    let mut members = Map::new(alloc);
    put_generated(alloc, &mut members, token, time)?;
    Ok(Text::new(Value::Object(members).to_string(alloc)?))
}

#[tactic(auto, unfolding(crate::specs::Replies::generated_data))]
fn put_generated(
    alloc: Global,
    members: &mut Map<String, Value>,
    token: &str,
    time: &str,
) -> Result<(), AllocError>
    requires { members_view members.old.entries ≡ no_members }
    ensures { OnOk result (object (members_view members.new.entries) ≡ replies.generated_data token.now time.now) }
{
    put_text(alloc, members, "accessToken", token)?;
    put_text(alloc, members, "expireTime", time)
}

/// The reply to a check.
pub fn decided(alloc: Global, decision: Decision) -> Result<Reply, AllocError>
    ensures { IfOk result (λ reply. reply ≡ replies.decision_reply decision) }
{
    match decision {
        Decision::Admit => reply_of(alloc, 200, b"{\"allowed\":true}"),
        Decision::Deny { rule, place } => { json_reply(denial_text(alloc, rule, place)?) }
    }
}

fn denial_text(alloc: Global, rule: GateRule, place: usize) -> Result<Text, AllocError>
    ensures { IfOk result (λ text. text ≡ replies.denial_text rule place) }
{
    let member = place_member(alloc, rule, place)?;
    let member = member.as_str();
    let code = code_of(rule);
    Ok(Text::new(format!(in alloc; "{{\"allowed\":false,{member}\"reason\":\"{code}\"}}")?))
}

fn place_member(alloc: Global, rule: GateRule, place: usize) -> Result<Text, AllocError>
    ensures { IfOk result (λ text. text ≡ replies.place_member rule place) }
{
    match rule {
        GateRule::G5 | GateRule::G6 | GateRule::G7 | GateRule::G8 => {
            Ok(Text::new(format!(in alloc; "\"place\":{place},")?))
        }
        GateRule::G1 | GateRule::G2 | GateRule::G3 | GateRule::G4 | GateRule::G9 => {
            Ok(Text::new(String::new(alloc)))
        }
    }
}

fn code_of(rule: GateRule) -> &'static str
    ensures { result.now ≡ replies.rule_code rule }
{
    match rule {
        GateRule::G1 => "G1",
        GateRule::G2 => "G2",
        GateRule::G3 => "G3",
        GateRule::G4 => "G4",
        GateRule::G5 => "G5",
        GateRule::G6 => "G6",
        GateRule::G7 => "G7",
        GateRule::G8 => "G8",
        GateRule::G9 => "G9",
    }
}
