ghost use Rattle.std.specs.Prelude.{◌≡◌, ◌≤◌, IfOk, codes, is_some, option_and_then, option_map};
ghost use Rattle.json_text.specs.Document.{document};
ghost use Rattle.json_text.specs.Members.{name_at};
ghost use Rattle.serde_json.specs.View.{view};
ghost use Rattle.client_proto.specs.Replies as replies;

use crate::expire_time::read_expire_time;
use crate::head::find_reply;
use base_types::{Text, has_size, is_visible_text};
use client_link::Target;
use json_text::{DocumentFault, read_document, text_at, whole_number_at};
use serde_json::Value;
use std::alloc::{AllocError, Global};
use wif_base::LAST_MOMENT;

/// What a reply says.
#[derive(Debug, Drop)]
pub enum ReadReply {
    /// A token of 1 to 8,192 visible ASCII, and its end in seconds since 1970-01-01T00:00:00Z.
    Token { token: Text, exp: u64 },
    /// The service refused, with a status from 400 to 599.
    Refused { status: u16 },
    Bad,
}

const MOST_SECONDS: u64 = 1_000_000;

/// What a reply says. It has
///
/// - a head of HTTP/1.1 or HTTP/1.0 of at most 64 fields, one of which is a Content-Length, a decimal,
/// - a body of that length behind it; further bytes don't count,
/// - a status from 400 to 599, which is a refusal,
/// - or the status 200 and a JSON object. Of the token service it has an `access_token`, a `token_type` `Bearer`, compared without case,
///   and `expires_in`, a whole number up to 1,000,000; the token ends so many seconds after the moment at which it was asked. Of the
///   account service it has an `accessToken` and an `expireTime`, `YYYY-MM-DDTHH:MM:SSZ` from 1970 on, perhaps with a fraction of 1 to 9
///   digits behind the second, which is dropped.
///
/// Any other is `Bad`.
pub fn read_reply(
    alloc: Global,
    target: Target,
    asked: u64,
    bytes: &[u8],
) -> Result<ReadReply, AllocError>
    requires { asked ≤ LAST_MOMENT }
    ensures { IfOk result (replies.IsReading target asked bytes.now) }
{
    match find_reply(alloc, bytes)? {
        Some((status, body)) => reading_of(alloc, target, asked, status, body),
        None => Ok(ReadReply::Bad),
    }
}

#[tactic(auto, unfolding(crate::specs::Replies::reading_of))]
fn reading_of(
    alloc: Global,
    target: Target,
    asked: u64,
    status: u16,
    body: &[u8],
) -> Result<ReadReply, AllocError>
    requires { asked ≤ LAST_MOMENT }
    ensures { IfOk result (λ said. said ≡ replies.reading_of target asked status body.now) }
{
    if status == 200 {
        return token_in(alloc, target, asked, body);
    }
    if 400 <= status && status <= 599 {
        Ok(ReadReply::Refused { status })
    } else {
        Ok(ReadReply::Bad)
    }
}

fn token_in(alloc: Global, target: Target, asked: u64, body: &[u8]) -> Result<ReadReply, AllocError>
    requires { asked ≤ LAST_MOMENT }
    ensures { IfOk result (λ said. said ≡ replies.told_token (option_and_then (replies.token_of target asked) (document body.now))) }
{
    match read_document(alloc, body) {
        Ok(json) => token_of(alloc, target, asked, &json),
        Err(DocumentFault::NoJson) => Ok(ReadReply::Bad),
        Err(DocumentFault::Memory) => Err(AllocError),
    }
}

fn token_of(
    alloc: Global,
    target: Target,
    asked: u64,
    json: &Value,
) -> Result<ReadReply, AllocError>
    requires { asked ≤ LAST_MOMENT }
    ensures { IfOk result (λ said. said ≡ replies.told_token (replies.token_of target asked (view json.now))) }
{
    let told = match target {
        Target::Credential => None,
        Target::Token => access_token(json, asked),
        Target::Account => account_token(json),
    };
    match told {
        Some((token, exp)) => Ok(ReadReply::Token {
            token: Text::copy_of(alloc, token)?,
            exp,
        }),
        None => Ok(ReadReply::Bad),
    }
}

fn token_at<'a>(json: &'a Value, name: &str) -> Option<&'a str>
    ensures { option_map (λ token. token.now) result ≡ name_at replies.is_token name.now (view json.now) }
{
    let token = text_at(json, name)?;
    if is_token(token) { Some(token) } else { None }
}

fn is_token(text: &str) -> bool
    ensures { result ≡ replies.is_token text.now }
{
    has_size(text, 1, 8192) && is_visible_text(text)
}

fn has_bearer_type(json: &Value) -> bool
    ensures { result ≡ is_some (name_at replies.is_bearer (codes "token_type") (view json.now)) }
{
    match text_at(json, "token_type") {
        Some(name) => name.eq_ignore_ascii_case("bearer"),
        None => false,
    }
}

fn end_after(json: &Value, asked: u64) -> Option<u64>
    requires { asked ≤ LAST_MOMENT }
    ensures { result ≡ replies.end_after asked (view json.now) }
{
    let seconds = whole_number_at(json, "expires_in")?;
    if seconds <= MOST_SECONDS {
        Some(asked + seconds)
    } else {
        None
    }
}

fn access_token(json: &Value, asked: u64) -> Option<(&str, u64)>
    requires { asked ≤ LAST_MOMENT }
    ensures { option_map (λ told. (told.0.now, told.1)) result ≡ replies.access_token asked (view json.now) }
{
    let token = token_at(json, "access_token")?;
    if !has_bearer_type(json) {
        return None;
    }
    let exp = end_after(json, asked)?;
    Some((token, exp))
}

fn account_token(json: &Value) -> Option<(&str, u64)>
    ensures { option_map (λ told. (told.0.now, told.1)) result ≡ replies.account_token (view json.now) }
{
    let token = token_at(json, "accessToken")?;
    let time = text_at(json, "expireTime")?;
    let exp = read_expire_time(time.as_bytes())?;
    Some((token, exp))
}
