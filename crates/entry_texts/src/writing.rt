ghost use Rattle.std.specs.Prelude.{◌≡◌, IfOk, OnOk, codes};
ghost use Rattle.serde_json.specs.Data.{string, object, no_members, put};
ghost use Rattle.serde_json.specs.View.{view, members_view};
ghost use Rattle.access_token.specs.Payload.{texts, words_text as joined};
ghost use Rattle.entry_texts.specs.Written as written;

use crate::provider::provider_text;
use access_token::words_text;
use base_types::Text;
use boundary::boundary_value;
use command_texts::command_value;
use iam_names::{Account, ScopeWord};
use json_text::put_text;
use links::{Delegation, Entry, Exchange, Impersonation, Narrowing};
use serde_json::{Map, Value};
use std::alloc::{AllocError, Global};

fn put_words(
    alloc: Global,
    members: &mut Map<String, Value>,
    words: &[ScopeWord],
) -> Result<(), AllocError>
    ensures { OnOk result (members_view members.new.entries
        ≡ put (codes "scope") (string (joined words.now)) (members_view members.old.entries)) }
{
    let text = words_text(alloc, words)?;
    put_text(alloc, members, "scope", text.as_str())
}

fn accounts_value(alloc: Global, accounts: &[Account]) -> Result<Value, AllocError>
    ensures { IfOk result (λ value. view value ≡ texts accounts.now) }
{
    let mut list = Vec::new(alloc);
    for account in accounts {
        serde_json::push(&mut list, Value::try_from_str(alloc, account.as_str())?)?;
    }
    Ok(Value::Array(list))
}

#[tactic(auto, unfolding(crate::specs::Written::exchange_data))]
fn exchange_value(alloc: Global, exchange: &Exchange) -> Result<Value, AllocError>
    ensures { IfOk result (λ value. view value ≡ written.exchange_data exchange.now) }
{
    let mut members = Map::new(alloc);
    serde_json::put(&mut members, alloc, "at", Value::from(exchange.at))?;
    put_text(alloc, &mut members, "kind", "federated")?;
    let provider = provider_text(alloc, &exchange.provider)?;
    put_text(alloc, &mut members, "provider", provider.as_str())?;
    put_words(alloc, &mut members, exchange.scope.as_slice())?;
    put_text(alloc, &mut members, "token", exchange.token.as_str())?;
    Ok(Value::Object(members))
}

#[tactic(auto, unfolding(crate::specs::Written::narrowing_data))]
fn put_narrowing(
    alloc: Global,
    members: &mut Map<String, Value>,
    narrowing: &Narrowing,
) -> Result<(), AllocError>
    requires { members_view members.old.entries ≡ no_members }
    ensures { OnOk result (object (members_view members.new.entries) ≡ written.narrowing_data narrowing.now) }
{
    serde_json::put(members, alloc, "at", Value::from(narrowing.at))?;
    if let Some(boundary) = &narrowing.boundary {
        let rules = boundary_value(alloc, boundary)?;
        serde_json::put(members, alloc, "boundary", rules)?;
    }
    put_text(alloc, members, "kind", "narrow")?;
    let parent = u64::from(narrowing.parent);
    serde_json::put(members, alloc, "parent", Value::from(parent))?;
    put_words(alloc, members, narrowing.scope.as_slice())
}

fn narrowing_value(alloc: Global, narrowing: &Narrowing) -> Result<Value, AllocError>
    ensures { IfOk result (λ value. view value ≡ written.narrowing_data narrowing.now) }
{
    let mut members = Map::new(alloc);
    put_narrowing(alloc, &mut members, narrowing)?;
    Ok(Value::Object(members))
}

#[tactic(auto, unfolding(crate::specs::Written::impersonation_data))]
fn impersonation_value(alloc: Global, x: &Impersonation) -> Result<Value, AllocError>
    ensures { IfOk result (λ value. view value ≡ written.impersonation_data x.now) }
{
    let mut members = Map::new(alloc);
    let accounts = accounts_value(alloc, x.accounts.as_slice())?;
    serde_json::put(&mut members, alloc, "accounts", accounts)?;
    serde_json::put(&mut members, alloc, "at", Value::from(x.at))?;
    put_text(alloc, &mut members, "kind", "impersonate")?;
    serde_json::put(&mut members, alloc, "lifetime", Value::from(x.lifetime))?;
    let parent = u64::from(x.parent);
    serde_json::put(&mut members, alloc, "parent", Value::from(parent))?;
    put_words(alloc, &mut members, x.scope.as_slice())?;
    Ok(Value::Object(members))
}

#[tactic(auto, unfolding(crate::specs::Written::delegation_data))]
fn delegation_value(alloc: Global, x: &Delegation) -> Result<Value, AllocError>
    ensures { IfOk result (λ value. view value ≡ written.delegation_data x.now) }
{
    let mut members = Map::new(alloc);
    let actor = u64::from(x.actor);
    serde_json::put(&mut members, alloc, "actor", Value::from(actor))?;
    serde_json::put(&mut members, alloc, "at", Value::from(x.at))?;
    put_text(alloc, &mut members, "kind", "delegate")?;
    put_words(alloc, &mut members, x.scope.as_slice())?;
    let subject = u64::from(x.subject);
    serde_json::put(&mut members, alloc, "subject", Value::from(subject))?;
    Ok(Value::Object(members))
}

fn entry_value(alloc: Global, entry: &Entry) -> Result<Value, AllocError>
    ensures { IfOk result (λ value. view value ≡ written.entry_data entry.now) }
{
    match entry {
        Entry::Put(command) => command_value(alloc, command),
        Entry::Federated(exchange) => exchange_value(alloc, exchange),
        Entry::Narrow(narrowing) => narrowing_value(alloc, narrowing),
        Entry::Impersonate(impersonation) => impersonation_value(alloc, impersonation),
        Entry::Delegate(delegation) => delegation_value(alloc, delegation),
    }
}

/// The entry as a compact JSON text, its members in byte order.
pub fn entry_text(alloc: Global, entry: &Entry) -> Result<Text, AllocError>
    ensures { IfOk result (λ text. text ≡ written.entry_text entry.now) }
{
    let value = entry_value(alloc, entry)?;
    Ok(Text::new(value.to_string(alloc)?))
}
