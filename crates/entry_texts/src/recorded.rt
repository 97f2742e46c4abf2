ghost use Rattle.std.specs.Prelude.{codes, option_map};
ghost use Rattle.std.specs.Result.{result_ok};
ghost use Rattle.serde_json.specs.View.{view};
ghost use Rattle.json_text.specs.Document.{text_at as text_under};
ghost use Rattle.json_text.specs.Reads.{Reads};
ghost use Rattle.links.specs.declared.entry.Entry.TheVariants.{Put};
ghost use Rattle.sts_admin.specs.Commands.{command_of as command_under};
ghost use Rattle.entry_texts.specs.Parts as parts;

use crate::parts::{accounts_at, boundary_at, lifetime_at, link_number_at, moment_at, words_at};
use crate::provider::provider_at;
use base_types::{Text, both};
use json_text::{ReadFault, text_at};
use links::{Delegation, Entry, Exchange, Impersonation, Narrowing};
use serde_json::Value;
use std::alloc::Global;
use sts_admin::{CommandFault, read_command};

fn token_at(alloc: Global, json: &Value) -> Result<Text, ReadFault>
    ensures { Reads result (text_under (codes "token") (view json.now)) }
{
    match text_at(json, "token") {
        Some(token) => Ok(Text::copy_of(alloc, token)?),
        None => Err(ReadFault::Form),
    }
}

#[tactic(auto, unfolding(crate::specs::Parts::exchange_in))]
fn exchange_of(alloc: Global, json: &Value) -> Result<Exchange, ReadFault>
    ensures { Reads result (parts.exchange_in (view json.now)) }
{
    let at = moment_at(json)?;
    let shown = both(provider_at(alloc, json), token_at(alloc, json));
    let ((provider, token), scope) = both(shown, words_at(alloc, json))?;
    Ok(Exchange {
        provider,
        token,
        scope,
        at,
    })
}

#[tactic(auto, unfolding(crate::specs::Parts::narrowing_in))]
fn narrowing_of(alloc: Global, json: &Value) -> Result<Narrowing, ReadFault>
    ensures { Reads result (parts.narrowing_in (view json.now)) }
{
    let at = moment_at(json)?;
    let parent = link_number_at(json, "parent")?;
    let (boundary, scope) = both(boundary_at(alloc, json), words_at(alloc, json))?;
    Ok(Narrowing {
        parent,
        boundary,
        scope,
        at,
    })
}

#[tactic(auto, unfolding(crate::specs::Parts::impersonation_in))]
fn impersonation_of(alloc: Global, json: &Value) -> Result<Impersonation, ReadFault>
    ensures { Reads result (parts.impersonation_in (view json.now)) }
{
    let at = moment_at(json)?;
    let lifetime = lifetime_at(json)?;
    let parent = link_number_at(json, "parent")?;
    let (accounts, scope) = both(accounts_at(alloc, json), words_at(alloc, json))?;
    Ok(Impersonation {
        parent,
        accounts,
        scope,
        lifetime,
        at,
    })
}

#[tactic(auto, unfolding(crate::specs::Parts::delegation_in))]
fn delegation_of(alloc: Global, json: &Value) -> Result<Delegation, ReadFault>
    ensures { Reads result (parts.delegation_in (view json.now)) }
{
    let at = moment_at(json)?;
    let subject = link_number_at(json, "subject")?;
    let actor = link_number_at(json, "actor")?;
    let scope = words_at(alloc, json)?;
    Ok(Delegation {
        subject,
        actor,
        scope,
        at,
    })
}

fn command_of(alloc: Global, json: &Value) -> Result<Entry, ReadFault>
    ensures { Reads result (option_map Put (result_ok (command_under (view json.now)))) }
{
    match read_command(alloc, json) {
        Ok(command) => Ok(Entry::Put(command)),
        Err(CommandFault::Kind | CommandFault::Field(_) | CommandFault::Expression(_)) => {
            Err(ReadFault::Form)
        }
        Err(CommandFault::Memory) => Err(ReadFault::Memory),
    }
}

#[tactic(auto, unfolding(crate::specs::Parts::entry_of_kind))]
fn entry_of_kind(alloc: Global, kind: &str, json: &Value) -> Result<Entry, ReadFault>
    ensures { Reads result (parts.entry_of_kind kind.now (view json.now)) }
{
    match kind {
        "federated" => Ok(Entry::Federated(exchange_of(alloc, json)?)),
        "narrow" => Ok(Entry::Narrow(narrowing_of(alloc, json)?)),
        "impersonate" => Ok(Entry::Impersonate(impersonation_of(alloc, json)?)),
        "delegate" => Ok(Entry::Delegate(delegation_of(alloc, json)?)),
        _ => command_of(alloc, json),
    }
}

/// The entry whose parts stand in a tree, each of its form.
pub(crate) fn entry_in(alloc: Global, json: &Value) -> Result<Entry, ReadFault>
    ensures { Reads result (parts.entry_in (view json.now)) }
{
    match text_at(json, "kind") {
        Some(kind) => entry_of_kind(alloc, kind, json),
        None => Err(ReadFault::Form),
    }
}
