ghost use Rattle.std.specs.Prelude.{◌≡◌, ◌<◌, ◌-◌, ◌^◌, IfOk, Ok, Some};
ghost use Rattle.entry_texts.specs.Exact.{IsExactEntry};
ghost use Rattle.json_text.specs.Clean.{HasUtf8};
ghost use Rattle.links.specs.declared.entry.Entry.TheVariants.{Put};
ghost use Rattle.serde_json.specs.View.{view};
ghost use Rattle.sts_core.specs.Machine.{administration, command_in, commanded};
ghost use Rattle.sts_core.specs.Proposals.{IsReady, proposed_answer};

use crate::introspection::is_bearer;
use crate::proposal::Proposal;
use crate::recording::{entry_refused, prepare_with_text, propose};
use base_types::Text;
use exchange_form::read_object;
use links::{Entry, State};
use serde_json::Value;
use service_view::Command;
use std::alloc::{AllocError, Global};
use sts_admin::{CommandFault, read_command};
use sts_replies::{bad_argument, command_refused, entered, no_bearer};
use wif_base::Request;

/// What a command asks to be done.
#[tactic(auto, unfolding(crate::specs::Machine::administration))]
pub(crate) fn administer(
    alloc: Global,
    secret: &Text,
    state: &mut State,
    request: &Request,
) -> Result<Proposal, AllocError>
    requires room { state.old.content.count < 2 ^ 32 - 1 }
    ensures answer { IfOk result (λ proposal. proposed_answer proposal ≡ administration secret.now state.old.content request.now) }
    ensures ready { IfOk result (IsReady state.new) }
    ensures content { state.new.content ≡ state.old.content }
{
    if !is_bearer(secret, &request.bearer) {
        return Ok(Proposal::Refused(no_bearer(alloc)?));
    }
    match read_object(alloc, request.body.as_slice())? {
        Some(json) => obey(alloc, state, &json),
        None => Ok(Proposal::Refused(bad_argument(alloc, "A1")?)),
    }
}

// Reads a command and proposes to record it.
fn obey(alloc: Global, state: &mut State, json: &Value) -> Result<Proposal, AllocError>
    requires utf8 { HasUtf8 (view json.now) }
    requires room { state.old.content.count < 2 ^ 32 - 1 }
    ensures answer { IfOk result (λ proposal. proposed_answer proposal ≡ command_in state.old.content (Some (view json.now))) }
    ensures ready { IfOk result (IsReady state.new) }
    ensures content { state.new.content ≡ state.old.content }
{
    match read_command(alloc, json) {
        Ok(command) => enter(alloc, state, command),
        Err(CommandFault::Memory) => Err(AllocError),
        Err(fault) => Ok(Proposal::Refused(command_refused(alloc, fault)?)),
    }
}

// Proposes to record a command, where no rule forbids it.
fn enter(alloc: Global, state: &mut State, command: Command) -> Result<Proposal, AllocError>
    requires exact { IsExactEntry (Put command) }
    requires room { state.old.content.count < 2 ^ 32 - 1 }
    ensures answer { IfOk result (λ proposal. proposed_answer proposal ≡ commanded state.old.content (Ok command)) }
    ensures ready { IfOk result (IsReady state.new) }
    ensures content { state.new.content ≡ state.old.content }
{
    command.has_its_form();
    let number = state.entry_count();
    match prepare_with_text(alloc, state, Entry::Put(command)) {
        Ok((prepared, text)) => propose(prepared, text, entered(alloc, number)),
        Err(fault) => entry_refused(alloc, fault),
    }
}
