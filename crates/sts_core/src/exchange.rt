ghost use Rattle.std.specs.Prelude.{◌≡◌, ◌≤◌, ◌<◌, ◌-◌, ◌^◌, IfOk, Ok};
ghost use Rattle.entry_texts.specs.Exact.{IsExactEntry};
ghost use Rattle.links.specs.Entries.{IsEntry};
ghost use Rattle.sts_core.specs.Machine.{exchange as exchange_of, exchanged};
ghost use Rattle.sts_core.specs.Proposals.{IsReady, proposed_answer};

use crate::asking::asked_for;
use crate::proposal::Proposal;
use crate::recording::{entry_refused, prepare_with_text, propose};
use crate::rule_stop::RuleStop;
use entry_texts::an_entry_has_exact_parts;
use exchange_form::read_form;
use links::{Entry, State};
use std::alloc::{AllocError, Global};
use sts_replies::{exchange_refused, issued};
use wif_base::Request;

/// What an exchange of a subject token for an access token asks to be done (RFC 8693).
pub(crate) fn exchange(
    alloc: Global,
    state: &mut State,
    request: &Request,
    now: u64,
) -> Result<Proposal, AllocError>
    requires moment { now ≤ 200_000_000_000 }
    requires room { state.old.content.count < 2 ^ 32 - 1 }
    ensures answer { IfOk result (λ proposal. proposed_answer proposal ≡ exchange_of state.old.content request.now now) }
    ensures ready { IfOk result (IsReady state.new) }
    ensures content { state.new.content ≡ state.old.content }
{
    state.has_a_lawful_journal();
    let form = read_form(alloc, request.body.as_slice())?;
    let asked = asked_for(alloc, state, form.as_slice(), now);
    drop(form);
    match asked {
        Ok(entry) => {
            an_entry_has_exact_parts(&entry);
            issue(alloc, state, entry)
        }
        Err(RuleStop::Refused(rule)) => {
            let reply = exchange_refused(alloc, &rule);
            drop(rule);
            Ok(Proposal::Refused(reply?))
        }
        Err(RuleStop::Memory) => Err(AllocError),
    }
}

// Issues what is asked for, where no rule forbids it.
fn issue(alloc: Global, state: &mut State, entry: Entry) -> Result<Proposal, AllocError>
    requires form { IsEntry entry }
    requires exact { IsExactEntry entry }
    requires room { state.old.content.count < 2 ^ 32 - 1 }
    ensures answer { IfOk result (λ proposal. proposed_answer proposal ≡ exchanged state.old.content (Ok entry)) }
    ensures ready { IfOk result (IsReady state.new) }
    ensures content { state.new.content ≡ state.old.content }
{
    match prepare_with_text(alloc, state, entry) {
        Ok((prepared, text)) => {
            let reply = issued(alloc, &prepared);
            propose(prepared, text, reply)
        }
        Err(fault) => entry_refused(alloc, fault),
    }
}
