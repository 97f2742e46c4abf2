ghost use Rattle.std.specs.Prelude.{◌≡◌, ◌≤◌, ◌<◌, ◌-◌, ◌^◌, IfOk, Ok};
ghost use Rattle.entry_texts.specs.Exact.{IsExactEntry};
ghost use Rattle.links.specs.Entries.{IsEntry};
ghost use Rattle.sts_core.specs.Machine.{generate as generate_of, generate_asked};
ghost use Rattle.sts_core.specs.Proposals.{IsReady, proposed_answer};

use crate::generating::generated_for;
use crate::proposal::Proposal;
use crate::recording::{entry_refused, prepare_with_text, propose};
use crate::rule_stop::RuleStop;
use base_types::Text;
use entry_texts::an_entry_has_exact_parts;
use links::{Entry, State};
use std::alloc::{AllocError, Global};
use sts_replies::{generate_refused, generated};
use wif_base::Request;

/// What a request for a token of a service account asks to be done.
pub(crate) fn generate(
    alloc: Global,
    state: &mut State,
    account: &Text,
    request: &Request,
    now: u64,
) -> Result<Proposal, AllocError>
    requires moment { now ≤ 200_000_000_000 }
    requires room { state.old.content.count < 2 ^ 32 - 1 }
    ensures answer { IfOk result (λ proposal. proposed_answer proposal ≡ generate_of state.old.content account.now request.now now) }
    ensures ready { IfOk result (IsReady state.new) }
    ensures content { state.new.content ≡ state.old.content }
{
    match generated_for(alloc, state, account, request, now) {
        Ok(entry) => {
            an_entry_has_exact_parts(&entry);
            impersonate(alloc, state, entry)
        }
        Err(RuleStop::Refused(rule)) => Ok(Proposal::Refused(generate_refused(alloc, rule)?)),
        Err(RuleStop::Memory) => Err(AllocError),
    }
}

// Issues the service account's token, where no rule forbids it.
fn impersonate(alloc: Global, state: &mut State, entry: Entry) -> Result<Proposal, AllocError>
    requires form { IsEntry entry }
    requires exact { IsExactEntry entry }
    requires room { state.old.content.count < 2 ^ 32 - 1 }
    ensures answer { IfOk result (λ proposal. proposed_answer proposal ≡ generate_asked state.old.content (Ok entry)) }
    ensures ready { IfOk result (IsReady state.new) }
    ensures content { state.new.content ≡ state.old.content }
{
    match prepare_with_text(alloc, state, entry) {
        Ok((prepared, text)) => {
            let reply = generated(alloc, &prepared);
            propose(prepared, text, reply)
        }
        Err(fault) => entry_refused(alloc, fault),
    }
}
