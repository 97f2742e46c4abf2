ghost use Rattle.std.specs.Prelude.{◌≡◌, ◌≤◌, ◌<◌, ◌-◌, ◌^◌, IfOk, IfErr, OnOk, OnErr, option_map};
ghost use Rattle.links.specs.declared.entry.Entry.TheVariants as entries;
ghost use Rattle.entry_rules.specs.declared.fault.ApplyFault.{ApplyFault as Fault};
ghost use Rattle.links.specs.Entries.{IsEntry};
ghost use Rattle.entry_rules.specs.Passing.{Passes};
ghost use Rattle.hmac_jws.specs.Compact.{compact};
ghost use Rattle.links.specs.Licence.{Licensed, first_unlicensed, planned_of, prepared_of, refusal_of};
ghost use Rattle.links.specs.Prepared.{planned, with_link, with_token};
ghost use Rattle.links.specs.State.{after};

use crate::delegate::delegate;
use crate::federated::issue;
use crate::impersonate::impersonate;
use crate::narrow::narrow;
use crate::prepared::Plan;
use crate::tokens::Issued;
use crate::{Entry, Prepared, State};
use base_types::Text;
use entry_rules::{ApplyFault, RuleCode, unlicensed};
use hmac_jws::sign;
use service_view::{Command, ReadyFault};
use std::alloc::{AllocError, Global};

/// Looks whether the state licenses an entry, and makes all that its recording needs. It changes no content.
pub fn prepare(alloc: Global, state: &mut State, entry: Entry) -> Result<Prepared, ApplyFault>
    requires room { state.old.content.count < 2 ^ 32 - 1 }
    requires form { IsEntry entry }
    ensures licensed { Passes result (first_unlicensed state.old.content entry) }
    ensures prepared { IfOk result (λ prepared. prepared ≡ prepared_of state.old.content entry) }
    ensures content { state.new.content ≡ state.old.content }
    ensures room { OnOk result (1 ≤ state.new.spare) }
{
    let plan = plan_entry(alloc, state, entry)?;
    sign_plan(alloc, state, plan)
}

// Looks whether the state licenses an entry, and makes all that its recording needs.
fn plan_entry(alloc: Global, state: &mut State, entry: Entry) -> Result<Plan, ApplyFault>
    requires form { IsEntry entry }
    ensures licensed { Passes result (first_unlicensed state.old.content entry) }
    ensures planned { IfOk result (λ plan. planned plan ≡ planned_of state.old.content entry) }
    ensures content { state.new.content ≡ state.old.content }
    ensures room { OnOk result (1 ≤ state.new.spare) }
{
    match entry {
        Entry::Put(command) => plan_put(alloc, state, command),
        Entry::Federated(exchange) => {
            let issued = issue(alloc, state, &exchange);
            plan_link(state, Entry::Federated(exchange), issued)
        }
        Entry::Narrow(narrowing) => {
            let issued = narrow(alloc, state, &narrowing);
            plan_link(state, Entry::Narrow(narrowing), issued)
        }
        Entry::Impersonate(impersonation) => {
            let issued = impersonate(alloc, state, &impersonation);
            plan_link(state, Entry::Impersonate(impersonation), issued)
        }
        Entry::Delegate(delegation) => {
            let issued = delegate(alloc, state, &delegation);
            plan_link(state, Entry::Delegate(delegation), issued)
        }
    }
}

fn plan_put(alloc: Global, state: &mut State, command: Command) -> Result<Plan, ApplyFault>
    ensures licensed { Passes result (first_unlicensed state.old.content (entries.Put command)) }
    ensures planned { IfOk result (λ plan. planned plan ≡ planned_of state.old.content (entries.Put command)) }
    ensures content { state.new.content ≡ state.old.content }
    ensures room { OnOk result (1 ≤ state.new.spare) }
{
    match state.ready(alloc, command) {
        Ok(ready) => with_room(state, Plan::Put(ready)),
        Err(fault) => Err(refusal(fault)),
    }
}

// What is told of a command that can't be placed.
fn refusal(fault: ReadyFault) -> ApplyFault
    ensures { result ≡ refusal_of fault }
{
    match fault {
        ReadyFault::UnknownPool | ReadyFault::UnknownRole => unlicensed(RuleCode::A4),
        ReadyFault::Limit => unlicensed(RuleCode::A6),
        ReadyFault::Memory => ApplyFault::Memory,
    }
}

// Plans an entry whose link was made, or which was refused.
fn plan_link(
    state: &mut State,
    entry: Entry,
    issued: Result<Issued, ApplyFault>,
) -> Result<Plan, ApplyFault>
    requires licensed { Passes issued (first_unlicensed state.old.content entry) }
    requires issued { IfOk issued (λ issued. with_link entry issued ≡ planned_of state.old.content entry) }
    ensures licensed { Passes result (first_unlicensed state.old.content entry) }
    ensures planned { IfOk result (λ plan. planned plan ≡ planned_of state.old.content entry) }
    ensures content { state.new.content ≡ state.old.content }
    ensures room { OnOk result (1 ≤ state.new.spare) }
{
    match issued {
        Ok(issued) => with_room(state, Plan::Link { entry, issued }),
        Err(fault) => {
            drop(entry);
            Err(fault)
        }
    }
}

fn with_room(state: &mut State, plan: Plan) -> Result<Plan, ApplyFault>
    ensures plan { IfOk result (λ same. same ≡ plan) }
    ensures memory { IfErr result (λ fault. fault ≡ Fault.Memory) }
    ensures content { state.new.content ≡ state.old.content }
    ensures room { OnOk result (1 ≤ state.new.spare) }
{
    match state.make_room() {
        Ok(()) => Ok(plan),
        Err(AllocError) => {
            drop(plan);
            Err(ApplyFault::Memory)
        }
    }
}

// A plan with the token of its link.
fn sign_plan(alloc: Global, state: &State, plan: Plan) -> Result<Prepared, ApplyFault>
    ensures signed { IfOk result (λ prepared. prepared
        ≡ with_token (planned plan) (option_map (compact state.now.content.key) (planned plan).payload)) }
    ensures memory { IfErr result (λ fault. fault ≡ Fault.Memory) }
{
    match token_of(alloc, state, &plan) {
        Ok(token) => Ok(Prepared { plan, token }),
        Err(AllocError) => {
            drop(plan);
            Err(ApplyFault::Memory)
        }
    }
}

fn token_of(alloc: Global, state: &State, plan: &Plan) -> Result<Option<Text>, AllocError>
    ensures { IfOk result (λ token. token ≡ option_map (compact state.now.content.key) (planned plan.now).payload) }
{
    match plan {
        Plan::Put(_) => Ok(None),
        Plan::Link { issued, .. } => {
            let token = sign(alloc, state.key(), issued.payload.as_str().as_bytes())?;
            Ok(Some(Text::new(token)))
        }
    }
}

/// Records what was prepared in this state. It takes no memory.
pub fn commit(state: &mut State, prepared: Prepared)
    requires room { 1 ≤ state.old.spare }
    requires count { state.old.content.count < 2 ^ 32 - 1 }
    requires form { IsEntry prepared.entry }
    requires licensed { Licensed state.old.content prepared.entry }
    requires prepared { prepared ≡ prepared_of state.old.content prepared.entry }
    ensures { state.new.content ≡ after state.old.content prepared.entry }
{
    drop(prepared.token);
    state.carry_out(prepared.plan);
}

/// Records an entry, where the state licenses it, as `prepare` and then `commit` do. It signs no token.
pub fn apply(alloc: Global, state: &mut State, entry: Entry) -> Result<(), ApplyFault>
    requires room { state.old.content.count < 2 ^ 32 - 1 }
    requires form { IsEntry entry }
    ensures licensed { Passes result (first_unlicensed state.old.content entry) }
    ensures done { OnOk result (state.new.content ≡ after state.old.content entry) }
    ensures refused { OnErr result (state.new.content ≡ state.old.content) }
{
    let plan = plan_entry(alloc, state, entry)?;
    state.carry_out(plan);
    Ok(())
}
