ghost use Rattle.std.specs.Prelude.{◌≡◌, ◌<◌, IfOk, IfErr, Some, not, option_map};
ghost use Rattle.std.specs.List.{AllByRecursion};
ghost use Rattle.base_types.specs.Rules.{first_of};
ghost use Rattle.boundary.specs.Exact.{IsExactBoundary};
ghost use Rattle.entry_rules.specs.Passing.{Passes};
ghost use Rattle.service_view.specs.View.{account_enabled};
ghost use Rattle.links.specs.declared.entry.Entry.TheVariants as entries;
ghost use Rattle.links.specs.Entries.{IsImpersonation};
ghost use Rattle.links.specs.Licence.{failing_hop as failed_hop, first_unlicensed, impersonation_rules, planned_of, unknown_account};
ghost use Rattle.links.specs.Places.{place_of};
ghost use Rattle.links.specs.Prepared.{with_link};
ghost use Rattle.links.specs.Recorded.{recorded, impersonated as impersonated_row};
ghost use Rattle.links.specs.State.{chain, made};

use crate::checks::{check, check_depth, knows_words};
use crate::hops::failing_hop;
use crate::tokens::{Issued, with_payload};
use crate::{Impersonation, RecordedKind, RecordedLink, State};
use derived_facts::impersonated;
use entry_rules::{ApplyFault, RuleCode, unlicensed};
use iam_names::Account;
use service_view::View;
use std::alloc::Global;

/// The link that an impersonation records, with its token's payload, or the first rule that forbids it.
#[tactic(auto, using(crate::proofs::Preparing::impersonation_refused_before))]
pub(crate) fn impersonate(
    alloc: Global,
    state: &State,
    impersonation: &Impersonation,
) -> Result<Issued, ApplyFault>
    requires { IsImpersonation impersonation.now }
    ensures licensed { Passes result (first_unlicensed state.now.content (entries.Impersonate impersonation.now)) }
    ensures issued { IfOk result (λ issued. with_link (entries.Impersonate impersonation.now) issued
        ≡ planned_of state.now.content (entries.Impersonate impersonation.now)) }
{
    let recorded = link_for(alloc, state, impersonation)?;
    with_payload(alloc, state, recorded, RuleCode::I11)
}

// The link that an impersonation would record.
fn link_for(
    alloc: Global,
    state: &State,
    impersonation: &Impersonation,
) -> Result<RecordedLink, ApplyFault>
    requires { IsImpersonation impersonation.now }
    ensures link { IfOk result (λ link. Some link ≡ option_map recorded (made state.now.content (entries.Impersonate impersonation.now))) }
    ensures passes { Passes result (first_of (impersonation_rules state.now.content impersonation.now)) }
{
    let known = knows_words(state, impersonation.scope.as_slice());
    check(known, RuleCode::I5)?;
    check_accounts(state, impersonation.accounts.as_slice())?;
    let parent = parent_by_hops(alloc, state, impersonation)?;
    check_depth(parent.depth, RuleCode::I10)?;
    state.has_a_lawful_journal();
    link_behind(alloc, state.link_count(), impersonation, parent)
}

fn check_accounts(state: &State, accounts: &[Account]) -> Result<(), ApplyFault>
    ensures { Passes result (unknown_account state.now.content accounts.now) }
{
    match unknown_at(state.view(), accounts) {
        None => Ok(()),
        Some(hop) => Err(unlicensed(RuleCode::I8 { hop })),
    }
}

// The first account that is unknown or disabled.
fn unknown_at(view: &View, accounts: &[Account]) -> Option<usize>
    ensures { result ≡ place_of (λ account. not (account_enabled view.now.content account)) accounts.now }
{
    for place in 0..accounts.len() {
        if !view.is_account_enabled(&accounts[place]) {
            return Some(place);
        }
    }
    None
}

// What is held of the parent, where each hop from it on is allowed.
fn parent_by_hops<'a>(
    alloc: Global,
    state: &'a State,
    impersonation: &Impersonation,
) -> Result<&'a RecordedLink, ApplyFault>
    requires { IsImpersonation impersonation.now }
    ensures link { IfOk result (λ link. option_map recorded (chain state.now.content impersonation.now.parent) ≡ Some link.now) }
    ensures passes { Passes result (failed_hop state.now.content (chain state.now.content impersonation.now.parent)
        impersonation.now.accounts impersonation.now.at) }
{
    let parent = impersonation.parent;
    if parent >= state.link_count() {
        return Err(unlicensed(RuleCode::I9 { hop: 0 }));
    }
    let accounts = impersonation.accounts.as_slice();
    match failing_hop(alloc, state, parent, accounts, impersonation.at)? {
        None => Ok(state.recorded(parent)),
        Some(hop) => Err(unlicensed(RuleCode::I9 { hop })),
    }
}

// What is held of an impersonation behind its parent.
fn link_behind(
    alloc: Global,
    number: u32,
    impersonation: &Impersonation,
    parent: &RecordedLink,
) -> Result<RecordedLink, ApplyFault>
    requires form { IsImpersonation impersonation.now }
    requires depth { parent.now.depth < 8 }
    requires bounds { AllByRecursion IsExactBoundary parent.now.facts.bounds }
    ensures link { IfOk result (λ link. link ≡ impersonated_row number impersonation.now parent.now) }
    ensures memory { IfErr result (λ fault. fault ≡ ApplyFault.Memory) }
{
    let facts = impersonated(
        alloc,
        number,
        impersonation.at,
        impersonation.scope.as_slice(),
        impersonation.accounts.as_slice(),
        impersonation.lifetime,
        &parent.facts,
    )?;
    let kind = RecordedKind::Impersonate {
        parent: impersonation.parent,
        earlier: parent.facts.accounts.len(),
        lifetime: impersonation.lifetime,
    };
    Ok(RecordedLink {
        kind,
        depth: parent.depth + 1,
        facts,
    })
}
