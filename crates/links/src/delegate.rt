ghost use Rattle.std.specs.Prelude.{◌≡◌, ◌<◌, IfOk, IfErr, Some, option_map};
ghost use Rattle.std.specs.List.{AllByRecursion};
ghost use Rattle.base_types.specs.Rules.{first_of};
ghost use Rattle.boundary.specs.Exact.{IsExactBoundary};
ghost use Rattle.entry_rules.specs.Passing.{Passes};
ghost use Rattle.links.specs.declared.entry.Entry.TheVariants as entries;
ghost use Rattle.links.specs.Entries.{IsDelegation};
ghost use Rattle.links.specs.Licence.{begins_with_name, delegation_rules, first_unlicensed, planned_of};
ghost use Rattle.links.specs.Prepared.{with_link};
ghost use Rattle.links.specs.Recorded.{recorded, delegated as delegated_row};
ghost use Rattle.links.specs.State.{made};

use crate::checks::{check, check_depth, knows_words, live_link};
use crate::tokens::{Issued, with_payload};
use crate::{Delegation, RecordedKind, RecordedLink, State};
use base_types::Text;
use derived_facts::delegated;
use entry_rules::{ApplyFault, RuleCode};
use std::alloc::Global;

/// The link that a delegation records, with its token's payload, or the first rule that forbids it.
#[tactic(auto, using(crate::proofs::Preparing::delegation_refused_before))]
pub(crate) fn delegate(
    alloc: Global,
    state: &State,
    delegation: &Delegation,
) -> Result<Issued, ApplyFault>
    requires { IsDelegation delegation.now }
    ensures licensed { Passes result (first_unlicensed state.now.content (entries.Delegate delegation.now)) }
    ensures issued { IfOk result (λ issued. with_link (entries.Delegate delegation.now) issued
        ≡ planned_of state.now.content (entries.Delegate delegation.now)) }
{
    let recorded = link_for(alloc, state, delegation)?;
    with_payload(alloc, state, recorded, RuleCode::E25)
}

// The link that a delegation would record.
fn link_for(
    alloc: Global,
    state: &State,
    delegation: &Delegation,
) -> Result<RecordedLink, ApplyFault>
    requires { IsDelegation delegation.now }
    ensures link { IfOk result (λ link. Some link ≡ option_map recorded (made state.now.content (entries.Delegate delegation.now))) }
    ensures passes { Passes result (first_of (delegation_rules state.now.content delegation.now)) }
{
    let known = knows_words(state, delegation.scope.as_slice());
    check(known, RuleCode::E11)?;
    let subject = live_link(state, delegation.subject, delegation.at, RuleCode::E21)?;
    let actor = live_link(state, delegation.actor, delegation.at, RuleCode::E22)?;
    let named = names_next(subject.facts.may_act.as_slice(), actor.facts.sub.as_str());
    check(named, RuleCode::E23)?;
    check_depth(subject.depth.max(actor.depth), RuleCode::E24)?;
    state.has_a_lawful_journal();
    link_behind(alloc, state.link_count(), delegation, subject, actor)
}

// Whether the next who may act has this name (RFC 8693, section 4.4).
fn names_next(may_act: &[Text], name: &str) -> bool
    ensures { result ≡ begins_with_name name.now may_act.now }
{
    match may_act.first() {
        Some(first) => first.as_str() == name,
        None => false,
    }
}

// What is held of a delegation behind its subject and its actor.
fn link_behind(
    alloc: Global,
    number: u32,
    delegation: &Delegation,
    subject: &RecordedLink,
    actor: &RecordedLink,
) -> Result<RecordedLink, ApplyFault>
    requires form { IsDelegation delegation.now }
    requires subject_depth { subject.now.depth < 8 }
    requires actor_depth { actor.now.depth < 8 }
    requires bounds { AllByRecursion IsExactBoundary subject.now.facts.bounds }
    ensures link { IfOk result (λ link. link ≡ delegated_row number delegation.now subject.now actor.now) }
    ensures memory { IfErr result (λ fault. fault ≡ ApplyFault.Memory) }
{
    let facts = delegated(
        alloc,
        number,
        delegation.at,
        delegation.scope.as_slice(),
        &subject.facts,
        &actor.facts,
    )?;
    let kind = RecordedKind::Delegate {
        subject: delegation.subject,
        actor: delegation.actor,
    };
    Ok(RecordedLink {
        kind,
        depth: subject.depth.max(actor.depth) + 1,
        facts,
    })
}
