ghost use Rattle.std.specs.Prelude.{◌≡◌, ◌<◌, IfOk, IfErr, Some, option_map};
ghost use Rattle.std.specs.List.{AllByRecursion};
ghost use Rattle.base_types.specs.Rules.{first_of};
ghost use Rattle.boundary.specs.Exact.{IsExactBoundary};
ghost use Rattle.entry_rules.specs.Passing.{Passes};
ghost use Rattle.links.specs.declared.entry.Entry.TheVariants as entries;
ghost use Rattle.links.specs.Entries.{IsNarrowing};
ghost use Rattle.links.specs.Licence.{first_unlicensed, narrow_rules, planned_of, unknown_role_in};
ghost use Rattle.links.specs.Prepared.{with_link};
ghost use Rattle.links.specs.Recorded.{recorded, narrowed as narrowed_row};
ghost use Rattle.links.specs.State.{made};

use crate::checks::{check, check_depth, knows_words, live_link};
use crate::roles::unknown_role;
use crate::tokens::{Issued, with_payload};
use crate::{Narrowing, RecordedKind, RecordedLink, State};
use boundary::Boundary;
use derived_facts::narrowed;
use entry_rules::{ApplyFault, RuleCode, unlicensed};
use std::alloc::Global;

/// The link that a narrowing records, with its token's payload, or the first rule that forbids it.
#[tactic(auto, using(crate::proofs::Preparing::narrow_refused_before))]
pub(crate) fn narrow(
    alloc: Global,
    state: &State,
    narrowing: &Narrowing,
) -> Result<Issued, ApplyFault>
    requires { IsNarrowing narrowing.now }
    ensures licensed { Passes result (first_unlicensed state.now.content (entries.Narrow narrowing.now)) }
    ensures issued { IfOk result (λ issued. with_link (entries.Narrow narrowing.now) issued
        ≡ planned_of state.now.content (entries.Narrow narrowing.now)) }
{
    let recorded = link_for(alloc, state, narrowing)?;
    with_payload(alloc, state, recorded, RuleCode::E25)
}

// The link that a narrowing would record.
fn link_for(alloc: Global, state: &State, narrowing: &Narrowing) -> Result<RecordedLink, ApplyFault>
    requires { IsNarrowing narrowing.now }
    ensures link { IfOk result (λ link. Some link ≡ option_map recorded (made state.now.content (entries.Narrow narrowing.now))) }
    ensures passes { Passes result (first_of (narrow_rules state.now.content narrowing.now)) }
{
    let known = knows_words(state, narrowing.scope.as_slice());
    check(known, RuleCode::E11)?;
    check_roles(state, &narrowing.boundary)?;
    let parent = live_link(state, narrowing.parent, narrowing.at, RuleCode::E21)?;
    check_depth(parent.depth, RuleCode::E24)?;
    state.has_a_lawful_journal();
    link_behind(alloc, state.link_count(), narrowing, parent)
}

fn check_roles(state: &State, boundary: &Option<Boundary>) -> Result<(), ApplyFault>
    ensures { Passes result (unknown_role_in state.now.content boundary.now) }
{
    let Some(boundary) = boundary else {
        return Ok(());
    };
    match unknown_role(state, boundary) {
        None => Ok(()),
        Some(rule) => Err(unlicensed(RuleCode::E12 { rule })),
    }
}

// What is held of a narrowing behind its parent.
fn link_behind(
    alloc: Global,
    number: u32,
    narrowing: &Narrowing,
    parent: &RecordedLink,
) -> Result<RecordedLink, ApplyFault>
    requires form { IsNarrowing narrowing.now }
    requires depth { parent.now.depth < 8 }
    requires bounds { AllByRecursion IsExactBoundary parent.now.facts.bounds }
    ensures link { IfOk result (λ link. link ≡ narrowed_row number narrowing.now parent.now) }
    ensures memory { IfErr result (λ fault. fault ≡ ApplyFault.Memory) }
{
    let facts = narrowed(
        alloc,
        number,
        narrowing.at,
        narrowing.scope.as_slice(),
        &narrowing.boundary,
        &parent.facts,
    )?;
    let kind = RecordedKind::Narrow {
        parent: narrowing.parent,
        bounded: narrowing.boundary.is_some(),
    };
    Ok(RecordedLink {
        kind,
        depth: parent.depth + 1,
        facts,
    })
}
