ghost use Rattle.std.specs.Prelude.{◌≡◌, ◌≤◌, ◌∷◌, IfOk, drop};
ghost use Rattle.std.specs.List.{AllByRecursion};
ghost use Rattle.boundary.specs.Exact.{IsExactBoundary};
ghost use Rattle.derived_facts.specs.Derived.{delegated_facts};

use crate::copying::{copy_bounds, copy_texts};
use crate::parts::{
    MAX_LIFETIME, accounts_behind, facts_by, limits_by, parties_by, pools_behind, principal_of,
    scopes_behind,
};
use access_token::Facts;
use base_types::{Items, Text, both};
use iam_names::ScopeWord;
use std::alloc::{AllocError, Global};

/// What the token of that number says by which the actor acts for the subject (RFC 8693, section 4.1).
pub fn delegated(
    alloc: Global,
    number: u32,
    at: u64,
    words: &[ScopeWord],
    subject: &Facts,
    actor: &Facts,
) -> Result<Facts, AllocError>
    requires moment { at ≤ 200_000_000_000 }
    requires bounds { AllByRecursion IsExactBoundary subject.now.bounds }
    ensures { IfOk result (λ facts. facts ≡ delegated_facts number at words.now subject.now actor.now) }
{
    let act = actors_behind(alloc, &actor.sub, subject.act.as_slice());
    let may_act = copy_texts(alloc, after_first(subject.may_act.as_slice()));
    let parties = parties_by(principal_of(alloc, subject), both(act, may_act));
    let pools = pools_behind(alloc, subject.pools.as_slice(), actor.pools.as_slice());
    let accounts = accounts_behind(
        alloc,
        subject.accounts.as_slice(),
        actor.accounts.as_slice(),
    );
    let scopes = scopes_behind(alloc, subject.scopes.as_slice(), words);
    let bounds = copy_bounds(alloc, subject.bounds.as_slice());
    let limits = limits_by(both(pools, accounts), scopes, bounds);
    let (parties, limits) = both(parties, limits)?;
    let exp = subject
        .exp
        .min(actor.exp)
        .min(at.saturating_add(MAX_LIFETIME));
    Ok(facts_by(number, at, exp, parties, limits))
}

// The newest actor's name with those of the earlier ones behind it.
fn actors_behind(alloc: Global, newest: &Text, earlier: &[Text]) -> Result<Items<Text>, AllocError>
    ensures { IfOk result (λ behind. behind ≡ newest.now ∷ earlier.now) }
{
    let mut behind = Items::new(alloc);
    behind.push(newest.copy(alloc)?)?;
    behind.append(copy_texts(alloc, earlier)?)?;
    Ok(behind)
}

fn after_first(names: &[Text]) -> &[Text]
    ensures { result.now ≡ drop 1 names.now }
{
    match names.split_first() {
        None => &[],
        Some((_, rest)) => rest,
    }
}
