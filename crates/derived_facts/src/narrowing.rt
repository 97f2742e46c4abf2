ghost use Rattle.std.specs.Prelude.{◌≡◌, ◌≤◌, IfOk, IfSome};
ghost use Rattle.std.specs.List.{AllByRecursion};
ghost use Rattle.boundary.specs.Exact.{IsExactBoundary};
ghost use Rattle.derived_facts.specs.Derived.{narrowed_facts, with_boundary};

use crate::copying::{copy_accounts, copy_bounds, copy_pools, copy_texts};
use crate::parts::{MAX_LIFETIME, facts_by, limits_by, parties_by, principal_of, scopes_behind};
use access_token::Facts;
use base_types::{Items, both};
use boundary::Boundary;
use iam_names::ScopeWord;
use std::alloc::{AllocError, Global};

/// What the token of that number says that narrows its parent's for these words, by an access boundary if one is set. Moments
/// are in seconds since 1970-01-01T00:00:00Z.
pub fn narrowed(
    alloc: Global,
    number: u32,
    at: u64,
    words: &[ScopeWord],
    boundary: &Option<Boundary>,
    parent: &Facts,
) -> Result<Facts, AllocError>
    requires moment { at ≤ 200_000_000_000 }
    requires boundary { IfSome boundary.now IsExactBoundary }
    requires bounds { AllByRecursion IsExactBoundary parent.now.bounds }
    ensures { IfOk result (λ facts. facts ≡ narrowed_facts number at words.now boundary.now parent.now) }
{
    let act = copy_texts(alloc, parent.act.as_slice());
    let may_act = copy_texts(alloc, parent.may_act.as_slice());
    let parties = parties_by(principal_of(alloc, parent), both(act, may_act));
    let pools = copy_pools(alloc, parent.pools.as_slice());
    let accounts = copy_accounts(alloc, parent.accounts.as_slice());
    let scopes = scopes_behind(alloc, parent.scopes.as_slice(), words);
    let bounds = bounds_behind(alloc, parent.bounds.as_slice(), boundary);
    let limits = limits_by(both(pools, accounts), scopes, bounds);
    let (parties, limits) = both(parties, limits)?;
    let exp = parent.exp.min(at.saturating_add(MAX_LIFETIME));
    Ok(facts_by(number, at, exp, parties, limits))
}

fn bounds_behind(
    alloc: Global,
    bounds: &[Boundary],
    boundary: &Option<Boundary>,
) -> Result<Items<Boundary>, AllocError>
    requires bounds { AllByRecursion IsExactBoundary bounds.now }
    requires boundary { IfSome boundary.now IsExactBoundary }
    ensures { IfOk result (λ behind. behind ≡ with_boundary bounds.now boundary.now) }
{
    let mut behind = copy_bounds(alloc, bounds)?;
    if let Some(boundary) = boundary {
        behind.push(boundary::copy(alloc, boundary)?)?;
    }
    Ok(behind)
}
