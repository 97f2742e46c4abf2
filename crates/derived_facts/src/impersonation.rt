ghost use Rattle.std.specs.Prelude.{◌≡◌, ◌≤◌, IfOk, length};
ghost use Rattle.std.specs.List.{AllByRecursion};
ghost use Rattle.iam_names.specs.declared.who.Who.TheVariants as principals;
ghost use Rattle.access_token.specs.Facts.{name_of};
ghost use Rattle.boundary.specs.Exact.{IsExactBoundary};
ghost use Rattle.derived_facts.specs.Derived.{impersonated_facts, target_of};

use crate::copying::{copy_bounds, copy_pools, copy_texts};
use crate::parts::{accounts_behind, facts_by, limits_by, parties_by, scopes_behind};
use access_token::{Facts, subject_name};
use base_types::{Items, Text, both};
use iam_names::{Account, ScopeWord, Who};
use std::alloc::{AllocError, Global};

/// What the token of that number says that impersonates the last of these service accounts with its parent's, for at most
/// `lifetime` seconds.
pub fn impersonated(
    alloc: Global,
    number: u32,
    at: u64,
    words: &[ScopeWord],
    accounts: &[Account],
    lifetime: u64,
    parent: &Facts,
) -> Result<Facts, AllocError>
    requires moment { at ≤ 200_000_000_000 }
    requires some { 1 ≤ length accounts.now }
    requires short { lifetime ≤ 3600 }
    requires bounds { AllByRecursion IsExactBoundary parent.now.bounds }
    ensures { IfOk result (λ facts. facts ≡ impersonated_facts number at words.now accounts.now lifetime parent.now) }
{
    let principal = principal_by(alloc, target(accounts));
    let act = copy_texts(alloc, parent.act.as_slice());
    let parties = parties_by(principal, both(act, Ok(Items::new(alloc))));
    let pools = copy_pools(alloc, parent.pools.as_slice());
    let accounts = accounts_behind(alloc, parent.accounts.as_slice(), accounts);
    let scopes = scopes_behind(alloc, parent.scopes.as_slice(), words);
    let bounds = copy_bounds(alloc, parent.bounds.as_slice());
    let limits = limits_by(both(pools, accounts), scopes, bounds);
    let (parties, limits) = both(parties, limits)?;
    let exp = parent.exp.min(at.saturating_add(lifetime));
    Ok(facts_by(number, at, exp, parties, limits))
}

#[tactic(auto, using(crate::proofs::Targets::target_at))]
fn target(accounts: &[Account]) -> &Account
    requires { 1 ≤ length accounts.now }
    ensures { result.now ≡ target_of accounts.now }
{
    &accounts[accounts.len() - 1]
}

// The service account as a principal, under its name.
fn principal_by(alloc: Global, account: &Account) -> Result<(Text, Who), AllocError>
    ensures { let who = principals.Account account.now in IfOk result (λ principal. principal ≡ (name_of who, who)) }
{
    let who = Who::Account(account.copy(alloc)?);
    both(subject_name(alloc, &who), Ok(who))
}
