ghost use Rattle.std.specs.Prelude.{◌≡◌, ◌∷◌, ◌++◌, [], IfOk, Ok};

use crate::copying::{copy_accounts, copy_pools, copy_scopes, copy_who, copy_words};
use access_token::Facts;
use base_types::{Items, Text, both};
use boundary::Boundary;
use iam_names::{Account, PoolName, ScopeWord, Who};
use std::alloc::{AllocError, Global};

/// How long a token lasts at most, in seconds.
pub(crate) const MAX_LIFETIME: u64 = 3600;

/// Whom a token names.
#[derive(Debug, Drop)]
pub(crate) struct Parties {
    pub(crate) sub: Text,
    pub(crate) who: Who,
    pub(crate) act: Items<Text>,
    pub(crate) may_act: Items<Text>,
}

/// The parties of a principal under its name, and of those who act for it and may.
pub(crate) fn parties_by(
    principal: Result<(Text, Who), AllocError>,
    actors: Result<(Items<Text>, Items<Text>), AllocError>,
) -> Result<Parties, AllocError>
    ensures principal { IfOk result (λ parties. principal ≡ Ok (parties.sub, parties.who)) }
    ensures actors { IfOk result (λ parties. actors ≡ Ok (parties.act, parties.may_act)) }
{
    let ((sub, who), (act, may_act)) = both(principal, actors)?;
    Ok(Parties {
        sub,
        who,
        act,
        may_act,
    })
}

/// What limits a token.
#[derive(Debug, Drop)]
pub(crate) struct Limits {
    pub(crate) pools: Items<PoolName>,
    pub(crate) accounts: Items<Account>,
    pub(crate) scopes: Items<Items<ScopeWord>>,
    pub(crate) bounds: Items<Boundary>,
}

/// The limits by the pools and accounts on the way to a token, and by what each exchange allowed.
pub(crate) fn limits_by(
    owners: Result<(Items<PoolName>, Items<Account>), AllocError>,
    scopes: Result<Items<Items<ScopeWord>>, AllocError>,
    bounds: Result<Items<Boundary>, AllocError>,
) -> Result<Limits, AllocError>
    ensures owners { IfOk result (λ limits. owners ≡ Ok (limits.pools, limits.accounts)) }
    ensures scopes { IfOk result (λ limits. scopes ≡ Ok limits.scopes) }
    ensures bounds { IfOk result (λ limits. bounds ≡ Ok limits.bounds) }
{
    let ((pools, accounts), (scopes, bounds)) = both(owners, both(scopes, bounds))?;
    Ok(Limits {
        pools,
        accounts,
        scopes,
        bounds,
    })
}

/// What a token says, part by part.
pub(crate) fn facts_by(number: u32, iat: u64, exp: u64, parties: Parties, limits: Limits) -> Facts
    ensures { result ≡ record {
      number = number;
      sub = parties.sub;
      iat = iat;
      exp = exp;
      act = parties.act;
      may_act = parties.may_act;
      who = parties.who;
      pools = limits.pools;
      accounts = limits.accounts;
      scopes = limits.scopes;
      bounds = limits.bounds;
    } }
{
    Facts {
        number,
        sub: parties.sub,
        iat,
        exp,
        act: parties.act,
        may_act: parties.may_act,
        who: parties.who,
        pools: limits.pools,
        accounts: limits.accounts,
        scopes: limits.scopes,
        bounds: limits.bounds,
    }
}

/// The principal of these facts, under its name.
pub(crate) fn principal_of(alloc: Global, facts: &Facts) -> Result<(Text, Who), AllocError>
    ensures { IfOk result (λ principal. principal ≡ (facts.now.sub, facts.now.who)) }
{
    both(facts.sub.copy(alloc), copy_who(alloc, &facts.who))
}

/// The pools with more behind them.
pub(crate) fn pools_behind(
    alloc: Global,
    pools: &[PoolName],
    more: &[PoolName],
) -> Result<Items<PoolName>, AllocError>
    ensures { IfOk result (λ behind. behind ≡ pools.now ++ more.now) }
{
    let mut behind = copy_pools(alloc, pools)?;
    behind.append(copy_pools(alloc, more)?)?;
    Ok(behind)
}

/// The accounts with more behind them.
pub(crate) fn accounts_behind(
    alloc: Global,
    accounts: &[Account],
    more: &[Account],
) -> Result<Items<Account>, AllocError>
    ensures { IfOk result (λ behind. behind ≡ accounts.now ++ more.now) }
{
    let mut behind = copy_accounts(alloc, accounts)?;
    behind.append(copy_accounts(alloc, more)?)?;
    Ok(behind)
}

/// The words of each exchange, with those of one more behind them.
pub(crate) fn scopes_behind(
    alloc: Global,
    scopes: &[Items<ScopeWord>],
    words: &[ScopeWord],
) -> Result<Items<Items<ScopeWord>>, AllocError>
    ensures { IfOk result (λ behind. behind ≡ scopes.now ++ words.now ∷ []) }
{
    let mut behind = copy_scopes(alloc, scopes)?;
    behind.push(copy_words(alloc, words)?)?;
    Ok(behind)
}
