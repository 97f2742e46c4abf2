ghost use Rattle.std.specs.Prelude.{◌≡◌, ◌<◌, ◌&&◌, IfOk, Some, length, option_map};
ghost use Rattle.std.specs.List.{list_all};
ghost use Rattle.service_view.specs.View.{account_enabled, pool_enabled};
ghost use Rattle.allow_policy.specs.Granting as granting;
ghost use Rattle.boundary.specs.Allowing.{boundary_allows};
ghost use Rattle.links.specs.Authority.{admits as admitted, allows as allowed, live as lives};
ghost use Rattle.links.specs.State.{chain};

use crate::State;
use crate::numbered::facts_of;
use access_token::Facts;
use allow_policy::{granted, scope_allows};
use base_types::Items;
use boundary::Boundary;
use iam_names::{Account, Permission, PoolName, Resource, ScopeWord, Who};
use service_view::View;
use std::alloc::{AllocError, Global};

/// Whether the link is live at the moment `now`, in seconds since 1970-01-01T00:00:00Z: neither it nor a link that it was made from
/// is expired, and the pools of their subject tokens and the service accounts that they impersonate are enabled.
pub fn live(state: &State, number: u32, now: u64) -> bool
    requires { number < length state.now.content.links }
    ensures { option_map (λ found. lives state.now.content.view found now) (chain state.now.content number) ≡ Some result }
{
    let facts = facts_of(state, number);
    now < facts.exp && are_enabled(state.view(), facts)
}

// Whether the pools and the service accounts that a token carries are enabled.
fn are_enabled(view: &View, facts: &Facts) -> bool
    ensures { result ≡ (list_all (pool_enabled view.now.content) facts.now.pools && list_all (account_enabled view.now.content) facts.now.accounts) }
{
    are_pools_enabled(view, facts.pools.as_slice())
        && are_accounts_enabled(view, facts.accounts.as_slice())
}

fn are_pools_enabled(view: &View, pools: &[PoolName]) -> bool
    ensures { result ≡ list_all (pool_enabled view.now.content) pools.now }
{
    pools.iter().all(|pool| view.is_pool_enabled(pool))
}

fn are_accounts_enabled(view: &View, accounts: &[Account]) -> bool
    ensures { result ≡ list_all (account_enabled view.now.content) accounts.now }
{
    accounts
        .iter()
        .all(|account| view.is_account_enabled(account))
}

/// Whether the link admits a permission on a resource at the moment `now`: it is live, each link that limits it allows the
/// permission, and its principal is granted it.
pub fn admits(
    alloc: Global,
    state: &State,
    number: u32,
    permission: &Permission,
    resource: &Resource,
    now: u64,
) -> Result<bool, AllocError>
    requires { number < length state.now.content.links }
    ensures { IfOk result (λ yes. option_map (λ found. admitted state.now.content.view found permission.now resource.now now)
        (chain state.now.content number) ≡ Some yes) }
{
    if !live(state, number, now) {
        return Ok(false);
    }
    if !allows(alloc, state, number, permission, resource, now)? {
        return Ok(false);
    }
    let who = &facts_of(state, number).who;
    is_granted(alloc, state.view(), who, permission, resource, now)
}

/// Whether the principal is granted the permission on the resource at the moment `now`.
pub(crate) fn is_granted(
    alloc: Global,
    view: &View,
    who: &Who,
    permission: &Permission,
    resource: &Resource,
    now: u64,
) -> Result<bool, AllocError>
    ensures { IfOk result (λ yes. yes ≡ granting.granted view.now.content.lists who.now permission.now resource.now now) }
{
    granted(alloc, &view.policies, who, permission, resource, now)
}

/// Whether each link that limits the link allows the permission on the resource at the moment `now`.
pub(crate) fn allows(
    alloc: Global,
    state: &State,
    number: u32,
    permission: &Permission,
    resource: &Resource,
    now: u64,
) -> Result<bool, AllocError>
    requires { number < length state.now.content.links }
    ensures { IfOk result (λ yes. option_map (λ found. allowed state.now.content.view found permission.now resource.now now)
        (chain state.now.content number) ≡ Some yes) }
{
    let facts = facts_of(state, number);
    let view = state.view();
    if !words_allow(view, facts.scopes.as_slice(), permission) {
        return Ok(false);
    }
    bounds_allow(
        alloc,
        view,
        facts.bounds.as_slice(),
        permission,
        resource,
        now,
    )
}

fn words_allow(view: &View, scopes: &[Items<ScopeWord>], permission: &Permission) -> bool
    ensures { result ≡ list_all (λ words. granting.scope_allows view.now.content.lists words permission.now) scopes.now }
{
    let policies = &view.policies;
    scopes.iter().all(|words| scope_allows(policies, words.as_slice(), permission))
}

fn bounds_allow(
    alloc: Global,
    view: &View,
    bounds: &[Boundary],
    permission: &Permission,
    resource: &Resource,
    now: u64,
) -> Result<bool, AllocError>
    ensures { IfOk result (λ yes. yes
        ≡ list_all (λ boundary. boundary_allows view.now.content.lists.roles boundary permission.now resource.now now) bounds.now) }
{
    let roles = &view.policies.roles;
    for boundary in bounds {
        if !boundary::allows(alloc, roles, boundary, permission, resource, now)? {
            return Ok(false);
        }
    }
    Ok(true)
}
