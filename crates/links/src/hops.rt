ghost use Rattle.std.specs.Prelude.{◌≡◌, ◌<◌, ◌≤◌, ◌&&◌, IfOk, Some, length, option_map};
ghost use Rattle.allow_policy.specs.Granting.{granted};
ghost use Rattle.iam_names.specs.Resource.{account_resource as resource_of};
ghost use Rattle.iam_names.specs.declared.who.Who.TheVariants as principals;
ghost use Rattle.entry_rules.specs.declared.fault.RuleCode.TheVariants.{I9};
ghost use Rattle.links.specs.Authority.{allows as allowed};
ghost use Rattle.links.specs.Hops.{get_access_token as to_get_access_token, first_hop, later_hop};
ghost use Rattle.links.specs.Licence.{failing_hop as failed_hop};
ghost use Rattle.links.specs.State.{chain};

use crate::State;
use crate::authority::{admits, allows, is_granted};
use base_types::both;
use iam_names::{Account, NameError, Permission, Resource, Who, account_resource};
use std::alloc::{AllocError, Global};

/// The permission to issue tokens for a service account.
const GET_ACCESS_TOKEN: &str = "iam.serviceAccounts.getAccessToken";

/// The first hop that isn't allowed: from a link to the first of these service accounts, and from each account to the next.
pub(crate) fn failing_hop(
    alloc: Global,
    state: &State,
    parent: u32,
    accounts: &[Account],
    now: u64,
) -> Result<Option<usize>, AllocError>
    requires parent { parent < length state.now.content.links }
    requires some { 1 ≤ length accounts.now }
    ensures { IfOk result (λ hop. option_map I9 hop ≡ failed_hop state.now.content (chain state.now.content parent) accounts.now now) }
{
    if !first_passes(alloc, state, parent, &accounts[0], now)? {
        return Ok(Some(0));
    }
    for hop in 1..accounts.len() {
        if !later_passes(
            alloc,
            state,
            parent,
            &accounts[hop - 1],
            &accounts[hop],
            now,
        )? {
            return Ok(Some(hop));
        }
    }
    Ok(None)
}

fn first_passes(
    alloc: Global,
    state: &State,
    parent: u32,
    account: &Account,
    now: u64,
) -> Result<bool, AllocError>
    requires { parent < length state.now.content.links }
    ensures { IfOk result (λ passes. option_map (λ found. first_hop state.now.content.view found account.now now)
        (chain state.now.content parent) ≡ Some passes) }
{
    let (permission, resource) = asked_of(alloc, account)?;
    let passes = admits(alloc, state, parent, &permission, &resource, now);
    drop(permission);
    drop(resource);
    passes
}

fn later_passes(
    alloc: Global,
    state: &State,
    parent: u32,
    before: &Account,
    account: &Account,
    now: u64,
) -> Result<bool, AllocError>
    requires { parent < length state.now.content.links }
    ensures { IfOk result (λ passes. option_map (λ found. later_hop state.now.content.view found before.now account.now now)
        (chain state.now.content parent) ≡ Some passes) }
{
    let (permission, resource) = asked_of(alloc, account)?;
    let passes = is_granted_on(alloc, state, parent, before, &permission, &resource, now);
    drop(permission);
    drop(resource);
    passes
}

// The permission that a hop asks for, and the account as the resource that it's asked on.
fn asked_of(alloc: Global, account: &Account) -> Result<(Permission, Resource), AllocError>
    ensures { IfOk result (λ asked. (asked.0 ≡ to_get_access_token) × (asked.1 ≡ resource_of account.now)) }
{
    both(get_access_token(alloc), account_resource(alloc, account))
}

fn get_access_token(alloc: Global) -> Result<Permission, AllocError>
    ensures { IfOk result (λ permission. permission ≡ to_get_access_token) }
{
    match Permission::read(alloc, GET_ACCESS_TOKEN) {
        Ok(permission) => Ok(permission),
        // The text has its form.
        Err(NameError::Form | NameError::Memory) => Err(AllocError),
    }
}

// Whether the account before is granted the permission, and the link allows it.
fn is_granted_on(
    alloc: Global,
    state: &State,
    parent: u32,
    before: &Account,
    permission: &Permission,
    resource: &Resource,
    now: u64,
) -> Result<bool, AllocError>
    requires { parent < length state.now.content.links }
    ensures { IfOk result (λ yes. option_map (λ found. granted state.now.content.view.lists (principals.Account before.now) permission.now resource.now now
        && allowed state.now.content.view found permission.now resource.now now) (chain state.now.content parent) ≡ Some yes) }
{
    if !allows(alloc, state, parent, permission, resource, now)? {
        return Ok(false);
    }
    is_account_granted(alloc, state, before, permission, resource, now)
}

fn is_account_granted(
    alloc: Global,
    state: &State,
    account: &Account,
    permission: &Permission,
    resource: &Resource,
    now: u64,
) -> Result<bool, AllocError>
    ensures { IfOk result (λ yes. yes ≡ granted state.now.content.view.lists (principals.Account account.now) permission.now resource.now now) }
{
    let who = Who::Account(account.copy(alloc)?);
    let yes = is_granted(alloc, state.view(), &who, permission, resource, now);
    drop(who);
    yes
}
