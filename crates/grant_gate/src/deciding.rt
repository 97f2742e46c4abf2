ghost use Rattle.std.specs.Prelude.{◌≡◌, ◌≤◌, IfOk, length};
ghost use Rattle.base_types.specs.Rules.{first_of};
ghost use Rattle.service_view.specs.View.{pool_enabled, account_enabled};
ghost use Rattle.allow_policy.specs.Granting.{granted as is_granted};
ghost use Rattle.grant_gate.specs.Decision as decisions;

use crate::decision::{Decision, GateRule};
use crate::fault::GateFault;
use crate::reading::carried;
use access_token::Facts;
use allow_policy::{granted, scope_allows};
use base_types::Items;
use boundary::{Boundary, allows};
use iam_names::{Account, Permission, PoolName, Resource, ScopeWord, Who};
use service_view::View;
use std::alloc::{AllocError, Global};

/// Decides by what a token's text carries whether a permission on a resource is admitted at the moment `now`, in seconds
/// since 1970-01-01T00:00:00Z. Pools, accounts, scope words and policies are those of the view; no link is looked at.
#[tactic(auto, unfolding(crate::specs::Decision::carried_decision))]
pub fn decide(
    alloc: Global,
    view: &View,
    key: &[u8],
    issuer: &str,
    text: &str,
    permission: &Permission,
    resource: &Resource,
    now: u64,
) -> Result<Decision, AllocError>
    requires { 32 ≤ length key.now }
    ensures { IfOk result (λ decision. decision ≡ decisions.carried_decision view.now.content key.now issuer.now text.now permission.now resource.now now) }
{
    match carried(alloc, key, issuer, text) {
        Ok(facts) => {
            let decision = decide_facts(alloc, view, &facts, permission, resource, now);
            drop(facts);
            decision
        }
        Err(GateFault::Shape) => Ok(denied(GateRule::G1)),
        Err(GateFault::Mac) => Ok(denied(GateRule::G2)),
        Err(GateFault::Claims) => Ok(denied(GateRule::G3)),
        Err(GateFault::Memory) => Err(AllocError),
    }
}

fn denied(rule: GateRule) -> Decision
    ensures { result ≡ Decision.Deny rule 0 }
{
    Decision::Deny { rule, place: 0 }
}

#[tactic(auto, unfolding(crate::specs::Decision::facts_decision))]
fn decide_facts(
    alloc: Global,
    view: &View,
    facts: &Facts,
    permission: &Permission,
    resource: &Resource,
    now: u64,
) -> Result<Decision, AllocError>
    ensures { IfOk result (λ decision. decision ≡ decisions.facts_decision view.now.content facts.now permission.now resource.now now) }
{
    if let Some(denial) = denial_of(view, facts, permission, now) {
        return Ok(denial);
    }
    if let Some(place) = unfit_boundary(
        alloc,
        view,
        facts.bounds.as_slice(),
        permission,
        resource,
        now,
    )? {
        return Ok(Decision::Deny {
            rule: GateRule::G8,
            place,
        });
    }
    grant(alloc, view, &facts.who, permission, resource, now)
}

// The first rule that fails, but for the boundaries and the grant.
fn denial_of(view: &View, facts: &Facts, permission: &Permission, now: u64) -> Option<Decision>
    ensures { result ≡ first_of (decisions.denials_before view.now.content facts.now permission.now now) }
{
    if now >= facts.exp {
        return Some(denied(GateRule::G4));
    }
    if let Some(place) = disabled_pool(view, facts.pools.as_slice()) {
        return Some(Decision::Deny {
            rule: GateRule::G5,
            place,
        });
    }
    if let Some(place) = disabled_account(view, facts.accounts.as_slice()) {
        return Some(Decision::Deny {
            rule: GateRule::G6,
            place,
        });
    }
    if let Some(place) = unfit_words(view, facts.scopes.as_slice(), permission) {
        return Some(Decision::Deny {
            rule: GateRule::G7,
            place,
        });
    }
    None
}

fn grant(
    alloc: Global,
    view: &View,
    who: &Who,
    permission: &Permission,
    resource: &Resource,
    now: u64,
) -> Result<Decision, AllocError>
    ensures { IfOk result (λ decision. decision ≡ decisions.granted_or (is_granted view.now.content.lists who.now permission.now resource.now now)) }
{
    if granted(alloc, &view.policies, who, permission, resource, now)? {
        return Ok(Decision::Admit);
    }
    Ok(denied(GateRule::G9))
}

fn disabled_pool(view: &View, pools: &[PoolName]) -> Option<usize>
    ensures { result ≡ decisions.place_failing (pool_enabled view.now.content) pools.now }
{
    for place in 0..pools.len() {
        if !view.is_pool_enabled(&pools[place]) {
            return Some(place);
        }
    }
    None
}

fn disabled_account(view: &View, accounts: &[Account]) -> Option<usize>
    ensures { result ≡ decisions.place_failing (account_enabled view.now.content) accounts.now }
{
    for place in 0..accounts.len() {
        if !view.is_account_enabled(&accounts[place]) {
            return Some(place);
        }
    }
    None
}

// The first list of words of which none allows the permission.
fn unfit_words(view: &View, scopes: &[Items<ScopeWord>], permission: &Permission) -> Option<usize>
    ensures { result ≡ decisions.place_failing (decisions.words_allow view.now.content permission.now) scopes.now }
{
    for place in 0..scopes.len() {
        if !scope_allows(&view.policies, scopes[place].as_slice(), permission) {
            return Some(place);
        }
    }
    None
}

// The first boundary that doesn't allow the permission on the resource.
fn unfit_boundary(
    alloc: Global,
    view: &View,
    bounds: &[Boundary],
    permission: &Permission,
    resource: &Resource,
    now: u64,
) -> Result<Option<usize>, AllocError>
    ensures { IfOk result (λ place. place ≡ decisions.place_failing (decisions.boundary_holds view.now.content permission.now resource.now now) bounds.now) }
{
    for place in 0..bounds.len() {
        if !allows(
            alloc,
            &view.policies.roles,
            &bounds[place],
            permission,
            resource,
            now,
        )? {
            return Ok(Some(place));
        }
    }
    Ok(None)
}
