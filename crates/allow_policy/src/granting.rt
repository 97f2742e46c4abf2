ghost use Rattle.std.specs.Prelude.{◌≡◌, IfOk};
ghost use Rattle.std.specs.List.{list_any};
ghost use Rattle.iam_names.specs.Member.{names_who as member_names};
ghost use Rattle.allow_policy.specs.Granting as granting;

use crate::binding::Binding;
use crate::condition::condition_holds;
use crate::policies::Policies;
use crate::scope_set::ScopeSet;
use base_types::{Items, Text};
use iam_names::{
    Member, Permission, Resource, ScopeWord, Who, covers_text, has_permission, names_who,
};
use std::alloc::{AllocError, Global};

/// Whether some binding of a policy at a resource that covers this one grants the permission to who
/// asks, at the moment `now` in seconds.
#[tactic(auto, unfolding(crate::specs::Granting::granted))]
pub fn granted(
    alloc: Global,
    p: &Policies,
    who: &Who,
    permission: &Permission,
    resource: &Resource,
    now: u64,
) -> Result<bool, AllocError>
    ensures { IfOk result (λ yes. yes ≡ granting.granted p.now.lists who.now permission.now resource.now now) }
{
    for policy in p.policies.rows() {
        if policy_grants(alloc, p, who, permission, resource, now, policy)? {
            return Ok(true);
        }
    }
    Ok(false)
}

/// Whether some word of the list stands for all permissions or for a list with this one.
#[tactic(auto, unfolding(crate::specs::Granting::scope_allows))]
pub fn scope_allows(p: &Policies, words: &[ScopeWord], permission: &Permission) -> bool
    ensures { result ≡ granting.scope_allows p.now.lists words.now permission.now }
{
    words.iter().any(|word| word_allows(p, word, permission))
}

/// Whether the scope word is there.
pub fn knows_scope(p: &Policies, word: &str) -> bool
    ensures { result ≡ granting.knows_scope p.now.lists word.now }
{
    p.scopes.contains(word)
}

fn policy_grants(
    alloc: Global,
    p: &Policies,
    who: &Who,
    permission: &Permission,
    resource: &Resource,
    now: u64,
    policy: &(Text, Items<Binding>),
) -> Result<bool, AllocError>
    ensures { IfOk result (λ yes. yes ≡ granting.policy_grants p.now.lists who.now permission.now resource.now now policy.now) }
{
    if !covers_text(policy.0.as_str(), resource.as_str()) {
        return Ok(false);
    }
    some_binding_grants(
        alloc,
        p,
        who,
        permission,
        resource,
        now,
        policy.1.as_slice(),
    )
}

fn some_binding_grants(
    alloc: Global,
    p: &Policies,
    who: &Who,
    permission: &Permission,
    resource: &Resource,
    now: u64,
    bindings: &[Binding],
) -> Result<bool, AllocError>
    ensures { IfOk result (λ yes. yes
        ≡ list_any (granting.binding_grants p.now.lists who.now permission.now resource.now now) bindings.now) }
{
    for binding in bindings {
        if binding_grants(alloc, p, who, permission, resource, now, binding)? {
            return Ok(true);
        }
    }
    Ok(false)
}

fn binding_grants(
    alloc: Global,
    p: &Policies,
    who: &Who,
    permission: &Permission,
    resource: &Resource,
    now: u64,
    binding: &Binding,
) -> Result<bool, AllocError>
    ensures { IfOk result (λ yes. yes
        ≡ granting.binding_grants p.now.lists who.now permission.now resource.now now binding.now) }
{
    if !p.roles.holds(&binding.role, permission) {
        return Ok(false);
    }
    if !has_member(binding.members.as_slice(), who) {
        return Ok(false);
    }
    condition_holds(alloc, binding.condition.as_ref(), resource, now)
}

fn has_member(members: &[Member], who: &Who) -> bool
    ensures { result ≡ list_any (λ member. member_names member who.now) members.now }
{
    members.iter().any(|member| names_who(member, who))
}

/// Whether what the word stands for has the permission.
fn word_allows(p: &Policies, word: &ScopeWord, permission: &Permission) -> bool
    ensures { result ≡ granting.word_allows p.now.lists permission.now word.now }
{
    match p.scopes.get(word.as_str()) {
        None => false,
        Some(set) => set_allows(set, permission),
    }
}

fn set_allows(set: &ScopeSet, permission: &Permission) -> bool
    ensures { result ≡ granting.set_allows permission.now set.now }
{
    match set {
        ScopeSet::All => true,
        ScopeSet::List(permissions) => has_permission(permissions.as_slice(), permission),
    }
}
