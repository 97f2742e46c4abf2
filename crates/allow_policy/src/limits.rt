ghost use Rattle.std.specs.Prelude.{◌≡◌, ◌&&◌, ◌||◌, nat_lt, nat_le, length, not};
ghost use Rattle.std.specs.List.{list_all, list_any};
ghost use Rattle.allow_policy.specs.Puts as puts;

use crate::binding::Binding;
use crate::policies::Policies;
use crate::put_fault::PutFault;
use crate::scope_set::ScopeSet;
use base_types::Register;
use iam_names::{Permission, Resource, Role, ScopeWord};

const PERMISSIONS: usize = 256;

const ROLES: usize = 1_000;

const SCOPE_WORDS: usize = 1_000;

const POLICIES: usize = 10_000;

const BINDINGS: usize = 64;

const MEMBERS: usize = 64;

/// Whether a register has so many names, and this is none of them.
fn is_full<V>(register: &Register<V>, name: &str, most: usize) -> bool
    ensures { result ≡ puts.is_full most name.now register.now.rows }
{
    !register.contains(name) && most <= register.len()
}

fn are_roles_full(p: &Policies, role: &Role) -> bool
    ensures { result ≡ puts.is_full 1000 role.now p.now.lists.roles }
{
    !p.roles.knows(role) && ROLES <= p.roles.len()
}

/// Why a role can't be put.
pub(crate) fn role_fault(p: &Policies, role: &Role, permissions: &[Permission]) -> Option<PutFault>
    ensures { result ≡ puts.role_fault p.now.lists role.now permissions.now }
{
    if PERMISSIONS < permissions.len() || are_roles_full(p, role) {
        return Some(PutFault::Limit);
    }
    None
}

fn is_long(what: &ScopeSet) -> bool
    ensures { result ≡ puts.is_long what.now }
{
    match what {
        ScopeSet::All => false,
        ScopeSet::List(permissions) => PERMISSIONS < permissions.len(),
    }
}

/// Why a scope word can't be put.
pub(crate) fn scope_fault(p: &Policies, word: &ScopeWord, what: &ScopeSet) -> Option<PutFault>
    ensures { result ≡ puts.scope_fault p.now.lists word.now what.now }
{
    if is_long(what) || is_full(&p.scopes, word.as_str(), SCOPE_WORDS) {
        return Some(PutFault::Limit);
    }
    None
}

fn knows_roles(p: &Policies, bindings: &[Binding]) -> bool
    ensures { result ≡ list_all (puts.knows_role p.now.lists) bindings.now }
{
    bindings.iter().all(|binding| p.roles.knows(&binding.role))
}

fn has_many_members(binding: &Binding) -> bool
    ensures { result ≡ puts.has_many_members binding.now }
{
    MEMBERS < binding.members.len()
}

fn is_any_long(bindings: &[Binding]) -> bool
    ensures { result ≡ list_any puts.has_many_members bindings.now }
{
    bindings.iter().any(|binding| has_many_members(binding))
}

fn is_over_limit(p: &Policies, resource: &Resource, bindings: &[Binding]) -> bool
    ensures { result ≡ puts.is_over_limit p.now.lists resource.now bindings.now }
{
    BINDINGS < bindings.len()
        || is_any_long(bindings)
        || is_full(&p.policies, resource.as_str(), POLICIES)
}

/// Why a policy can't be put.
pub(crate) fn policy_fault(
    p: &Policies,
    resource: &Resource,
    bindings: &[Binding],
) -> Option<PutFault>
    ensures { result ≡ puts.policy_fault p.now.lists resource.now bindings.now }
{
    if !knows_roles(p, bindings) {
        return Some(PutFault::UnknownRole);
    }
    if is_over_limit(p, resource, bindings) {
        return Some(PutFault::Limit);
    }
    None
}
