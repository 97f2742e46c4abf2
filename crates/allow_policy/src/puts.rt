ghost use Rattle.std.specs.Prelude.{◌≡◌, ◌≤◌, OnOk, OnErr};
ghost use Rattle.allow_policy.specs.Lists.{with_role, with_scope, with_policy};
ghost use Rattle.allow_policy.specs.Puts.{RefusesBy, role_fault, scope_fault, policy_fault};

use crate::binding::Binding;
use crate::policies::Policies;
use crate::policy_row::PolicyRow;
use crate::put_fault::PutFault;
use crate::room::{ready, ready_role, ready_scope};
use crate::scope_set::ScopeSet;
use base_types::Items;
use iam_names::{Permission, Resource, Role, ScopeWord};

/// Puts the role with its permissions, in place of what stands under its name: at most 1,000 roles, and
/// 256 permissions in each.
pub fn put_role(
    p: &mut Policies,
    role: Role,
    permissions: Items<Permission>,
) -> Result<(), PutFault>
    ensures refused { RefusesBy (role_fault p.old.lists role permissions) result }
    ensures done { OnOk result (p.new.lists ≡ with_role role permissions p.old.lists) }
    ensures kept { OnErr result (p.new.lists ≡ p.old.lists) }
{
    ready_role(p, &role, permissions.as_slice())?;
    place_role(p, role, permissions);
    Ok(())
}

/// Puts what the scope word stands for, in place of what stands there: at most 1,000 words, and 256
/// permissions in each.
pub fn put_scope(p: &mut Policies, word: ScopeWord, what: ScopeSet) -> Result<(), PutFault>
    ensures refused { RefusesBy (scope_fault p.old.lists word what) result }
    ensures done { OnOk result (p.new.lists ≡ with_scope word what p.old.lists) }
    ensures kept { OnErr result (p.new.lists ≡ p.old.lists) }
{
    ready_scope(p, &word, &what)?;
    place_scope(p, word, what);
    Ok(())
}

/// Puts the policy of a resource, in place of what stands there: at most 10,000 policies, 64 bindings in
/// each, and 64 members in each binding.
pub fn put_policy(
    p: &mut Policies,
    resource: Resource,
    bindings: Items<Binding>,
) -> Result<(), PutFault>
    ensures refused { RefusesBy (policy_fault p.old.lists resource bindings) result }
    ensures done { OnOk result (p.new.lists ≡ with_policy resource bindings p.old.lists) }
    ensures kept { OnErr result (p.new.lists ≡ p.old.lists) }
{
    let row = ready(p, &resource, bindings)?;
    place(p, resource, row);
    Ok(())
}

/// What `put_role` does, after `ready_role`. It takes no memory.
pub fn place_role(p: &mut Policies, role: Role, permissions: Items<Permission>)
    requires { 1 ≤ p.old.spare }
    ensures { p.new.lists ≡ with_role role permissions p.old.lists }
{
    p.roles.place(role, permissions);
}

/// What `put_scope` does, after `ready_scope`. It takes no memory.
pub fn place_scope(p: &mut Policies, word: ScopeWord, what: ScopeSet)
    requires { 1 ≤ p.old.spare }
    ensures { p.new.lists ≡ with_scope word what p.old.lists }
{
    p.scopes.place(word.into_text(), what);
}

/// What `put_policy` does, after `ready`. It takes no memory.
pub fn place(p: &mut Policies, resource: Resource, row: PolicyRow)
    requires { 1 ≤ p.old.spare }
    ensures { p.new.lists ≡ with_policy resource row p.old.lists }
{
    p.policies.place(resource.into_text(), row.into_bindings());
}
