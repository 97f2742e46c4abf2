ghost use Rattle.std.specs.Prelude.{◌≡◌, ◌≤◌, IfOk, OnOk};
ghost use Rattle.allow_policy.specs.Puts.{RefusesBy, role_fault as fault_of_role, scope_fault as fault_of_scope, policy_fault as fault_of_policy};

use crate::binding::Binding;
use crate::limits::{policy_fault, role_fault, scope_fault};
use crate::policies::Policies;
use crate::policy_row::PolicyRow;
use crate::put_fault::PutFault;
use crate::scope_set::ScopeSet;
use base_types::Items;
use iam_names::{Permission, Resource, Role, ScopeWord};

/// Makes room for the role, and refuses as `put_role` does.
pub fn ready_role(p: &mut Policies, role: &Role, permissions: &[Permission]) -> Result<(), PutFault>
    ensures refused { RefusesBy (fault_of_role p.old.lists role.now permissions.now) result }
    ensures lists { p.new.lists ≡ p.old.lists }
    ensures room { OnOk result (1 ≤ p.new.spare) }
{
    if let Some(fault) = role_fault(p, role, permissions) {
        return Err(fault);
    }
    p.make_room()?;
    Ok(())
}

/// Makes room for the scope word, and refuses as `put_scope` does.
pub fn ready_scope(p: &mut Policies, word: &ScopeWord, what: &ScopeSet) -> Result<(), PutFault>
    ensures refused { RefusesBy (fault_of_scope p.old.lists word.now what.now) result }
    ensures lists { p.new.lists ≡ p.old.lists }
    ensures room { OnOk result (1 ≤ p.new.spare) }
{
    if let Some(fault) = scope_fault(p, word, what) {
        return Err(fault);
    }
    p.make_room()?;
    Ok(())
}

/// Makes room for the policy, and refuses as `put_policy` does. The row holds its bindings.
pub fn ready(
    p: &mut Policies,
    resource: &Resource,
    bindings: Items<Binding>,
) -> Result<PolicyRow, PutFault>
    ensures row { IfOk result (λ row. row ≡ bindings) }
    ensures refused { RefusesBy (fault_of_policy p.old.lists resource.now bindings) result }
    ensures lists { p.new.lists ≡ p.old.lists }
    ensures room { OnOk result (1 ≤ p.new.spare) }
{
    if let Some(fault) = policy_fault(p, resource, bindings.as_slice()) {
        return Err(fault);
    }
    p.make_room()?;
    Ok(PolicyRow::new(bindings))
}
