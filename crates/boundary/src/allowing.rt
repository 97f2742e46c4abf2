ghost use Rattle.std.specs.Prelude.{◌≡◌, IfOk};
ghost use Rattle.std.specs.List.{list_any};
ghost use Rattle.iam_names.specs.Roles.{holds};
ghost use Rattle.boundary.specs.Allowing as allowing;

use crate::rules::{Boundary, Rule};
use allow_policy::condition_holds;
use iam_names::{Permission, Resource, Role, Roles, covers};
use std::alloc::{AllocError, Global};

/// Whether some rule of the boundary allows the permission on the resource at the moment `now` in seconds
/// since 1970-01-01T00:00:00Z.
#[tactic(auto, unfolding(crate::specs::Allowing::boundary_allows))]
pub fn allows(
    alloc: Global,
    roles: &Roles,
    boundary: &Boundary,
    permission: &Permission,
    resource: &Resource,
    now: u64,
) -> Result<bool, AllocError>
    ensures { IfOk result (λ yes. yes ≡ allowing.boundary_allows roles.now.rows boundary.now permission.now resource.now now) }
{
    for rule in boundary.rules.as_slice() {
        if rule_allows(alloc, roles, rule, permission, resource, now)? {
            return Ok(true);
        }
    }
    Ok(false)
}

fn rule_allows(
    alloc: Global,
    roles: &Roles,
    rule: &Rule,
    permission: &Permission,
    resource: &Resource,
    now: u64,
) -> Result<bool, AllocError>
    ensures { IfOk result (λ yes. yes ≡ allowing.rule_allows roles.now.rows permission.now resource.now now rule.now) }
{
    if !covers(&rule.resource, resource) {
        return Ok(false);
    }
    if !is_held(roles, rule.roles.as_slice(), permission) {
        return Ok(false);
    }
    condition_holds(alloc, rule.condition.as_ref(), resource, now)
}

// Whether one of these roles holds the permission now.
fn is_held(roles: &Roles, of: &[Role], permission: &Permission) -> bool
    ensures { result ≡ list_any (λ role. holds roles.now.rows role permission.now) of.now }
{
    of.iter().any(|role| roles.holds(role, permission))
}
