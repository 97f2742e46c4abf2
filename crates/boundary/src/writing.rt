ghost use Rattle.std.specs.Prelude.{◌≡◌, option_map, IfOk, OnOk};
ghost use Rattle.serde_json.specs.Data.{object, array, no_members};
ghost use Rattle.serde_json.specs.View.{view, members_view};
ghost use Rattle.boundary.specs.Written as written;

use crate::rules::{Boundary, Rule};
use cel_expression::Expression;
use iam_names::Role;
use json_text::put_text;
use serde_json::{Map, Value};
use std::alloc::{AllocError, Global};

fn role_value(alloc: Global, role: &Role) -> Result<Value, AllocError>
    ensures { IfOk result (λ value. view value ≡ written.role_data role.now) }
{
    let role = role.as_str();
    Ok(Value::String(format!(in alloc; "inRole:{role}")?))
}

fn roles_value(alloc: Global, roles: &[Role]) -> Result<Value, AllocError>
    ensures { IfOk result (λ value. view value ≡ array (written.items written.role_data roles.now)) }
{
    let mut values = Vec::new(alloc);
    for role in roles {
        serde_json::push(&mut values, role_value(alloc, role)?)?;
    }
    Ok(Value::Array(values))
}

fn condition_value(alloc: Global, condition: &Expression) -> Result<Value, AllocError>
    ensures { IfOk result (λ value. view value ≡ written.condition_data condition.now) }
{
    let mut members = Map::new(alloc);
    put_text(alloc, &mut members, "expression", condition.text.as_str())?;
    Ok(Value::Object(members))
}

#[tactic(auto, unfolding(crate::specs::Written::rule_data))]
fn put_rule(alloc: Global, members: &mut Map<String, Value>, rule: &Rule) -> Result<(), AllocError>
    requires { members_view members.old.entries ≡ no_members }
    ensures { OnOk result (object (members_view members.new.entries) ≡ written.rule_data rule.now) }
{
    if let Some(condition) = &rule.condition {
        let value = condition_value(alloc, condition)?;
        serde_json::put(members, alloc, "availabilityCondition", value)?;
    }
    let roles = roles_value(alloc, rule.roles.as_slice())?;
    serde_json::put(members, alloc, "availablePermissions", roles)?;
    put_text(alloc, members, "availableResource", rule.resource.as_str())
}

fn rule_value(alloc: Global, rule: &Rule) -> Result<Value, AllocError>
    ensures { IfOk result (λ value. view value ≡ written.rule_data rule.now) }
{
    let mut members = Map::new(alloc);
    put_rule(alloc, &mut members, rule)?;
    Ok(Value::Object(members))
}

/// The array of the boundary's rules, as tokens and the journal hold them.
#[tactic(auto, unfolding(crate::specs::Written::boundary_data))]
pub fn boundary_value(alloc: Global, boundary: &Boundary) -> Result<Value, AllocError>
    ensures { IfOk result (λ value. view value ≡ written.boundary_data boundary.now) }
{
    let mut values = Vec::new(alloc);
    for rule in boundary.rules.as_slice() {
        serde_json::push(&mut values, rule_value(alloc, rule)?)?;
    }
    Ok(Value::Array(values))
}
