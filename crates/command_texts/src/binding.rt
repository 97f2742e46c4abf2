ghost use Rattle.std.specs.Prelude.{◌≡◌, IfOk, OnOk};
ghost use Rattle.serde_json.specs.Data.{object, array, no_members};
ghost use Rattle.serde_json.specs.View.{view, members_view};
ghost use Rattle.boundary.specs.Written.{items, condition_data};
ghost use Rattle.command_texts.specs.Written as written;

use allow_policy::Binding;
use cel_expression::Expression;
use iam_names::{Member, Resource};
use json_text::put_text;
use serde_json::{Map, Value};
use std::alloc::{AllocError, Global};

fn member_value(alloc: Global, member: &Member) -> Result<Value, AllocError>
    ensures { IfOk result (λ value. view value ≡ written.member_data member.now) }
{
    let text = member.print(alloc)?;
    Value::try_from_str(alloc, text.as_str())
}

fn members_value(alloc: Global, members: &[Member]) -> Result<Value, AllocError>
    ensures { IfOk result (λ value. view value ≡ array (items written.member_data members.now)) }
{
    let mut values = Vec::new(alloc);
    for member in members {
        serde_json::push(&mut values, member_value(alloc, member)?)?;
    }
    Ok(Value::Array(values))
}

fn condition_value(alloc: Global, condition: &Expression) -> Result<Value, AllocError>
    ensures { IfOk result (λ value. view value ≡ condition_data condition.now) }
{
    let mut members = Map::new(alloc);
    put_text(alloc, &mut members, "expression", condition.text.as_str())?;
    Ok(Value::Object(members))
}

#[tactic(auto, unfolding(crate::specs::Written::binding_data))]
fn put_binding(
    alloc: Global,
    members: &mut Map<String, Value>,
    binding: &Binding,
) -> Result<(), AllocError>
    requires { members_view members.old.entries ≡ no_members }
    ensures { OnOk result (object (members_view members.new.entries) ≡ written.binding_data binding.now) }
{
    if let Some(condition) = &binding.condition {
        let value = condition_value(alloc, condition)?;
        serde_json::put(members, alloc, "condition", value)?;
    }
    let named = members_value(alloc, binding.members.as_slice())?;
    serde_json::put(members, alloc, "members", named)?;
    put_text(alloc, members, "role", binding.role.as_str())
}

fn binding_value(alloc: Global, binding: &Binding) -> Result<Value, AllocError>
    ensures { IfOk result (λ value. view value ≡ written.binding_data binding.now) }
{
    let mut members = Map::new(alloc);
    put_binding(alloc, &mut members, binding)?;
    Ok(Value::Object(members))
}

fn bindings_value(alloc: Global, bindings: &[Binding]) -> Result<Value, AllocError>
    ensures { IfOk result (λ value. view value ≡ array (items written.binding_data bindings.now)) }
{
    let mut values = Vec::new(alloc);
    for binding in bindings {
        serde_json::push(&mut values, binding_value(alloc, binding)?)?;
    }
    Ok(Value::Array(values))
}

/// Puts the members of the command that puts a policy.
#[tactic(auto, unfolding(crate::specs::Written::policy_data))]
pub(crate) fn put_policy(
    alloc: Global,
    members: &mut Map<String, Value>,
    resource: &Resource,
    bindings: &[Binding],
) -> Result<(), AllocError>
    requires { members_view members.old.entries ≡ no_members }
    ensures { OnOk result (object (members_view members.new.entries) ≡ written.policy_data resource.now bindings.now) }
{
    let bindings = bindings_value(alloc, bindings)?;
    serde_json::put(members, alloc, "bindings", bindings)?;
    put_text(alloc, members, "kind", "policy")?;
    put_text(alloc, members, "resource", resource.as_str())
}
