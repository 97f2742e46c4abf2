ghost use Rattle.std.specs.Prelude.{◌≡◌, ◌⊎◌, ℕ, Option, Ok, Err, IfOk};
ghost use Rattle.std.specs.List.{AllByRecursion};
ghost use Rattle.serde_json.specs.View.{view, items_view};
ghost use Rattle.base_types.specs.Steps.{needed as needed_at};
ghost use Rattle.json_text.specs.Reads.{Reads};
ghost use Rattle.boundary.specs.declared.rules.Boundary.{Boundary as Limits};
ghost use Rattle.boundary.specs.declared.fault.BoundaryError.TheVariants.{Fault, Memory};
ghost use Rattle.boundary.specs.Answers.{Gives};
ghost use Rattle.boundary.specs.Boundaries as form;
ghost use Rattle.boundary.specs.Exact.{AreSaid, IsExactBoundary};
ghost use Rattle.boundary.specs.Written.{listed_boundary};

use crate::fault::{BoundaryCause, BoundaryError};
use crate::parts::{condition_at, resource_at, roles_at};
use crate::rules::{Boundary, Rule};
use base_types::{Items, both};
use json_text::ReadFault;
use serde_json::Value;
use std::alloc::Global;

const RULES: usize = 10;

// What was read, or the refusal of the rule that lacks it.
fn needed<T: Drop>(
    read: Result<T, ReadFault>,
    rule: usize,
    cause: BoundaryCause,
) -> Result<T, BoundaryError>
    ensures gives { (there : Option T) → Reads read there → Gives result (needed_at (form.refusal rule cause) there) }
    ensures same { IfOk result (λ value. read ≡ Ok value) }
{
    match read {
        Ok(value) => Ok(value),
        Err(ReadFault::Form) => Err(BoundaryError::Fault { rule, cause }),
        Err(ReadFault::Memory) => Err(BoundaryError::Memory),
    }
}

#[tactic(auto, unfolding(crate::specs::Boundaries::rule_of))]
fn read_rule(alloc: Global, number: usize, json: &Value) -> Result<Rule, BoundaryError>
    ensures read { Gives result (form.rule_of number (view json.now)) }
    ensures said { IfOk result AreSaid }
{
    let resource = needed(resource_at(alloc, json), number, BoundaryCause::Resource);
    let roles = needed(roles_at(alloc, json), number, BoundaryCause::Permission);
    let condition = needed(condition_at(alloc, json), number, BoundaryCause::Condition);
    let (resource, (roles, condition)) = both(resource, both(roles, condition))?;
    Ok(Rule {
        resource,
        roles,
        condition,
    })
}

fn read_rules(alloc: Global, items: &[Value]) -> Result<Items<Rule>, BoundaryError>
    ensures read { Gives result (form.rules_from 0 (items_view items.now)) }
    ensures said { IfOk result (λ rules. AllByRecursion AreSaid rules) }
{
    let mut rules = Items::new(alloc);
    for (number, item) in items.iter().enumerate() {
        rules.push(read_rule(alloc, number, item)?)?;
    }
    Ok(rules)
}

#[tactic(auto, unfolding(crate::specs::Boundaries::boundary_in))]
fn boundary_in(alloc: Global, items: &[Value]) -> Result<Boundary, BoundaryError>
    ensures read { Gives result (form.boundary_in (items_view items.now)) }
    ensures exact { IfOk result IsExactBoundary }
{
    if items.is_empty() {
        return Err(BoundaryError::Fault {
            rule: 0,
            cause: BoundaryCause::Shape,
        });
    }
    if RULES < items.len() {
        return Err(BoundaryError::Fault {
            rule: RULES,
            cause: BoundaryCause::TooMany,
        });
    }
    let rules = read_rules(alloc, items)?;
    Ok(Boundary { rules })
}

#[tactic(auto, unfolding(crate::specs::Boundaries::boundary_of))]
fn boundary_from(alloc: Global, json: &Value) -> Result<Boundary, BoundaryError>
    ensures read { Gives result (form.boundary_of (view json.now)) }
    ensures exact { IfOk result IsExactBoundary }
{
    match json.get("accessBoundaryRules").and_then(Value::as_array) {
        Some(items) => boundary_in(alloc, items.as_slice()),
        None => Err(BoundaryError::Fault {
            rule: 0,
            cause: BoundaryCause::Shape,
        }),
    }
}

/// The boundary that a JSON object is, or the first rule that is refused and why. Its member `accessBoundaryRules` is an array of
/// 1 to 10 objects. Each has
///
/// - `availableResource`, a resource,
/// - `availablePermissions`, an array of 1 to 10 texts `inRole:ROLE`,
/// - and perhaps `availabilityCondition`, an object with a text `expression` that is a boolean expression over `resource` and `request`.
///
/// Other members don't count. The number of rules is looked at first, and then the members of each rule in this order.
pub fn read_boundary(alloc: Global, json: &Value) -> Result<Boundary, BoundaryError>
    ensures read { IfOk result (λ boundary. form.boundary_of (view json.now) ≡ Ok boundary) }
    ensures refused { (refusal : form.Refusal) → result ≡ Err (Fault refusal.rule refusal.cause)
        → form.boundary_of (view json.now) ≡ Err refusal }
    ensures good { (boundary : Limits) → form.boundary_of (view json.now) ≡ Ok boundary
        → (result ≡ Ok boundary) ⊎ (result ≡ Err Memory) }
    ensures faulty { (refusal : form.Refusal) → form.boundary_of (view json.now) ≡ Err refusal
        → (result ≡ Err (Fault refusal.rule refusal.cause)) ⊎ (result ≡ Err Memory) }
    ensures exact { IfOk result IsExactBoundary }
{
    boundary_from(alloc, json)
}

/// The boundary that a JSON array of rules is, as tokens and the journal hold it.
#[tactic(auto, unfolding(crate::specs::Written::listed_boundary))]
pub fn read_listed(alloc: Global, json: &Value) -> Result<Boundary, ReadFault>
    ensures read { Reads result (listed_boundary (view json.now)) }
    ensures exact { IfOk result IsExactBoundary }
{
    let Some(items) = json.as_array() else {
        return Err(ReadFault::Form);
    };
    match boundary_in(alloc, items.as_slice()) {
        Ok(boundary) => Ok(boundary),
        Err(BoundaryError::Fault { .. }) => Err(ReadFault::Form),
        Err(BoundaryError::Memory) => Err(ReadFault::Memory),
    }
}
