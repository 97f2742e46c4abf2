ghost use Rattle.std.specs.Prelude.{◌≡◌, IfOk, IfSome, option_map};
ghost use Rattle.serde_json.specs.View.{view};
ghost use Rattle.json_text.specs.Reads.{Reads};
ghost use Rattle.boundary.specs.Boundaries as form;
ghost use Rattle.boundary.specs.Exact.{IsSaid};

use allow_policy::condition_names;
use base_types::Items;
use cel_expression::Expression;
use cel_reader::read_expression;
use cel_types::CelType;
use iam_names::{NameError, Resource, Role};
use json_text::{ReadFault, ReadsJson, short_list, text_at};
use serde_json::Value;
use std::alloc::{AllocError, Global};

const ROLES: usize = 10;

/// The resource under `availableResource`.
pub(crate) fn resource_at(alloc: Global, json: &Value) -> Result<Resource, ReadFault>
    ensures { Reads result (form.resource_at (view json.now)) }
{
    let Some(text) = text_at(json, "availableResource") else {
        return Err(ReadFault::Form);
    };
    match Resource::read(alloc, text) {
        Ok(resource) => Ok(resource),
        Err(NameError::Form) => Err(ReadFault::Form),
        Err(NameError::Memory) => Err(ReadFault::Memory),
    }
}

fn role_of(alloc: Global, text: &str) -> Result<Role, ReadFault>
    ensures { Reads result (form.role_of text.now) }
{
    let Some(role) = text.strip_prefix("inRole:") else {
        return Err(ReadFault::Form);
    };
    match Role::read(alloc, role) {
        Ok(role) => Ok(role),
        Err(NameError::Form) => Err(ReadFault::Form),
        Err(NameError::Memory) => Err(ReadFault::Memory),
    }
}

/// The form of a role that a rule names.
struct RoleItem;

impl ReadsJson for RoleItem {
    ghost use Rattle.boundary.specs.Boundaries.{available_role};

    type Item = Role;

    ghost meaning = { available_role };

    #[tactic(auto, unfolding(crate::specs::Boundaries::available_role))]
    fn read_json(alloc: Global, json: &Value) -> Result<Role, ReadFault> {
        match json.as_str() {
            Some(text) => role_of(alloc, text),
            None => Err(ReadFault::Form),
        }
    }
}

fn roles_of(alloc: Global, json: &Value) -> Result<Items<Role>, ReadFault>
    ensures { Reads result (form.roles_of (view json.now)) }
{
    let roles = short_list::<RoleItem>(alloc, json, ROLES)?;
    if roles.is_empty() {
        drop(roles);
        return Err(ReadFault::Form);
    }
    Ok(roles)
}

/// The roles under `availablePermissions`.
pub(crate) fn roles_at(alloc: Global, json: &Value) -> Result<Items<Role>, ReadFault>
    ensures { Reads result (form.roles_at (view json.now)) }
{
    match json.get("availablePermissions") {
        None => Err(ReadFault::Form),
        Some(roles) => roles_of(alloc, roles),
    }
}

/// The condition that a text says, where it says one.
pub(crate) fn condition_in(alloc: Global, text: &str) -> Result<Option<Expression>, AllocError>
    ensures read { IfOk result (λ found. found ≡ form.condition_in text.now) }
    ensures said { IfOk result (λ found. IfSome found IsSaid) }
{
    let names = condition_names(alloc)?;
    let found = read_expression(alloc, text, names.as_slice(), &CelType::Bool);
    drop(names);
    found
}

fn condition_of(alloc: Global, json: Option<&Value>) -> Result<Option<Expression>, ReadFault>
    ensures read { Reads result (form.condition_of (option_map (λ json. view json.now) json.entry)) }
    ensures said { IfOk result (λ condition. IfSome condition IsSaid) }
{
    let Some(json) = json else {
        return Ok(None);
    };
    let Some(text) = text_at(json, "expression") else {
        return Err(ReadFault::Form);
    };
    match condition_in(alloc, text)? {
        Some(condition) => Ok(Some(condition)),
        None => Err(ReadFault::Form),
    }
}

/// The condition under `availabilityCondition`, which may be absent.
pub(crate) fn condition_at(alloc: Global, json: &Value) -> Result<Option<Expression>, ReadFault>
    ensures read { Reads result (form.condition_at (view json.now)) }
    ensures said { IfOk result (λ condition. IfSome condition IsSaid) }
{
    condition_of(alloc, json.get("availabilityCondition"))
}
