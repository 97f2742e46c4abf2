ghost use Rattle.std.specs.Prelude.{◌≡◌, IfOk};
ghost use Rattle.serde_json.specs.View.{view};
ghost use Rattle.base_types.specs.Forms.{passing};
ghost use Rattle.json_text.specs.Members.{name_at as name_member};
ghost use Rattle.sts_admin.specs.Members as members;

use allow_policy::ScopeSet;
use base_types::Items;
use iam_names::{Form, Name, NameError, Permission};
use json_text::{ReadFault, ReadsJson, short_list, switch, text_at, where_formed};
use serde_json::Value;
use std::alloc::{AllocError, Global};

const PERMISSIONS: usize = 256;

fn name_of<F: Form>(alloc: Global, text: &str) -> Result<Option<Name<F>>, AllocError>
    ensures { IfOk result (λ found. found ≡ passing F.is_of_form text.now) }
{
    match Name::read(alloc, text) {
        Ok(name) => Ok(Some(name)),
        Err(NameError::Form) => Ok(None),
        Err(NameError::Memory) => Err(AllocError),
    }
}

/// The text of the form under a name.
pub fn name_at<F: Form>(
    alloc: Global,
    json: &Value,
    name: &str,
) -> Result<Option<Name<F>>, AllocError>
    ensures { IfOk result (λ found. found ≡ name_member F.is_of_form name.now (view json.now)) }
{
    match text_at(json, name) {
        None => Ok(None),
        Some(text) => name_of(alloc, text),
    }
}

/// Whether the object says that it is disabled.
pub(crate) fn disabled_at(json: &Value) -> Option<bool>
    ensures { result ≡ members.disabled_at (view json.now) }
{
    switch(json.get("disabled"))
}

/// The form of a permission.
struct PermissionItem;

impl ReadsJson for PermissionItem {
    ghost use Rattle.sts_admin.specs.Members.{permission_of};

    type Item = Permission;

    ghost meaning = { permission_of };

    fn read_json(alloc: Global, json: &Value) -> Result<Permission, ReadFault> {
        let Some(text) = json.as_str() else {
            return Err(ReadFault::Form);
        };
        match Permission::read(alloc, text) {
            Ok(permission) => Ok(permission),
            Err(NameError::Form) => Err(ReadFault::Form),
            Err(NameError::Memory) => Err(ReadFault::Memory),
        }
    }
}

/// An array of at most 256 permissions.
fn permissions_of(alloc: Global, json: &Value) -> Result<Option<Items<Permission>>, AllocError>
    ensures { IfOk result (λ found. found ≡ members.permissions_of (view json.now)) }
{
    where_formed(short_list::<PermissionItem>(alloc, json, PERMISSIONS))
}

/// The permissions under `permissions`.
pub(crate) fn permissions_at(
    alloc: Global,
    json: &Value,
) -> Result<Option<Items<Permission>>, AllocError>
    ensures { IfOk result (λ found. found ≡ members.permissions_at (view json.now)) }
{
    match json.get("permissions") {
        None => Ok(None),
        Some(permissions) => permissions_of(alloc, permissions),
    }
}

fn is_star(json: &Value) -> bool
    ensures { result ≡ members.is_star (view json.now) }
{
    match json.as_str() {
        None => false,
        Some(text) => text == "*",
    }
}

fn scope_set_of(alloc: Global, json: &Value) -> Result<Option<ScopeSet>, AllocError>
    ensures { IfOk result (λ found. found ≡ members.scope_set_of (view json.now)) }
{
    if is_star(json) {
        return Ok(Some(ScopeSet::All));
    }
    match permissions_of(alloc, json)? {
        None => Ok(None),
        Some(permissions) => Ok(Some(ScopeSet::List(permissions))),
    }
}

/// What a scope word stands for, under `permissions`.
pub(crate) fn scope_set_at(alloc: Global, json: &Value) -> Result<Option<ScopeSet>, AllocError>
    ensures { IfOk result (λ found. found ≡ members.scope_set_at (view json.now)) }
{
    match json.get("permissions") {
        None => Ok(None),
        Some(permissions) => scope_set_of(alloc, permissions),
    }
}
