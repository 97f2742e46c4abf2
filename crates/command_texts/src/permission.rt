ghost use Rattle.std.specs.Prelude.{◌≡◌, IfOk, OnOk};
ghost use Rattle.serde_json.specs.Data.{object, no_members};
ghost use Rattle.serde_json.specs.View.{view, members_view};
ghost use Rattle.json_text.specs.Document.{texts_data};
ghost use Rattle.command_texts.specs.Written as written;

use allow_policy::ScopeSet;
use iam_names::{Permission, Role, ScopeWord};
use json_text::put_text;
use serde_json::{Map, Value};
use std::alloc::{AllocError, Global};

fn permissions_value(alloc: Global, permissions: &[Permission]) -> Result<Value, AllocError>
    ensures { IfOk result (λ value. view value ≡ texts_data permissions.now) }
{
    let mut values = Vec::new(alloc);
    for permission in permissions {
        serde_json::push(
            &mut values,
            Value::try_from_str(alloc, permission.as_str())?,
        )?;
    }
    Ok(Value::Array(values))
}

fn scope_set_value(alloc: Global, permissions: &ScopeSet) -> Result<Value, AllocError>
    ensures { IfOk result (λ value. view value ≡ written.scope_set_data permissions.now) }
{
    match permissions {
        ScopeSet::All => Value::try_from_str(alloc, "*"),
        ScopeSet::List(permissions) => permissions_value(alloc, permissions.as_slice()),
    }
}

/// Puts the members of the command that puts a role.
#[tactic(auto, unfolding(crate::specs::Written::role_data))]
pub(crate) fn put_role(
    alloc: Global,
    members: &mut Map<String, Value>,
    role: &Role,
    permissions: &[Permission],
) -> Result<(), AllocError>
    requires { members_view members.old.entries ≡ no_members }
    ensures { OnOk result (object (members_view members.new.entries) ≡ written.role_data role.now permissions.now) }
{
    put_text(alloc, members, "kind", "role")?;
    let permissions = permissions_value(alloc, permissions)?;
    serde_json::put(members, alloc, "permissions", permissions)?;
    put_text(alloc, members, "role", role.as_str())
}

/// Puts the members of the command that puts a scope word.
#[tactic(auto, unfolding(crate::specs::Written::scope_data))]
pub(crate) fn put_scope(
    alloc: Global,
    members: &mut Map<String, Value>,
    word: &ScopeWord,
    permissions: &ScopeSet,
) -> Result<(), AllocError>
    requires { members_view members.old.entries ≡ no_members }
    ensures { OnOk result (object (members_view members.new.entries) ≡ written.scope_data word.now permissions.now) }
{
    put_text(alloc, members, "kind", "scope")?;
    let permissions = scope_set_value(alloc, permissions)?;
    serde_json::put(members, alloc, "permissions", permissions)?;
    put_text(alloc, members, "scope", word.as_str())
}
