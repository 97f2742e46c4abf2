ghost use Rattle.std.specs.Prelude.{◌≡◌, IfOk, OnOk};
ghost use Rattle.serde_json.specs.Data.{object, no_members};
ghost use Rattle.serde_json.specs.View.{view, members_view};
ghost use Rattle.command_texts.specs.Written as written;

use crate::binding::put_policy;
use crate::permission::{put_role, put_scope};
use crate::provider::put_provider;
use iam_names::{Account, PoolName};
use json_text::put_text;
use serde_json::{Map, Value};
use service_view::Command;
use std::alloc::{AllocError, Global};

#[tactic(auto, unfolding(crate::specs::Written::pool_data))]
fn put_pool(
    alloc: Global,
    members: &mut Map<String, Value>,
    pool: &PoolName,
    disabled: bool,
) -> Result<(), AllocError>
    requires { members_view members.old.entries ≡ no_members }
    ensures { OnOk result (object (members_view members.new.entries) ≡ written.pool_data pool.now disabled) }
{
    serde_json::put(members, alloc, "disabled", Value::Bool(disabled))?;
    put_text(alloc, members, "kind", "pool")?;
    put_text(alloc, members, "pool", pool.pool.as_str())?;
    put_text(alloc, members, "project", pool.project.as_str())
}

#[tactic(auto, unfolding(crate::specs::Written::account_data))]
fn put_account(
    alloc: Global,
    members: &mut Map<String, Value>,
    account: &Account,
    disabled: bool,
) -> Result<(), AllocError>
    requires { members_view members.old.entries ≡ no_members }
    ensures { OnOk result (object (members_view members.new.entries) ≡ written.account_data account.now disabled) }
{
    serde_json::put(members, alloc, "disabled", Value::Bool(disabled))?;
    put_text(alloc, members, "email", account.as_str())?;
    put_text(alloc, members, "kind", "account")
}

#[tactic(auto, unfolding(crate::specs::Written::command_data))]
fn put_members(
    alloc: Global,
    members: &mut Map<String, Value>,
    command: &Command,
) -> Result<(), AllocError>
    requires { members_view members.old.entries ≡ no_members }
    ensures { OnOk result (object (members_view members.new.entries) ≡ written.command_data command.now) }
{
    match command {
        Command::Pool { pool, disabled } => put_pool(alloc, members, pool, *disabled),
        Command::Provider(provider) => put_provider(alloc, members, provider),
        Command::Account { account, disabled } => put_account(alloc, members, account, *disabled),
        Command::Role { role, permissions } => {
            put_role(alloc, members, role, permissions.as_slice())
        }
        Command::Scope { word, permissions } => put_scope(alloc, members, word, permissions),
        Command::Policy { resource, bindings } => {
            put_policy(alloc, members, resource, bindings.as_slice())
        }
    }
}

/// The command's object, as the journal holds it.
pub fn command_value(alloc: Global, command: &Command) -> Result<Value, AllocError>
    ensures { IfOk result (λ value. view value ≡ written.command_data command.now) }
{
    let mut members = Map::new(alloc);
    put_members(alloc, &mut members, command)?;
    Ok(Value::Object(members))
}
