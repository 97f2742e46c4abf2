ghost use Rattle.std.specs.Prelude.{◌≡◌, ◌≢◌, ◌⊎◌, Ok, Err, IfOk, IfErr};
ghost use Rattle.serde_json.specs.View.{view};
ghost use Rattle.sts_admin.specs.Commands as commands;
ghost use Rattle.sts_admin.specs.Answers.{Gives};
ghost use Rattle.sts_admin.specs.Commands.{command_of};
ghost use Rattle.service_view.specs.declared.command.Command.{Command};
ghost use Rattle.sts_admin.specs.declared.command.CommandFault.{CommandFault};

use crate::bindings::{bindings_at, has_bindings};
use crate::command::{CommandFault, CommandMember};
use crate::members::{disabled_at, name_at, permissions_at, scope_set_at};
use crate::provider::provider_command;
use allow_policy::Binding;
use base_types::Items;
use iam_names::{
    AccountForm, PoolIdForm, PoolName, ProjectForm, ResourceForm, RoleForm, ScopeWordForm,
};
use json_text::text_at;
use serde_json::Value;
use service_view::Command;
use std::alloc::Global;

#[tactic(auto, unfolding(crate::specs::Commands::pool_command))]
fn pool_command(alloc: Global, json: &Value) -> Result<Command, CommandFault>
    ensures { Gives result (commands.pool_command (view json.now)) }
{
    let Some(project) = name_at::<ProjectForm>(alloc, json, "project")? else {
        return Err(CommandFault::Field(CommandMember::Project));
    };
    let Some(pool) = name_at::<PoolIdForm>(alloc, json, "pool")? else {
        return Err(CommandFault::Field(CommandMember::Pool));
    };
    let Some(disabled) = disabled_at(json) else {
        return Err(CommandFault::Field(CommandMember::Disabled));
    };
    Ok(Command::Pool {
        pool: PoolName { project, pool },
        disabled,
    })
}

#[tactic(auto, unfolding(crate::specs::Commands::account_command))]
fn account_command(alloc: Global, json: &Value) -> Result<Command, CommandFault>
    ensures { Gives result (commands.account_command (view json.now)) }
{
    let Some(account) = name_at::<AccountForm>(alloc, json, "email")? else {
        return Err(CommandFault::Field(CommandMember::Email));
    };
    let Some(disabled) = disabled_at(json) else {
        return Err(CommandFault::Field(CommandMember::Disabled));
    };
    Ok(Command::Account { account, disabled })
}

#[tactic(auto, unfolding(crate::specs::Commands::role_command))]
fn role_command(alloc: Global, json: &Value) -> Result<Command, CommandFault>
    ensures { Gives result (commands.role_command (view json.now)) }
{
    let Some(role) = name_at::<RoleForm>(alloc, json, "role")? else {
        return Err(CommandFault::Field(CommandMember::Role));
    };
    let Some(permissions) = permissions_at(alloc, json)? else {
        return Err(CommandFault::Field(CommandMember::Permissions));
    };
    Ok(Command::Role { role, permissions })
}

#[tactic(auto, unfolding(crate::specs::Commands::scope_command))]
fn scope_command(alloc: Global, json: &Value) -> Result<Command, CommandFault>
    ensures { Gives result (commands.scope_command (view json.now)) }
{
    let Some(word) = name_at::<ScopeWordForm>(alloc, json, "scope")? else {
        return Err(CommandFault::Field(CommandMember::Scope));
    };
    let Some(permissions) = scope_set_at(alloc, json)? else {
        return Err(CommandFault::Field(CommandMember::Permissions));
    };
    Ok(Command::Scope { word, permissions })
}

#[tactic(auto, unfolding(crate::specs::Commands::policy_command))]
fn policy_command(alloc: Global, json: &Value) -> Result<Command, CommandFault>
    ensures { Gives result (commands.policy_command (view json.now)) }
{
    let Some(resource) = name_at::<ResourceForm>(alloc, json, "resource")? else {
        return Err(CommandFault::Field(CommandMember::Resource));
    };
    match policy_bindings(alloc, json) {
        Ok(bindings) => Ok(Command::Policy { resource, bindings }),
        Err(fault) => {
            drop(resource);
            Err(fault)
        }
    }
}

// The form of all bindings comes before what expressions their conditions are.
fn policy_bindings(alloc: Global, json: &Value) -> Result<Items<Binding>, CommandFault>
    ensures { Gives result (commands.bindings_at (view json.now)) }
{
    if !has_bindings(alloc, json)? {
        return Err(CommandFault::Field(CommandMember::Bindings));
    }
    match bindings_at(alloc, json)? {
        Some(bindings) => Ok(bindings),
        None => Err(CommandFault::Expression(CommandMember::Bindings)),
    }
}

fn command_of_kind(alloc: Global, kind: &str, json: &Value) -> Result<Command, CommandFault>
    ensures { Gives result (commands.command_of_kind kind.now (view json.now)) }
{
    match kind {
        "pool" => pool_command(alloc, json),
        "provider" => provider_command(alloc, json),
        "account" => account_command(alloc, json),
        "role" => role_command(alloc, json),
        "scope" => scope_command(alloc, json),
        "policy" => policy_command(alloc, json),
        _ => Err(CommandFault::Kind),
    }
}

fn command_from(alloc: Global, json: &Value) -> Result<Command, CommandFault>
    ensures { Gives result (command_of (view json.now)) }
{
    match text_at(json, "kind") {
        None => Err(CommandFault::Kind),
        Some(kind) => command_of_kind(alloc, kind, json),
    }
}

/// The command that a JSON object is, or the first rule that it fails: `kind` first, then the forms of the members of
/// its kind in this order, then `mapping`, `condition` or `bindings` where a text in it is no expression of its type.
/// Other members don't count.
///
/// - `pool`: `project`, `pool`, `disabled`
/// - `provider`: `project`, `pool`, `provider`, `issuer`, `key`, `audiences`, `mapping`, `condition`, `disabled`
/// - `account`: `email`, `disabled`
/// - `role`: `role`, `permissions`
/// - `scope`: `scope`, `permissions`, which may also be the text `*`
/// - `policy`: `resource`, `bindings`
///
/// `disabled` is a boolean, false where it isn't there. `permissions` is an array of at most 256 texts,
/// `bindings` one of at most 64 objects, each with a `role`, with `members`, an array of at most 64 texts,
/// and perhaps with a `condition`, an object with a text `expression`. A provider's `issuer` has 1 to 256
/// bytes, its `key` is base64url without padding of 32 to 128 bytes, `audiences` is an array of at most 10
/// texts of 1 to 256 bytes, empty where it isn't there, `mapping` an object of at most 50 texts under
/// `google.subject`, `google.groups` and `attribute.NAME`, the first of which is there, and `condition` a
/// text that may be absent. What isn't an object has no `kind`.
pub fn read_command(alloc: Global, json: &Value) -> Result<Command, CommandFault>
    ensures read { IfOk result (λ command. command_of (view json.now) ≡ Ok command) }
    ensures refused { IfErr result (λ fault. fault ≢ CommandFault.Memory
        → command_of (view json.now) ≡ Err fault) }
    ensures good { (command : Command) → command_of (view json.now) ≡ Ok command
        → (result ≡ Ok command) ⊎ (result ≡ Err CommandFault.Memory) }
    ensures faulty { (fault : CommandFault) → command_of (view json.now) ≡ Err fault
        → (result ≡ Err fault) ⊎ (result ≡ Err CommandFault.Memory) }
{
    command_from(alloc, json)
}
