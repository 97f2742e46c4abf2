ghost use Rattle.std.specs.Prelude.{◌≡◌, ◌≤◌, IfOk, OnOk};
ghost use Rattle.service_view.specs.Puts.{RefusesBy, ready_fault, provider_fault, command_of, made_ready};
ghost use Rattle.service_view.specs.declared.command.Ready.TheVariants as readies;
ghost use Rattle.service_view.specs.View.{view_after};

use crate::command::{Command, Ready};
use crate::limits::{are_accounts_full, are_pools_full, are_providers_full};
use crate::pool::Pool;
use crate::provider_row::ProviderRow;
use crate::ready_fault::ReadyFault;
use crate::view::View;
use allow_policy::{place_role, place_scope, ready_role, ready_scope};
use base_types::kept;
use pools::Provider;
use std::alloc::Global;

/// Looks whether a command may be placed, and takes the memory for it. It changes no content. `UnknownPool`
/// comes where a provider's pool is unknown, `UnknownRole` where a binding's role is, and `Limit` where a new
/// name would pass a limit: 1,000 pools, providers, roles and scope words, 10,000 accounts and policies, and
/// those of the lists in one command.
#[tactic(auto, unfolding(crate::specs::Puts::ready_fault))]
pub fn ready(alloc: Global, view: &mut View, command: Command) -> Result<Ready, ReadyFault>
    ensures command { IfOk result (λ ready. ready ≡ made_ready command) }
    ensures refused { RefusesBy (ready_fault view.old.content command) result }
    ensures content { view.new.content ≡ view.old.content }
    ensures room { OnOk result (1 ≤ view.new.spare) }
{
    let ready = checked(alloc, view, command)?;
    Ok(kept(ready, view.make_room())?)
}

#[tactic(auto, unfolding(crate::specs::Puts::ready_fault))]
fn checked(alloc: Global, view: &mut View, command: Command) -> Result<Ready, ReadyFault>
    ensures command { IfOk result (λ ready. ready ≡ made_ready command) }
    ensures refused { RefusesBy (ready_fault view.old.content command) result }
    ensures content { view.new.content ≡ view.old.content }
{
    match command {
        Command::Pool { pool, disabled } => {
            if are_pools_full(&view.pools, &pool) {
                return Err(ReadyFault::Limit);
            }
            Ok(Ready::Pool(Pool {
                name: pool,
                disabled,
            }))
        }
        Command::Provider(provider) => ready_provider(alloc, view, provider),
        Command::Account { account, disabled } => {
            if are_accounts_full(&view.accounts, &account) {
                return Err(ReadyFault::Limit);
            }
            Ok(Ready::Account { account, disabled })
        }
        Command::Role { role, permissions } => {
            let went = ready_role(&mut view.policies, &role, permissions.as_slice());
            Ok(kept(Ready::Role { role, permissions }, went)?)
        }
        Command::Scope { word, permissions } => {
            let went = ready_scope(&mut view.policies, &word, &permissions);
            Ok(kept(Ready::Scope { word, permissions }, went)?)
        }
        Command::Policy { resource, bindings } => {
            let row = allow_policy::ready(&mut view.policies, &resource, bindings)?;
            Ok(Ready::Policy { resource, row })
        }
    }
}

fn ready_provider(alloc: Global, view: &View, provider: Provider) -> Result<Ready, ReadyFault>
    ensures command { IfOk result (λ ready. ready ≡ readies.Provider provider) }
    ensures refused { RefusesBy (provider_fault view.now.content provider) result }
{
    match check_provider(alloc, view, &provider) {
        Ok(()) => Ok(Ready::Provider(ProviderRow::new(alloc, provider)?)),
        Err(fault) => {
            drop(provider);
            Err(fault)
        }
    }
}

// Whether its pool is there, and there is place for it.
fn check_provider(alloc: Global, view: &View, provider: &Provider) -> Result<(), ReadyFault>
    ensures { RefusesBy (provider_fault view.now.content provider.now) result }
{
    if view.pools.disabled(&provider.name().pool).is_none() {
        return Err(ReadyFault::UnknownPool);
    }
    let name = provider.name().print(alloc)?;
    if are_providers_full(&view.providers, name.as_str()) {
        return Err(ReadyFault::Limit);
    }
    Ok(())
}

/// Places what is ready in place of what stands under its name. It takes no memory.
pub fn place(view: &mut View, ready: Ready)
    requires { 1 ≤ view.old.spare }
    ensures { view.new.content ≡ view_after view.old.content (command_of ready) }
{
    match ready {
        Ready::Pool(pool) => view.pools.place(pool),
        Ready::Provider(row) => {
            let (name, provider) = row.into_parts();
            view.providers.place(name, provider);
        }
        Ready::Account { account, disabled } => {
            view.accounts.place(account.into_text(), disabled);
        }
        Ready::Role { role, permissions } => place_role(&mut view.policies, role, permissions),
        Ready::Scope { word, permissions } => place_scope(&mut view.policies, word, permissions),
        Ready::Policy { resource, row } => {
            allow_policy::place(&mut view.policies, resource, row);
        }
    }
}
