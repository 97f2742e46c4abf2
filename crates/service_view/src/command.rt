use crate::pool::Pool;
use crate::provider_row::ProviderRow;
use allow_policy::{Binding, PolicyRow, ScopeSet};
use base_types::Items;
use iam_names::{Account, Permission, PoolName, Resource, Role, ScopeWord};
use pools::Provider;

/// What an administrator asks to put, in place of what stands under the name.
#[derive(Debug, Drop)]
pub enum Command {
    /// A pool, and whether it is disabled.
    Pool {
        pool: PoolName,
        disabled: bool,
    },
    /// A provider of a pool's subject tokens.
    Provider(Provider),
    /// A service account, and whether it is disabled.
    Account {
        account: Account,
        disabled: bool,
    },
    /// A role with its permissions.
    Role {
        role: Role,
        permissions: Items<Permission>,
    },
    /// A scope word and what it stands for.
    Scope {
        word: ScopeWord,
        permissions: ScopeSet,
    },
    /// The allow policy of a resource.
    Policy {
        resource: Resource,
        bindings: Items<Binding>,
    },
}

/// A command that isn't refused, ready to be placed.
#[derive(Debug, Drop)]
pub enum Ready {
    Pool(Pool),
    Provider(ProviderRow),
    Account {
        account: Account,
        disabled: bool,
    },
    Role {
        role: Role,
        permissions: Items<Permission>,
    },
    Scope {
        word: ScopeWord,
        permissions: ScopeSet,
    },
    Policy {
        resource: Resource,
        row: PolicyRow,
    },
}

impl Command {
    ghost use Rattle.service_view.specs.Commands.{IsCommand};

    /// A law: a command has its form by its type.
    pub fn has_its_form(&self)
        ensures { IsCommand self.now }
    {
        match self {
            Command::Provider(provider) => provider.has_its_form(),
            Command::Pool { .. }
            | Command::Account { .. }
            | Command::Role { .. }
            | Command::Scope { .. }
            | Command::Policy { .. } => {}
        }
    }
}
