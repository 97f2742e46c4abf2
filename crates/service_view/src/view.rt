ghost use Rattle.std.specs.Prelude.{◌≡◌, ◌∷◌, [], false, Some, IfOk};
ghost use Rattle.allow_policy.specs.Lists.{no_lists, with_scope};
ghost use Rattle.allow_policy.specs.declared.scope_set.ScopeSet.TheVariants.{All};
ghost use Rattle.service_view.specs.View as start;

use crate::pool::{Pool, Pools};
use crate::provider_row::ProviderRow;
use allow_policy::{Policies, ScopeSet, put_scope};
use base_types::{Register, both};
use iam_names::{Account, Audience, NameError, PoolName, ScopeWord};
use pools::Provider;
use std::alloc::{AllocError, Global};
use std::marker::Model;

/// The scope word that is there from the start, for all permissions.
const CLOUD_PLATFORM: &str = "https://www.googleapis.com/auth/cloud-platform";

/// What stands now under the names of pools, providers, accounts, roles, scope words and resources. Contracts see
/// lists, and beside them for how many more puts there is memory.
#[derive(Debug, Drop)]
pub struct View {
    pub(crate) pools: Pools,
    pub(crate) providers: Register<Provider>,
    pub(crate) accounts: Register<bool>,
    pub policies: Policies,
}

impl Model for View {
    ghost use Rattle.std.specs.Coded.{codes};
    ghost use Rattle.std.specs.Prelude.{min};
    ghost use Rattle.cel_values.specs.contracts.expr.Expr as tree;
    ghost use Rattle.service_view.specs.View.{Held};

    ghost Value = { Held };

    ghost coded = { Prim.hlevel (codes, tree.the_row.coded) };

    ghost view = { λ v. record {
      content = record { pools = v.pools.pools; providers = v.providers.rows; accounts = v.accounts.rows; lists = v.policies.lists };
      spare = min v.pools.spare (min v.providers.spare (min v.accounts.spare v.policies.spare));
    } };
}

impl View {
    ghost use Rattle.std.specs.Prelude.{◌≡◌, ◌≤◌, IfOk, OnOk};
    ghost use Rattle.std.specs.Option.{option_copied};
    ghost use Rattle.base_types.specs.Named.{value_at};
    ghost use Rattle.service_view.specs.View as start;

    /// Nothing but the scope word that is there from the start, and the provider with its pool, enabled, if there is one.
    pub fn start(alloc: Global, provider: Option<Provider>) -> Result<Self, AllocError>
        ensures { IfOk result (λ v. v.content ≡ start.start_view provider) }
    {
        let (policies, (pools, providers)) = both(
            start_policies(alloc),
            start_rows(alloc, provider),
        )?;
        Ok(View {
            pools,
            providers,
            accounts: Register::new(alloc),
            policies,
        })
    }

    /// The provider of a full name.
    pub fn provider(&self, name: &str) -> Option<&Provider>
        ensures { option_copied result ≡ value_at name.now self.now.content.providers }
    {
        self.providers.get(name)
    }

    /// Whether the pool is there and not disabled.
    pub fn is_pool_enabled(&self, pool: &PoolName) -> bool
        ensures { result ≡ start.pool_enabled self.now.content pool.now }
    {
        match self.pools.disabled(pool) {
            Some(disabled) => !disabled,
            None => false,
        }
    }

    /// Whether the service account is there and not disabled.
    pub fn is_account_enabled(&self, account: &Account) -> bool
        ensures { result ≡ start.account_enabled self.now.content account.now }
    {
        match self.accounts.get(account.as_str()) {
            Some(disabled) => !*disabled,
            None => false,
        }
    }

    /// Takes memory for a further put of each kind.
    pub fn make_room(&mut self) -> Result<(), AllocError>
        ensures content { self.new.content ≡ self.old.content }
        ensures room { OnOk result (1 ≤ self.new.spare) }
    {
        self.pools.make_room()?;
        self.providers.make_room()?;
        self.accounts.make_room()?;
        self.policies.make_room()
    }
}

// The provider with its pool, enabled, if there is one.
fn start_rows(
    alloc: Global,
    provider: Option<Provider>,
) -> Result<(Pools, Register<Provider>), AllocError>
    ensures pools { IfOk result (λ rows. rows.0.pools ≡ start.start_pools provider) }
    ensures providers { IfOk result (λ rows. rows.1.rows ≡ start.start_providers provider) }
{
    match provider {
        Some(provider) => both(
            start_pool(alloc, provider.name()),
            start_providers(alloc, provider),
        ),
        None => Ok((Pools::new(alloc), Register::new(alloc))),
    }
}

fn start_providers(alloc: Global, provider: Provider) -> Result<Register<Provider>, AllocError>
    ensures { IfOk result (λ providers. providers.rows ≡ start.start_providers (Some provider)) }
{
    let row = ProviderRow::new(alloc, provider)?;
    register_of(alloc, row)
}

fn register_of(alloc: Global, row: ProviderRow) -> Result<Register<Provider>, AllocError>
    ensures { IfOk result (λ providers. providers.rows ≡ start.start_providers (Some row)) }
{
    let mut providers = Register::new(alloc);
    match providers.make_room() {
        Ok(()) => {
            let (name, provider) = row.into_parts();
            providers.place(name, provider);
            Ok(providers)
        }
        Err(AllocError) => {
            drop(row);
            Err(AllocError)
        }
    }
}

fn start_pool(alloc: Global, provider: &Audience) -> Result<Pools, AllocError>
    ensures { IfOk result (λ p. p.pools ≡ record { name = provider.now.pool; disabled = false } ∷ []) }
{
    let mut pools = Pools::new(alloc);
    pools.make_room()?;
    pools.place(Pool {
        name: provider.pool.copy(alloc)?,
        disabled: false,
    });
    Ok(pools)
}

// The policies before the first command.
fn start_policies(alloc: Global) -> Result<Policies, AllocError>
    ensures { IfOk result (λ p. p.lists ≡ with_scope start.cloud_platform All no_lists) }
{
    let mut policies = Policies::new(alloc);
    let word = cloud_platform(alloc)?;
    match put_scope(&mut policies, word, ScopeSet::All) {
        Ok(()) => Ok(policies),
        // The first word passes no limit.
        Err(_) => Err(AllocError),
    }
}

/// The scope word that is there from the start.
pub fn cloud_platform(alloc: Global) -> Result<ScopeWord, AllocError>
    ensures { IfOk result (λ word. word ≡ start.cloud_platform) }
{
    match ScopeWord::read(alloc, CLOUD_PLATFORM) {
        Ok(word) => Ok(word),
        // The word has its form.
        Err(NameError::Form | NameError::Memory) => Err(AllocError),
    }
}
