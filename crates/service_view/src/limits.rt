ghost use Rattle.std.specs.Prelude.{◌≡◌};
ghost use Rattle.allow_policy.specs.Puts.{is_full};
ghost use Rattle.service_view.specs.Puts as puts;

use crate::pool::Pools;
use base_types::Register;
use iam_names::{Account, PoolName};
use pools::Provider;

const POOLS: usize = 1_000;

const PROVIDERS: usize = 1_000;

const ACCOUNTS: usize = 10_000;

/// Whether there are 1,000 pools, and this is none of them.
pub(crate) fn are_pools_full(pools: &Pools, name: &PoolName) -> bool
    ensures { result ≡ puts.are_pools_full name.now pools.now.pools }
{
    pools.disabled(name).is_none() && POOLS <= pools.len()
}

/// Whether there are 10,000 accounts, and this is none of them.
pub(crate) fn are_accounts_full(accounts: &Register<bool>, account: &Account) -> bool
    ensures { result ≡ is_full 10000 account.now accounts.now.rows }
{
    !accounts.contains(account.as_str()) && ACCOUNTS <= accounts.len()
}

/// Whether there are 1,000 providers, and this is none of them.
pub(crate) fn are_providers_full(providers: &Register<Provider>, name: &str) -> bool
    ensures { result ≡ is_full 1000 name.now providers.now.rows }
{
    !providers.contains(name) && PROVIDERS <= providers.len()
}
