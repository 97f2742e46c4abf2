use crate::forms::Account;
use crate::identity::Identity;
use crate::pool_name::PoolName;

/// Who asks: an outside identity of a pool, or a service account.
#[derive(Debug, Drop)]
pub enum Who {
    Outside { pool: PoolName, identity: Identity },
    Account(Account),
}
