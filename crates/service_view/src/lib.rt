//! What administrators' commands have put: pools, providers, service accounts, roles, scope words and policies.
#![tactic(auto)]

mod command;
mod limits;
mod pool;
mod provider_row;
mod puts;
mod ready_fault;
mod view;

pub use command::{Command, Ready};
pub use pool::{Pool, Pools};
pub use provider_row::ProviderRow;
pub use puts::{place, ready};
pub use ready_fault::ReadyFault;
pub use view::{View, cloud_platform};
