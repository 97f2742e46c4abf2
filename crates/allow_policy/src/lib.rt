//! Allow policies: roles, scope words, and bindings at resources; who is granted what.
#![tactic(auto)]

mod binding;
mod condition;
mod granting;
mod limits;
mod policies;
mod policy_row;
mod put_fault;
mod puts;
mod room;
mod scope_set;

pub use binding::Binding;
pub use condition::{condition_holds, condition_names};
pub use granting::{granted, knows_scope, scope_allows};
pub use policies::Policies;
pub use policy_row::PolicyRow;
pub use put_fault::PutFault;
pub use puts::{place, place_role, place_scope, put_policy, put_role, put_scope};
pub use room::{ready, ready_role, ready_scope};
pub use scope_set::ScopeSet;
