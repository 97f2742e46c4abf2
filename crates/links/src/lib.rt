//! The journal's entries, the links that they record, and the state that they leave.
#![tactic(auto)]

mod authority;
mod checks;
mod delegate;
mod entry;
mod federated;
mod hops;
mod impersonate;
mod issued;
mod narrow;
mod numbered;
mod prepared;
mod recorded;
mod recording;
mod roles;
mod state;
mod tokens;

pub use authority::{admits, live};
pub use checks::knows_words;
pub use entry::{Delegation, Entry, Exchange, Impersonation, Narrowing};
pub use federated::all_permissions;
pub use issued::find_issued;
pub use numbered::{chain_of, exp_of, facts_of, payload_of, render, words_of};
pub use prepared::Prepared;
pub use recorded::{RecordedKind, RecordedLink};
pub use recording::{apply, commit, prepare};
pub use roles::unknown_role;
pub use state::{State, start};
