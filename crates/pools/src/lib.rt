//! Providers of subject tokens, and the identities that they map claims to.
#![tactic(auto)]

mod admission;
mod audiences;
mod environment;
mod fault;
mod laws;
mod lengths;
mod mapping;
mod names;
mod provider;
mod texts;

pub use admission::admit;
pub use fault::MapFault;
pub use laws::admitted_claims_pass_each_rule;
pub use mapping::Mapping;
pub use names::{condition_names, mapping_names};
pub use provider::{Provider, TokenIssuer};
