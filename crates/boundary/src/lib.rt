//! Credential access boundaries: rules that say what a credential can be used for at most, read from JSON and written as it, and
//! what they allow.
#![tactic(auto)]

mod allowing;
mod copying;
mod fault;
mod laws;
mod parts;
mod reading;
mod rules;
mod writing;

pub use allowing::allows;
pub use copying::copy;
pub use fault::{BoundaryCause, BoundaryError};
pub use laws::{a_boundary_allows_by_its_rules, a_boundary_reads_back};
pub use reading::{read_boundary, read_listed};
pub use rules::{Boundary, Rule};
pub use writing::boundary_value;
