//! What the type checker promises of the evaluator: an expression whose types are right runs well.
#![tactic(auto)]

mod laws;

pub use laws::{well_typed_names_are_bound, well_typed_runs_well};
