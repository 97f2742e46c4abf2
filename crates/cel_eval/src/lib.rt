//! The evaluator of expressions: what an expression means in an environment, computed.
#![tactic(auto)]

mod evaluator;
mod laws;
mod operators;
mod scope;

pub use cel_values::{EvalError, EvalStop};
pub use evaluator::eval;
pub use laws::{errors_in_order, free_names_decide, operands_decide};
