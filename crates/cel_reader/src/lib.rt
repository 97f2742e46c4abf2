//! Expressions as they are read from their texts: parsed, and of a type that fits what is wanted.
#![tactic(auto)]

mod laws;
mod reader;

pub use laws::expressions_are_spelled_and_typed;
pub use reader::read_expression;
