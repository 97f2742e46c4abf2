//! An expression of the language beside its text as it was given, and what expressions see: names with their values, and with their types.
#![tactic(auto)]

mod environment;
mod expression;

pub use environment::{bind, declare_map, put_entry};
pub use expression::Expression;
