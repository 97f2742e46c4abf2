//! The rules that forbid an entry: their codes, and what is told of them.
#![tactic(auto)]

mod detail;
mod fault;

pub use fault::{ApplyFault, RuleCode, unlicensed};
