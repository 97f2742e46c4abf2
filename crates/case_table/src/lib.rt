//! A table of cases: values under keys, each key once.
#![tactic(auto)]

mod table;
#[cfg(test)]
mod tests;

pub use table::{Doubled, Table, value_under};
