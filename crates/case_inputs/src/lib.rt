//! What a line of a table of cases hands to its call, and how a call's answer is written.
#![tactic(auto)]

mod escapes;
mod inputs;

pub use escapes::{escaped, hexadecimal, yes_or_no};
pub use inputs::Inputs;
