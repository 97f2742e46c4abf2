//! The texts of commands: the object as which the journal holds a command, and the laws that it reads back.
#![tactic(auto)]

mod binding;
mod command;
mod laws;
mod mapping;
mod permission;
mod provider;

pub use command::command_value;
pub use laws::{a_command_that_is_read_is_exact, an_exact_command_reads_back};
