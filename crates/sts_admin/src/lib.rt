//! The commands of an administrator, read from JSON.
#![tactic(auto)]

mod bindings;
mod command;
mod expressions;
mod laws;
mod mapping;
mod members;
mod provider;
mod reading;

pub use command::{CommandFault, CommandMember};
pub use laws::read_commands_have_their_form;
pub use members::name_at;
pub use reading::read_command;
