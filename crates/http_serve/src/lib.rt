//! The service over connections: the requests of one connection after another, and one connection after another.
#![tactic(auto)]

mod answered;
mod connection;
mod laws;
mod listen;

pub use connection::serve_connection;
pub use laws::{
    a_crash_keeps_what_was_acknowledged, each_journal_is_lawful, output_fixes_the_answered,
};
pub use listen::{ListenEnd, serve_each};
