//! Scripts: requests in frames, answered one after another from a source to a sink.
#![tactic(auto)]

mod answered;
mod cut;
mod frame;
mod laws;
mod number;
mod read;
mod script;
mod served;

pub use frame::{Found, Frame};
pub use laws::{
    a_crash_keeps_what_was_acknowledged, each_journal_of_a_run_is_lawful, one_script,
    output_fixes_the_answered, what_was_acknowledged_stands_in_each_later_run,
};
pub use number::read_number;
pub use read::read_frame;
pub use script::run_script;
pub use served::Served;
