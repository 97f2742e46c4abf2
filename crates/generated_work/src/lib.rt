//! The work of `gen`: a run of the service over a journal in memory, which one number makes.
#![tactic(auto)]

mod asking;
mod commands;
mod counts;
mod draws;
mod newest;
mod outcome;
mod requests;
mod rounds;
mod running;
mod setting;
mod work;
mod work_end;

pub use work::tell_work;
pub use work_end::WorkEnd;
