//! A client in one thread: it keeps the tokens that it was given, and asks for another where the newest is about to end.
#![tactic(auto)]

mod fault;
mod flight;
mod renewal;
mod steps;

pub use fault::LeaseFault;
pub use flight::Flight;
pub use renewal::{Lease, Renewal};
