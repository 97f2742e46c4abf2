//! A link that holds its answer back, and two threads at one client: one that leases, and one that looks meanwhile.
#![tactic(auto)]

mod held_link;
mod hold;
#[cfg(test)]
mod tests;
mod threads;

pub use held_link::HeldLink;
pub use hold::Hold;
pub use threads::{Found, Job, MOMENT, find_in_threads};
