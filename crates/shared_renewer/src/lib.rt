//! One client for many threads: the passes of its users take turns, keep a copy of the newest renewal that they have seen, and give the
//! client back to the pass that has every share.
#![tactic(auto)]

mod asking;
mod fault;
mod laws;
mod lease;
mod looking;
mod pass;
mod rule;
mod sharing;
#[cfg(test)]
mod tests;
mod turns;
mod view;

pub use fault::{NewFault, TryFault};
pub use laws::failed_calls_are_refused_or_bad;
pub use pass::Pass;
pub use sharing::Renewer;
pub use view::{ClientFacts, LinkCounts, View};
