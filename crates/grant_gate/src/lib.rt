//! What a token's text carries, and what may be granted by it.
#![tactic(auto)]

mod deciding;
mod decision;
mod fault;
mod reading;

pub use deciding::decide;
pub use decision::{Decision, GateRule};
pub use fault::GateFault;
pub use reading::carried;
