//! The claims of a token (RFC 7519), and whether they hold at a moment.
#![tactic(auto)]

mod claims;
mod members;
mod moments;
mod reading;

pub use claims::{ClaimFault, Claims, When};
pub use moments::timing;
pub use reading::read_claims;
