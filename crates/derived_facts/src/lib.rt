//! What the token of a link says, from what the tokens of the links that it was made from say.
#![tactic(auto)]

mod copying;
mod delegation;
mod impersonation;
mod narrowing;
mod parts;

pub use copying::{copy_words, with_room};
pub use delegation::delegated;
pub use impersonation::impersonated;
pub use narrowing::narrowed;
