//! HMAC-SHA256 (RFC 2104) and JSON Web Signatures in the compact form under HS256 (RFC 7515).
#![tactic(auto)]

mod compact;
mod fault;
mod header;
mod laws;
mod mac;
mod parts;
mod verification;

pub use compact::{sign, signed_length};
pub use fault::JwsFault;
pub use laws::{signed_text_verifies, verified_text_is_signed};
pub use mac::hmac;
pub use verification::{Verified, verify};
