//! The client's link to the outside: a credential file, a token service and an account service. Over a list of replies in memory, and
//! over files and sockets.
#![tactic(auto)]

mod address;
mod fault;
mod link;
mod script_link;
mod target;
mod tcp_link;
mod timed_stream;

pub use fault::LinkError;
pub use link::{Link, REPLY_LIMIT};
pub use script_link::ScriptLink;
pub use target::{LinkCall, Target};
pub use tcp_link::TcpLink;
