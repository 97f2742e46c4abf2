//! HTTP/1.1 in front of the service: requests read from a stream of bytes, and replies written.
#![tactic(auto)]

mod buffer;
mod fields;
mod head;
mod incoming;
mod judge;
mod laws;
mod read;
mod refusal;
mod reply;
mod rule;

pub use buffer::RequestBuffer;
pub use incoming::{HttpEnd, Incoming};
pub use laws::{a_stream_is_cut_in_one_way, each_front_is_read_in_one_way};
pub use read::read_request;
pub use refusal::{refusal_of, status_of};
pub use reply::{WriteEnd, write_reply};
pub use rule::HttpRule;
