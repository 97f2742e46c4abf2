//! What a client writes and reads: its file, of the kind `external_account`, the subject token in another file, its requests, and the
//! replies to them.
#![tactic(auto)]

mod client_file;
mod config;
mod cut;
mod expire_time;
mod fault;
mod head;
mod laws;
mod number;
mod reply;
mod request;
mod subject;
mod url_text;

pub use client_file::read_config;
pub use config::{ClientConfig, Url};
pub use fault::{ClientMember, ConfigFault, SubjectFault};
pub use laws::{a_reply_is_read_in_one_way, urls_are_their_parts};
pub use number::read_decimal;
pub use reply::{ReadReply, read_reply};
pub use request::{account_request, exchange_request};
pub use subject::subject_of;
