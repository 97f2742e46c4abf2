//! What an access token says: its facts, their text as a payload, and the facts of a payload.
#![tactic(auto)]

mod active;
mod actors;
mod attributes;
mod facts;
mod laws;
mod names;
mod numbers;
mod parties;
mod payload;
mod reading;
mod scopes;
mod who;
mod wif;

pub use active::write_active;
pub use facts::Facts;
pub use laws::{payload_says_its_facts, payload_tells_its_number};
pub use payload::{last_words, subject_name, words_text, write_payload};
pub use reading::{PayloadFault, read_payload};
pub use scopes::read_words;
