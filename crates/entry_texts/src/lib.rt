//! The entries of a journal as exact JSON texts: how they are written, what a text says, and the laws that make both one.
#![tactic(auto)]

mod laws;
mod parts;
mod provider;
mod reading;
mod recorded;
mod writing;

pub use laws::{
    a_text_says_one_entry, an_entry_has_exact_parts, an_exact_entry_reads_back,
    exact_entries_have_their_form,
};
pub use reading::{EntryFault, read_entry};
pub use writing::entry_text;
