//! A list of texts on a disk, nothing of which is lost by a crash: each text is on the disk before it is acknowledged.
#![tactic(auto)]

mod empty;
mod journal;
mod journal_file;
mod laws;
mod opened;
mod places;
mod reading;
mod record;
mod rule;
mod standing;
#[cfg(test)]
mod tests;

pub use empty::{InitFault, init};
pub use journal::{AppendFault, Journal};
pub use journal_file::JournalFile;
pub use laws::{
    a_crash_in_an_append_leaves_the_text_or_not, a_crash_leaves_what_was_acknowledged,
    a_file_shows_what_it_stands_for, a_file_stands_for_one_list, a_sync_settles_a_journal,
    a_whole_journal_rests, each_list_goes_on_with_what_stands_there,
    one_list_stands_in_front_of_a_place, one_thing_stands_at_a_place,
    places_give_what_a_file_stands_for, what_opens_is_what_was_acknowledged,
};
pub use opened::Opened;
pub use places::passes_limit;
pub use reading::{ReadFault, read_file};
pub use record::{Record, RecordFault, record_of};
pub use rule::JournalRule;
pub use standing::Standing;
