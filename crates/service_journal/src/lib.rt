//! The journal of the service: the entries that a disk holds, and the state that they leave.
#![tactic(auto)]

mod laws;
mod opening;
mod replay;

pub use laws::{
    a_file_stands_for_one_journal, a_file_that_is_refused_stands_for_no_journal,
    journals_go_on_with_what_fits, journals_grow_by_a_record, one_refusal_of_a_file,
};
pub use opening::{JournalOpening, OpenFault, open_journal};
