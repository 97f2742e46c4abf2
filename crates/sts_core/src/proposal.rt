use base_types::Text;
use links::Prepared;
use wif_base::Reply;

/// What a request asks to be done, before the journal is looked at.
#[derive(Debug, Drop)]
pub(crate) enum Proposal {
    /// A rule forbids the entry, and nothing is recorded.
    Refused(Reply),
    /// An entry is recorded, and then replied to.
    Record {
        prepared: Prepared,
        /// The entry's text.
        text: Text,
        reply: Reply,
    },
}
