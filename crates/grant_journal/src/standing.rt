use crate::JournalRule;

/// What stands in a file at a place behind whole records.
#[derive(Clone, Copy, Debug)]
pub enum Standing<'a> {
    /// The closed gate. The journal ends there.
    Closed,
    /// A record: its text, and the place behind it.
    Text { text: &'a [u8], next: u64 },
    /// A record that breaks this rule, whatever its text says.
    Bad(JournalRule),
}
