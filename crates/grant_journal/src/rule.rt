/// What a record may break. The first bad record of a file counts, and of it the first rule.
#[derive(Clone, Copy, Debug, PartialEq, Eq)]
pub enum JournalRule {
    /// The file doesn't begin with the marker.
    J1,
    /// The gate byte, the length or the text passes the end.
    J2,
    /// The length is over the limit, or the text isn't one that may stand there.
    J3,
    /// What the text says isn't allowed behind the texts in front of it.
    J4,
    /// With the record the journal has more bytes than a journal may have.
    J5,
}
