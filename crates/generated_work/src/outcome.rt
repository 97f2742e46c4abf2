/// What a round's requests come to.
#[derive(Clone, Copy)]
pub(crate) struct Outcome {
    /// The round's token from outside was exchanged.
    pub(crate) exchanged: bool,
    /// What was exchanged was narrowed.
    pub(crate) narrowed: bool,
    /// The check was admitted.
    pub(crate) admitted: bool,
}
