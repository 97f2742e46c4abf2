use base_types::Bytes;

/// What is asked.
#[derive(Clone, Copy, Debug, PartialEq, Eq)]
pub enum Target {
    /// A file. The request is its name, and the reply is what it holds.
    Credential,
    /// A token service. The request and the reply are messages of HTTP.
    Token,
    /// A service that gives out tokens of a service account, in the same way.
    Account,
}

/// A call that was answered.
#[derive(Debug, Drop)]
pub struct LinkCall {
    pub target: Target,
    pub request: Bytes,
    pub reply: Bytes,
}
