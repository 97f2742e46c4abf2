use base_types::Text;

/// A token that a client was given.
#[derive(Debug, Drop)]
pub struct Renewal {
    /// The moment at which it was asked, in seconds since 1970-01-01T00:00:00Z.
    pub asked: u64,
    pub token: Text,
    /// The token's end.
    pub exp: u64,
}

/// The newest renewal, by its place among all.
#[derive(Debug, Drop)]
pub struct Lease {
    pub index: u32,
    pub token: Text,
    pub exp: u64,
}

/// What a service gave.
#[derive(Debug, Drop)]
pub(crate) struct Given {
    pub token: Text,
    pub exp: u64,
}
