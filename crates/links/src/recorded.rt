use access_token::Facts;

/// How a link came about, beside what its token says.
#[derive(Debug, Drop)]
pub enum RecordedKind {
    /// A subject token was exchanged that expires at this moment.
    Federated {
        exp: u64,
    },
    /// The token of the link of this number was narrowed, and by an access boundary where it is bounded.
    Narrow {
        parent: u32,
        bounded: bool,
    },
    /// The token of the link of this number, which had so many accounts, became one of a service account, for so many seconds.
    Impersonate {
        parent: u32,
        earlier: usize,
        lifetime: u64,
    },
    /// The holder of the actor's token acts for that of the subject's.
    Delegate {
        subject: u32,
        actor: u32,
    },
}

/// A recorded link, with what its token says.
#[derive(Debug, Drop)]
pub struct RecordedLink {
    pub kind: RecordedKind,
    /// How many links its chain is long.
    pub depth: u32,
    pub facts: Facts,
}
