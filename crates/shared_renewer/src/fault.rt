use client_link::Link;
use renewer::Flight;

/// Why there is no lease without waiting.
#[derive(Debug, Drop)]
pub enum TryFault {
    /// Another pass has the turn, or had it between the two looks of this call. The word counts the renewals twice, and one more while a
    /// pass has the turn.
    Busy { word: u64 },
    /// The newest renewal, with this end, doesn't cover the moment, or there is none.
    Stale { newest: Option<u64> },
    Memory,
}

/// There was no memory. The client comes back.
#[derive(Drop)]
pub struct NewFault<L: Link> {
    pub flight: Flight<L>,
}
