use client_link::LinkCall;
use client_proto::ClientConfig;
use renewer::Renewal;
use std::collections::LinkedList;

/// What went wrong at a link. No value of it is made.
pub struct LinkCounts {
    /// How often it failed.
    pub faults: u64,
    /// How many replies of its calls are refused or bad, and 0 where it doesn't tell its calls.
    pub failed: u64,
}

/// What all passes know of the client that they share. No value of it is made.
pub struct ClientFacts {
    pub margin: u64,
    pub config: ClientConfig,
    /// The calls that its link had made as the client began, where they are told.
    pub before: Option<LinkedList<LinkCall>>,
    /// The calls that it had made as the client was shared.
    pub made: Option<LinkedList<LinkCall>>,
    /// Which borrow the link is.
    pub lender: u64,
}

/// What a pass knows. No value of it is made.
pub struct View {
    /// The renewals that it has seen.
    pub seen: LinkedList<Renewal>,
    /// The lists that its last join brought together.
    pub olds: LinkedList<LinkedList<Renewal>>,
    /// The word that its last step found, and the word that the step before that one found.
    pub last: u64,
    pub before: u64,
    /// How often it looked at the word, and how often it gained the turn.
    pub steps: u64,
    pub turns: u64,
    /// Its part of the right to close.
    pub share: u64,
    /// While it has the turn, the renewals as the turn began.
    pub turn: Option<LinkedList<Renewal>>,
    /// The counts of the link as its last turn began and ended, and what of them its own calls were told.
    pub found: LinkCounts,
    pub left: LinkCounts,
    pub lost: LinkCounts,
    pub facts: ClientFacts,
    /// It was joined into another.
    pub spent: bool,
}
