use base_types::{Items, Text};
use boundary::Boundary;
use iam_names::{Account, Audience, ScopeWord};
use service_view::Command;

/// A subject token that became an access token.
#[derive(Debug, Drop)]
pub struct Exchange {
    pub provider: Audience,
    pub token: Text,
    pub scope: Items<ScopeWord>,
    /// Seconds since 1970-01-01T00:00:00Z.
    pub at: u64,
}

/// An access token that became another, which may do no more.
#[derive(Debug, Drop)]
pub struct Narrowing {
    /// The number of the link whose token it was.
    pub parent: u32,
    /// An access boundary that is set beside those of the earlier links.
    pub boundary: Option<Boundary>,
    pub scope: Items<ScopeWord>,
    /// Seconds since 1970-01-01T00:00:00Z.
    pub at: u64,
}

/// An access token that became one of a service account.
#[derive(Debug, Drop)]
pub struct Impersonation {
    /// The number of the link whose token it was.
    pub parent: u32,
    /// The accounts on the way, each of which impersonates the next, and at last the one that is impersonated.
    pub accounts: Items<Account>,
    pub scope: Items<ScopeWord>,
    /// Seconds.
    pub lifetime: u64,
    /// Seconds since 1970-01-01T00:00:00Z.
    pub at: u64,
}

/// Two access tokens that became one by which the actor acts for the subject (RFC 8693, section 1.1).
#[derive(Debug, Drop)]
pub struct Delegation {
    /// The number of the link for whose principal the actor acts.
    pub subject: u32,
    /// The number of the link whose principal acts.
    pub actor: u32,
    pub scope: Items<ScopeWord>,
    /// Seconds since 1970-01-01T00:00:00Z.
    pub at: u64,
}

/// What the journal records.
#[derive(Debug, Drop)]
pub enum Entry {
    /// A command replaced what stood under its name.
    Put(Command),
    Federated(Exchange),
    Narrow(Narrowing),
    Impersonate(Impersonation),
    Delegate(Delegation),
}
