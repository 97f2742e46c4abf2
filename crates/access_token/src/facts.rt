use base_types::{Items, Text};
use boundary::Boundary;
use iam_names::{Account, PoolName, ScopeWord, Who};

/// What an access token says beside its issuer (RFC 7519; RFC 8693, section 4). Its scope is the last list of scope words.
#[derive(Debug, Drop)]
pub struct Facts {
    /// The number of the token's link, which its `jti` writes.
    pub number: u32,
    /// The name of its subject.
    pub sub: Text,
    /// Seconds since 1970-01-01T00:00:00Z.
    pub iat: u64,
    /// Seconds since 1970-01-01T00:00:00Z.
    pub exp: u64,
    /// The actors' names, the newest first.
    pub act: Items<Text>,
    /// Who may act for the subject, the next one first.
    pub may_act: Items<Text>,
    /// Who is granted what the token is asked for.
    pub who: Who,
    /// The pools on the way to the token.
    pub pools: Items<PoolName>,
    /// The service accounts on the way to the token.
    pub accounts: Items<Account>,
    /// The words of each exchange, the last one last.
    pub scopes: Items<Items<ScopeWord>>,
    /// The access boundary of each exchange that set one, the last one last.
    pub bounds: Items<Boundary>,
}
