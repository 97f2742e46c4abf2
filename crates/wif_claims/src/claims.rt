use base_types::{Items, Text};
use cel_values::Value;

/// What the payload of a token claims (RFC 7519, section 4.1; RFC 8693, section 4.4).
#[derive(Debug, Drop)]
pub struct Claims {
    pub iss: Text,
    /// No audience where the member isn't there.
    pub aud: Items<Text>,
    /// Seconds since 1970-01-01T00:00:00Z, as `nbf` and `iat`.
    pub exp: u64,
    pub nbf: Option<u64>,
    pub iat: Option<u64>,
    /// Who may act for the subject, outermost first.
    pub may_act: Items<Text>,
    /// The whole payload, for expressions.
    pub tree: Value,
}

/// The first rule that a payload fails.
#[derive(Clone, Copy, Debug, PartialEq, Eq)]
pub enum ClaimFault {
    /// The bytes are no JSON.
    Json,
    NotObject,
    /// `iss` isn't there or is no text.
    Iss,
    /// `aud` is there and is neither a text nor an array of texts.
    Aud,
    /// `exp` isn't there or is no whole number below 2^53.
    Exp,
    /// `nbf` is there and is no such number.
    Nbf,
    /// `iat` is there and is no such number.
    Iat,
    /// `may_act` is there, and isn't an object with a `sub` of 1 to 1,024 bytes and possibly a `may_act`
    /// of the same form, at most 8 deep.
    MayAct,
    Memory,
}

/// How claims stand to a moment.
#[derive(Clone, Copy, Debug, PartialEq, Eq)]
pub enum When {
    Live,
    Expired,
    NotYet,
}
