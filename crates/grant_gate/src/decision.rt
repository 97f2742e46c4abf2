/// A rule of the gate, in the order in which they are looked at.
#[derive(Clone, Copy, Debug, PartialEq, Eq)]
pub enum GateRule {
    /// The text has no signed shape: three parts in base64url, of which the first is a JSON object with
    /// `alg` HS256 and no `crit`.
    G1,
    /// The MAC is wrong.
    G2,
    /// The payload is none that the service writes.
    G3,
    /// The token is expired.
    G4,
    /// A pool is disabled or unknown.
    G5,
    /// A service account is disabled or unknown.
    G6,
    /// A list of scope words doesn't allow the permission.
    G7,
    /// An access boundary doesn't allow it.
    G8,
    /// The permission isn't granted to the token's principal.
    G9,
}

/// What the gate decides.
#[derive(Clone, Copy, Debug, PartialEq, Eq)]
pub enum Decision {
    Admit,
    /// The first rule that fails. The place is that of the first pool, account, list of scope words or access boundary
    /// that fails it, from 0, and 0 with the other rules.
    Deny { rule: GateRule, place: usize },
}
