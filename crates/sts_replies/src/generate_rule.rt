/// The first rule that a request for a service account's token fails, in the order in which the rules are looked at.
#[derive(Clone, Copy, Debug, PartialEq, Eq)]
pub enum GenerateRule {
    /// There is no bearer token.
    I1,
    /// The path names no service account.
    I2,
    /// The body is no JSON object.
    I3,
    /// `delegates` isn't a list of at most 4 service accounts.
    I4,
    /// `scope` isn't a list of 1 to 16 scope words that are all there.
    I5,
    /// `lifetime` isn't `1s` to `3600s`.
    I6,
    /// The bearer's token isn't that of a live link.
    I7,
}
