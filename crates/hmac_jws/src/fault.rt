/// The first rule of the compact form that a text fails.
#[derive(Clone, Copy, Debug, PartialEq, Eq)]
pub enum JwsFault {
    /// There aren't exactly two dots.
    Parts,
    /// A part, counted from 0, isn't strict base64url without padding.
    Base64 { part: u8 },
    /// The header isn't a JSON object.
    Header,
    /// The header's `alg` isn't `HS256`.
    Alg,
    /// The header has a member `crit`.
    Crit,
    /// The third part isn't the MAC of the first two.
    Mac,
    Memory,
}
