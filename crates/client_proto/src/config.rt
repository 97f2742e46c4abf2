use base_types::Text;
use iam_names::Audience;

/// A URL, `http://HOST[:PORT]PATH`.
#[derive(Debug, Drop)]
pub struct Url {
    /// One or more of `a` to `z`, digits, `.` and `-`.
    pub host: Text,
    /// From 1 on.
    pub port: Option<u16>,
    /// A `/` and visible ASCII, at most 2,048 bytes in all.
    pub path: Text,
}

/// What a client's file says.
#[derive(Debug, Drop)]
pub struct ClientConfig {
    /// The provider that the subject token is from.
    pub audience: Audience,
    /// The subject token's type: that of a JWT, or of an ID token.
    pub token_type: Text,
    /// The token service.
    pub token: Url,
    /// The name of the file that the subject token is in.
    pub file: Text,
    /// The subject token's member there, where that file is a JSON object.
    pub field: Option<Text>,
    /// The account service, where a token of a service account is wanted.
    pub account: Option<Url>,
}

/// The members of a client's file on where the tokens are asked for.
#[derive(Debug, Drop)]
pub(crate) struct Sources {
    pub token: Url,
    pub file: Text,
    pub field: Option<Text>,
    pub account: Option<Url>,
}
