ghost use Rattle.std.specs.Prelude.{◌≡◌, ◌∷◌, ◌++◌, [], MatchOption, IfSome, IfNone};
ghost use Rattle.hmac_jws.specs.Compact.{dot, signing_input};
ghost use Rattle.hmac_jws.specs.Verified.{parts, HasOtherParts};

/// The three parts of a text with two dots.
#[derive(Clone, Copy)]
pub(crate) struct Parts<'a> {
    pub header: &'a str,
    pub payload: &'a str,
    pub mac: &'a str,
}

fn cut_at_dot(text: &str) -> Option<(&str, &str)>
    ensures { MatchOption result (parts text.now ≡ text.now ∷ [])
        (λ cut. parts text.now ≡ cut.0.now ∷ parts cut.1.now) }
{
    text.split_once('.')
}

/// The three parts, where there are exactly two dots.
pub(crate) fn parts_of(text: &str) -> Option<Parts<'_>>
    ensures found { IfSome result (λ p. parts text.now ≡ p.header.now ∷ p.payload.now ∷ p.mac.now ∷ []) }
    ensures input { IfSome result (λ p. text.now ≡ signing_input p.header.now p.payload.now ++ dot ∷ p.mac.now) }
    ensures none { IfNone result (HasOtherParts (parts text.now)) }
{
    let (header, rest) = cut_at_dot(text)?;
    let (payload, mac) = cut_at_dot(rest)?;
    if cut_at_dot(mac).is_some() {
        return None;
    }
    Some(Parts {
        header,
        payload,
        mac,
    })
}

/// The first two parts as they stand.
pub(crate) fn signed_input<'a>(text: &'a str, parts: &Parts<'_>) -> &'a [u8]
    requires { text.now ≡ signing_input parts.now.header.now parts.now.payload.now ++ dot ∷ parts.now.mac.now }
    ensures { result.now ≡ signing_input parts.now.header.now parts.now.payload.now }
{
    &text.as_bytes()[..text.len() - parts.mac.len() - 1]
}
