ghost use Rattle.std.specs.Prelude.{◌≡◌, ◌<◌, ◌≤◌, ◌↔◌, IsSomeAnd};
ghost use Rattle.wif_claims.specs.Timing.{timing_of};

use crate::claims::{Claims, When};

/// Whether claims hold at a moment, in seconds since 1970-01-01T00:00:00Z. There is no leeway.
pub fn timing(claims: &Claims, at: u64) -> When
    ensures value { result ≡ timing_of claims.now at }
    ensures expired { (result ≡ When.Expired) ↔ (claims.now.exp ≤ at) }
    ensures not_yet { (result ≡ When.NotYet)
        ↔ ((at < claims.now.exp) × IsSomeAnd claims.now.nbf (λ nbf. at < nbf)) }
{
    if claims.exp <= at {
        return When::Expired;
    }
    match claims.nbf {
        Some(nbf) if at < nbf => When::NotYet,
        _ => When::Live,
    }
}
