ghost use Rattle.std.specs.Prelude.{◌≡◌};
ghost use Rattle.client_top.specs.Outcomes as outcomes;

use renewer::{Lease, LeaseFault};
use std::alloc::AllocError;

/// What a worker's call for a lease brought.
#[derive(Clone, Copy, Debug, PartialEq, Eq)]
pub enum Outcome {
    Lease { index: u32, exp: u64 },
    Link,
    Refused,
    BadReply,
    ShortLived,
    Exhausted,
}

/// An answer, without its token or its reply.
pub(crate) fn outcome_of(answer: Result<Lease, LeaseFault>) -> Result<Outcome, AllocError>
    ensures { result ≡ outcomes.outcome_of answer }
{
    match answer {
        Ok(lease) => Ok(Outcome::Lease {
            index: lease.index,
            exp: lease.exp,
        }),
        Err(LeaseFault::LinkFault) => Ok(Outcome::Link),
        Err(LeaseFault::Refused { reply: _reply }) => Ok(Outcome::Refused),
        Err(LeaseFault::BadReply { reply: _reply }) => Ok(Outcome::BadReply),
        Err(LeaseFault::ShortLived { exp: _ }) => Ok(Outcome::ShortLived),
        Err(LeaseFault::Exhausted { exp: _ }) => Ok(Outcome::Exhausted),
        Err(LeaseFault::Memory) => Err(AllocError),
    }
}
