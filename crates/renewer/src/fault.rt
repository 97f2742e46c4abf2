use base_types::Bytes;
use std::alloc::AllocError;

/// Why there is no lease.
#[derive(Debug, Drop)]
pub enum LeaseFault {
    /// The link failed.
    LinkFault,
    /// A service refused, by this reply.
    Refused { reply: Bytes },
    /// This reply is neither a token nor a refusal, or this file has no subject token.
    BadReply { reply: Bytes },
    /// The token that was given is over at the moment. It is recorded.
    ShortLived { exp: u64 },
    /// There are 10,000 renewals, and the newest, with this end, doesn't cover the moment.
    Exhausted { exp: u64 },
    Memory,
}

impl From<AllocError> for LeaseFault {
    ghost use Rattle.std.specs.Prelude.{◌≡◌};
    ghost use Rattle.renewer.specs.declared.fault.LeaseFault.TheVariants.{Memory};

    ghost from_gives = { λ _ fault. fault ≡ Memory };

    fn from(_error: AllocError) -> Self {
        LeaseFault::Memory
    }
}
