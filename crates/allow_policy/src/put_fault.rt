use std::alloc::AllocError;

/// Why a put was refused. An unknown role comes before a limit.
#[derive(Clone, Copy, Debug, PartialEq, Eq)]
pub enum PutFault {
    UnknownRole,
    Limit,
    Memory,
}

impl From<AllocError> for PutFault {
    ghost use Rattle.std.specs.Prelude.{◌≡◌};
    ghost use Rattle.allow_policy.specs.declared.put_fault.PutFault.TheVariants.{Memory};

    ghost from_gives = { λ _ fault. fault ≡ Memory };

    fn from(_: AllocError) -> Self {
        PutFault::Memory
    }
}
