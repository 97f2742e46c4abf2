use std::alloc::AllocError;

/// Why a link answered nothing.
#[derive(Clone, Copy, Debug, PartialEq, Eq)]
pub enum LinkError {
    /// The outside failed. The link's count of faults has risen.
    Failed,
    Memory,
}

impl From<AllocError> for LinkError {
    ghost use Rattle.std.specs.Prelude.{◌≡◌};
    ghost use Rattle.client_link.specs.declared.fault.LinkError.TheVariants.{Memory};

    ghost from_gives = { λ _ error. error ≡ Memory };

    fn from(_error: AllocError) -> Self {
        LinkError::Memory
    }
}
