use allow_policy::PutFault;
use std::alloc::AllocError;

/// Why a command can't be placed. What is unknown comes before a limit.
#[derive(Clone, Copy, Debug, PartialEq, Eq)]
pub enum ReadyFault {
    /// A provider's pool isn't there.
    UnknownPool,
    /// A binding's role isn't there.
    UnknownRole,
    Limit,
    Memory,
}

impl From<AllocError> for ReadyFault {
    ghost use Rattle.std.specs.Prelude.{◌≡◌};
    ghost use Rattle.service_view.specs.declared.ready_fault.ReadyFault.TheVariants.{Memory};

    ghost from_gives = { λ _ fault. fault ≡ Memory };

    fn from(_: AllocError) -> Self {
        ReadyFault::Memory
    }
}

impl From<PutFault> for ReadyFault {
    ghost use Rattle.std.specs.Prelude.{◌≡◌};
    ghost use Rattle.service_view.specs.Puts.{of_policies};

    ghost from_gives = { λ put fault. fault ≡ of_policies put };

    fn from(fault: PutFault) -> Self {
        match fault {
            PutFault::UnknownRole => ReadyFault::UnknownRole,
            PutFault::Limit => ReadyFault::Limit,
            PutFault::Memory => ReadyFault::Memory,
        }
    }
}
