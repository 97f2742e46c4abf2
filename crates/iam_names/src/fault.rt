use std::alloc::AllocError;

/// Why a text gave no name: it isn't of the form, or memory was wanting.
#[derive(Clone, Copy, Debug, PartialEq, Eq)]
pub enum NameError {
    Form,
    Memory,
}

impl From<AllocError> for NameError {
    ghost use Rattle.std.specs.Prelude.{◌≡◌};
    ghost use Rattle.iam_names.specs.declared.fault.NameError.TheVariants.{Memory};

    ghost from_gives = { λ _ error. error ≡ Memory };

    fn from(_: AllocError) -> Self {
        NameError::Memory
    }
}
