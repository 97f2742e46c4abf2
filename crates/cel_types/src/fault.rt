ghost use Rattle.std.specs.Prelude.{◌≡◌};

use std::alloc::AllocError;

/// A typing rule that is broken.
#[derive(Clone, Copy, Debug, PartialEq, Eq)]
pub enum TypeRule {
    /// A name that isn't declared.
    T1,
    /// A name that is no function of the style of the call.
    T2,
    /// Parts of types that no row of the overload table and no rule takes.
    T3,
}

/// A typing rule that is broken, and the number of the node where it is: nodes are numbered from 0 in the order of the text, a
/// node before its parts.
#[derive(Clone, Copy, Debug, PartialEq, Eq)]
pub struct TypeFault {
    pub node: usize,
    pub rule: TypeRule,
}

/// Why a check of types gives no type.
#[derive(Debug, Drop)]
pub enum CheckError {
    Fault(TypeFault),
    Memory,
}

impl From<AllocError> for CheckError {
    ghost use Rattle.cel_types.specs.declared.fault.CheckError.TheVariants.{Memory};

    ghost from_gives = { λ _ e. e ≡ Memory };

    fn from(_error: AllocError) -> Self {
        CheckError::Memory
    }
}
