ghost use Rattle.std.specs.Prelude.{◌≡◌};

use std::alloc::AllocError;

/// Why an expression has no value.
#[derive(Clone, Copy, Debug, PartialEq, Eq)]
pub enum EvalError {
    /// An operand or an argument of a kind that the operator or function doesn't take.
    NoOverload,
    /// A key that the map doesn't have.
    NoKey,
    /// An index outside the list.
    Index,
    /// A number, moment or span out of its range.
    Overflow,
    /// A zero divisor.
    Divide,
    /// A text that isn't of the form that is wanted, or a repeated key of a map literal.
    BadText,
    /// A value that weighs too much, or too long a range of a macro.
    TooLong,
    /// A name that stands for nothing.
    Unbound,
}

/// Why an evaluation stopped.
#[derive(Debug, Drop)]
pub enum EvalStop {
    Error(EvalError),
    Memory,
}

impl From<AllocError> for EvalStop {
    ghost use Rattle.cel_values.specs.declared.error.EvalStop.TheVariants.{Memory};

    ghost from_gives = { λ _ e. e ≡ Memory };

    fn from(_error: AllocError) -> Self {
        EvalStop::Memory
    }
}

impl From<EvalError> for EvalStop {
    ghost use Rattle.cel_values.specs.declared.error.EvalStop.TheVariants.{Error};

    ghost from_gives = { λ error e. e ≡ Error error };

    fn from(error: EvalError) -> Self {
        EvalStop::Error(error)
    }
}
