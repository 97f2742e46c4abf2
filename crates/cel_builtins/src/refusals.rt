ghost use Rattle.std.specs.Prelude.{Err};
ghost use Rattle.cel_values.specs.declared.error.EvalError.TheVariants.{NoOverload, BadText, Overflow};
ghost use Rattle.cel_builtins.specs.Outcomes.{Gives, Outcome};

use cel_values::{EvalError, EvalStop, Value};

/// The outcome of an operator or function that doesn't take its operands.
pub fn no_overload() -> Result<Value, EvalStop>
    ensures { Gives result (let none : Outcome = Err NoOverload in none) }
{
    Err(EvalStop::Error(EvalError::NoOverload))
}

/// The outcome at a text that isn't of the form that is wanted.
pub fn bad_text() -> Result<Value, EvalStop>
    ensures { Gives result (let none : Outcome = Err BadText in none) }
{
    Err(EvalStop::Error(EvalError::BadText))
}

/// The outcome at a number out of its range.
pub fn overflow() -> Result<Value, EvalStop>
    ensures { Gives result (let none : Outcome = Err Overflow in none) }
{
    Err(EvalStop::Error(EvalError::Overflow))
}
