ghost use Rattle.cel_builtins.specs.Outcomes.{Gives, weighed as weighed_value};

use cel_values::{EvalError, EvalStop, Value, WEIGHT, room_left};

/// The value, unless it weighs more than 65,536.
pub fn weighed(value: Value) -> Result<Value, EvalStop>
    ensures { Gives result (weighed_value value) }
{
    if room_left(WEIGHT, &value).is_none() {
        drop(value);
        return Err(EvalStop::Error(EvalError::TooLong));
    }
    Ok(value)
}
