ghost use Rattle.std.specs.Prelude.{◌≡◌, Result, Ok};
ghost use Rattle.std.specs.Ordering.{is_lt, is_le, is_gt, is_ge};
ghost use Rattle.cel_values.specs.declared.value.Value.{out-Value};
ghost use Rattle.cel_builtins.specs.Outcomes.{Gives};
ghost use Rattle.cel_builtins.specs.Numbers.{order_of as order_between, related};

use cel_values::{EvalError, EvalStop, Value};
use std::cmp::Ordering;

fn order_of(a: &Value, b: &Value) -> Result<Ordering, EvalStop>
    ensures { Gives result (order_between (out-Value a.now) (out-Value b.now)) }
{
    match (a, b) {
        (Value::Bool(a), Value::Bool(b)) => Ok(a.cmp(b)),
        (Value::Int(a), Value::Int(b)) => Ok(a.cmp(b)),
        (Value::Text(a), Value::Text(b)) => Ok(a.as_str().cmp(b.as_str())),
        (Value::Time(a), Value::Time(b)) => Ok(a.cmp(b)),
        (Value::Span(a), Value::Span(b)) => Ok(a.cmp(b)),
        _ => Err(EvalStop::Error(EvalError::NoOverload)),
    }
}

/// `<`
pub(crate) fn less(a: &Value, b: &Value) -> Result<Value, EvalStop>
    ensures { Gives result (related is_lt (out-Value a.now) (out-Value b.now)) }
{
    let order = order_of(a, b)?;
    Ok(Value::Bool(order.is_lt()))
}

/// `<=`
pub(crate) fn at_most(a: &Value, b: &Value) -> Result<Value, EvalStop>
    ensures { Gives result (related is_le (out-Value a.now) (out-Value b.now)) }
{
    let order = order_of(a, b)?;
    Ok(Value::Bool(order.is_le()))
}

/// `>`
pub(crate) fn greater(a: &Value, b: &Value) -> Result<Value, EvalStop>
    ensures { Gives result (related is_gt (out-Value a.now) (out-Value b.now)) }
{
    let order = order_of(a, b)?;
    Ok(Value::Bool(order.is_gt()))
}

/// `>=`
pub(crate) fn at_least(a: &Value, b: &Value) -> Result<Value, EvalStop>
    ensures { Gives result (related is_ge (out-Value a.now) (out-Value b.now)) }
{
    let order = order_of(a, b)?;
    Ok(Value::Bool(order.is_ge()))
}
