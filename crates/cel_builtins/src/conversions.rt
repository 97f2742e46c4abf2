ghost use Rattle.std.specs.Prelude.{◌≡◌, IfOk, string_bytes};
ghost use Rattle.cel_values.specs.declared.value.Value.{out-Value};
ghost use Rattle.cel_builtins.specs.Outcomes.{Gives};
ghost use Rattle.cel_builtins.specs.Durations.{as_integer as integer_from, as_text as text_from, as_span as span_from, truth_text as text_of_truth};
ghost use Rattle.cel_builtins.specs.Timestamps.{as_moment as moment_from};

use crate::durations::{integer_in, span_in};
use crate::numbers::is_moment;
use crate::refusals::{no_overload, overflow};
use crate::timestamps::{moment_in, time_text};
use base_types::Text;
use cel_values::{EvalStop, Value};
use std::alloc::Global;

/// `int`
pub(crate) fn as_integer(a: &Value) -> Result<Value, EvalStop>
    ensures { Gives result (integer_from (out-Value a.now)) }
{
    match a {
        Value::Int(n) => Ok(Value::Int(*n)),
        Value::Text(text) => integer_in(text.as_str()),
        Value::Time(seconds) => Ok(Value::Int(*seconds)),
        _ => no_overload(),
    }
}

fn truth_text(test: bool) -> &'static str
    ensures { result.now ≡ text_of_truth test }
{
    if test { "true" } else { "false" }
}

/// `string`
pub(crate) fn as_text(alloc: Global, a: &Value) -> Result<Value, EvalStop>
    ensures { Gives result (text_from (out-Value a.now)) }
{
    match a {
        Value::Text(text) => Ok(Value::Text(text.copy(alloc)?)),
        Value::Int(n) => Ok(Value::Text(Text::new(format!(in alloc; "{n}")?))),
        Value::Bool(test) => Ok(Value::Text(Text::copy_of(alloc, truth_text(*test))?)),
        Value::Time(seconds) => {
            if !is_moment(*seconds) {
                return overflow();
            }
            Ok(Value::Text(Text::new(time_text(alloc, *seconds)?)))
        }
        _ => no_overload(),
    }
}

/// `timestamp`
pub(crate) fn as_moment(a: &Value) -> Result<Value, EvalStop>
    ensures { Gives result (moment_from (out-Value a.now)) }
{
    match a {
        Value::Text(text) => moment_in(text.as_str()),
        Value::Time(seconds) => Ok(Value::Time(*seconds)),
        _ => no_overload(),
    }
}

/// `duration`
pub(crate) fn as_span(a: &Value) -> Result<Value, EvalStop>
    ensures { Gives result (span_from (out-Value a.now)) }
{
    match a {
        Value::Text(text) => span_in(text.as_str()),
        Value::Span(seconds) => Ok(Value::Span(*seconds)),
        _ => no_overload(),
    }
}
