ghost use Rattle.std.specs.Prelude.{◌≡◌, ◌+ℤ◌, ◌-ℤ◌, ◌*ℤ◌, neg_ℤ, pos, Err};
ghost use Rattle.cel_values.specs.declared.error.EvalError.TheVariants.{Divide};
ghost use Rattle.cel_values.specs.declared.value.Value.{out-Value};
ghost use Rattle.cel_builtins.specs.Outcomes.{Gives, Outcome};
ghost use Rattle.cel_builtins.specs.Numbers.{is_moment as moment_is_good, is_span as span_is_good, integer as integer_of, moment as moment_of, span as span_of, quotient as quotient_of_integers, remainder as remainder_of_integers, sum_of, difference_of, product_of, quotient_of, remainder_of, opposite_of, inverse_of};

use crate::lists::joined_lists;
use crate::refusals::{no_overload, overflow};
use crate::texts::joined_texts;
use cel_values::{EvalError, EvalStop, Value};
use std::alloc::Global;

fn divide() -> Result<Value, EvalStop>
    ensures { Gives result (let none : Outcome = Err Divide in none) }
{
    Err(EvalStop::Error(EvalError::Divide))
}

/// Whether the second lies in the years 1 to 9999.
pub(crate) fn is_moment(seconds: i64) -> bool
    ensures { result ≡ moment_is_good seconds }
{
    -62_135_596_800 <= seconds && seconds <= 253_402_300_799
}

/// Whether a span may have so many seconds.
pub(crate) fn is_span(seconds: i64) -> bool
    ensures { result ≡ span_is_good seconds }
{
    -315_576_000_000 <= seconds && seconds <= 315_576_000_000
}

fn moment(seconds: i64) -> Result<Value, EvalStop>
    ensures { Gives result (moment_of seconds) }
{
    if is_moment(seconds) {
        Ok(Value::Time(seconds))
    } else {
        overflow()
    }
}

fn span(seconds: i64) -> Result<Value, EvalStop>
    ensures { Gives result (span_of seconds) }
{
    if is_span(seconds) {
        Ok(Value::Span(seconds))
    } else {
        overflow()
    }
}

fn sum(a: i64, b: i64) -> Result<Value, EvalStop>
    ensures { Gives result (integer_of (a +ℤ b)) }
{
    match a.checked_add(b) {
        Some(n) => Ok(Value::Int(n)),
        None => overflow(),
    }
}

fn difference(a: i64, b: i64) -> Result<Value, EvalStop>
    ensures { Gives result (integer_of (a -ℤ b)) }
{
    match a.checked_sub(b) {
        Some(n) => Ok(Value::Int(n)),
        None => overflow(),
    }
}

fn product(a: i64, b: i64) -> Result<Value, EvalStop>
    ensures { Gives result (integer_of (a *ℤ b)) }
{
    match a.checked_mul(b) {
        Some(n) => Ok(Value::Int(n)),
        None => overflow(),
    }
}

fn quotient(a: i64, b: i64) -> Result<Value, EvalStop>
    ensures { Gives result (quotient_of_integers a b) }
{
    if b == 0 {
        return divide();
    }
    match a.checked_div(b) {
        Some(n) => Ok(Value::Int(n)),
        None => overflow(),
    }
}

fn remainder(a: i64, b: i64) -> Result<Value, EvalStop>
    ensures { Gives result (remainder_of_integers a b) }
{
    if b == 0 {
        return divide();
    }
    match a.checked_rem(b) {
        Some(n) => Ok(Value::Int(n)),
        None => overflow(),
    }
}

fn negated(a: i64) -> Result<Value, EvalStop>
    ensures { Gives result (integer_of (neg_ℤ a)) }
{
    match a.checked_neg() {
        Some(n) => Ok(Value::Int(n)),
        None => overflow(),
    }
}

/// A count as an integer.
pub(crate) fn count(n: usize) -> Result<Value, EvalStop>
    ensures { Gives result (integer_of (pos n)) }
{
    match i64::try_from(n) {
        Ok(n) => Ok(Value::Int(n)),
        Err(_) => overflow(),
    }
}

fn later(a: i64, b: i64) -> Result<Value, EvalStop>
    ensures { Gives result (moment_of (a +ℤ b)) }
{
    match a.checked_add(b) {
        Some(seconds) => moment(seconds),
        None => overflow(),
    }
}

fn earlier(a: i64, b: i64) -> Result<Value, EvalStop>
    ensures { Gives result (moment_of (a -ℤ b)) }
{
    match a.checked_sub(b) {
        Some(seconds) => moment(seconds),
        None => overflow(),
    }
}

fn longer(a: i64, b: i64) -> Result<Value, EvalStop>
    ensures { Gives result (span_of (a +ℤ b)) }
{
    match a.checked_add(b) {
        Some(seconds) => span(seconds),
        None => overflow(),
    }
}

fn distance(a: i64, b: i64) -> Result<Value, EvalStop>
    ensures { Gives result (span_of (a -ℤ b)) }
{
    match a.checked_sub(b) {
        Some(seconds) => span(seconds),
        None => overflow(),
    }
}

/// `+`
pub(crate) fn add(alloc: Global, a: &Value, b: &Value) -> Result<Value, EvalStop>
    ensures { Gives result (sum_of (out-Value a.now) (out-Value b.now)) }
{
    match (a, b) {
        (Value::Int(a), Value::Int(b)) => sum(*a, *b),
        (Value::Text(a), Value::Text(b)) => joined_texts(alloc, a.as_str(), b.as_str()),
        (Value::List(a), Value::List(b)) => joined_lists(alloc, a.as_slice(), b.as_slice()),
        (Value::Time(a), Value::Span(b)) => later(*a, *b),
        (Value::Span(a), Value::Time(b)) => later(*a, *b),
        (Value::Span(a), Value::Span(b)) => longer(*a, *b),
        _ => no_overload(),
    }
}

/// `-`
pub(crate) fn subtract(a: &Value, b: &Value) -> Result<Value, EvalStop>
    ensures { Gives result (difference_of (out-Value a.now) (out-Value b.now)) }
{
    match (a, b) {
        (Value::Int(a), Value::Int(b)) => difference(*a, *b),
        (Value::Time(a), Value::Span(b)) => earlier(*a, *b),
        (Value::Time(a), Value::Time(b)) => distance(*a, *b),
        (Value::Span(a), Value::Span(b)) => distance(*a, *b),
        _ => no_overload(),
    }
}

/// `*`
pub(crate) fn multiply(a: &Value, b: &Value) -> Result<Value, EvalStop>
    ensures { Gives result (product_of (out-Value a.now) (out-Value b.now)) }
{
    match (a, b) {
        (Value::Int(a), Value::Int(b)) => product(*a, *b),
        _ => no_overload(),
    }
}

/// `/`
pub(crate) fn divided(a: &Value, b: &Value) -> Result<Value, EvalStop>
    ensures { Gives result (quotient_of (out-Value a.now) (out-Value b.now)) }
{
    match (a, b) {
        (Value::Int(a), Value::Int(b)) => quotient(*a, *b),
        _ => no_overload(),
    }
}

/// `%`
pub(crate) fn rest(a: &Value, b: &Value) -> Result<Value, EvalStop>
    ensures { Gives result (remainder_of (out-Value a.now) (out-Value b.now)) }
{
    match (a, b) {
        (Value::Int(a), Value::Int(b)) => remainder(*a, *b),
        _ => no_overload(),
    }
}

/// `-` of one operand
pub(crate) fn opposite(a: &Value) -> Result<Value, EvalStop>
    ensures { Gives result (opposite_of (out-Value a.now)) }
{
    match a {
        Value::Int(a) => negated(*a),
        _ => no_overload(),
    }
}

/// `!`
pub(crate) fn inverse(a: &Value) -> Result<Value, EvalStop>
    ensures { Gives result (inverse_of (out-Value a.now)) }
{
    match a {
        Value::Bool(test) => Ok(Value::Bool(!*test)),
        _ => no_overload(),
    }
}
