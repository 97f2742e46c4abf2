ghost use Rattle.std.specs.Prelude.{◌≡◌, ◌≤◌, ◌<◌, ◌^◌, ℕ, ℤ, pos, true, option_map, Option, None, Some, IfSome};
ghost use Rattle.std.specs.Char.{is_ascii_digit};
ghost use Rattle.std.specs.Str.Parse.{starts_with_minus as minus_in_front};
ghost use Rattle.cel_builtins.specs.Bounds.{bounded};
ghost use Rattle.cel_builtins.specs.Outcomes.{Gives};
ghost use Rattle.cel_builtins.specs.Durations.{number_in as number_of_text, unsigned_text as text_behind, signed as signed_by, integer_in as integer_of_text, unit as unit_of, with_digit as digit_behind, with_part as part_behind, parts_seconds as seconds_of_parts, span_in as span_of_text};

use crate::refusals::bad_text;
use cel_values::{EvalStop, Value};

/// The distance of the least integer from 0.
const GREATEST: u128 = 9_223_372_036_854_775_808;

/// The greatest span.
const LONGEST: u64 = 315_576_000_000;

// The number that digits write, where it is at most 2^63.

#[tactic(auto, using(crate::proofs::Read::number_past_at))]
fn number_in(digits: &[u8]) -> Option<u128>
    ensures value { result ≡ bounded 9223372036854775808 (number_of_text digits.now) }
    ensures bound { IfSome result (λ n. n ≤ 9223372036854775808) }
{
    if digits.is_empty() {
        return None;
    }
    let mut n = 0u128;
    for b in digits {
        if !b.is_ascii_digit() {
            return None;
        }
        n = n * 10 + u128::from(*b - 48);
        if n > GREATEST {
            return None;
        }
    }
    Some(n)
}

fn unsigned_text(text: &[u8]) -> &[u8]
    ensures { result.now ≡ text_behind text.now }
{
    if starts_with_minus(text) {
        &text[1..]
    } else {
        text
    }
}

fn starts_with_minus(text: &[u8]) -> bool
    ensures { result ≡ minus_in_front text.now }
{
    !text.is_empty() && text[0] == 45
}

fn signed(text: &[u8], n: u128) -> i128
    requires { n ≤ 9223372036854775808 }
    ensures { result ≡ signed_by text.now n }
{
    if starts_with_minus(text) {
        -(n as i128)
    } else {
        n as i128
    }
}

/// The integer that a text writes: an optional minus and digits.
pub(crate) fn integer_in(text: &str) -> Result<Value, EvalStop>
    ensures { Gives result (integer_of_text text.now) }
{
    let text = text.as_bytes();
    let Some(n) = number_in(unsigned_text(text)) else {
        return bad_text();
    };
    match i64::try_from(signed(text, n)) {
        Ok(n) => Ok(Value::Int(n)),
        Err(_) => bad_text(),
    }
}

fn unit(b: u8) -> Option<u64>
    ensures { result ≡ unit_of b }
{
    match b {
        b'h' => Some(3600),
        b'm' => Some(60),
        b's' => Some(1),
        _ => None,
    }
}

fn with_digit(pending: Option<u64>, b: u8) -> Option<u64>
    requires pending { IfSome pending (λ n. n ≤ 315576000000) }
    requires digit { is_ascii_digit b ≡ true }
    ensures value { result ≡ bounded 315576000000 (Some (digit_behind pending b)) }
    ensures bound { IfSome result (λ n. n ≤ 315576000000) }
{
    let before = pending.unwrap_or(0);
    let n = before * 10 + u64::from(b - 48);
    if n > LONGEST { None } else { Some(n) }
}

fn with_part(total: u64, pending: Option<u64>, b: u8) -> Option<u64>
    requires total { total ≤ 315576000000 }
    requires pending { IfSome pending (λ n. n ≤ 315576000000) }
    ensures value { result ≡ bounded 315576000000 (part_behind total pending (unit_of b)) }
    ensures bound { IfSome result (λ n. n ≤ 315576000000) }
{
    let n = total + pending? * unit(b)?;
    if n > LONGEST { None } else { Some(n) }
}

// The seconds of one or more parts, where they are no more than a span has.

#[tactic(auto, using(crate::proofs::Read::digit_past_at, crate::proofs::Read::part_past_at))]
fn parts_seconds(text: &[u8]) -> Option<u64>
    ensures value { result ≡ bounded 315576000000 (seconds_of_parts text.now) }
    ensures bound { IfSome result (λ n. n ≤ 315576000000) }
{
    if text.is_empty() {
        return None;
    }
    let mut pending = None;
    let mut total = 0;
    for b in text {
        if b.is_ascii_digit() {
            pending = Some(with_digit(pending, *b)?);
        } else {
            total = with_part(total, pending, *b)?;
            pending = None;
        }
    }
    match pending {
        Some(_) => None,
        None => Some(total),
    }
}

fn signed_seconds(text: &[u8], n: u64) -> i64
    requires { n ≤ 315576000000 }
    ensures { result ≡ signed_by text.now n }
{
    if starts_with_minus(text) {
        -(n as i64)
    } else {
        n as i64
    }
}

/// The span that a text writes: an optional minus and one or more numbers with their units.
#[tactic(auto, using(crate::proofs::Spans::span_past, crate::proofs::Spans::span_some))]
pub(crate) fn span_in(text: &str) -> Result<Value, EvalStop>
    ensures { Gives result (span_of_text text.now) }
{
    let text = text.as_bytes();
    let Some(n) = parts_seconds(unsigned_text(text)) else {
        return bad_text();
    };
    Ok(Value::Span(signed_seconds(text, n)))
}
