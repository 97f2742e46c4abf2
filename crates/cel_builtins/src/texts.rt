ghost use Rattle.std.specs.Prelude.{◌≡◌, ◌++◌, option_map};
ghost use Rattle.cel_values.specs.declared.value.Value.{out-Value};
ghost use Rattle.cel_values.specs.declared.value.Value.TheVariants as variant;
ghost use Rattle.cel_builtins.specs.Outcomes.{Gives, weighed as weighed_value};
ghost use Rattle.cel_builtins.specs.Texts.{code_points as points_of, has_front as front_of, has_end as end_of, contains as contained, cut_around as cut_of, tested_part, lowered, size_of};

use crate::numbers::count;
use crate::refusals::no_overload;
use crate::weighing::weighed;
use base_types::Text;
use cel_values::{EvalStop, Value};
use std::alloc::Global;

fn code_points(text: &str) -> usize
    ensures { result ≡ points_of text.now }
{
    text.as_bytes()
        .iter()
        .filter(|b| **b < 128 || **b >= 192)
        .count()
}

/// `size`
pub(crate) fn size(a: &Value) -> Result<Value, EvalStop>
    ensures { Gives result (size_of (out-Value a.now)) }
{
    match a {
        Value::Text(text) => count(code_points(text.as_str())),
        Value::List(items) => count(items.len()),
        Value::Map(entries) => count(entries.len()),
        _ => no_overload(),
    }
}

/// Both texts, the second behind the first.
pub(crate) fn joined_texts(alloc: Global, a: &str, b: &str) -> Result<Value, EvalStop>
    ensures { Gives result (weighed_value (variant.Text (a.now ++ b.now))) }
{
    let mut both = a.to_owned(alloc)?;
    both.push_str(b)?;
    weighed(Value::Text(Text::new(both)))
}

fn has_front(text: &[u8], part: &[u8]) -> bool
    ensures { result ≡ front_of text.now part.now }
{
    if text.len() < part.len() {
        return false;
    }
    &text[..part.len()] == part
}

fn has_end(text: &[u8], part: &[u8]) -> bool
    ensures { result ≡ end_of text.now part.now }
{
    if text.len() < part.len() {
        return false;
    }
    &text[text.len() - part.len()..] == part
}

/// `startsWith`
pub(crate) fn starts(a: &Value, b: &Value) -> Result<Value, EvalStop>
    ensures { Gives result (tested_part front_of (out-Value a.now) (out-Value b.now)) }
{
    match (a, b) {
        (Value::Text(a), Value::Text(b)) => {
            Ok(Value::Bool(has_front(a.as_str().as_bytes(), b.as_str().as_bytes())))
        }
        _ => no_overload(),
    }
}

/// `endsWith`
pub(crate) fn ends(a: &Value, b: &Value) -> Result<Value, EvalStop>
    ensures { Gives result (tested_part end_of (out-Value a.now) (out-Value b.now)) }
{
    match (a, b) {
        (Value::Text(a), Value::Text(b)) => {
            Ok(Value::Bool(has_end(a.as_str().as_bytes(), b.as_str().as_bytes())))
        }
        _ => no_overload(),
    }
}

// What stands before the part, where it stands first, and behind it.
pub(crate) fn cut_around<'a>(text: &'a str, part: &str) -> Option<(&'a str, &'a str)>
    ensures { option_map (λ cut. (cut.0.now, cut.1.now)) result ≡ cut_of part.now text.now }
{
    text.split_once(part)
}

/// `contains`
pub(crate) fn contains(a: &Value, b: &Value) -> Result<Value, EvalStop>
    ensures { Gives result (tested_part contained (out-Value a.now) (out-Value b.now)) }
{
    match (a, b) {
        (Value::Text(a), Value::Text(b)) => {
            Ok(Value::Bool(cut_around(a.as_str(), b.as_str()).is_some()))
        }
        _ => no_overload(),
    }
}

/// `lowerAscii`
pub(crate) fn lower(alloc: Global, a: &Value) -> Result<Value, EvalStop>
    ensures { Gives result (lowered (out-Value a.now)) }
{
    match a {
        Value::Text(text) => {
            let lower = text.as_str().to_ascii_lowercase(alloc)?;
            Ok(Value::Text(Text::new(lower)))
        }
        _ => no_overload(),
    }
}
