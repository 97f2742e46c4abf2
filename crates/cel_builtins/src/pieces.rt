ghost use Rattle.std.specs.Prelude.{◌≡◌, ◌≤◌, length, map, IfOk};
ghost use Rattle.cel_values.specs.declared.value.Value.{out-Value};
ghost use Rattle.cel_builtins.specs.Outcomes.{Gives, weighed as weighed_value};
ghost use Rattle.cel_values.specs.declared.value.Value.TheVariants as variant;
ghost use Rattle.cel_builtins.specs.Texts.{pieces as pieces_of, text_value, split_of, joined as joined_by, texts_in as texts_among, join_of};

use crate::refusals::{bad_text, no_overload};
use crate::texts::cut_around;
use crate::weighing::weighed;
use base_types::{Items, Text};
use cel_values::{EvalError, EvalStop, Value, WEIGHT};
use std::alloc::{AllocError, Global};

#[tactic(auto, using(crate::proofs::Splits::pieces_none))]
fn pieces(alloc: Global, separator: &str, text: &str) -> Result<Items<Value>, AllocError>
    requires { 1 ≤ length separator.now }
    ensures { IfOk result (λ all. all ≡ map text_value (pieces_of separator.now text.now)) }
{
    let mut all = Items::new(alloc);
    let mut rest = text;
    while let Some((piece, behind)) = cut_around(rest, separator) {
        all.push(Value::Text(Text::copy_of(alloc, piece)?))?;
        rest = behind;
    }
    all.push(Value::Text(Text::copy_of(alloc, rest)?))?;
    Ok(all)
}

/// `split`
pub(crate) fn split(alloc: Global, a: &Value, b: &Value) -> Result<Value, EvalStop>
    ensures { Gives result (split_of (out-Value a.now) (out-Value b.now)) }
{
    match (a, b) {
        (Value::Text(text), Value::Text(separator)) => {
            if separator.as_str().is_empty() {
                return bad_text();
            }
            let pieces = pieces(alloc, separator.as_str(), text.as_str())?;
            weighed(Value::List(pieces))
        }
        _ => no_overload(),
    }
}

// The items, where each is a text.
fn texts_in(alloc: Global, items: &[Value]) -> Result<Items<Text>, EvalStop>
    ensures { Gives result (texts_among items.now) }
{
    let mut texts = Items::new(alloc);
    for item in items {
        match item {
            Value::Text(text) => texts.push(text.copy(alloc)?)?,
            _ => {
                drop(texts);
                return Err(EvalStop::Error(EvalError::NoOverload));
            }
        }
    }
    Ok(texts)
}

// No further text is put behind one that weighs too much already.
fn joined(alloc: Global, separator: &str, texts: &[Text]) -> Result<Value, EvalStop>
    ensures { Gives result (weighed_value (variant.Text (joined_by separator.now texts.now))) }
{
    let mut all = String::new(alloc);
    for index in 0..texts.len() {
        if all.len() >= WEIGHT as usize {
            drop(all);
            return Err(EvalStop::Error(EvalError::TooLong));
        }
        if index > 0 {
            all.push_str(separator)?;
        }
        all.push_str(texts[index].as_str())?;
    }
    weighed(Value::Text(Text::new(all)))
}

/// `join`
pub(crate) fn join(alloc: Global, a: &Value, b: &Value) -> Result<Value, EvalStop>
    ensures { Gives result (join_of (out-Value a.now) (out-Value b.now)) }
{
    match (a, b) {
        (Value::List(items), Value::Text(separator)) => {
            let texts = texts_in(alloc, items.as_slice())?;
            let joined = joined(alloc, separator.as_str(), texts.as_slice());
            drop(texts);
            joined
        }
        _ => no_overload(),
    }
}
