ghost use Rattle.std.specs.Prelude.{◌≡◌, option_map};
ghost use Rattle.cel_values.specs.declared.value.Value.{out-Value};
ghost use Rattle.cel_builtins.specs.Outcomes.{Gives};
ghost use Rattle.cel_builtins.specs.Texts.{template_of as parts_of, between as between_of, before_back as before_back_of, extracted, is_name as name_is_good, continues_name as continues, begins_name as begins, has_no_brace as is_braceless};

use crate::refusals::{bad_text, no_overload};
use crate::texts::cut_around;
use base_types::Text;
use cel_values::{EvalStop, Value};
use std::alloc::Global;

fn begins_name(b: u8) -> bool
    ensures { result ≡ begins b }
{
    (65 <= b && b <= 90) || (97 <= b && b <= 122) || b == 95
}

fn continues_name(text: &[u8]) -> bool
    ensures { result ≡ continues text.now }
{
    for b in text {
        if !begins_name(*b) && !b.is_ascii_digit() {
            return false;
        }
    }
    true
}

fn is_name(text: &[u8]) -> bool
    ensures { result ≡ name_is_good text.now }
{
    !text.is_empty() && begins_name(text[0]) && continues_name(text)
}

fn has_no_brace(text: &[u8]) -> bool
    ensures { result ≡ is_braceless text.now }
{
    for b in text {
        if *b == 123 || *b == 125 {
            return false;
        }
    }
    true
}

// What stands before and behind the one `{name}`.
fn template_of(template: &str) -> Option<(&str, &str)>
    ensures { option_map (λ parts. (parts.0.now, parts.1.now)) result ≡ parts_of template.now }
{
    let (front, behind) = cut_around(template, "{")?;
    let (name, back) = cut_around(behind, "}")?;
    if has_no_brace(front.as_bytes()) && is_name(name.as_bytes()) && has_no_brace(back.as_bytes()) {
        Some((front, back))
    } else {
        None
    }
}

fn before_back<'a>(back: &str, text: &'a str) -> &'a str
    ensures { result.now ≡ before_back_of back.now text.now }
{
    if back.is_empty() {
        return text;
    }
    match cut_around(text, back) {
        Some((piece, _)) => piece,
        None => "",
    }
}

fn between<'a>(front: &str, back: &str, text: &'a str) -> &'a str
    ensures { result.now ≡ between_of front.now back.now text.now }
{
    match cut_around(text, front) {
        Some((_, behind)) => before_back(back, behind),
        None => "",
    }
}

/// `extract`
pub(crate) fn extract(alloc: Global, a: &Value, b: &Value) -> Result<Value, EvalStop>
    ensures { Gives result (extracted (out-Value a.now) (out-Value b.now)) }
{
    match (a, b) {
        (Value::Text(text), Value::Text(template)) => match template_of(template.as_str()) {
            Some((front, back)) => {
                let piece = between(front, back, text.as_str());
                Ok(Value::Text(Text::copy_of(alloc, piece)?))
            }
            None => bad_text(),
        },
        _ => no_overload(),
    }
}
