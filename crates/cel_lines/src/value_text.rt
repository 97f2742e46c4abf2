//! Values as texts.
ghost use Rattle.std.specs.Prelude.{◌≡◌, ◌++◌, codes, map, string_bytes, OnOk, ℤ, true, false};
ghost use Rattle.cel_lines.specs.ValueText.{truth_text as text_of_truth, separator, separated, time_value_text, value_text, entry_text};
ghost use Rattle.std.specs.Fmt.{signed_decimal};
ghost use Rattle.cel_builtins.specs.Numbers.{is_moment as moment_is_good};
ghost use Rattle.cel_builtins.specs.Timestamps.{moment_text};

use cel_builtins::time_text;
use cel_tokens::put_quoted;
use cel_values::{MapEntry, Value};
use std::alloc::{AllocError, Global};

fn truth_text(test: bool) -> &'static str
    ensures { result.now ≡ text_of_truth test }
{
    if test { "true" } else { "false" }
}

fn is_moment(seconds: i64) -> bool
    ensures { result ≡ moment_is_good seconds }
{
    -62_135_596_800 <= seconds && seconds <= 253_402_300_799
}

fn put_separator(out: &mut String, behind_another: bool) -> Result<(), AllocError>
    ensures { OnOk result (string_bytes out.new ≡ string_bytes out.old ++ separator behind_another) }
{
    if behind_another {
        return out.push_str(", ");
    }
    Ok(())
}

fn put_between(out: &mut String, front: &str, text: &str, back: &str) -> Result<(), AllocError>
    ensures { OnOk result (string_bytes out.new ≡ string_bytes out.old ++ (front.now ++ (text.now ++ back.now))) }
{
    out.push_str(front)?;
    out.push_str(text)?;
    out.push_str(back)
}

fn put_moment(alloc: Global, out: &mut String, seconds: i64) -> Result<(), AllocError>
    requires { moment_is_good seconds ≡ true }
    ensures { OnOk result (string_bytes out.new ≡ string_bytes out.old ++ (codes "timestamp(\"" ++ (moment_text seconds ++ codes "\")"))) }
{
    let text = time_text(alloc, seconds)?;
    put_between(out, "timestamp(\"", text.as_str(), "\")")
}

fn put_time(alloc: Global, out: &mut String, seconds: i64) -> Result<(), AllocError>
    ensures { OnOk result (string_bytes out.new ≡ string_bytes out.old ++ time_value_text seconds) }
{
    if is_moment(seconds) {
        put_moment(alloc, out, seconds)
    } else {
        out.push_str("opaque")
    }
}

fn put_span(out: &mut String, seconds: i64) -> Result<(), AllocError>
    ensures { OnOk result (string_bytes out.new ≡ string_bytes out.old ++ (codes "duration(\"" ++ (signed_decimal seconds ++ codes "s\")"))) }
{
    out.push_str("duration(\"")?;
    write!(out, "{seconds}")?;
    out.push_str("s\")")
}

/// Puts the text of a value behind another text.
#[cycle(value)]
#[tactic(auto, using(crate::proofs::Entries::map_text))]
pub(crate) fn put_value(alloc: Global, out: &mut String, value: &Value) -> Result<(), AllocError>
    ensures { OnOk result (string_bytes out.new ≡ string_bytes out.old ++ value_text value.now) }
{
    match value {
        Value::Null => out.push_str("null"),
        Value::Bool(test) => out.push_str(truth_text(*test)),
        Value::Int(n) => write!(out, "{n}"),
        Value::Text(text) => put_quoted(out, text.as_str()),
        Value::List(items) => put_list(alloc, out, items.as_slice()),
        Value::Map(entries) => put_map(alloc, out, entries.as_slice()),
        Value::Time(seconds) => put_time(alloc, out, *seconds),
        Value::Span(seconds) => put_span(out, *seconds),
        Value::Opaque => out.push_str("opaque"),
    }
}

#[cycle(value)]
fn put_list(alloc: Global, out: &mut String, items: &[Value]) -> Result<(), AllocError>
    ensures { OnOk result (string_bytes out.new ≡ string_bytes out.old ++ (codes "[" ++ (separated false (map value_text items.now) ++ codes "]"))) }
{
    out.push_str("[")?;
    put_items(alloc, out, items)?;
    out.push_str("]")
}

#[cycle(value)]
fn put_map(alloc: Global, out: &mut String, entries: &[MapEntry]) -> Result<(), AllocError>
    ensures { OnOk result (string_bytes out.new ≡ string_bytes out.old ++ (codes "{" ++ (separated false (map entry_text entries.now) ++ codes "}"))) }
{
    out.push_str("{")?;
    put_entries(alloc, out, entries)?;
    out.push_str("}")
}

#[cycle(value)]
fn put_items(alloc: Global, out: &mut String, items: &[Value]) -> Result<(), AllocError>
    ensures { OnOk result (string_bytes out.new ≡ string_bytes out.old ++ separated false (map value_text items.now)) }
{
    let mut behind_another = false;
    for item in items {
        put_separator(out, behind_another)?;
        put_value(alloc, out, item)?;
        behind_another = true;
    }
    Ok(())
}

#[cycle(value)]
fn put_entries(alloc: Global, out: &mut String, entries: &[MapEntry]) -> Result<(), AllocError>
    ensures { OnOk result (string_bytes out.new ≡ string_bytes out.old ++ separated false (map entry_text entries.now)) }
{
    let mut behind_another = false;
    for entry in entries {
        put_separator(out, behind_another)?;
        put_quoted(out, entry.key.as_str())?;
        out.push_str(": ")?;
        put_value(alloc, out, &entry.value)?;
        behind_another = true;
    }
    Ok(())
}
