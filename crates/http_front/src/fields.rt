ghost use Rattle.std.specs.Prelude.{◌≡◌, ◌==◌, ◌≤◌, ◌+◌, ◌-◌, ◌*◌, length, map, take, All, IfOk, codes, min, true, reverse};
ghost use Rattle.std.specs.Str.{str_eq_ignore_ascii_case};
ghost use Rattle.std.specs.Str.Parse.{digits_value};
ghost use Rattle.std.specs.List.{before_first};
ghost use Rattle.httparse.specs.Spans.{IsWithin, IsHeaderWithin, header_bytes, span_bytes};
ghost use Rattle.httparse.specs.Grammar.{trim_ows, skip_ows};
ghost use Rattle.base_types.specs.Forms.{passing, is_visible_text as visible};
ghost use Rattle.http_front.specs.Fields.{values, is_digits, bearer_of, token_in as token_of, is_of_type, type_named, is_plain, asks_close};
ghost use Rattle.http_front.specs.Rulings.{IsLength};

use crate::HttpRule;
use base_types::{Text, is_visible_text};
use httparse::spans::{HeaderSpan, Span};
use std::alloc::{AllocError, Global};

const LONGEST_BODY: usize = 65536;

/// Where the values of the fields of one name are.
pub fn values_of(
    alloc: Global,
    bytes: &[u8],
    fields: &[HeaderSpan],
    name: &[u8],
) -> Result<Vec<Span>, AllocError>
    requires { All (IsHeaderWithin (length bytes.now)) fields.now }
    ensures values { IfOk result (λ spans.
        map (span_bytes bytes.now) spans.items ≡ values name.now (map (header_bytes bytes.now) fields.now)) }
    ensures within { IfOk result (λ spans. All (IsWithin (length bytes.now)) spans.items) }
{
    let mut spans = Vec::new(alloc);
    for field in fields {
        if same_word(field.name.of(bytes), name) {
            spans.push(field.value)?;
        }
    }
    Ok(spans)
}

fn same_word(a: &[u8], b: &[u8]) -> bool
    ensures { result ≡ str_eq_ignore_ascii_case a.now b.now }
{
    a.eq_ignore_ascii_case(b)
}

/// The length that the Content-Length fields tell, or the rule that they break.
pub fn length_in(bytes: &[u8], spans: &[Span]) -> Result<usize, HttpRule>
    requires { All (IsWithin (length bytes.now)) spans.now }
    ensures { IsLength (map (span_bytes bytes.now) spans.now) result }
{
    match spans {
        [] => Err(HttpRule::H7),
        [span] => {
            let value = span.of(bytes);
            if !all_digits(value) {
                return Err(HttpRule::H8);
            }
            let size = capped_number(value);
            if size > LONGEST_BODY {
                return Err(HttpRule::H9);
            }
            Ok(size)
        }
        _ => Err(HttpRule::H8),
    }
}

fn all_digits(text: &[u8]) -> bool
    ensures { result ≡ is_digits text.now }
{
    if text.is_empty() {
        return false;
    }
    for byte in text {
        if !byte.is_ascii_digit() {
            return false;
        }
    }
    true
}

// The number that the digits write, or 65,537 where it is greater.
fn capped_number(text: &[u8]) -> usize
    requires { is_digits text.now ≡ true }
    ensures { result ≡ min (digits_value 10 text.now) 65537 }
{
    let mut number = 0;
    for byte in text {
        number = (number * 10 + usize::from(byte.saturating_sub(b'0'))).min(65537);
    }
    number
}

/// Whether each value is `identity`.
pub fn all_plain(bytes: &[u8], spans: &[Span]) -> bool
    requires { All (IsWithin (length bytes.now)) spans.now }
    ensures { result ≡ is_plain (map (span_bytes bytes.now) spans.now) }
{
    for span in spans {
        if !same_word(span.of(bytes), b"identity") {
            return false;
        }
    }
    true
}

/// Whether a value is `close`.
pub fn any_close(bytes: &[u8], spans: &[Span]) -> bool
    requires { All (IsWithin (length bytes.now)) spans.now }
    ensures { result ≡ asks_close (map (span_bytes bytes.now) spans.now) }
{
    for span in spans {
        if same_word(span.of(bytes), b"close") {
            return true;
        }
    }
    false
}

/// Whether there is one Content-Type, and it is this one.
pub fn has_type(bytes: &[u8], spans: &[Span], kind: &[u8]) -> bool
    requires { All (IsWithin (length bytes.now)) spans.now }
    ensures { result ≡ is_of_type kind.now (map (span_bytes bytes.now) spans.now) }
{
    match spans {
        [span] => same_word(type_in(span.of(bytes)), kind),
        _ => false,
    }
}

// The type that a Content-Type names, without parameters.
fn type_in(value: &[u8]) -> &[u8]
    ensures { result.now ≡ type_named value.now }
{
    trimmed(before_parameters(value))
}

fn before_parameters(value: &[u8]) -> &[u8]
    ensures { result.now ≡ before_first (λ b. b == 59) value.now }
{
    for (index, byte) in value.iter().enumerate() {
        if *byte == b';' {
            let (front, _) = value.split_at(index);
            return front;
        }
    }
    value
}

// Without the spaces and tabs at both ends.
#[tactic(auto, unfolding(httparse::specs::Grammar::trim_ows))]
fn trimmed(value: &[u8]) -> &[u8]
    ensures { result.now ≡ trim_ows value.now }
{
    without_last_blanks(without_first_blanks(value))
}

fn without_first_blanks(value: &[u8]) -> &[u8]
    ensures { result.now ≡ skip_ows value.now }
{
    let mut rest = value;
    while let [b' ' | b'\t', after @ ..] = rest {
        rest = after;
    }
    rest
}

fn without_last_blanks(value: &[u8]) -> &[u8]
    ensures { result.now ≡ reverse (skip_ows (reverse value.now)) }
{
    let mut rest = value;
    while let [before @ .., b' ' | b'\t'] = rest {
        rest = before;
    }
    rest
}

/// The token of the one Authorization field.
pub fn bearer_in(alloc: Global, bytes: &[u8], spans: &[Span]) -> Result<Option<Text>, AllocError>
    requires { All (IsWithin (length bytes.now)) spans.now }
    ensures { IfOk result (λ token. token ≡ bearer_of (map (span_bytes bytes.now) spans.now)) }
{
    match spans {
        [span] => token_in(alloc, span.of(bytes)),
        _ => Ok(None),
    }
}

// The token behind `Bearer` and a space.
fn token_in(alloc: Global, value: &[u8]) -> Result<Option<Text>, AllocError>
    ensures { IfOk result (λ token. token ≡ token_of value.now) }
{
    if value.len() <= 7 {
        return Ok(None);
    }
    let (scheme, token) = value.split_at(7);
    if !same_word(scheme, b"bearer ") {
        return Ok(None);
    }
    visible_text(alloc, token)
}

// The text, where each byte of it is visible.
fn visible_text(alloc: Global, bytes: &[u8]) -> Result<Option<Text>, AllocError>
    ensures { IfOk result (λ text. text ≡ passing visible bytes.now) }
{
    let Ok(text) = std::str::from_utf8(bytes) else {
        return Ok(None);
    };
    if !is_visible_text(text) {
        return Ok(None);
    }
    Ok(Some(Text::copy_of(alloc, text)?))
}
