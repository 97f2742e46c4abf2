ghost use Rattle.std.specs.Prelude.{◌≡◌, ◌≤◌, ◌∷◌, [], length, map, All, IfOk, codes};
ghost use Rattle.std.specs.Str.{str_eq_ignore_ascii_case};
ghost use Rattle.httparse.specs.Spans.{IsHeaderWithin, IsResponseOf, IsResponseWithin, IsWithin, header_bytes, span_bytes};
ghost use Rattle.client_proto.specs.Heads.{IsBody, IsFoundReply, IsSizedFront};
ghost use Rattle.client_proto.specs.Replies.{values};

use crate::number::read_decimal;
use httparse::Status;
use httparse::spans::{EMPTY_HEADER_SPAN, HeaderSpan, ResponseSpans, Span, parse_response};
use std::alloc::{AllocError, Global};

/// The status and the body of the reply that stands at the front of some bytes.
pub(crate) fn find_reply(alloc: Global, bytes: &[u8]) -> Result<Option<(u16, &[u8])>, AllocError>
    ensures { IfOk result (IsFoundReply bytes.now) }
{
    let mut fields = [EMPTY_HEADER_SPAN; 64];
    match parse_response(bytes, &mut fields) {
        Ok(Status::Complete(spans)) => reply_at(alloc, bytes, &spans, &fields),
        Ok(Status::Partial) => Ok(None),
        Err(_) => Ok(None),
    }
}

// The reply of a head that was found.
fn reply_at<'a>(
    alloc: Global,
    bytes: &'a [u8],
    spans: &ResponseSpans,
    headers: &[HeaderSpan],
) -> Result<Option<(u16, &'a [u8])>, AllocError>
    requires within { IsResponseWithin bytes.now headers.now spans.now }
    requires head { IsResponseOf bytes.now headers.now spans.now }
    requires room { length headers.now ≤ 64 }
    ensures { IfOk result (IsFoundReply bytes.now) }
{
    let (fields, _) = headers.split_at(spans.headers);
    let (_, rest) = bytes.split_at(spans.len);
    let lengths = values_of(alloc, bytes, fields, b"content-length")?;
    match body_of(alloc, bytes, lengths.as_slice(), rest)? {
        Some(body) => Ok(Some((spans.code, body))),
        None => Ok(None),
    }
}

// The body whose length the one span writes.
fn body_of<'a>(
    alloc: Global,
    bytes: &[u8],
    lengths: &[Span],
    rest: &'a [u8],
) -> Result<Option<&'a [u8]>, AllocError>
    requires { All (IsWithin (length bytes.now)) lengths.now }
    ensures { IfOk result (IsBody (map (span_bytes bytes.now) lengths.now) rest.now) }
{
    match lengths {
        [span] => sized_front(alloc, span.of(bytes), rest),
        _ => Ok(None),
    }
}

// The front of the bytes whose length is that decimal.
fn sized_front<'a>(
    alloc: Global,
    value: &[u8],
    rest: &'a [u8],
) -> Result<Option<&'a [u8]>, AllocError>
    ensures { IfOk result (IsSizedFront value.now rest.now) }
{
    let most = rest.len() as u64;
    let Ok(text) = std::str::from_utf8(value) else {
        return Ok(None);
    };
    match read_decimal(alloc, text, most)? {
        Some(size) => {
            let (body, _) = rest.split_at(size as usize);
            Ok(Some(body))
        }
        None => Ok(None),
    }
}

// Where the values of the fields of one name are.
fn values_of(
    alloc: Global,
    bytes: &[u8],
    fields: &[HeaderSpan],
    name: &[u8],
) -> Result<Vec<Span>, AllocError>
    requires { All (IsHeaderWithin (length bytes.now)) fields.now }
    ensures values { IfOk result (λ spans. map (span_bytes bytes.now) spans.items ≡ values name.now (map (header_bytes bytes.now) fields.now)) }
    ensures within { IfOk result (λ spans. All (IsWithin (length bytes.now)) spans.items) }
{
    let mut spans = Vec::new(alloc);
    for field in fields {
        if same_word(field.name.of(bytes), name) {
            spans.push(field.value)?;
        }
    }
    Ok(spans)
}

fn same_word(a: &[u8], b: &[u8]) -> bool
    ensures { result ≡ str_eq_ignore_ascii_case a.now b.now }
{
    a.eq_ignore_ascii_case(b)
}
