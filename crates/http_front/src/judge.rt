ghost use Rattle.std.specs.Prelude.{◌≡◌, ◌≤◌, ◌==◌, ◌||◌, length, map, All, IfOk, Some};
ghost use Rattle.httparse.specs.Spans.{IsRequestOf, IsRequestWithin, IsHeaderWithin, IsWithin, header_bytes, span_bytes};
ghost use Rattle.wif_base.specs.Routes.{route};
ghost use Rattle.http_front.specs.Heads.{type_of};
ghost use Rattle.http_front.specs.Fields.{asks_close};
ghost use Rattle.http_front.specs.Rulings.{IsRuled};
ghost use Rattle.http_front.specs.Halves.{IsJudged};

use crate::HttpRule;
use crate::fields::{all_plain, any_close, bearer_in, has_type, length_in, values_of};
use crate::head::{FoundHead, Head};
use httparse::spans::{HeaderSpan, RequestSpans, Span};
use std::alloc::{AllocError, Global};
use wif_base::{Route, route_of};

/// What the rules say of a head.
#[derive(Drop)]
pub enum Ruling {
    /// Its route, and how many bytes its body has.
    Sound { route: Route, body: usize },
    /// The first rule that it breaks.
    Broken(HttpRule),
}

/// Judges a head that was found, by the rules in their order.
pub fn judge(
    alloc: Global,
    bytes: &[u8],
    spans: &RequestSpans,
    headers: &[HeaderSpan],
) -> Result<FoundHead, AllocError>
    requires within { IsRequestWithin bytes.now headers.now spans.now }
    requires head { IsRequestOf bytes.now headers.now spans.now }
    requires room { length headers.now ≤ 64 }
    requires size { length bytes.now ≤ 16384 }
    ensures { IfOk result (IsJudged bytes.now) }
{
    let (fields, _) = headers.split_at(spans.headers);
    let method = spans.method.of(bytes);
    let target = spans.path.of(bytes);
    let path = std::str::from_utf8(target).unwrap();
    let found = route_of(alloc, path)?;
    let (route, body) = match ruled(alloc, method, target, found, bytes, fields)? {
        Ruling::Sound { route, body } => (route, body),
        Ruling::Broken(rule) => return Ok(FoundHead::Refused(rule)),
    };
    let authorization = values_of(alloc, bytes, fields, b"authorization")?;
    let bearer = bearer_in(alloc, bytes, authorization.as_slice())?;
    let connection = values_of(alloc, bytes, fields, b"connection")?;
    let close = closes(spans.version, bytes, connection.as_slice());
    Ok(FoundHead::Whole(Head {
        route,
        bearer,
        close,
        size: spans.len,
        body,
    }))
}

// Whether the connection ends behind the request.
fn closes(version: u8, bytes: &[u8], connection: &[Span]) -> bool
    requires { All (IsWithin (length bytes.now)) connection.now }
    ensures { result ≡ (version == 0 || asks_close (map (span_bytes bytes.now) connection.now)) }
{
    version == 0 || any_close(bytes, connection)
}

// The route and the length of the body, or the first rule that is broken.
#[tactic(auto, unfolding(crate::specs::Heads::fault_of))]
fn ruled(
    alloc: Global,
    method: &[u8],
    target: &[u8],
    found: Option<Route>,
    bytes: &[u8],
    fields: &[HeaderSpan],
) -> Result<Ruling, AllocError>
    requires within { All (IsHeaderWithin (length bytes.now)) fields.now }
    requires route { found ≡ route target.now }
    ensures { IfOk result (IsRuled method.now target.now (map (header_bytes bytes.now) fields.now)) }
{
    if target.len() > 2048 {
        return Ok(Ruling::Broken(HttpRule::H3));
    }
    let Some(route) = found else {
        return Ok(Ruling::Broken(HttpRule::H4));
    };
    if method != b"POST".as_slice() {
        return Ok(Ruling::Broken(HttpRule::H5));
    }
    let transfer = values_of(alloc, bytes, fields, b"transfer-encoding")?;
    if !transfer.is_empty() {
        return Ok(Ruling::Broken(HttpRule::H6));
    }
    let lengths = values_of(alloc, bytes, fields, b"content-length")?;
    let body = match length_in(bytes, lengths.as_slice()) {
        Ok(size) => size,
        Err(rule) => return Ok(Ruling::Broken(rule)),
    };
    let types = values_of(alloc, bytes, fields, b"content-type")?;
    if !has_type(bytes, types.as_slice(), type_name(&route)) {
        return Ok(Ruling::Broken(HttpRule::H10));
    }
    let codings = values_of(alloc, bytes, fields, b"content-encoding")?;
    if !all_plain(bytes, codings.as_slice()) {
        return Ok(Ruling::Broken(HttpRule::H10));
    }
    Ok(Ruling::Sound { route, body })
}

// What the body of a request on this route is.
fn type_name(route: &Route) -> &'static [u8]
    ensures { result.now ≡ type_of (Some route.now) }
{
    match route {
        Route::Token | Route::Introspect => b"application/x-www-form-urlencoded",
        Route::Generate { account: _account } => b"application/json",
        Route::Check | Route::Admin => b"application/json",
    }
}
