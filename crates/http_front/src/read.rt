ghost use Rattle.std.specs.Prelude.{◌≡◌, ◌≢◌, ◌≤◌, ◌<◌, ◌+◌, ◌-◌, ◌*◌, length, drop, Err};
ghost use Rattle.wif_base.specs.Causes.{Rose};
ghost use Rattle.wif_base.specs.Carried.{input_limit};
ghost use Rattle.http_front.specs.Halves.{ReadsHead, ReadsBody, IsAtEndOf};
ghost use Rattle.http_front.specs.Reading.{Reads};

use crate::head::{FoundHead, Head, find_head};
use crate::{HttpEnd, HttpRule, Incoming, RequestBuffer};
use base_types::Bytes;
use std::alloc::Global;
use wif_base::{More, Request, Source};

/// Reads the next request of a stream, and none where the stream ends before its first byte.
pub fn read_request<I: Source>(
    alloc: Global,
    input: &mut I,
    buffer: &mut RequestBuffer,
) -> Result<Option<Incoming>, HttpEnd>
    requires limit { buffer.old.taken ≤ input_limit }
    ensures reads { Reads (I.left input.old) (I.left input.new) buffer.old buffer.new result }
    ensures read_fault { result ≡ Err HttpEnd.ReadFault → Rose (I.faults input.old) (I.faults input.new) }
    ensures count { I.faults input.old ≤ I.faults input.new }
    ensures same { I.lender input.new ≡ I.lender input.old }
{
    let head = match read_head(alloc, input, buffer) {
        Ok(Some(head)) => head,
        Ok(None) => return Ok(None),
        Err(end) => return Err(end),
    };
    let body = match read_body(alloc, input, buffer, head.size, head.body) {
        Ok(body) => body,
        Err(end) => return Err(end),
    };
    Ok(Some(Incoming {
        request: Request {
            route: head.route,
            bearer: head.bearer,
            body,
        },
        close: head.close,
    }))
}

// Reads until a head stands at the front, or the input ends before a first byte.
fn read_head<I: Source>(
    alloc: Global,
    input: &mut I,
    buffer: &mut RequestBuffer,
) -> Result<Option<Head>, HttpEnd>
    requires limit { buffer.old.taken ≤ input_limit }
    ensures reads { ReadsHead (I.left input.old) (I.left input.new) buffer.old buffer.new result }
    ensures read_fault { result ≡ Err HttpEnd.ReadFault → Rose (I.faults input.old) (I.faults input.new) }
    ensures count { I.faults input.old ≤ I.faults input.new }
    ensures same { I.lender input.new ≡ I.lender input.old }
{
    'tries: loop {
        match find_head(alloc, buffer.unused()) {
            Ok(FoundHead::Whole(head)) => return Ok(Some(head)),
            Ok(FoundHead::Refused(rule)) => return Err(HttpEnd::Refused { rule }),
            Ok(FoundHead::Part) => match buffer.take_more(input) {
                More::Some => {}
                More::End => return at_end(buffer),
                More::Failed => return Err(HttpEnd::ReadFault),
                More::Limit => return Err(HttpEnd::InputLimit),
                More::Memory => return Err(HttpEnd::Memory),
            },
            Err(_) => return Err(HttpEnd::Memory),
        }
    }
}

// At the input's end nothing is left, or a head that is not whole.
fn at_end(buffer: &RequestBuffer) -> Result<Option<Head>, HttpEnd>
    ensures { IsAtEndOf buffer.now.unused result }
{
    if buffer.unused().is_empty() {
        Ok(None)
    } else {
        Err(HttpEnd::Refused { rule: HttpRule::H1 })
    }
}

// Reads on until the body behind the head is whole, and takes both off the front.
fn read_body<I: Source>(
    alloc: Global,
    input: &mut I,
    buffer: &mut RequestBuffer,
    head: usize,
    body: usize,
) -> Result<Bytes, HttpEnd>
    requires limit { buffer.old.taken ≤ input_limit }
    requires head { head ≤ length buffer.old.unused }
    requires size { head ≤ 16384 }
    requires body { body ≤ 65536 }
    ensures reads { ReadsBody (I.left input.old) (I.left input.new) buffer.old buffer.new head body result }
    ensures read_fault { result ≡ Err HttpEnd.ReadFault → Rose (I.faults input.old) (I.faults input.new) }
    ensures count { I.faults input.old ≤ I.faults input.new }
    ensures same { I.lender input.new ≡ I.lender input.old }
{
    let whole = head + body;
    'more: while buffer.unused().len() < whole {
        match buffer.take_more(input) {
            More::Some => {}
            More::End => return Err(HttpEnd::Refused {
                rule: HttpRule::H11,
            }),
            More::Failed => return Err(HttpEnd::ReadFault),
            More::Limit => return Err(HttpEnd::InputLimit),
            More::Memory => return Err(HttpEnd::Memory),
        }
    }
    let (front, _) = buffer.unused().split_at(whole);
    let (_, text) = front.split_at(head);
    let Ok(body) = Bytes::copy_of(alloc, text) else {
        return Err(HttpEnd::Memory);
    };
    buffer.use_up(whole);
    Ok(body)
}
