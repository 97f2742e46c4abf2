ghost use Rattle.std.specs.Prelude.{◌≡◌, ◌≤◌, IfOk, Err, string_bytes};
ghost use Rattle.wif_base.specs.Causes.{Rose};
ghost use Rattle.http_front.specs.Replies.{WritesReply, response_text, front_text, status_line, length_line, challenge, farewell, reason};

use std::alloc::{AllocError, Global};
use wif_base::{Failed, Reply, Sink, write_text};

/// Why a reply was not written whole.
#[derive(Clone, Copy, Debug, PartialEq, Eq)]
pub enum WriteEnd {
    WriteFault,
    Memory,
}

/// Writes a reply, all of whose bytes are made first.
pub fn write_reply<O: Sink>(
    alloc: Global,
    output: &mut O,
    reply: &Reply,
    close: bool,
) -> Result<(), WriteEnd>
    ensures written { WritesReply (O.taken output.old) (O.taken output.new) (response_text reply.now close) result }
    ensures cause { result ≡ Err WriteEnd.WriteFault → Rose (O.faults output.old) (O.faults output.new) }
    ensures count { O.faults output.old ≤ O.faults output.new }
    ensures same { O.lender output.new ≡ O.lender output.old }
{
    let Ok(text) = response_bytes(alloc, reply, close) else {
        return Err(WriteEnd::Memory);
    };
    match write_text(output, text.as_slice()) {
        Ok(()) => Ok(()),
        Err(Failed) => Err(WriteEnd::WriteFault),
    }
}

fn reason_of(status: u16) -> &'static str
    ensures { result.now ≡ reason status }
{
    if status == 200 { "OK" } else { "Refused" }
}

fn challenge_of(status: u16) -> &'static str
    ensures { result.now ≡ challenge status }
{
    if status == 401 {
        "WWW-Authenticate: Bearer\r\n"
    } else {
        ""
    }
}

fn farewell_of(close: bool) -> &'static str
    ensures { result.now ≡ farewell close }
{
    if close { "Connection: close\r\n" } else { "" }
}

#[tactic(auto, unfolding(crate::specs::Replies::status_line))]
fn status_line_of(alloc: Global, status: u16) -> Result<String, AllocError>
    ensures { IfOk result (λ text. string_bytes text ≡ status_line status) }
{
    let reason = reason_of(status);
    format!(in alloc; "HTTP/1.1 {status} {reason}\r\n")
}

#[tactic(auto, unfolding(crate::specs::Replies::length_line))]
fn length_line_of(alloc: Global, size: usize) -> Result<String, AllocError>
    ensures { IfOk result (λ text. string_bytes text ≡ length_line size) }
{
    format!(in alloc; "Content-Length: {size}\r\n")
}

// The status line, the fields, and an empty line.
#[tactic(auto, unfolding(crate::specs::Replies::front_text))]
fn front_of(alloc: Global, status: u16, size: usize, close: bool) -> Result<String, AllocError>
    ensures { IfOk result (λ text. string_bytes text ≡ front_text status size close) }
{
    let mut text = status_line_of(alloc, status)?;
    text.push_str("Content-Type: application/json\r\n")?;
    let length = length_line_of(alloc, size)?;
    text.push_str(length.as_str())?;
    text.push_str("Cache-Control: no-store\r\n")?;
    text.push_str("Pragma: no-cache\r\n")?;
    text.push_str(challenge_of(status))?;
    text.push_str(farewell_of(close))?;
    text.push_str("\r\n")?;
    Ok(text)
}

#[tactic(auto, unfolding(crate::specs::Replies::response_text))]
fn response_bytes(alloc: Global, reply: &Reply, close: bool) -> Result<Vec<u8>, AllocError>
    ensures { IfOk result (λ bytes. bytes.items ≡ response_text reply.now close) }
{
    let body = reply.body.as_slice();
    let mut bytes = front_of(alloc, reply.status, body.len(), close)?.into_bytes();
    bytes.extend_from_slice(body)?;
    Ok(bytes)
}
