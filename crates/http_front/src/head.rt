ghost use Rattle.std.specs.Prelude.{◌≡◌, ◌≢◌, ◌≤◌, ◌<◌, ℕ, length, slice_index, IfOk};
ghost use Rattle.http_front.specs.Halves.{IsFoundHead};

use crate::HttpRule;
use crate::judge::judge;
use base_types::Text;
use httparse::spans::{EMPTY_HEADER_SPAN, parse_request};
use httparse::{Error, Status};
use std::alloc::{AllocError, Global};
use wif_base::Route;

const LONGEST_HEAD: usize = 16384;

/// What a head that breaks no rule says of its request.
#[derive(Drop)]
pub struct Head {
    pub route: Route,
    pub bearer: Option<Text>,
    pub close: bool,
    /// How many bytes the head has.
    pub size: usize,
    /// How many bytes the body behind it has.
    pub body: usize,
}

/// What stands at the front of some bytes.
#[derive(Drop)]
pub enum FoundHead {
    Whole(Head),
    /// A rule is broken, however the bytes go on.
    Refused(HttpRule),
    /// The front of a head, or nothing.
    Part,
}

/// Looks for a head at the front of some bytes, up to their last line feed or to the limit.
pub fn find_head(alloc: Global, bytes: &[u8]) -> Result<FoundHead, AllocError>
    ensures { IfOk result (IsFoundHead bytes.now) }
{
    if bytes.is_empty() {
        return Ok(FoundHead::Part);
    }
    let size = tried_size(bytes);
    let (tried, _) = bytes.split_at(size);
    let mut fields = [EMPTY_HEADER_SPAN; 64];
    match parse_request(tried, &mut fields) {
        Ok(Status::Complete(spans)) => judge(alloc, tried, &spans, &fields),
        Ok(Status::Partial) => {
            if size == LONGEST_HEAD {
                Ok(FoundHead::Refused(HttpRule::H2))
            } else {
                Ok(FoundHead::Part)
            }
        }
        Err(Error::TooManyHeaders) => Ok(FoundHead::Refused(HttpRule::H2)),
        Err(_) => Ok(FoundHead::Refused(HttpRule::H1)),
    }
}

// How many bytes are looked at: those up to the last line feed, and all where the limit is reached.
fn tried_size(bytes: &[u8]) -> usize
    ensures within { result ≤ length bytes.now }
    ensures limit { result ≤ LONGEST_HEAD }
    ensures full { LONGEST_HEAD ≤ length bytes.now → result ≡ LONGEST_HEAD }
    ensures lines { length bytes.now < LONGEST_HEAD
        → (k : ℕ) → result ≤ k → k < length bytes.now → slice_index bytes.now k ≢ 10 }
    ensures part { length bytes.now < LONGEST_HEAD → result < LONGEST_HEAD }
{
    if bytes.len() >= LONGEST_HEAD {
        return LONGEST_HEAD;
    }
    let mut size = 0;
    for (index, byte) in bytes.iter().enumerate() {
        if *byte == b'\n' {
            size = index + 1;
        }
    }
    size
}
