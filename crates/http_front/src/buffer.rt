ghost use Rattle.std.specs.Prelude.{◌≡◌, ◌≢◌, ◌≤◌, ◌+◌, [], length, drop, vec_len};
ghost use Rattle.wif_base.specs.Causes.{Rose};
ghost use Rattle.wif_base.specs.Carried.{TakesMore, input_limit};

use std::alloc::Global;
use std::marker::Model;
use wif_base::{Failed, INPUT_LIMIT, More, Source};

const PIECE: usize = 16384;

/// The bytes of a connection that were read and not used yet, and how many were taken in all. There are never
/// more of them than a whole request and one read.
#[derive(Drop)]
pub struct RequestBuffer {
    bytes: Vec<u8>,
    start: usize,
    taken: u64,
}

impl Model for RequestBuffer {
    ghost use Rattle.std.specs.Prelude.{◌≤◌, ◌+◌, drop, vec_len};
    ghost use Rattle.wif_base.specs.Carried.{Carried, input_limit};

    ghost Value = { Carried };

    ghost view = { λ b. record { unused = drop b.start b.bytes.items; taken = b.taken } };

    ghost invariant = { λ b.
        (b.start ≤ vec_len b.bytes) × (vec_len b.bytes ≤ 98_304) × (b.taken ≤ input_limit + 1) };
}

impl RequestBuffer {
    pub fn new(alloc: Global) -> Self
        ensures unused { result.unused ≡ [] }
        ensures taken { result.taken ≡ 0 }
    {
        RequestBuffer {
            bytes: Vec::new(alloc),
            start: 0,
            taken: 0,
        }
    }

    /// The bytes that were read and not used.
    pub fn unused(&self) -> &[u8]
        ensures unused { result.now ≡ self.now.unused }
        ensures room { length result.now ≤ 98_304 }
    {
        let (_, rest) = self.bytes.split_at(self.start);
        rest
    }

    /// Uses the first bytes up.
    pub(crate) fn use_up(&mut self, count: usize)
        requires { count ≤ length self.old.unused }
        ensures unused { self.new.unused ≡ drop count self.old.unused }
        ensures taken { self.new.taken ≡ self.old.taken }
    {
        self.start += count;
    }

    /// Reads more of the source, within the limit and at most one byte past it.
    pub(crate) fn take_more<I: Source>(&mut self, input: &mut I) -> More
        requires limit { self.old.taken ≤ input_limit }
        requires room { length self.old.unused ≤ 81_920 }
        ensures more { TakesMore (I.left input.old) (I.left input.new) self.old self.new result }
        ensures cause { result ≡ More.Failed → Rose (I.faults input.old) (I.faults input.new) }
        ensures count { I.faults input.old ≤ I.faults input.new }
        ensures same { I.lender input.new ≡ I.lender input.old }
    {
        let mut piece = [0u8; PIECE];
        let end = piece_size(self.taken);
        match input.read(&mut piece[..end]) {
            Ok(0) => More::End,
            Ok(count) => {
                let before = self.taken;
                self.taken = before + count as u64;
                remove_front(&mut self.bytes, self.start);
                self.start = 0;
                if self.bytes.extend_from_slice(&piece[..count]).is_err() {
                    return More::Memory;
                }
                if before == INPUT_LIMIT {
                    return More::Limit;
                }
                More::Some
            }
            Err(Failed) => More::Failed,
        }
    }
}

// How many bytes a read asks for: none past the limit, and one where it is reached.
fn piece_size(taken: u64) -> usize
    requires { taken ≤ input_limit }
    ensures some { 1 ≤ result }
    ensures piece { result ≤ PIECE }
    ensures within { (taken ≡ input_limit → result ≡ 1) × (taken ≢ input_limit → taken + result ≤ input_limit) }
{
    let room = INPUT_LIMIT - taken;
    if room < 1 {
        1
    } else if room < PIECE as u64 {
        room as usize
    } else {
        PIECE
    }
}

fn remove_front(bytes: &mut Vec<u8>, count: usize)
    requires { count ≤ vec_len bytes.old }
    ensures { bytes.new.items ≡ drop count bytes.old.items }
{
    if count == 0 {
        return;
    }
    let left = bytes.len() - count;
    bytes.copy_within(count.., 0);
    bytes.truncate(left);
}
