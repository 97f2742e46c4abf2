ghost use Rattle.std.specs.Prelude.{◌≡◌, ◌≢◌, ◌≤◌, ◌+◌, [], length, drop, vec_len};
ghost use Rattle.wif_base.specs.Causes.{Rose};
ghost use Rattle.wif_base.specs.Carried.{TakesMore, input_limit};

use crate::{Failed, Source};
use std::alloc::Global;
use std::marker::Model;

/// How many bytes of a stream are read at most: 2^30.
pub const INPUT_LIMIT: u64 = 1_073_741_824;

const PIECE: usize = 16384;

/// The bytes of a stream that were read and not used yet, and how many were taken in all.
#[derive(Drop)]
pub struct Carry {
    bytes: Vec<u8>,
    start: usize,
    taken: u64,
}

impl Model for Carry {
    ghost use Rattle.std.specs.Prelude.{◌≤◌, ◌+◌, drop, vec_len};
    ghost use Rattle.wif_base.specs.Carried.{Carried, input_limit};

    ghost Value = { Carried };

    ghost view = { λ c. record { unused = drop c.start c.bytes.items; taken = c.taken } };

    ghost invariant = { λ c. (c.start ≤ vec_len c.bytes) × (c.taken ≤ input_limit + 1) };
}

/// What a try to read more of a stream gave.
#[derive(Clone, Copy, Debug, PartialEq, Eq)]
pub enum More {
    Some,
    End,
    Failed,
    /// One byte more than the limit was taken.
    Limit,
    Memory,
}

impl Carry {
    pub fn new(alloc: Global) -> Self
        ensures unused { result.unused ≡ [] }
        ensures taken { result.taken ≡ 0 }
    {
        Carry {
            bytes: Vec::new(alloc),
            start: 0,
            taken: 0,
        }
    }

    /// The bytes that were read and not used.
    pub fn unused(&self) -> &[u8]
        ensures { result.now ≡ self.now.unused }
    {
        let (_, rest) = self.bytes.split_at(self.start);
        rest
    }

    /// Uses the first bytes up.
    pub fn use_up(&mut self, count: usize)
        requires { count ≤ length self.old.unused }
        ensures unused { self.new.unused ≡ drop count self.old.unused }
        ensures taken { self.new.taken ≡ self.old.taken }
    {
        self.start += count;
    }

    /// Reads more of the source, within the limit and at most one byte past it.
    pub fn take_more<I: Source>(&mut self, input: &mut I) -> More
        requires { self.old.taken ≤ input_limit }
        ensures more { TakesMore (I.left input.old) (I.left input.new) self.old self.new result }
        ensures cause { result ≡ More.Failed → Rose (I.faults input.old) (I.faults input.new) }
        ensures count { I.faults input.old ≤ I.faults input.new }
        ensures same { I.lender input.new ≡ I.lender input.old }
    {
        let mut piece = [0u8; PIECE];
        let end = piece_size(self.taken);
        match input.read(&mut piece[..end]) {
            Ok(0) => More::End,
            Ok(count) => {
                let before = self.taken;
                self.taken = before + count as u64;
                remove_front(&mut self.bytes, self.start);
                self.start = 0;
                if self.bytes.extend_from_slice(&piece[..count]).is_err() {
                    return More::Memory;
                }
                if before == INPUT_LIMIT {
                    return More::Limit;
                }
                More::Some
            }
            Err(Failed) => More::Failed,
        }
    }
}

// How many bytes a read asks for: none past the limit, and one where it is reached.
fn piece_size(taken: u64) -> usize
    requires { taken ≤ input_limit }
    ensures some { 1 ≤ result }
    ensures piece { result ≤ PIECE }
    ensures within { (taken ≡ input_limit → result ≡ 1) × (taken ≢ input_limit → taken + result ≤ input_limit) }
{
    let room = INPUT_LIMIT - taken;
    if room < 1 {
        1
    } else if room < PIECE as u64 {
        room as usize
    } else {
        PIECE
    }
}

fn remove_front(bytes: &mut Vec<u8>, count: usize)
    requires { count ≤ vec_len bytes.old }
    ensures { bytes.new.items ≡ drop count bytes.old.items }
{
    if count == 0 {
        return;
    }
    let left = bytes.len() - count;
    bytes.copy_within(count.., 0);
    bytes.truncate(left);
}

#[cfg(test)]
mod tests {
    use super::*;
    use crate::MemSource;
    use std::test::Fail;

    #[test]
    fn stream_is_taken_piece_by_piece(rt: HostRuntime) -> Result<(), Fail> {
        let bytes = b"abcde".to_vec(rt.alloc())?;
        let mut input = MemSource::new(bytes, [1].to_vec(rt.alloc())?);
        let mut carry = Carry::new(rt.alloc());
        assert_eq!(rt; carry.take_more(&mut input), More::Some);
        let count = carry.unused().len().min(3);
        carry.use_up(count);
        assert_eq!(rt; carry.take_more(&mut input), More::Failed);
        assert_eq!(rt; carry.take_more(&mut input), More::End);
        assert_eq!(rt; carry.unused(), b"de".as_slice());
        Ok(())
    }
}
