ghost use Rattle.std.specs.Prelude.{◌≡◌, ◌≤◌, IfOk, IsErrOf};
ghost use Rattle.wif_base.specs.Causes.{Rose};
ghost use Rattle.wif_base.specs.Whole.{IsReadWhole};

use crate::{Failed, Source};
use std::alloc::Global;

/// Why the bytes of a source aren't in hand.
#[derive(Clone, Copy, Debug, PartialEq, Eq)]
pub enum ReadEnd {
    Failed,
    Memory,
}

/// Reads a source to its end, or past so many bytes.
pub fn read_whole<S: Source>(alloc: Global, source: &mut S, most: usize) -> Result<Vec<u8>, ReadEnd>
    ensures read { IfOk result (λ bytes. IsReadWhole most (S.left source.old) (S.left source.new) bytes.items) }
    ensures failed { IsErrOf result ReadEnd.Failed → Rose (S.faults source.old) (S.faults source.new) }
    ensures count { S.faults source.old ≤ S.faults source.new }
    ensures same { S.lender source.new ≡ S.lender source.old }
{
    let mut bytes = Vec::new(alloc);
    let mut piece = [0u8; 4096];
    'pieces: while bytes.len() <= most {
        match source.read(&mut piece) {
            Ok(0) => return Ok(bytes),
            Ok(count) => {
                if bytes.extend_from_slice(&piece[..count]).is_err() {
                    return Err(ReadEnd::Memory);
                }
            }
            Err(Failed) => return Err(ReadEnd::Failed),
        }
    }
    Ok(bytes)
}
