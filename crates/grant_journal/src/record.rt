ghost use Rattle.grant_journal.specs.Answers.{MakesRecord};

use std::alloc::{AllocError, Global};
use std::marker::Model;

const LONGEST: usize = 262_144;

/// A text with its length before it and a closed gate behind it. Contracts see the text.
#[derive(Drop)]
pub struct Record {
    pub(crate) bytes: Vec<u8>,
}

impl Model for Record {
    ghost use Rattle.std.specs.Prelude.{List, ℕ, ◌≡◌, ◌≤◌, length};
    ghost use Rattle.grant_journal.specs.JournalBytes.{framed, text_of};

    ghost Value = { List ℕ };

    ghost view = { λ r. text_of r.bytes.items };

    ghost invariant = { λ r. (r.bytes.items ≡ framed (text_of r.bytes.items)) × (length (text_of r.bytes.items) ≤ 262144) };
}

/// Why a text has no record.
#[derive(Clone, Copy, Debug, PartialEq, Eq)]
pub enum RecordFault {
    /// It has so many bytes, more than a record may have.
    TooLong { length: u64 },
    Memory,
}

impl From<AllocError> for RecordFault {
    ghost use Rattle.std.specs.Prelude.{◌≡◌};
    ghost use Rattle.grant_journal.specs.declared.record.RecordFault.TheVariants.{Memory};

    ghost from_gives = { λ _ e. e ≡ Memory };

    fn from(_: AllocError) -> Self {
        RecordFault::Memory
    }
}

/// The record of a text.
pub fn record_of(alloc: Global, text: &[u8]) -> Result<Record, RecordFault>
    ensures { MakesRecord text.now result }
{
    if text.len() > LONGEST {
        return Err(RecordFault::TooLong {
            length: text.len() as u64,
        });
    }
    let size = text.len();
    let front = [
        (size / 16_777_216) as u8,
        (size / 65_536 % 256) as u8,
        (size / 256 % 256) as u8,
        (size % 256) as u8,
    ];
    let mut bytes = Vec::new(alloc);
    bytes.extend_from_slice(&front)?;
    bytes.extend_from_slice(text)?;
    bytes.extend_from_slice(&[0])?;
    Ok(Record { bytes })
}
