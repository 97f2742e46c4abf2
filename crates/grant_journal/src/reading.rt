// A file as it stands on a disk.
ghost use Rattle.std.specs.Prelude.{◌≡◌, ◌≤◌, IfOk, IfSome, IsErrOf};
ghost use Rattle.wif_base.specs.Causes.{Rose};
ghost use Rattle.grant_journal.specs.Reading.{ReadsTo, IsReadOf};

use crate::JournalFile;
use std::alloc::{AllocError, Global};
use wif_base::{Disk, Failed};

// The limit, and the room of the longest record that begins at the last place within it.
const MOST_READ: u64 = 67_371_012;

/// Why a file wasn't read.
#[derive(Clone, Copy, Debug, PartialEq, Eq)]
pub enum ReadFault {
    /// The disk failed.
    Fault,
    Memory,
}

impl From<Failed> for ReadFault {
    ghost use Rattle.std.specs.Prelude.{◌≡◌};
    ghost use Rattle.grant_journal.specs.declared.reading.ReadFault.TheVariants.{Fault};

    ghost from_gives = { λ _ e. e ≡ Fault };

    fn from(_: Failed) -> Self {
        ReadFault::Fault
    }
}

impl From<AllocError> for ReadFault {
    ghost use Rattle.std.specs.Prelude.{◌≡◌};
    ghost use Rattle.grant_journal.specs.declared.reading.ReadFault.TheVariants.{Memory};

    ghost from_gives = { λ _ e. e ≡ Memory };

    fn from(_: AllocError) -> Self {
        ReadFault::Memory
    }
}

/// Syncs, so that no crash takes away what is read, and reads the file. It changes no byte.
pub fn read_file<D: Disk>(alloc: Global, disk: &mut D) -> Result<JournalFile, ReadFault>
    ensures told { ReadsTo (D.told disk.old) (D.told disk.new) result }
    ensures file { IfOk result (λ read. IfSome (D.told disk.old) (λ told. IsReadOf told.now.bytes read)) }
    ensures cause { IsErrOf result ReadFault.Fault → Rose (D.faults disk.old) (D.faults disk.new) }
    ensures count { D.faults disk.old ≤ D.faults disk.new }
    ensures same { D.lender disk.new ≡ D.lender disk.old }
{
    disk.sync()?;
    let length = disk.len()?;
    let size = length.min(MOST_READ) as usize;
    let mut bytes = vec![in alloc; 0; size]?;
    let count = disk.read_at(0, &mut bytes)?;
    bytes.truncate(count);
    // A file that is shorter than it said ends there.
    let length = if count < size { count as u64 } else { length };
    Ok(JournalFile { bytes, length })
}
