// The empty journal.
ghost use Rattle.std.specs.Prelude.{◌≡◌, ◌≤◌, [], List, ℕ, length};
ghost use Rattle.wif_base.specs.Disk.{Leaves, LeavesNow};
ghost use Rattle.grant_journal.specs.Emptying.{Empties, IsEmptyOrNone};

use wif_base::{Disk, Failed};

/// Why there is no new journal.
#[derive(Clone, Copy, Debug, PartialEq, Eq)]
pub enum InitFault {
    /// The disk failed.
    Fault,
    /// The disk has so many bytes already, and keeps them.
    NotEmpty { length: u64 },
}

impl From<Failed> for InitFault {
    ghost use Rattle.std.specs.Prelude.{◌≡◌};
    ghost use Rattle.grant_journal.specs.declared.empty.InitFault.TheVariants.{Fault};

    ghost from_gives = { λ _ e. e ≡ Fault };

    fn from(_: Failed) -> Self {
        InitFault::Fault
    }
}

/// Writes the empty journal on a disk that has nothing.
pub fn init<D: Disk>(disk: &mut D) -> Result<(), InitFault>
    ensures answer { Empties (D.told disk.old) (D.told disk.new) (D.faults disk.old) (D.faults disk.new) result }
    ensures any_moment { LeavesNow (D.told disk.old) (λ image. image ≡ []) → Leaves (D.told disk.old) (D.told disk.new) IsEmptyOrNone }
    ensures count { D.faults disk.old ≤ D.faults disk.new }
    ensures same { D.lender disk.new ≡ D.lender disk.old }
{
    let length = disk.len()?;
    if length > 0 {
        return Err(InitFault::NotEmpty { length });
    }
    disk.write_at(0, b"WIFJ0001\0")?;
    disk.sync()?;
    Ok(())
}
