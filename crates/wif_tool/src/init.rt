ghost use Rattle.std.specs.Prelude.{◌≡◌, ◌≤◌, []};
ghost use Rattle.wif_base.specs.Disk.{Leaves, LeavesNow};
ghost use Rattle.grant_journal.specs.Emptying.{IsEmptyOrNone};
ghost use Rattle.wif_tool.specs.Emptied.{InitOutcome};

use grant_journal::{InitFault, init};
use wif_base::Disk;

/// A run of `init`. Answers the status.
pub(crate) fn init_status<D: Disk>(disk: &mut D) -> u8
    ensures outcome { InitOutcome (D.told disk.old) (D.told disk.new) (D.faults disk.old) (D.faults disk.new) result }
    ensures any_moment { LeavesNow (D.told disk.old) (λ image. image ≡ []) → Leaves (D.told disk.old) (D.told disk.new) IsEmptyOrNone }
    ensures count { D.faults disk.old ≤ D.faults disk.new }
{
    match init(disk) {
        Ok(()) => 0,
        Err(InitFault::Fault) => 5,
        Err(InitFault::NotEmpty { .. }) => 6,
    }
}
