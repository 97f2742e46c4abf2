// The journal on a disk, from its first entry to the state that the last one leaves.
ghost use Rattle.std.specs.Prelude.{◌≡◌, ◌≤◌, IsErrOf};
ghost use Rattle.wif_base.specs.Causes.{Rose};
ghost use Rattle.links.specs.State.{start_of};
ghost use Rattle.service_config.specs.declared.config.Config.{Config};
ghost use Rattle.service_journal.specs.Opening.{Opens, SyncsTo};
ghost use Rattle.service_journal.specs.Replays.{opened_as};

use crate::replay::{ReplayFault, replay};
use grant_journal::{JournalRule, Opened, ReadFault, read_file};
use links::State;
use std::alloc::Global;
use wif_base::Disk;

/// A journal that was opened: the state that its entries leave, and where it ends.
#[derive(Drop)]
pub struct JournalOpening {
    pub state: State,
    pub end: Opened,
}

/// Why a journal wasn't opened.
#[derive(Clone, Copy, Debug, PartialEq, Eq)]
pub enum OpenFault {
    /// The disk failed.
    Fault,
    /// The record whose gate stands there breaks the rule, or the file has no marker.
    Refused { at: u64, rule: JournalRule },
    Memory,
}

/// Opens the journal on a disk, over a state with no entry yet.
pub fn open_journal<D: Disk>(
    alloc: Global,
    disk: &mut D,
    state: State,
) -> Result<JournalOpening, OpenFault>
    requires { state.content.count ≡ 0 }
    ensures opens { (config : Config) → state.content ≡ start_of config → Opens config (D.told disk.old) (D.told disk.new) result }
    ensures told { SyncsTo (D.told disk.old) (D.told disk.new) result }
    ensures cause { IsErrOf result OpenFault.Fault → Rose (D.faults disk.old) (D.faults disk.new) }
    ensures count { D.faults disk.old ≤ D.faults disk.new }
    ensures same { D.lender disk.new ≡ D.lender disk.old }
{
    match read_file(alloc, disk) {
        Ok(file) => {
            let replayed = replay(alloc, &file, state);
            drop(file);
            opened(replayed)
        }
        Err(ReadFault::Fault) => {
            drop(state);
            Err(OpenFault::Fault)
        }
        Err(ReadFault::Memory) => {
            drop(state);
            Err(OpenFault::Memory)
        }
    }
}

fn opened(replayed: Result<JournalOpening, ReplayFault>) -> Result<JournalOpening, OpenFault>
    ensures { result ≡ opened_as replayed }
{
    match replayed {
        Ok(opening) => Ok(opening),
        Err(ReplayFault::Refused { at, rule }) => Err(OpenFault::Refused { at, rule }),
        Err(ReplayFault::Memory) => Err(OpenFault::Memory),
    }
}
