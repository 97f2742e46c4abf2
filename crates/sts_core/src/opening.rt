ghost use Rattle.std.specs.Prelude.{◌≡◌, ◌≤◌, IsErrOf};
ghost use Rattle.service_config.specs.declared.config.Config.{Config};
ghost use Rattle.service_journal.specs.declared.opening.OpenFault.TheVariants as faults;
ghost use Rattle.sts_core.specs.Opened.{OpensTo};
ghost use Rattle.sts_core.specs.State.{IsSetUp};
ghost use Rattle.wif_base.specs.Causes.{Rose};

use crate::Setup;
use base_types::Text;
use service_journal::{JournalOpening, OpenFault, open_journal};
use std::alloc::Global;
use wif_base::Disk;

/// A service that was opened, apart from its disk.
#[derive(Drop)]
pub struct Opening {
    /// The bearer of admin commands.
    pub admin: Text,
    /// The bearer of checks and introspections.
    pub gate: Text,
    pub journal: JournalOpening,
}

/// Opens the journal on a disk under what a configuration set up. It syncs, and changes no byte.
pub fn open_on<D: Disk>(alloc: Global, disk: &mut D, setup: Setup) -> Result<Opening, OpenFault>
    ensures opens { (config : Config) → IsSetUp setup config → OpensTo config (D.told disk.old) (D.told disk.new) result }
    ensures fault { IsErrOf result faults.Fault → Rose (D.faults disk.old) (D.faults disk.new) }
    ensures count { D.faults disk.old ≤ D.faults disk.new }
    ensures same { D.lender disk.new ≡ D.lender disk.old }
{
    let Setup { admin, gate, state } = setup;
    match open_journal(alloc, disk, state) {
        Ok(journal) => Ok(Opening {
            admin,
            gate,
            journal,
        }),
        Err(fault) => {
            drop(admin);
            drop(gate);
            Err(fault)
        }
    }
}
