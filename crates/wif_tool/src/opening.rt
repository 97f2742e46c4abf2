ghost use Rattle.std.specs.Prelude.{◌≡◌, ◌≤◌, ◌+◌, ◌*◌, IfOk, IfErr, IfSome, Err, length};
ghost use Rattle.wif_base.specs.Causes.{Rose};
ghost use Rattle.wif_base.specs.Disk.{told_synced};
ghost use Rattle.service_journal.specs.declared.opening.OpenFault.{OpenFault as JournalFault};
ghost use Rattle.sts_core.specs.Opened.{FindsService};
ghost use Rattle.wif_tool.specs.Opened.{NotRead, fault_status as status};
ghost use Rattle.wif_tool.specs.Status.{Configured, NoConfiguration, NotConfigured, StopsBefore};

use crate::setup::{SetupEnd, read_setup};
use service_journal::OpenFault;
use std::alloc::Global;
use sts_core::{Opening, open_on};
use wif_base::{Disk, Source};

/// Why there is no service to run.
#[derive(Clone, Copy, Debug)]
pub(crate) enum Unopened {
    Setup(SetupEnd),
    Journal(OpenFault),
}

/// Reads the configuration, and then opens the journal on the disk.
pub(crate) fn open_service<G: Source, D: Disk>(
    alloc: Global,
    config: &mut G,
    disk: &mut D,
) -> Result<Opening, Unopened>
    ensures opened { IfOk result (λ opening. (setup : _) × Configured (G.left config.old) (G.left config.new) setup
        × FindsService setup (D.told disk.old) (D.told disk.new) opening × (D.told disk.new ≡ told_synced (D.told disk.old))) }
    ensures inside { IfOk result (λ opening. IfSome (D.told disk.new) (λ told. opening.journal.end.len ≤ length told.now.bytes)) }
    ensures few { IfOk result (λ opening. 9 + 5 * opening.journal.state.content.count ≤ opening.journal.end.len) }
    ensures setup { (end : _) → result ≡ Err (Unopened.Setup end) → disk.new ≡ disk.old }
    ensures journal { (fault : JournalFault) → result ≡ Err (Unopened.Journal fault)
        → (setup : _) × Configured (G.left config.old) (G.left config.new) setup × NotRead fault setup (D.told disk.old) (D.told disk.new) }
    ensures form { result ≡ Err (Unopened.Setup SetupEnd.Form) → NotConfigured (G.left config.old) (G.left config.new) }
    ensures failed { result ≡ Err (Unopened.Setup SetupEnd.Failed) → Rose (G.faults config.old) (G.faults config.new) }
    ensures disk_fault { result ≡ Err (Unopened.Journal OpenFault.Fault) → Rose (D.faults disk.old) (D.faults disk.new) }
    ensures count { D.faults disk.old ≤ D.faults disk.new }
    ensures same { D.lender disk.new ≡ D.lender disk.old }
{
    let setup = match read_setup(alloc, config) {
        Ok(setup) => setup,
        Err(end) => return Err(Unopened::Setup(end)),
    };
    match open_on(alloc, disk, setup) {
        Ok(opening) => Ok(opening),
        Err(fault) => Err(Unopened::Journal(fault)),
    }
}

/// The status of a configuration that couldn't be had.
pub(crate) fn setup_status(end: SetupEnd) -> u8
    ensures stops { StopsBefore result }
    ensures read_fault { result ≡ 3 → end ≡ SetupEnd.Failed }
    ensures form { result ≡ 1 → end ≡ SetupEnd.Form }
{
    match end {
        SetupEnd::Failed => 3,
        SetupEnd::Form => 1,
        SetupEnd::Memory => 7,
    }
}

/// The status of a journal that wasn't opened.
pub(crate) fn fault_status(fault: OpenFault) -> u8
    ensures { result ≡ status fault }
{
    match fault {
        OpenFault::Fault => 5,
        OpenFault::Refused { .. } => 6,
        OpenFault::Memory => 7,
    }
}
