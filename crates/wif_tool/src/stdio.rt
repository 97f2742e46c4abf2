ghost use Rattle.std.specs.Prelude.{◌≡◌, ◌≢◌, ◌≤◌, ◌⊎◌, ◌+◌, ◌*◌, ℕ, List, Option, Some, IfSome, length};
ghost use Rattle.wif_base.specs.Causes.{Rose};
ghost use Rattle.wif_base.specs.Disk.{Told, told_synced};
ghost use Rattle.links.specs.declared.entry.Entry.{Entry};
ghost use Rattle.service_config.specs.declared.config.Config.{Config};
ghost use Rattle.service_journal.specs.declared.opening.OpenFault.{OpenFault as Unread};
ghost use Rattle.sts_core.specs.Opened.{FindsService};
ghost use Rattle.wif_tool.specs.Connection.{ConnectionOutcome, end_status};
ghost use Rattle.wif_tool.specs.Opened.{Holds, NotRead, fault_status};
ghost use Rattle.wif_tool.specs.Status.{Configured, NoConfiguration, NotConfigured, StopsBefore};

use crate::opening::{Unopened, fault_status, open_service, setup_status};
use http_serve::serve_connection;
use service_journal::OpenFault;
use std::alloc::Global;
use sts_core::{Opening, Stop, Sts};
use sts_serve::Served;
use wif_base::{Clock, Disk, Sink, Source};

/// A run of `stdio`: the configuration first, then the journal, then the connection. Answers the status.
pub(crate) fn stdio_status<G: Source, I: Source, O: Sink, D: Disk, C: Clock>(
    alloc: Global,
    config: &mut G,
    input: &mut I,
    output: &mut O,
    disk: &mut D,
    clock: &mut C,
) -> u8
    ensures outcome { (StopsBefore result × (input.new ≡ input.old) × (output.new ≡ output.old) × (disk.new ≡ disk.old) × (clock.new ≡ clock.old))
        ⊎ ((setup : _) × Configured (G.left config.old) (G.left config.new) setup
        × (((fault : Unread) × (result ≡ fault_status fault) × NotRead fault setup (D.told disk.old) (D.told disk.new)
        × (input.new ≡ input.old) × (output.new ≡ output.old) × (clock.new ≡ clock.old))
        ⊎ ((before : List Entry) × Holds setup before (D.told disk.old)
        × ConnectionOutcome setup before (I.left input.old) (I.left input.new) (O.taken output.old) (O.taken output.new)
        (C.moments clock.old) (C.moments clock.new) (told_synced (D.told disk.old)) (D.told disk.new) result))) }
    ensures configuration { result ≡ 1 → NotConfigured (G.left config.old) (G.left config.new) × (disk.new ≡ disk.old) }
    ensures configuration_only { (bytes : List ℕ) → G.left config.old ≡ Some bytes → NoConfiguration bytes
        → StopsBefore result × (disk.new ≡ disk.old) }
    ensures read_fault { result ≡ 3 → Rose (G.faults config.old) (G.faults config.new) ⊎ Rose (I.faults input.old) (I.faults input.new) }
    ensures write_fault { result ≡ 4 → Rose (O.faults output.old) (O.faults output.new) }
    ensures disk_fault { result ≡ 5 → Rose (D.faults disk.old) (D.faults disk.new) }
    ensures clock_fault { result ≡ 9 → Rose (C.faults clock.old) (C.faults clock.new) }
    ensures no_other { (result ≢ 2) × (result ≢ 8) × (result ≤ 10) }
{
    match open_service(alloc, config, disk) {
        Ok(opening) => serve_over(alloc, opening, input, output, disk, clock),
        Err(Unopened::Setup(end)) => setup_status(end),
        Err(Unopened::Journal(fault)) => fault_status(fault),
    }
}

// The run over the connection.
fn serve_over<I: Source, O: Sink, D: Disk, C: Clock>(
    alloc: Global,
    opening: Opening,
    input: &mut I,
    output: &mut O,
    disk: &mut D,
    clock: &mut C,
) -> u8
    requires inside { IfSome (D.told disk.old) (λ told. opening.journal.end.len ≤ length told.now.bytes) }
    requires few { 9 + 5 * opening.journal.state.content.count ≤ opening.journal.end.len }
    ensures outcome { (config : Config) (held : Option Told) → FindsService config held (D.told disk.old) opening
        → (before : List Entry) × Holds config before held
        × ConnectionOutcome config before (I.left input.old) (I.left input.new) (O.taken output.old) (O.taken output.new)
        (C.moments clock.old) (C.moments clock.new) (D.told disk.old) (D.told disk.new) result }
    ensures read_fault { result ≡ 3 → Rose (I.faults input.old) (I.faults input.new) }
    ensures write_fault { result ≡ 4 → Rose (O.faults output.old) (O.faults output.new) }
    ensures disk_fault { result ≡ 5 → Rose (D.faults disk.old) (D.faults disk.new) }
    ensures clock_fault { result ≡ 9 → Rose (C.faults clock.old) (C.faults clock.new) }
    ensures no_other { (result ≢ 1) × (result ≢ 2) × (result ≢ 6) × (result ≢ 8) × (result ≤ 10) }
    ensures count { D.faults disk.old ≤ D.faults disk.new }
{
    let mut sts = Sts::resume(&mut *disk, opening);
    let end = serve_connection(alloc, &mut sts, input, output, clock);
    // A disk that is lent is known again only once it is given back.
    let _disk = sts.close();
    status_of(end)
}

fn status_of(end: Served) -> u8
    ensures { result ≡ end_status end }
{
    match end {
        Served::Done => 0,
        Served::ReadFault => 3,
        Served::WriteFault => 4,
        Served::ClockFault => 9,
        Served::Malformed { .. } => 8,
        Served::InputLimit => 10,
        Served::Stopped(Stop::Memory) => 7,
        Served::Stopped(Stop::Journal) => 5,
        Served::Stopped(Stop::Broken) => 5,
    }
}
