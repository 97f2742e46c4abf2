ghost use Rattle.std.specs.Prelude.{◌≡◌, ◌≢◌, ◌≤◌, ◌⊎◌, ◌+◌, ◌*◌, ℕ, List, Option, Some, IfSome, length};
ghost use Rattle.wif_base.specs.Causes.{Rose};
ghost use Rattle.wif_base.specs.Disk.{Told, told_synced};
ghost use Rattle.links.specs.declared.entry.Entry.{Entry};
ghost use Rattle.service_config.specs.declared.config.Config.{Config};
ghost use Rattle.service_journal.specs.declared.opening.OpenFault.{OpenFault as Unread};
ghost use Rattle.sts_core.specs.Opened.{FindsService};
ghost use Rattle.wif_tool.specs.Opened.{Holds, NotOpened, NotRead};
ghost use Rattle.wif_tool.specs.Status.{Closes, Configured, NoConfiguration, NotConfigured, StopsBefore, ScriptOutcome};

use crate::fault_line::{write_malformed_line, write_refusal_line};
use crate::opening::{Unopened, open_service, setup_status};
use service_journal::OpenFault;
use std::alloc::Global;
use sts_core::{Opening, Stop, Sts};
use sts_serve::{Served, run_script};
use wif_base::{Disk, Sink, Source};

/// A run of `script`: the configuration first, then the journal, then the input. Answers the status.
pub(crate) fn script_status<G: Source, I: Source, O: Sink, D: Disk>(
    alloc: Global,
    config: &mut G,
    input: &mut I,
    output: &mut O,
    disk: &mut D,
) -> u8
    ensures outcome { (StopsBefore result × (input.new ≡ input.old) × (output.new ≡ output.old) × (disk.new ≡ disk.old))
        ⊎ ((setup : _) × Configured (G.left config.old) (G.left config.new) setup
        × (((fault : Unread) × NotOpened fault setup (D.told disk.old) (D.told disk.new) (O.taken output.old) (O.taken output.new) result
        × (input.new ≡ input.old))
        ⊎ ((before : List Entry) × Holds setup before (D.told disk.old)
        × ScriptOutcome setup before (I.left input.old) (I.left input.new) (O.taken output.old) (O.taken output.new)
        (told_synced (D.told disk.old)) (D.told disk.new) result))) }
    ensures configuration { result ≡ 1 → NotConfigured (G.left config.old) (G.left config.new) × (disk.new ≡ disk.old) }
    ensures configuration_only { (bytes : List ℕ) → G.left config.old ≡ Some bytes → NoConfiguration bytes
        → StopsBefore result × (disk.new ≡ disk.old) }
    ensures read_fault { result ≡ 3 → Rose (G.faults config.old) (G.faults config.new) ⊎ Rose (I.faults input.old) (I.faults input.new) }
    ensures write_fault { result ≡ 4 → Rose (O.faults output.old) (O.faults output.new) }
    ensures disk_fault { result ≡ 5 → Rose (D.faults disk.old) (D.faults disk.new) }
    ensures no_other { (result ≢ 2) × (result ≢ 9) × (result ≤ 10) }
{
    match open_service(alloc, config, disk) {
        Ok(opening) => run_over(alloc, opening, input, output, disk),
        Err(Unopened::Setup(end)) => setup_status(end),
        Err(Unopened::Journal(fault)) => tell_fault(alloc, output, fault),
    }
}

// The status of a journal that wasn't opened, and the line that tells a place.
fn tell_fault<O: Sink>(alloc: Global, output: &mut O, fault: OpenFault) -> u8
    ensures told { (config : Config) (old new : Option Told) → NotRead fault config old new
        → NotOpened fault config old new (O.taken output.old) (O.taken output.new) result }
    ensures write_fault { result ≡ 4 → Rose (O.faults output.old) (O.faults output.new) }
    ensures disk_fault { result ≡ 5 → fault ≡ Unread.Fault }
    ensures no_other { (4 ≤ result) × (result ≤ 7) }
{
    match fault {
        OpenFault::Fault => 5,
        OpenFault::Refused { at, rule } => write_refusal_line(alloc, output, at, rule),
        OpenFault::Memory => 7,
    }
}

// The run over a script, and its closing line.
fn run_over<I: Source, O: Sink, D: Disk>(
    alloc: Global,
    opening: Opening,
    input: &mut I,
    output: &mut O,
    disk: &mut D,
) -> u8
    requires inside { IfSome (D.told disk.old) (λ told. opening.journal.end.len ≤ length told.now.bytes) }
    requires few { 9 + 5 * opening.journal.state.content.count ≤ opening.journal.end.len }
    ensures outcome { (config : Config) (held : Option Told) → FindsService config held (D.told disk.old) opening
        → (before : List Entry) × Holds config before held
        × ScriptOutcome config before (I.left input.old) (I.left input.new) (O.taken output.old) (O.taken output.new)
        (D.told disk.old) (D.told disk.new) result }
    ensures read_fault { result ≡ 3 → Rose (I.faults input.old) (I.faults input.new) }
    ensures write_fault { result ≡ 4 → Rose (O.faults output.old) (O.faults output.new) }
    ensures disk_fault { result ≡ 5 → Rose (D.faults disk.old) (D.faults disk.new) }
    ensures no_other { (result ≢ 1) × (result ≢ 2) × (result ≢ 6) × (result ≢ 9) × (result ≤ 10) }
    ensures count { D.faults disk.old ≤ D.faults disk.new }
{
    let mut sts = Sts::resume(&mut *disk, opening);
    let end = run_script(alloc, &mut sts, input, output);
    // A disk that is lent is known again only once it is given back.
    let _disk = sts.close();
    close_output(alloc, end, output)
}

// The status of an end, and the line that tells a place.
fn close_output<O: Sink>(alloc: Global, end: Served, output: &mut O) -> u8
    ensures closes { Closes end (O.taken output.old) (O.taken output.new) result }
    ensures read_fault { result ≡ 3 → end ≡ Served.ReadFault }
    ensures write_fault { result ≡ 4 → (end ≡ Served.WriteFault) ⊎ Rose (O.faults output.old) (O.faults output.new) }
    ensures disk_fault { result ≡ 5 → (end ≡ Served.Stopped Stop.Journal) ⊎ (end ≡ Served.Stopped Stop.Broken) }
    ensures clock_fault { result ≡ 9 → end ≡ Served.ClockFault }
    ensures no_other { (result ≢ 1) × (result ≢ 2) × (result ≢ 6) × (result ≤ 10) }
    ensures count { O.faults output.old ≤ O.faults output.new }
{
    match end {
        Served::Done => 0,
        Served::ReadFault => 3,
        Served::WriteFault => 4,
        Served::ClockFault => 9,
        Served::Malformed { offset } => write_malformed_line(alloc, output, offset),
        Served::InputLimit => 10,
        Served::Stopped(Stop::Memory) => 7,
        Served::Stopped(Stop::Journal) => 5,
        Served::Stopped(Stop::Broken) => 5,
    }
}
