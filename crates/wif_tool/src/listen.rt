ghost use Rattle.std.specs.Prelude.{◌≡◌, ◌≢◌, ◌≤◌, ◌⊎◌, ◌↔◌, ◌+◌, ◌*◌, ℕ, List, Option, None, Some, IfSome, length, false};
ghost use Rattle.wif_base.specs.Causes.{Rose};
ghost use Rattle.wif_base.specs.Disk.{Told, told_synced};
ghost use Rattle.links.specs.declared.entry.Entry.{Entry};
ghost use Rattle.service_config.specs.declared.config.Config.{Config};
ghost use Rattle.service_journal.specs.declared.opening.OpenFault.{OpenFault as Unread};
ghost use Rattle.sts_core.specs.Opened.{FindsService};
ghost use Rattle.wif_tool.specs.Command.{texts};
ghost use Rattle.wif_tool.specs.Listening.{AsksFor, EachServed, ListenOutcome, listen_status};
ghost use Rattle.wif_tool.specs.Opened.{Holds, NotRead, fault_status};
ghost use Rattle.wif_tool.specs.Status.{Configured, NoConfiguration, NotConfigured, StopsBefore, HoldsJournal, HoldsNoJournal};

use crate::listen_words::listening_of;
use crate::opening::{Unopened, fault_status, open_service, setup_status};
use connection_ends::Ends;
use http_serve::{ListenEnd, serve_each};
use std::alloc::{AllocError, Global};
use sts_core::{Opening, Stop, Sts};
use wif_base::{Clock, Disk, Source};

/// Does all that the program `sts` does for `listen`, and answers its status: 0 where as many connections as the words say were served, 1 at a
/// configuration that is none, 2 at other words, 3 where the configuration couldn't be read or there was no next connection, 5 where the disk
/// failed, 6 where it holds no journal of the configuration, 7 for want of memory. What ends one connection alone has no status.
pub fn sts_listen<G: Source, E: Ends, D: Disk, C: Clock>(
    alloc: Global,
    words: &[String],
    config: &mut G,
    ends: &mut E,
    disk: &mut D,
    clock: &mut C,
) -> u8
    requires { E.is_out ends.old ≡ false }
    // What a reader asks first: at 0 so many connections were served one after another, and a crash leaves the journal behind the last.
    ensures served { (asked : _) → AsksFor (texts words.now) asked → result ≡ 0 → (setup : _) × Configured (G.left config.old) (G.left config.new) setup
        × (before : List Entry) × Holds setup before (D.told disk.old)
        × EachServed setup before (E.waiting ends.old) (E.waiting ends.new) (E.given ends.old) (E.given ends.new)
        (C.moments clock.old) (C.moments clock.new) asked.count (D.told disk.new) }

    // With words, configuration and journal of their forms and no fault all are served, unless memory runs out; a disk that holds no journal of
    // the configuration is refused.
    ensures complete { (asked : _) → AsksFor (texts words.now) asked → HoldsJournal (G.left config.old) (D.told disk.old)
        → (Rose (G.faults config.old) (G.faults config.new) → ⊥)
        → (Rose (E.faults ends.old) (E.faults ends.new) → ⊥)
        → (Rose (D.faults disk.old) (D.faults disk.new) → ⊥)
        → (result ≡ 0) ⊎ (result ≡ 7) }
    ensures refuses { (asked : _) → AsksFor (texts words.now) asked → HoldsNoJournal (G.left config.old) (D.told disk.old)
        → (Rose (G.faults config.old) (G.faults config.new) → ⊥)
        → (Rose (E.faults ends.old) (E.faults ends.new) → ⊥)
        → (Rose (D.faults disk.old) (D.faults disk.new) → ⊥)
        → (result ≡ 6) ⊎ (result ≡ 7) }

    // Which connections were served at each status, what each read, wrote and recorded, and what a crash leaves.
    ensures listen { (asked : _) → AsksFor (texts words.now) asked
        → (StopsBefore result × (ends.new ≡ ends.old) × (disk.new ≡ disk.old) × (clock.new ≡ clock.old))
        ⊎ ((setup : _) × Configured (G.left config.old) (G.left config.new) setup
        × (((fault : Unread) × (result ≡ fault_status fault) × NotRead fault setup (D.told disk.old) (D.told disk.new)
        × (ends.new ≡ ends.old) × (clock.new ≡ clock.old))
        ⊎ ((before : List Entry) × Holds setup before (D.told disk.old)
        × ListenOutcome setup before (E.waiting ends.old) (E.waiting ends.new) (E.given ends.old) (E.given ends.new)
        (C.moments clock.old) (C.moments clock.new) (C.faults clock.old) (C.faults clock.new) asked.count (D.told disk.new) result))) }

    // The causes of the other statuses.
    ensures words { (asked : _) → AsksFor (texts words.now) asked → result ≢ 2 }
    ensures other_words { ((asked : _) → AsksFor (texts words.now) asked → ⊥) → (result ≡ 2) ⊎ (result ≡ 7) }
    ensures no_words { result ≡ 2 → (config.new ≡ config.old) × (ends.new ≡ ends.old) × (disk.new ≡ disk.old) × (clock.new ≡ clock.old) }
    ensures configuration { result ≡ 1 → NotConfigured (G.left config.old) (G.left config.new) × (disk.new ≡ disk.old) }
    ensures configuration_only { (bytes : List ℕ) → G.left config.old ≡ Some bytes → NoConfiguration bytes
        → ((result ≡ 2) ⊎ StopsBefore result) × (disk.new ≡ disk.old) }
    ensures read_fault { result ≡ 3 → Rose (G.faults config.old) (G.faults config.new) ⊎ Rose (E.faults ends.old) (E.faults ends.new) }
    ensures disk_fault { result ≡ 5 → Rose (D.faults disk.old) (D.faults disk.new) }
    ensures no_other { (result ≢ 4) × (result ≤ 7) }

    ensures none_out { E.is_out ends.new ≡ false }
{
    match listening_of(alloc, words) {
        Ok(Some(asked)) => listen_status(alloc, asked.count, config, ends, disk, clock),
        Ok(None) => 2,
        Err(AllocError) => 7,
    }
}

// The configuration first, then the journal, then the connections.
fn listen_status<G: Source, E: Ends, D: Disk, C: Clock>(
    alloc: Global,
    count: u32,
    config: &mut G,
    ends: &mut E,
    disk: &mut D,
    clock: &mut C,
) -> u8
    requires { E.is_out ends.old ≡ false }
    ensures outcome { (StopsBefore result × (ends.new ≡ ends.old) × (disk.new ≡ disk.old) × (clock.new ≡ clock.old))
        ⊎ ((setup : _) × Configured (G.left config.old) (G.left config.new) setup
        × (((fault : Unread) × (result ≡ fault_status fault) × NotRead fault setup (D.told disk.old) (D.told disk.new)
        × (ends.new ≡ ends.old) × (clock.new ≡ clock.old))
        ⊎ ((before : List Entry) × Holds setup before (D.told disk.old)
        × ListenOutcome setup before (E.waiting ends.old) (E.waiting ends.new) (E.given ends.old) (E.given ends.new)
        (C.moments clock.old) (C.moments clock.new) (C.faults clock.old) (C.faults clock.new) count (D.told disk.new) result))) }
    ensures configuration { result ≡ 1 → NotConfigured (G.left config.old) (G.left config.new) × (disk.new ≡ disk.old) }
    ensures configuration_only { (bytes : List ℕ) → G.left config.old ≡ Some bytes → NoConfiguration bytes
        → StopsBefore result × (disk.new ≡ disk.old) }
    ensures read_fault { result ≡ 3 → Rose (G.faults config.old) (G.faults config.new) ⊎ Rose (E.faults ends.old) (E.faults ends.new) }
    ensures disk_fault { result ≡ 5 → Rose (D.faults disk.old) (D.faults disk.new) }
    ensures no_other { (result ≢ 2) × (result ≢ 4) × (result ≤ 7) }
    ensures none_out { E.is_out ends.new ≡ false }
{
    match open_service(alloc, config, disk) {
        Ok(opening) => listen_over(alloc, opening, count, ends, disk, clock),
        Err(Unopened::Setup(end)) => setup_status(end),
        Err(Unopened::Journal(fault)) => fault_status(fault),
    }
}

// The run over the connections.
fn listen_over<E: Ends, D: Disk, C: Clock>(
    alloc: Global,
    opening: Opening,
    count: u32,
    ends: &mut E,
    disk: &mut D,
    clock: &mut C,
) -> u8
    requires none_out { E.is_out ends.old ≡ false }
    requires inside { IfSome (D.told disk.old) (λ told. opening.journal.end.len ≤ length told.now.bytes) }
    requires few { 9 + 5 * opening.journal.state.content.count ≤ opening.journal.end.len }
    ensures outcome { (config : Config) (held : Option Told) → FindsService config held (D.told disk.old) opening
        → (before : List Entry) × Holds config before held
        × ListenOutcome config before (E.waiting ends.old) (E.waiting ends.new) (E.given ends.old) (E.given ends.new)
        (C.moments clock.old) (C.moments clock.new) (C.faults clock.old) (C.faults clock.new) count (D.told disk.new) result }
    ensures read_fault { result ≡ 3 → Rose (E.faults ends.old) (E.faults ends.new) }
    ensures disk_fault { result ≡ 5 → Rose (D.faults disk.old) (D.faults disk.new) }
    ensures no_other { (result ≢ 1) × (result ≢ 2) × (result ≢ 4) × (result ≢ 6) × (result ≤ 7) }
    ensures none_out { E.is_out ends.new ≡ false }
    ensures count { D.faults disk.old ≤ D.faults disk.new }
{
    let mut sts = Sts::resume(&mut *disk, opening);
    let end = serve_each(alloc, &mut sts, ends, clock, count);
    // A disk that is lent is known again only once it is given back.
    let _disk = sts.close();
    status_of(end)
}

fn status_of(end: Result<(), ListenEnd>) -> u8
    ensures { result ≡ listen_status end }
{
    match end {
        Ok(()) => 0,
        Err(ListenEnd::EndsFault) => 3,
        Err(ListenEnd::Stopped(Stop::Memory)) => 7,
        Err(ListenEnd::Stopped(Stop::Journal)) => 5,
        Err(ListenEnd::Stopped(Stop::Broken)) => 5,
    }
}
