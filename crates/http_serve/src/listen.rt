ghost use Rattle.std.specs.Prelude.{◌≡◌, ◌≤◌, ◌-◌, List, true, false, Err};
ghost use Rattle.wif_base.specs.Causes.{Rose};
ghost use Rattle.service_config.specs.declared.config.Config.{Config};
ghost use Rattle.links.specs.declared.entry.Entry.{Entry};
ghost use Rattle.sts_core.specs.State.{Stands};
ghost use Rattle.http_serve.specs.Listening.{ListenRun};

use crate::serve_connection;
use connection_ends::Ends;
use std::alloc::Global;
use sts_core::{Stop, Sts};
use sts_serve::Served;
use wif_base::{Clock, Disk, Failed};

/// Why a run over connections ended before its count.
#[derive(Clone, Copy, Debug, PartialEq, Eq)]
pub enum ListenEnd {
    /// There was no next connection.
    EndsFault,
    Stopped(Stop),
}

/// Serves so many connections, one after another, by one service.
pub fn serve_each<E: Ends, D: Disk, C: Clock>(
    alloc: Global,
    sts: &mut Sts<D>,
    ends: &mut E,
    clock: &mut C,
    count: u32,
) -> Result<(), ListenEnd>
    requires { E.is_out ends.old ≡ false }
    ensures run { (config : Config) (journal : List Entry) → Stands sts.old config journal
        → ListenRun config journal sts.old sts.new (E.waiting ends.old) (E.waiting ends.new)
        (E.given ends.old) (E.given ends.new) (C.moments clock.old) (C.moments clock.new)
        (C.faults clock.old) (C.faults clock.new) count result }

    // The causes of the faults.
    ensures ends_fault { result ≡ Err ListenEnd.EndsFault → Rose (E.faults ends.old) (E.faults ends.new) }
    ensures disk_fault { result ≡ Err (ListenEnd.Stopped Stop.Journal) → Rose sts.old.journal.faults sts.new.journal.faults }
    ensures broken { result ≡ Err (ListenEnd.Stopped Stop.Broken) → sts.old.journal.broken ≡ true }

    ensures none_out { E.is_out ends.new ≡ false }
    ensures ends_count { E.faults ends.old ≤ E.faults ends.new }
    ensures clock_count { C.faults clock.old ≤ C.faults clock.new }
    ensures disk_count { sts.old.journal.faults ≤ sts.new.journal.faults }
    ensures same_ends { E.lender ends.new ≡ E.lender ends.old }
    ensures same_clock { C.lender clock.new ≡ C.lender clock.old }
    ensures same_disk { sts.new.journal.lender ≡ sts.old.journal.lender }
{
    'connections: for _number in 0..count {
        let (mut input, mut output) = match ends.next() {
            Ok(pair) => pair,
            Err(Failed) => return Err(ListenEnd::EndsFault),
        };
        let end = serve_connection(alloc, sts, &mut input, &mut output, clock);
        ends.done(input, output);
        if let Served::Stopped(stop) = end {
            return Err(ListenEnd::Stopped(stop));
        }
    }
    Ok(())
}
