ghost use Rattle.std.specs.Prelude.{◌≡◌, ◌≢◌, ◌≤◌, ◌-◌, ℕ, List, true};
ghost use Rattle.wif_base.specs.Causes.{Rose};
ghost use Rattle.service_config.specs.declared.config.Config.{Config};
ghost use Rattle.links.specs.declared.entry.Entry.{Entry};
ghost use Rattle.sts_core.specs.State.{Stands};
ghost use Rattle.http_serve.specs.Connection.{ConnectionRun};

use crate::answered::{answer_incoming, refuse};
use http_front::{HttpEnd, RequestBuffer, read_request};
use std::alloc::Global;
use sts_core::{Stop, Sts};
use sts_serve::Served;
use wif_base::{Clock, Disk, Failed, Sink, Source};

/// Answers the requests of a connection, one after another, each at the moment that the clock then gives, until the
/// input ends, a request asks for a close, what comes is refused, or the run can't go on.
pub fn serve_connection<I: Source, O: Sink, D: Disk, C: Clock>(
    alloc: Global,
    sts: &mut Sts<D>,
    input: &mut I,
    output: &mut O,
    clock: &mut C,
) -> Served
    ensures run { (config : Config) (journal : List Entry) → Stands sts.old config journal
        → ConnectionRun config journal sts.old sts.new (I.left input.old) (I.left input.new)
        (O.taken output.old) (O.taken output.new) (C.moments clock.old) (C.moments clock.new) result }

    // The causes of the faults.
    ensures read_fault { result ≡ Served.ReadFault → Rose (I.faults input.old) (I.faults input.new) }
    ensures write_fault { result ≡ Served.WriteFault → Rose (O.faults output.old) (O.faults output.new) }
    ensures clock_fault { result ≡ Served.ClockFault → Rose (C.faults clock.old) (C.faults clock.new) }
    ensures disk_fault { result ≡ Served.Stopped Stop.Journal → Rose sts.old.journal.faults sts.new.journal.faults }
    ensures broken { result ≡ Served.Stopped Stop.Broken → sts.old.journal.broken ≡ true }
    ensures whole { result ≢ Served.Stopped Stop.Journal → sts.new.journal.broken ≡ sts.old.journal.broken }
    ensures never_malformed { (offset : ℕ) → result ≢ Served.Malformed offset }

    ensures input_count { I.faults input.old ≤ I.faults input.new }
    ensures output_count { O.faults output.old ≤ O.faults output.new }
    ensures clock_count { C.faults clock.old ≤ C.faults clock.new }
    ensures disk_count { sts.old.journal.faults ≤ sts.new.journal.faults }
    ensures same_input { I.lender input.new ≡ I.lender input.old }
    ensures same_output { O.lender output.new ≡ O.lender output.old }
    ensures same_clock { C.lender clock.new ≡ C.lender clock.old }
    ensures same_disk { sts.new.journal.lender ≡ sts.old.journal.lender }
{
    let mut buffer = RequestBuffer::new(alloc);
    'requests: loop {
        match read_request(alloc, input, &mut buffer) {
            Ok(Some(incoming)) => {
                let Ok(at) = clock.now() else {
                    drop(incoming);
                    return Served::ClockFault;
                };
                let close = incoming.close;
                let answered = answer_incoming(alloc, sts, output, &incoming, at);
                drop(incoming);
                if let Err(end) = answered {
                    return end;
                }
                if close {
                    return Served::Done;
                }
            }
            Ok(None) => return Served::Done,
            Err(HttpEnd::Refused { rule }) => return refuse(alloc, output, rule),
            Err(HttpEnd::ReadFault) => return Served::ReadFault,
            Err(HttpEnd::InputLimit) => return Served::InputLimit,
            Err(HttpEnd::Memory) => return Served::Stopped(Stop::Memory),
        }
    }
}
