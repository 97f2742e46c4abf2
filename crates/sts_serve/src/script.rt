ghost use Rattle.std.specs.Prelude.{◌≡◌, ◌≢◌, ◌≤◌, ◌+◌, ◌-◌, ◌*◌, List, length, [], true};
ghost use Rattle.wif_base.specs.Causes.{Rose};
ghost use Rattle.service_config.specs.declared.config.Config.{Config};
ghost use Rattle.links.specs.declared.entry.Entry.{Entry};
ghost use Rattle.sts_core.specs.State.{Stands};
ghost use Rattle.sts_serve.specs.Served.{ScriptRun};

use crate::answered::answer_frame;
use crate::{Found, Served, read_frame};
use std::alloc::Global;
use sts_core::{Stop, Sts};
use wif_base::{Carry, Disk, More, Sink, Source};

/// Answers the frames of a script, one after another, until the input ends or the run can't go on.
pub fn run_script<I: Source, O: Sink, D: Disk>(
    alloc: Global,
    sts: &mut Sts<D>,
    input: &mut I,
    output: &mut O,
) -> Served
    ensures run { (config : Config) (journal : List Entry) → Stands sts.old config journal
        → ScriptRun config journal sts.old sts.new (I.left input.old) (I.left input.new) (O.taken output.old) (O.taken output.new) result }

    // The causes of the faults.
    ensures read_fault { result ≡ Served.ReadFault → Rose (I.faults input.old) (I.faults input.new) }
    ensures write_fault { result ≡ Served.WriteFault → Rose (O.faults output.old) (O.faults output.new) }
    ensures disk_fault { result ≡ Served.Stopped Stop.Journal → Rose sts.old.journal.faults sts.new.journal.faults }
    ensures broken { result ≡ Served.Stopped Stop.Broken → sts.old.journal.broken ≡ true }
    ensures no_clock_fault { result ≢ Served.ClockFault }

    ensures input_count { I.faults input.old ≤ I.faults input.new }
    ensures output_count { O.faults output.old ≤ O.faults output.new }
    ensures same_input { I.lender input.new ≡ I.lender input.old }
    ensures same_output { O.lender output.new ≡ O.lender output.old }
    ensures disk_count { sts.old.journal.faults ≤ sts.new.journal.faults }
    ensures same_disk { sts.new.journal.lender ≡ sts.old.journal.lender }
{
    let mut carry = Carry::new(alloc);
    let mut used = 0;
    'frames: loop {
        match read_frame(alloc, carry.unused()) {
            Ok(Found::Whole(frame, size)) => {
                if let Err(end) = answer_frame(alloc, sts, output, frame) {
                    return end;
                }
                carry.use_up(size);
                used += size as u64;
            }
            Ok(Found::Part) => match carry.take_more(input) {
                More::Some => {}
                More::End => return at_end(&carry, used),
                More::Failed => return Served::ReadFault,
                More::Limit => return Served::InputLimit,
                More::Memory => return Served::Stopped(Stop::Memory),
            },
            Ok(Found::Never) => return Served::Malformed { offset: used },
            Err(_) => return Served::Stopped(Stop::Memory),
        }
    }
}

// At the input's end nothing is left, or what is no frame.
fn at_end(carry: &Carry, used: u64) -> Served
    ensures done { carry.now.unused ≡ [] → result ≡ Served.Done }
    ensures malformed { carry.now.unused ≢ [] → result ≡ Served.Malformed used }
{
    if carry.unused().is_empty() {
        Served::Done
    } else {
        Served::Malformed { offset: used }
    }
}
