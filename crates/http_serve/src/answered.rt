ghost use Rattle.std.specs.Prelude.{◌≡◌, ◌≢◌, ◌≤◌, ◌⊎◌, List, IfErr, true, Err};
ghost use Rattle.wif_base.specs.Causes.{Rose};
ghost use Rattle.wif_base.specs.Disk.{Leaves};
ghost use Rattle.service_config.specs.declared.config.Config.{Config};
ghost use Rattle.links.specs.declared.entry.Entry.{Entry};
ghost use Rattle.sts_core.specs.Machine.{step, with_entry};
ghost use Rattle.sts_core.specs.State.{Stands, StandsForEither};
ghost use Rattle.sts_core.specs.declared.stop.Stop.{Stop};
ghost use Rattle.sts_serve.specs.Answered.{Answers, LeftBy};
ghost use Rattle.http_front.specs.Replies.{response_text, refusal};
ghost use Rattle.http_serve.specs.Refusing.{WritesLast};

use http_front::{HttpRule, Incoming, WriteEnd, refusal_of, write_reply};
use std::alloc::{AllocError, Global};
use sts_core::{Stop, Sts};
use sts_serve::Served;
use wif_base::{Disk, Sink};

/// Answers a request, and writes the reply.
pub(crate) fn answer_incoming<O: Sink, D: Disk>(
    alloc: Global,
    sts: &mut Sts<D>,
    output: &mut O,
    incoming: &Incoming,
    at: u64,
) -> Result<(), Served>
    requires { at ≤ 200_000_000_000 }
    ensures answers { (config : Config) (journal : List Entry) → Stands sts.old config journal
        → (after : List Entry)
        × LeftBy config after (with_entry journal (step config journal incoming.now.request at).entry) sts.new result
        × Answers (O.taken output.old) (O.taken output.new)
        (response_text (step config journal incoming.now.request at).reply incoming.now.close) journal
        (with_entry journal (step config journal incoming.now.request at).entry) after result }
    ensures any_moment { (config : Config) (journal : List Entry) → Stands sts.old config journal
        → Leaves sts.old.journal.told sts.new.journal.told
        (StandsForEither journal (with_entry journal (step config journal incoming.now.request at).entry)) }
    ensures write_fault { result ≡ Err Served.WriteFault → Rose (O.faults output.old) (O.faults output.new) }
    ensures disk_fault { result ≡ Err (Served.Stopped Stop.Journal) → Rose sts.old.journal.faults sts.new.journal.faults }
    ensures broken { result ≡ Err (Served.Stopped Stop.Broken) → sts.old.journal.broken ≡ true }
    ensures whole { result ≢ Err (Served.Stopped Stop.Journal) → sts.new.journal.broken ≡ sts.old.journal.broken }
    ensures ends { IfErr result (λ end. (end ≡ Served.WriteFault) ⊎ ((stop : Stop) × (end ≡ Served.Stopped stop))) }
    ensures count { (O.faults output.old ≤ O.faults output.new) × (sts.old.journal.faults ≤ sts.new.journal.faults) }
    ensures same { (O.lender output.new ≡ O.lender output.old) × (sts.new.journal.lender ≡ sts.old.journal.lender) }
{
    let reply = match sts.answer(alloc, &incoming.request, at) {
        Ok(reply) => reply,
        Err(stop) => return Err(Served::Stopped(stop)),
    };
    match write_reply(alloc, output, &reply, incoming.close) {
        Ok(()) => {
            drop(reply);
            Ok(())
        }
        Err(WriteEnd::WriteFault) => {
            drop(reply);
            Err(Served::WriteFault)
        }
        Err(WriteEnd::Memory) => {
            drop(reply);
            Err(Served::Stopped(Stop::Memory))
        }
    }
}

/// Writes the reply to what a rule refuses.
pub(crate) fn refuse<O: Sink>(alloc: Global, output: &mut O, rule: HttpRule) -> Served
    ensures written { WritesLast (O.taken output.old) (O.taken output.new) (response_text (refusal rule) true) result }
    ensures cause { result ≡ Served.WriteFault → Rose (O.faults output.old) (O.faults output.new) }
    ensures count { O.faults output.old ≤ O.faults output.new }
    ensures same { O.lender output.new ≡ O.lender output.old }
{
    let reply = match refusal_of(alloc, rule) {
        Ok(reply) => reply,
        Err(AllocError) => return Served::Stopped(Stop::Memory),
    };
    match write_reply(alloc, output, &reply, true) {
        Ok(()) => {
            drop(reply);
            Served::Done
        }
        Err(WriteEnd::WriteFault) => {
            drop(reply);
            Served::WriteFault
        }
        Err(WriteEnd::Memory) => {
            drop(reply);
            Served::Stopped(Stop::Memory)
        }
    }
}
