ghost use Rattle.std.specs.Prelude.{◌≡◌, ◌≤◌, ◌⊎◌, List, IfOk, IfErr, OnOk, OnErr, true};
ghost use Rattle.wif_base.specs.Causes.{Rose};
ghost use Rattle.sts_core.specs.Machine.{with_entry};
ghost use Rattle.service_config.specs.declared.config.Config.{Config};
ghost use Rattle.links.specs.declared.entry.Entry.{Entry};
ghost use Rattle.sts_core.specs.State.{Causes, Stands, StandsForEither, Stays};
ghost use Rattle.sts_core.specs.declared.stop.Stop.{Stop};
ghost use Rattle.wif_base.specs.Disk.{Leaves};
ghost use Rattle.sts_serve.specs.Frames.{answer, reply_text};
ghost use Rattle.sts_serve.specs.Answered.{Answers, LeftBy};

use crate::{Frame, Served};
use std::alloc::{AllocError, Global};
use sts_core::{Stop, Sts};
use sts_replies::not_found;
use wif_base::{Disk, Failed, Reply, Request, Sink, route_of, write_text};

/// Answers a frame, and writes the reply.
pub(crate) fn answer_frame<O: Sink, D: Disk>(
    alloc: Global,
    sts: &mut Sts<D>,
    output: &mut O,
    frame: Frame,
) -> Result<(), Served>
    requires { frame.moment ≤ 200_000_000_000 }
    ensures answers { (config : Config) (journal : List Entry) → Stands sts.old config journal
        → (after : List Entry) × LeftBy config after (with_entry journal (answer config journal frame).entry) sts.new result
        × Answers (O.taken output.old) (O.taken output.new) (reply_text (answer config journal frame).reply) journal
        (with_entry journal (answer config journal frame).entry) after result }
    ensures any_moment { (config : Config) (journal : List Entry) → Stands sts.old config journal
        → Leaves sts.old.journal.told sts.new.journal.told (StandsForEither journal (with_entry journal (answer config journal frame).entry)) }
    ensures write_fault { result ≡ Err Served.WriteFault → Rose (O.faults output.old) (O.faults output.new) }
    ensures disk_fault { result ≡ Err (Served.Stopped Stop.Journal) → Rose sts.old.journal.faults sts.new.journal.faults }
    ensures broken { result ≡ Err (Served.Stopped Stop.Broken) → sts.old.journal.broken ≡ true }
    ensures whole { OnOk result (sts.new.journal.broken ≡ sts.old.journal.broken) }
    ensures ends { IfErr result (λ end. (end ≡ Served.WriteFault) ⊎ ((stop : Stop) × (end ≡ Served.Stopped stop))) }
    ensures count { (O.faults output.old ≤ O.faults output.new) × (sts.old.journal.faults ≤ sts.new.journal.faults) }
    ensures same { (O.lender output.new ≡ O.lender output.old) × (sts.new.journal.lender ≡ sts.old.journal.lender) }
{
    let reply = match reply_to(alloc, sts, frame) {
        Ok(reply) => reply,
        Err(stop) => return Err(Served::Stopped(stop)),
    };
    let text = match reply_bytes(alloc, &reply) {
        Ok(text) => text,
        Err(AllocError) => {
            drop(reply);
            return Err(Served::Stopped(Stop::Memory));
        }
    };
    drop(reply);
    match write_text(output, text.as_slice()) {
        Ok(()) => Ok(()),
        Err(Failed) => Err(Served::WriteFault),
    }
}

// The machine's reply to a frame.
fn reply_to<D: Disk>(alloc: Global, sts: &mut Sts<D>, frame: Frame) -> Result<Reply, Stop>
    requires { frame.moment ≤ 200_000_000_000 }
    ensures reply { (config : Config) (journal : List Entry) → Stands sts.old config journal
        → IfOk result (λ reply. reply ≡ (answer config journal frame).reply) }
    ensures stands { (config : Config) (journal : List Entry) → Stands sts.old config journal
        → OnOk result (Stands sts.new config (with_entry journal (answer config journal frame).entry)) }
    ensures any_moment { (config : Config) (journal : List Entry) → Stands sts.old config journal
        → Leaves sts.old.journal.told sts.new.journal.told (StandsForEither journal (with_entry journal (answer config journal frame).entry)) }
    ensures stays { IfErr result (λ stop. Stays stop sts.old sts.new) }
    ensures cause { IfErr result (λ stop. Causes stop sts.old.journal sts.new.journal) }
    ensures whole { OnOk result (sts.new.journal.broken ≡ sts.old.journal.broken) }
    ensures count { sts.old.journal.faults ≤ sts.new.journal.faults }
    ensures same { sts.new.journal.lender ≡ sts.old.journal.lender }
{
    match route_of(alloc, frame.path.as_str())? {
        Some(route) => {
            let request = Request {
                route,
                bearer: frame.bearer,
                body: frame.body,
            };
            sts.answer(alloc, &request, frame.moment)
        }
        None => Ok(not_found(alloc)?),
    }
}

// `STATUS SP LENGTH LF BODY LF`.
#[tactic(auto, unfolding(crate::specs::Frames::reply_text))]
fn reply_bytes(alloc: Global, reply: &Reply) -> Result<Vec<u8>, AllocError>
    ensures { IfOk result (λ bytes. bytes.items ≡ reply_text reply.now) }
{
    let body = reply.body.as_slice();
    let status = reply.status;
    let size = body.len();
    let mut bytes = format!(in alloc; "{status} {size}\n")?.into_bytes();
    bytes.extend_from_slice(body)?;
    bytes.push(b'\n')?;
    Ok(bytes)
}
