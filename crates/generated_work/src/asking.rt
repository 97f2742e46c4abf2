ghost use Rattle.std.specs.Prelude.{◌≡◌, ◌≤◌, List, IfOk, OnOk};
ghost use Rattle.links.specs.declared.entry.Entry.{Entry};
ghost use Rattle.sts_core.specs.State.{Stands};
ghost use Rattle.generated_work.specs.Run.{behind, is_admitted, is_granted, reply_to};
ghost use Rattle.generated_work.specs.Setting.{run_config};

use std::alloc::Global;
use sts_core::{Stop, Sts};
use wif_base::{Disk, Reply, Request};

/// Asks for a token, and tells whether it is granted.
pub(crate) fn ask_for_token<D: Disk>(
    alloc: Global,
    sts: &mut Sts<D>,
    request: Request,
    now: u64,
) -> Result<bool, Stop>
    requires moment { now ≤ 200_000_000_000 }
    ensures granted { (journal : List Entry) → Stands sts.old run_config journal
        → IfOk result (λ granted. granted ≡ is_granted (reply_to journal request now)) }
    ensures stands { (journal : List Entry) → Stands sts.old run_config journal
        → OnOk result (Stands sts.new run_config (behind journal request now)) }
{
    match ask(alloc, sts, request, now) {
        Ok(reply) => Ok(grants(reply)),
        Err(stop) => Err(stop),
    }
}

/// Asks for a check, and tells whether it is admitted.
pub(crate) fn ask_for_check<D: Disk>(
    alloc: Global,
    sts: &mut Sts<D>,
    request: Request,
    now: u64,
) -> Result<bool, Stop>
    requires moment { now ≤ 200_000_000_000 }
    ensures admitted { (journal : List Entry) → Stands sts.old run_config journal
        → IfOk result (λ admitted. admitted ≡ is_admitted (reply_to journal request now)) }
    ensures stands { (journal : List Entry) → Stands sts.old run_config journal
        → OnOk result (Stands sts.new run_config (behind journal request now)) }
{
    match ask(alloc, sts, request, now) {
        Ok(reply) => Ok(admits(reply)),
        Err(stop) => Err(stop),
    }
}

/// Makes a request.
#[tactic(auto, unfolding(crate::specs::Run::behind, crate::specs::Run::reply_to))]
pub(crate) fn ask<D: Disk>(
    alloc: Global,
    sts: &mut Sts<D>,
    request: Request,
    now: u64,
) -> Result<Reply, Stop>
    requires moment { now ≤ 200_000_000_000 }
    ensures reply { (journal : List Entry) → Stands sts.old run_config journal
        → IfOk result (λ reply. reply ≡ reply_to journal request now) }
    ensures stands { (journal : List Entry) → Stands sts.old run_config journal
        → OnOk result (Stands sts.new run_config (behind journal request now)) }
{
    let answered = sts.answer(alloc, &request, now);
    drop(request);
    answered
}

fn grants(reply: Reply) -> bool
    ensures { result ≡ is_granted reply }
{
    reply.status == 200
}

fn admits(reply: Reply) -> bool
    ensures { result ≡ is_admitted reply }
{
    reply.body.as_slice() == br#"{"allowed":true}"#.as_slice()
}
