ghost use Rattle.std.specs.Prelude.{◌≡◌, ◌<◌, ◌+◌, List, IfOk, OnOk};
ghost use Rattle.links.specs.declared.entry.Entry.{Entry};
ghost use Rattle.sts_core.specs.State.{Stands};
ghost use Rattle.generated_work.specs.Requests.{exchange_of};
ghost use Rattle.generated_work.specs.Run.{before_check, behind, behind_exchange, behind_narrowing, behind_round, check_behind, is_admitted, is_granted, is_narrowed, moment_of, narrowing_behind, outcome_of, reply_to};
ghost use Rattle.generated_work.specs.Setting.{run_config};

use crate::asking::{ask_for_check, ask_for_token};
use crate::newest::newest_token;
use crate::outcome::Outcome;
use crate::requests::{check_request, exchange_request, narrowing_request};
use crate::setting::START;
use std::alloc::Global;
use sts_core::{Stop, Sts};
use wif_base::Disk;

/// Plays a round: an exchange, a narrowing of what it gave where the team's number is odd, and a check for an item.
#[tactic(auto, unfolding(crate::specs::Run::behind_round, crate::specs::Run::outcome_of, crate::specs::Run::before_check))]
pub(crate) fn play<D: Disk>(
    alloc: Global,
    sts: &mut Sts<D>,
    round: u32,
    team: u32,
    item: u32,
) -> Result<Outcome, Stop>
    requires { round < 500 }
    ensures outcome { (journal : List Entry) → Stands sts.old run_config journal
        → IfOk result (λ outcome. outcome ≡ outcome_of journal round team item) }
    ensures stands { (journal : List Entry) → Stands sts.old run_config journal
        → OnOk result (Stands sts.new run_config (behind_round journal round team item)) }
{
    let exchanged = exchange(alloc, sts, round, team)?;
    let narrowed = narrow_if_odd(alloc, sts, round, team)?;
    let admitted = check(alloc, sts, round, item)?;
    Ok(Outcome {
        exchanged,
        narrowed,
        admitted,
    })
}

// The round's token from outside is exchanged.
#[tactic(auto, unfolding(crate::specs::Run::behind_exchange))]
fn exchange<D: Disk>(alloc: Global, sts: &mut Sts<D>, round: u32, team: u32) -> Result<bool, Stop>
    requires { round < 500 }
    ensures granted { (journal : List Entry) → Stands sts.old run_config journal
        → IfOk result (λ granted. granted ≡ is_granted (reply_to journal (exchange_of round team) (moment_of round))) }
    ensures stands { (journal : List Entry) → Stands sts.old run_config journal
        → OnOk result (Stands sts.new run_config (behind_exchange journal round team)) }
{
    let request = exchange_request(alloc, round, team)?;
    ask_for_token(alloc, sts, request, START + round as u64)
}

// The newest token is narrowed, where the team's number is odd.
#[tactic(auto, unfolding(crate::specs::Run::behind_narrowing, crate::specs::Run::is_narrowed))]
fn narrow_if_odd<D: Disk>(
    alloc: Global,
    sts: &mut Sts<D>,
    round: u32,
    team: u32,
) -> Result<bool, Stop>
    requires { round < 500 }
    ensures narrowed { (journal : List Entry) → Stands sts.old run_config journal
        → IfOk result (λ narrowed. narrowed ≡ is_narrowed journal round team) }
    ensures stands { (journal : List Entry) → Stands sts.old run_config journal
        → OnOk result (Stands sts.new run_config (behind_narrowing journal round team)) }
{
    if team % 2 == 1 {
        narrow(alloc, sts, round)
    } else {
        Ok(false)
    }
}

// The newest token is narrowed to the round's item.
fn narrow<D: Disk>(alloc: Global, sts: &mut Sts<D>, round: u32) -> Result<bool, Stop>
    requires { round < 500 }
    ensures granted { (journal : List Entry) → Stands sts.old run_config journal
        → IfOk result (λ granted. granted ≡ is_granted (reply_to journal (narrowing_behind journal round) (moment_of round))) }
    ensures stands { (journal : List Entry) → Stands sts.old run_config journal
        → OnOk result (Stands sts.new run_config (behind journal (narrowing_behind journal round) (moment_of round))) }
{
    let token = newest_token(alloc, sts)?;
    let request = narrowing_request(alloc, token.as_str(), round);
    drop(token);
    ask_for_token(alloc, sts, request?, START + round as u64)
}

// The newest token is checked for an item, a second later.
fn check<D: Disk>(alloc: Global, sts: &mut Sts<D>, round: u32, item: u32) -> Result<bool, Stop>
    requires { round < 500 }
    ensures admitted { (journal : List Entry) → Stands sts.old run_config journal
        → IfOk result (λ admitted. admitted ≡ is_admitted (reply_to journal (check_behind journal item) (moment_of round + 1))) }
    ensures stands { (journal : List Entry) → Stands sts.old run_config journal
        → OnOk result (Stands sts.new run_config (behind journal (check_behind journal item) (moment_of round + 1))) }
{
    let token = newest_token(alloc, sts)?;
    let request = check_request(alloc, token.as_str(), item);
    drop(token);
    ask_for_check(alloc, sts, request?, START + round as u64 + 1)
}
