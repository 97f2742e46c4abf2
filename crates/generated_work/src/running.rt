ghost use Rattle.std.specs.Prelude.{◌≡◌, ◌≤◌, [], List, IfOk, OnOk};
ghost use Rattle.links.specs.declared.entry.Entry.{Entry};
ghost use Rattle.sts_core.specs.State.{Stands};
ghost use Rattle.generated_work.specs.Run.{behind_command, first_journal, progress_of};
ghost use Rattle.generated_work.specs.Setting.{run_config};

use crate::asking::ask;
use crate::commands::{policy_text, pool_text, provider_text, role_text};
use crate::counts::{Counts, counted, counts_at_start};
use crate::draws::{next_draw, team_of};
use crate::requests::command_request;
use crate::rounds::play;
use crate::setting::START;
use std::alloc::Global;
use sts_core::{Stop, Sts};
use wif_base::Disk;

/// The commands, and then so many rounds.
pub(crate) fn run<D: Disk>(alloc: Global, sts: &mut Sts<D>, count: u32) -> Result<Counts, Stop>
    requires few { count ≤ 500 }
    requires stands { Stands sts.old run_config [] }
    ensures counts { IfOk result (λ counts. counts ≡ (progress_of count count).counts) }
    ensures stands { OnOk result (Stands sts.new run_config (progress_of count count).journal) }
{
    put_commands(alloc, sts)?;
    let mut counts = counts_at_start();
    let mut draw = count;
    for round in 0..count {
        let team = team_of(draw);
        let outcome = play(alloc, sts, round, team, (round + team) % count)?;
        counts = counted(counts, outcome);
        draw = next_draw(draw);
    }
    Ok(counts)
}

// The four commands that come first.
#[tactic(auto, unfolding(crate::specs::Run::first_journal))]
fn put_commands<D: Disk>(alloc: Global, sts: &mut Sts<D>) -> Result<(), Stop>
    requires { Stands sts.old run_config [] }
    ensures { OnOk result (Stands sts.new run_config first_journal) }
{
    put(alloc, sts, pool_text())?;
    put(alloc, sts, provider_text())?;
    put(alloc, sts, role_text())?;
    put(alloc, sts, policy_text())
}

#[tactic(auto, unfolding(crate::specs::Run::behind_command))]
fn put<D: Disk>(alloc: Global, sts: &mut Sts<D>, command: &str) -> Result<(), Stop>
    ensures { (journal : List Entry) → Stands sts.old run_config journal
        → OnOk result (Stands sts.new run_config (behind_command journal command.now)) }
{
    let request = command_request(alloc, command)?;
    match ask(alloc, sts, request, START) {
        Ok(reply) => {
            drop(reply);
            Ok(())
        }
        Err(stop) => Err(stop),
    }
}
