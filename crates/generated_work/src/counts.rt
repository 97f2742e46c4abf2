ghost use Rattle.std.specs.Prelude.{◌≡◌, ◌≤◌, ◌+◌, ℕ, string_bytes, IfOk};
ghost use Rattle.generated_work.specs.Run.{AreAtMost, counts_with, no_counts, plus_one_if};
ghost use Rattle.generated_work.specs.Told.{line_text};

use crate::outcome::Outcome;
use std::alloc::{AllocError, Global};

/// How many exchanges and narrowings were granted, and how many checks were admitted and denied.
#[derive(Clone, Copy)]
pub(crate) struct Counts {
    pub(crate) exchanges: u32,
    pub(crate) narrowed: u32,
    pub(crate) admitted: u32,
    pub(crate) denied: u32,
}

/// The counts before the first round.
#[tactic(auto, unfolding(crate::specs::Run::no_counts))]
pub(crate) fn counts_at_start() -> Counts
    ensures none { result ≡ no_counts }
    ensures few { AreAtMost 0 result }
{
    Counts {
        exchanges: 0,
        narrowed: 0,
        admitted: 0,
        denied: 0,
    }
}

/// The counts with those of a round more.
#[tactic(auto, unfolding(crate::specs::Run::counts_with))]
pub(crate) fn counted(counts: Counts, outcome: Outcome) -> Counts
    requires { AreAtMost 500 counts }
    ensures counts { result ≡ counts_with counts outcome }
    ensures few { (most : ℕ) → AreAtMost most counts → AreAtMost (most + 1) result }
{
    Counts {
        exchanges: one_more_if(outcome.exchanged, counts.exchanges),
        narrowed: one_more_if(outcome.narrowed, counts.narrowed),
        admitted: one_more_if(outcome.admitted, counts.admitted),
        denied: one_more_if(!outcome.admitted, counts.denied),
    }
}

fn one_more_if(counts: bool, count: u32) -> u32
    requires { count ≤ 500 }
    ensures count { result ≡ plus_one_if counts count }
    ensures few { result ≤ count + 1 }
{
    if counts { count + 1 } else { count }
}

/// The line of the counts and of the number of entries.
#[tactic(auto, unfolding(crate::specs::Told::line_text))]
pub(crate) fn line_of(alloc: Global, counts: Counts, entries: u32) -> Result<String, AllocError>
    ensures { IfOk result (λ line. string_bytes line ≡ line_text counts entries) }
{
    let exchanges = counts.exchanges;
    let narrowed = counts.narrowed;
    let admitted = counts.admitted;
    let denied = counts.denied;
    format!(in alloc;
        "exchanges {exchanges} narrowed {narrowed} admitted {admitted} denied {denied} entries {entries}\n"
    )
}
