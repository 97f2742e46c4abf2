// The records of a file, applied in order.
ghost use Rattle.std.specs.Prelude.{◌≡◌, ◌<◌, ◌-◌, ◌^◌, List, ℕ};
ghost use Rattle.grant_journal.specs.Places.{HasMarker};
ghost use Rattle.grant_journal.specs.Reading.{IsReadOf};
ghost use Rattle.links.specs.State.{start_of};
ghost use Rattle.service_config.specs.declared.config.Config.{Config};
ghost use Rattle.service_journal.specs.Replays.{Replays, AppliesText};

use crate::JournalOpening;
use entry_rules::ApplyFault;
use entry_texts::{EntryFault, read_entry};
use grant_journal::{JournalFile, JournalRule, Opened, Standing, passes_limit};
use links::{State, apply};
use std::alloc::Global;

/// Why the records of a file weren't all applied.
#[derive(Clone, Copy, Debug)]
pub(crate) enum ReplayFault {
    /// The record whose gate stands there breaks the rule, or the file has no marker.
    Refused { at: u64, rule: JournalRule },
    Memory,
}

/// Applies the entries of a file to a state with no entry yet.
pub(crate) fn replay(
    alloc: Global,
    file: &JournalFile,
    state: State,
) -> Result<JournalOpening, ReplayFault>
    requires { state.content.count ≡ 0 }
    ensures { (config : Config) (bytes : List ℕ) → state.content ≡ start_of config → IsReadOf bytes file.now → Replays config bytes result }
{
    if !file.has_marker() {
        drop(state);
        return Err(refused(0, JournalRule::J1));
    }
    apply_records(alloc, file, state)
}

// Applies the records behind the marker.
fn apply_records(
    alloc: Global,
    file: &JournalFile,
    mut state: State,
) -> Result<JournalOpening, ReplayFault>
    requires { state.content.count ≡ 0 }
    ensures { (config : Config) (bytes : List ℕ) → state.content ≡ start_of config → IsReadOf bytes file.now → HasMarker bytes
        → Replays config bytes result }
{
    let mut at = 8;
    'records: loop {
        match file.standing(at) {
            Standing::Closed => {
                let end = Opened { len: at + 1 };
                return Ok(JournalOpening { state, end });
            }
            Standing::Bad(rule) => {
                drop(state);
                return Err(refused(at, rule));
            }
            Standing::Text { text, next } => {
                if let Err(fault) = apply_text(alloc, &mut state, text, at) {
                    drop(state);
                    return Err(fault);
                }
                if passes_limit(next) {
                    drop(state);
                    return Err(refused(at, JournalRule::J5));
                }
                at = next;
            }
        }
    }
}

// Applies the entry of a text that stands there.
fn apply_text(alloc: Global, state: &mut State, text: &[u8], at: u64) -> Result<(), ReplayFault>
    requires { state.old.content.count < 2 ^ 32 - 1 }
    ensures { AppliesText state.old.content state.new.content text.now at result }
{
    let entry = match read_entry(alloc, text) {
        Ok(entry) => entry,
        Err(EntryFault::Form) => return Err(refused(at, JournalRule::J3)),
        Err(EntryFault::Memory) => return Err(ReplayFault::Memory),
    };
    match apply(alloc, state, entry) {
        Ok(()) => Ok(()),
        Err(ApplyFault::Unlicensed { .. }) => Err(refused(at, JournalRule::J4)),
        Err(ApplyFault::Memory) => Err(ReplayFault::Memory),
    }
}

fn refused(at: u64, rule: JournalRule) -> ReplayFault
    ensures { result ≡ ReplayFault.Refused at rule }
{
    ReplayFault::Refused { at, rule }
}
