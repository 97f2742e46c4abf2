ghost use Rattle.std.specs.Prelude.{◌≡◌, ◌≤◌, ◌<◌, ◌-◌, ◌^◌, ◌⊎◌, ◌+◌, ◌++◌, ◌∷◌, ℕ, List, IfOk, IfErr, OnOk, Ok, Err, [], true, false, length};
ghost use Rattle.entry_rules.specs.declared.fault.RuleCode.{RuleCode as Rule};
ghost use Rattle.entry_rules.specs.Passing.{Passes};
ghost use Rattle.entry_texts.specs.Written as written;
ghost use Rattle.grant_journal.specs.JournalBytes.{Settled, StandsFor};
ghost use Rattle.links.specs.Entries.{IsEntry};
ghost use Rattle.links.specs.Licence.{first_unlicensed, prepared_of};
ghost use Rattle.links.specs.State.{state_after};
ghost use Rattle.sts_core.specs.Machine.{with_entry};
ghost use Rattle.sts_core.specs.Proposals.{IsReady, answered, fits, size_with, texts_with};
ghost use Rattle.sts_core.specs.State.{Causes, JournalStays};
ghost use Rattle.sts_core.specs.declared.stop.Stop.TheVariants as stops;
ghost use Rattle.sts_replies.specs.Refusals as refusals;
ghost use Rattle.wif_base.specs.Disk.{Leaves};

use crate::Stop;
use crate::proposal::Proposal;
use base_types::Text;
use entry_rules::ApplyFault;
use entry_texts::entry_text;
use grant_journal::{AppendFault, Journal, RecordFault, record_of};
use links::{Entry, Prepared, State, commit, prepare};
use std::alloc::{AllocError, Global};
use sts_replies::{journal_full, refusal_of};
use wif_base::{Disk, Reply};

/// Looks whether the state licenses an entry, and makes its text and all that its recording needs. It changes no content.
pub(crate) fn prepare_with_text(
    alloc: Global,
    state: &mut State,
    entry: Entry,
) -> Result<(Prepared, Text), ApplyFault>
    requires room { state.old.content.count < 2 ^ 32 - 1 }
    requires form { IsEntry entry }
    ensures licensed { Passes result (first_unlicensed state.old.content entry) }
    ensures prepared { IfOk result (λ made. made.0 ≡ prepared_of state.old.content entry) }
    ensures text { IfOk result (λ made. made.1 ≡ written.entry_text entry) }
    ensures content { state.new.content ≡ state.old.content }
    ensures room { OnOk result (1 ≤ state.new.spare) }
{
    match entry_text(alloc, &entry) {
        Ok(text) => match prepare(alloc, state, entry) {
            Ok(prepared) => Ok((prepared, text)),
            Err(fault) => {
                drop(text);
                Err(fault)
            }
        },
        Err(AllocError) => {
            drop(entry);
            Err(ApplyFault::Memory)
        }
    }
}

/// Proposes to record what was prepared, where there is a reply to it.
pub(crate) fn propose(
    prepared: Prepared,
    text: Text,
    reply: Result<Reply, AllocError>,
) -> Result<Proposal, AllocError>
    ensures reply { IfOk result (λ proposal. (told : _) × (reply ≡ Ok told) × (proposal ≡ Proposal.Record prepared text told)) }
{
    match reply {
        Ok(reply) => Ok(Proposal::Record {
            prepared,
            text,
            reply,
        }),
        Err(AllocError) => {
            drop(prepared);
            drop(text);
            Err(AllocError)
        }
    }
}

/// The reply to an entry that a rule forbids.
pub(crate) fn entry_refused(alloc: Global, fault: ApplyFault) -> Result<Proposal, AllocError>
    ensures { IfOk result (λ proposal. (rule : Rule) × (fault ≡ ApplyFault.Unlicensed rule) × (proposal ≡ Proposal.Refused (refusals.refusal_of rule))) }
{
    match fault {
        ApplyFault::Unlicensed { rule } => {
            let reply = refusal_of(alloc, &rule);
            drop(rule);
            Ok(Proposal::Refused(reply?))
        }
        ApplyFault::Memory => Err(AllocError),
    }
}

/// Records what is proposed, where it fits in the journal: on the disk first, then in the state.
pub(crate) fn carry_out<D: Disk>(
    alloc: Global,
    state: &mut State,
    journal: &mut Journal<D>,
    proposal: Proposal,
    code: &str,
) -> Result<Reply, Stop>
    requires count { state.old.content.count < 2 ^ 32 - 1 }
    requires ready { IsReady state.old proposal }
    ensures reply { IfOk result (λ reply. reply ≡ (answered journal.old.len code.now proposal).reply) }
    ensures content { OnOk result (state.new.content
        ≡ state_after state.old.content (with_entry [] (answered journal.old.len code.now proposal).entry)) }
    ensures size { OnOk result (journal.new.len ≡ size_with journal.old.len (answered journal.old.len code.now proposal).entry) }
    ensures settled { (texts : List (List ℕ)) → Settled texts journal.old.len journal.old.told
        → OnOk result (Settled (texts_with texts (answered journal.old.len code.now proposal).entry) journal.new.len journal.new.told) }
    ensures any_moment { (texts : List (List ℕ)) → Settled texts journal.old.len journal.old.told → Leaves journal.old.told journal.new.told
        (λ image. StandsFor texts image ⊎ StandsFor (texts_with texts (answered journal.old.len code.now proposal).entry) image) }
    ensures whole { OnOk result (journal.new.broken ≡ journal.old.broken) }
    ensures stays { IfErr result (λ stop. (state.new.content ≡ state.old.content) × JournalStays stop journal.old journal.new) }
    ensures cause { IfErr result (λ stop. Causes stop journal.old journal.new) }
    ensures count { journal.old.faults ≤ journal.new.faults }
    ensures same { journal.new.lender ≡ journal.old.lender }
{
    match proposal {
        Proposal::Refused(reply) => Ok(reply),
        Proposal::Record {
            prepared,
            text,
            reply,
        } => {
            let stored = store(alloc, journal, text);
            match stored {
                Ok(true) => {
                    commit(state, prepared);
                    Ok(reply)
                }
                Ok(false) => {
                    drop(prepared);
                    drop(reply);
                    Ok(journal_full(alloc, code)?)
                }
                Err(stop) => {
                    drop(prepared);
                    drop(reply);
                    Err(stop)
                }
            }
        }
    }
}

// Puts a text behind the journal's, where it fits there. Answers whether it does.
fn store<D: Disk>(alloc: Global, journal: &mut Journal<D>, text: Text) -> Result<bool, Stop>
    ensures fits { IfOk result (λ stored. stored ≡ fits journal.old.len text) }
    ensures tried { result ≡ Err stops.Journal → fits journal.old.len text ≡ true }
    ensures stored { result ≡ Ok true → journal.new.len ≡ journal.old.len + (5 + length text) }
    ensures full { result ≡ Ok false → journal.new ≡ journal.old }
    ensures settled { (texts : List (List ℕ)) → Settled texts journal.old.len journal.old.told
        → result ≡ Ok true → Settled (texts ++ text ∷ []) journal.new.len journal.new.told }
    ensures any_moment { (texts : List (List ℕ)) → Settled texts journal.old.len journal.old.told
        → Leaves journal.old.told journal.new.told (λ image. StandsFor texts image ⊎ StandsFor (texts ++ text ∷ []) image) }
    ensures whole { OnOk result (journal.new.broken ≡ journal.old.broken) }
    ensures stays { IfErr result (λ stop. JournalStays stop journal.old journal.new) }
    ensures cause { IfErr result (λ stop. Causes stop journal.old journal.new) }
    ensures count { journal.old.faults ≤ journal.new.faults }
    ensures same { journal.new.lender ≡ journal.old.lender }
{
    let made = record_of(alloc, text.as_str().as_bytes());
    drop(text);
    let record = match made {
        Ok(record) => record,
        Err(RecordFault::TooLong { .. }) => return Ok(false),
        Err(RecordFault::Memory) => return Err(Stop::Memory),
    };
    let appended = journal.append(&record);
    drop(record);
    match appended {
        Ok(()) => Ok(true),
        Err(AppendFault::Full { .. }) => Ok(false),
        Err(AppendFault::Fault) => Err(Stop::Journal),
        Err(AppendFault::Broken) => Err(Stop::Broken),
    }
}
