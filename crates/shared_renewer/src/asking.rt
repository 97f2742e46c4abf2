// A turn in which the client is asked for a lease.
ghost use Rattle.std.specs.Prelude.{◌≡◌, ◌≤◌, ◌*◌, length, IfOk, IfErr, false};
ghost use Rattle.shared_renewer.specs.Asks as asks;
ghost use Rattle.shared_renewer.specs.Asks.{IsAskedFor, IsServed, Serves, Settles};
ghost use Rattle.shared_renewer.specs.Counts.{HasFacts, counts_of};
ghost use Rattle.shared_renewer.specs.Passes.{IsNewest, Keeps, NeverFalls};
ghost use Rattle.shared_renewer.specs.Turns.{IsIdle, IsReady};

use crate::looking::{newest_of, word_of};
use crate::turns::{Ending, PassSeat, Top, give_back, wait_turn};
use client_link::Link;
use renewer::{Lease, LeaseFault};
use std::alloc::{AllocError, Global};
use std::sync::Wait;
use wif_base::LAST_MOMENT;

// What was answered in a turn, a copy of the newest renewal, and the word that gives the turn back.
#[derive(Drop)]
struct Asked {
    answer: Result<Lease, LeaseFault>,
    newest: Result<Option<Lease>, AllocError>,
    word: u64,
}

/// What a turn brought.
#[derive(Drop)]
pub(crate) enum Outcome {
    /// An answer, with a copy of the newest renewal.
    Seen {
        answer: Result<Lease, LeaseFault>,
        newest: Option<Lease>,
    },
    /// A fault, behind which nothing more was seen.
    Unseen {
        fault: LeaseFault,
    },
}

// An answer behind which the history is seen.
fn with_copy(
    answer: Result<Lease, LeaseFault>,
    newest: Result<Option<Lease>, AllocError>,
) -> Outcome
    requires { IfErr answer (λ fault. asks.hides_history fault ≡ false) }
    ensures { Settles answer newest result }
{
    match newest {
        Ok(newest) => Outcome::Seen { answer, newest },
        Err(AllocError) => {
            drop(answer);
            Outcome::Unseen {
                fault: LeaseFault::Memory,
            }
        }
    }
}

fn hides_history(fault: &LeaseFault) -> bool
    ensures { result ≡ asks.hides_history fault.now }
{
    match fault {
        LeaseFault::LinkFault => true,
        LeaseFault::Refused { reply: _ } => true,
        LeaseFault::BadReply { reply: _ } => true,
        LeaseFault::ShortLived { exp: _ } => false,
        LeaseFault::Exhausted { exp: _ } => false,
        LeaseFault::Memory => true,
    }
}

// What is given out, and whether the history is seen.
fn settle(answer: Result<Lease, LeaseFault>, newest: Result<Option<Lease>, AllocError>) -> Outcome
    ensures { Settles answer newest result }
{
    match answer {
        Ok(lease) => with_copy(Ok(lease), newest),
        Err(fault) => {
            if hides_history(&fault) {
                drop(newest);
                return Outcome::Unseen { fault };
            }
            with_copy(Err(fault), newest)
        }
    }
}

fn ending_behind(fault: &LeaseFault) -> Ending
    ensures { result ≡ asks.ending_behind fault.now }
{
    match fault {
        LeaseFault::LinkFault => Ending::LinkFailed,
        LeaseFault::Refused { reply: _ } => Ending::ReplyFailed,
        LeaseFault::BadReply { reply: _ } => Ending::ReplyFailed,
        LeaseFault::ShortLived { exp: _ } => Ending::Unseen,
        LeaseFault::Exhausted { exp: _ } => Ending::Unseen,
        LeaseFault::Memory => Ending::Unseen,
    }
}

fn ending_of(outcome: &Outcome) -> Ending
    ensures { result ≡ asks.ending_of outcome.now }
{
    match outcome {
        Outcome::Seen {
            answer: _,
            newest: _,
        } => Ending::Seen,
        Outcome::Unseen { fault } => ending_behind(fault),
    }
}

// Asks the client, which stays out with the seat.
fn ask<L: Link>(top: &Top<L>, alloc: Global, seat: &mut PassSeat<L>, at: u64) -> Asked
    requires moment { at ≤ LAST_MOMENT }
    requires table { seat.old.table_id ≡ top.now.table_id }
    requires client { (client : _) × IsReady (counts_of L.faults L.calls) (HasFacts L.calls L.lender) seat.old.me client.history client }
    ensures same { (seat.new.table_id ≡ seat.old.table_id) × (seat.new.id ≡ seat.old.id) }
    ensures asked { (old : _) → IsReady (counts_of L.faults L.calls) (HasFacts L.calls L.lender) seat.old.me old.history old
        → (new : _) × IsAskedFor L.faults L.calls L.lender at seat.old.me seat.new.me old new result.answer
        × IfOk result.newest (IsNewest new.history) × (result.word ≡ 2 * length new.history) }
{
    let flight = seat.slot_mut(top, 0);
    let answer = flight.lease(alloc, at);
    let newest = newest_of(alloc, flight);
    let word = word_of(flight);
    Asked {
        answer,
        newest,
        word,
    }
}

// Asks the client, and gives it back.
fn serve<L: Link>(top: &Top<L>, alloc: Global, seat: &mut PassSeat<L>, at: u64) -> Outcome
    requires moment { at ≤ LAST_MOMENT }
    requires table { (seat.old.table_id ≡ top.now.table_id) × (top.now.table_id.words ≡ 1) × (top.now.table_id.slots ≡ 1) }
    requires client { (client : _) × IsReady (counts_of L.faults L.calls) (HasFacts L.calls L.lender) seat.old.me client.history client }
    ensures same { (seat.new.table_id ≡ seat.old.table_id) × (seat.new.id ≡ seat.old.id) }
    ensures served { (old : _) → IsReady (counts_of L.faults L.calls) (HasFacts L.calls L.lender) seat.old.me old.history old
        → (new : _) × Serves L.faults L.calls L.lender at seat.old.me seat.new.me old new result }
{
    let Asked {
        answer,
        newest,
        word,
    } = ask(top, alloc, seat, at);
    let outcome = settle(answer, newest);
    give_back(top, seat, word, ending_of(&outcome));
    outcome
}

/// Waits for the turn, and asks for a lease in it.
pub(crate) fn wait_and_ask<L: Link, R: Wait>(
    rt: &R,
    top: &Top<L>,
    alloc: Global,
    seat: &mut PassSeat<L>,
    at: u64,
) -> Outcome
    requires moment { at ≤ LAST_MOMENT }
    requires table { (seat.old.table_id ≡ top.now.table_id) × (top.now.table_id.words ≡ 1) × (top.now.table_id.slots ≡ 1) }
    requires idle { IsIdle seat.old.me }
    ensures same { (seat.new.table_id ≡ seat.old.table_id) × (seat.new.id ≡ seat.old.id) }
    ensures idle { IsIdle seat.new.me }
    ensures keeps { Keeps seat.old.me.0 seat.new.me.0 }
    ensures rises { NeverFalls seat.old.me.0 seat.new.me.0 }
    ensures served { IsServed at seat.old.me.0 seat.new.me.0 result }
{
    wait_turn(rt, top, seat);
    serve(top, alloc, seat, at)
}
