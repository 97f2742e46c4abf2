// A turn in which the newest renewal is copied.
ghost use Rattle.std.specs.Prelude.{◌≡◌, ◌≤◌, ◌<◌, ◌+◌, ◌*◌, length, IfOk, IfErr, Some};
ghost use Rattle.renewer.specs.Histories.{NoWaste};
ghost use Rattle.shared_renewer.specs.Counts.{HasFacts, counts_of};
ghost use Rattle.shared_renewer.specs.Looks.{AreOfNewest, IsSeenWhole, IsStale, Looks, TurnLeaves};
ghost use Rattle.shared_renewer.specs.Looks as looks;
ghost use Rattle.shared_renewer.specs.Passes.{IsNewest, Keeps, NeverFalls};
ghost use Rattle.shared_renewer.specs.Turns.{IsIdle, IsReady};

use crate::fault::TryFault;
use crate::lease::newest_lease;
use crate::turns::{Ending, PassSeat, Top, give_back, try_turn};
use base_types::both;
use client_link::Link;
use renewer::{Flight, Lease};
use std::alloc::{AllocError, Global};

/// Two copies of the newest renewal: the pass's own, and one to give out.
#[derive(Drop)]
pub(crate) struct Copies {
    pub kept: Option<Lease>,
    pub given: Option<Lease>,
}

// What was read in a turn, and the word that gives the turn back.
#[derive(Drop)]
struct Copied {
    copies: Result<Copies, AllocError>,
    word: u64,
}

fn copies_of<L: Link>(alloc: Global, flight: &Flight<L>) -> Result<Copies, AllocError>
    ensures { IfOk result (AreOfNewest flight.now.history) }
{
    let (kept, given) = both(newest_of(alloc, flight), newest_of(alloc, flight))?;
    Ok(Copies { kept, given })
}

/// A copy of a client's newest renewal.
pub(crate) fn newest_of<L: Link>(
    alloc: Global,
    flight: &Flight<L>,
) -> Result<Option<Lease>, AllocError>
    ensures { IfOk result (IsNewest flight.now.history) }
{
    newest_lease(alloc, flight.history())
}

/// The word of a client that is at rest.
pub(crate) fn word_of<L: Link>(flight: &Flight<L>) -> u64
    ensures word { result ≡ 2 * length flight.now.history }
    ensures sound { NoWaste flight.now.margin flight.now.history × (length flight.now.history ≤ 10_000) }
{
    2 * flight.history().len() as u64
}

fn copy_newest<L: Link>(top: &Top<L>, alloc: Global, seat: &mut PassSeat<L>) -> Copied
    requires table { seat.old.table_id ≡ top.now.table_id }
    requires client { (client : _) × IsReady (counts_of L.faults L.calls) (HasFacts L.calls L.lender) seat.old.me client.history client }
    ensures same { (seat.new.table_id ≡ seat.old.table_id) × (seat.new.id ≡ seat.old.id) × (seat.new.me ≡ seat.old.me) }
    ensures copied { (client : _) → IsReady (counts_of L.faults L.calls) (HasFacts L.calls L.lender) seat.old.me client.history client
        → IfOk result.copies (AreOfNewest client.history) × (result.word ≡ 2 * length client.history) }
{
    let flight = seat.slot_mut(top, 0);
    let copies = copies_of(alloc, flight);
    let word = word_of(flight);
    Copied { copies, word }
}

/// Copies the newest renewal, where the turn is free.
pub(crate) fn try_look<L: Link>(
    top: &Top<L>,
    alloc: Global,
    seat: &mut PassSeat<L>,
) -> Result<Copies, TryFault>
    requires table { (seat.old.table_id ≡ top.now.table_id) × (top.now.table_id.words ≡ 1) × (top.now.table_id.slots ≡ 1) }
    requires idle { IsIdle seat.old.me }
    ensures same { (seat.new.table_id ≡ seat.old.table_id) × (seat.new.id ≡ seat.old.id) }
    ensures idle { IsIdle seat.new.me }
    ensures keeps { Keeps seat.old.me.0 seat.new.me.0 }
    ensures rises { NeverFalls seat.old.me.0 seat.new.me.0 }
    ensures lost { seat.new.me.0.lost ≡ seat.old.me.0.lost }
    ensures looks { seat.new.me.0.steps ≤ seat.old.me.0.steps + 2 }
    ensures seen { IfOk result (IsSeenWhole seat.old.me.0 seat.new.me.0) }
    ensures unseen { IfErr result (TurnLeaves seat.old.me.0 seat.new.me.0) }
{
    match try_turn(top, seat) {
        Ok(_) => finish_look(top, alloc, seat),
        Err(word) => Err(TryFault::Busy { word }),
    }
}

// Copies the newest renewal in a turn, and gives the turn back.
fn finish_look<L: Link>(
    top: &Top<L>,
    alloc: Global,
    seat: &mut PassSeat<L>,
) -> Result<Copies, TryFault>
    requires table { (seat.old.table_id ≡ top.now.table_id) × (top.now.table_id.words ≡ 1) × (top.now.table_id.slots ≡ 1) }
    requires client { (client : _) × IsReady (counts_of L.faults L.calls) (HasFacts L.calls L.lender) seat.old.me client.history client }
    ensures same { (seat.new.table_id ≡ seat.old.table_id) × (seat.new.id ≡ seat.old.id) }
    ensures looked { (client : _) → IsReady (counts_of L.faults L.calls) (HasFacts L.calls L.lender) seat.old.me client.history client
        → Looks (counts_of L.faults L.calls) client seat.old.me seat.new.me result }
{
    let Copied { copies, word } = copy_newest(top, alloc, seat);
    give_back(top, seat, word, ending_by(&copies));
    match copies {
        Ok(copies) => Ok(copies),
        Err(AllocError) => Err(TryFault::Memory),
    }
}

fn ending_by(copies: &Result<Copies, AllocError>) -> Ending
    ensures { result ≡ looks.ending_by copies.now }
{
    match copies {
        Ok(_) => Ending::Seen,
        Err(_) => Ending::Unseen,
    }
}

/// The lease, where it covers the moment.
pub(crate) fn lease_or_stale(newest: Option<Lease>, margin: u64, at: u64) -> Result<Lease, TryFault>
    ensures covers { IfOk result (λ lease. (newest ≡ Some lease) × (at + margin < lease.exp)) }
    ensures stale { IfErr result (IsStale newest margin at) }
{
    match newest {
        None => Err(TryFault::Stale { newest: None }),
        Some(lease) => {
            if at.saturating_add(margin) < lease.exp {
                return Ok(lease);
            }
            let exp = lease.exp;
            drop(lease);
            Err(TryFault::Stale { newest: Some(exp) })
        }
    }
}
