// How a seat gains the turn, and gives it back.
ghost use Rattle.std.specs.Prelude.{◌≡◌, ℕ, ◌*◌, [], length, IfOk, IfErr};
ghost use Rattle.shared_renewer.specs.Counts.{HasFacts, counts_of};
ghost use Rattle.shared_renewer.specs.Turns.{IsIdle, IsMissed, IsReady, OnlyLooked, Took};
ghost use Rattle.shared_renewer.specs.Views.{after_turn, looked};

use crate::rule::{
    GiveLinkFailed, GiveReplyFailed, GiveSeen, GiveUnseen, Look, Shares, Start, Take,
};
use crate::view::View;
use atomic_table::{Seat, Shared};
use client_link::Link;
use renewer::Flight;
use std::sync::Wait;
use std::thread;

/// The table as threads see it.
pub(crate) type Top<L> = Shared<Flight<L>, View, Start<L>, Shares<L>>;

/// The place of a pass at the table.
pub(crate) type PassSeat<L> = Seat<Flight<L>, View>;

/// How a turn ends.
#[derive(Clone, Copy)]
pub(crate) enum Ending {
    /// The history was seen.
    Seen,
    /// Nothing more was seen.
    Unseen,
    /// Nothing more was seen, and the link failed.
    LinkFailed,
    /// Nothing more was seen, and a reply was refused or bad.
    ReplyFailed,
}

/// The word at which the turn was gained, or one that shows another's turn.
pub(crate) fn try_turn<L: Link>(top: &Top<L>, seat: &mut PassSeat<L>) -> Result<u64, u64>
    requires table { (seat.old.table_id ≡ top.now.table_id) × (top.now.table_id.words ≡ 1) × (top.now.table_id.slots ≡ 1) }
    requires idle { IsIdle seat.old.me }
    ensures same { (seat.new.table_id ≡ seat.old.table_id) × (seat.new.id ≡ seat.old.id) }
    ensures gained { IfOk result (λ word. Took (counts_of L.faults L.calls) (HasFacts L.calls L.lender) word
        (looked word seat.old.me.0, seat.old.me.1) seat.new.me) }
    ensures missed { IfErr result (λ word. IsMissed word seat.old.me seat.new.me) }
{
    let word = top.load::<Look>(seat, 0);
    if word % 2 == 1 {
        return Err(word);
    }
    let found = top.compare_exchange::<Take>(seat, 0, word, word + 1);
    if found != word {
        return Err(found);
    }
    Ok(word)
}

/// Waits for the turn.
pub(crate) fn wait_turn<L: Link, R: Wait>(rt: &R, top: &Top<L>, seat: &mut PassSeat<L>) -> u64
    requires table { (seat.old.table_id ≡ top.now.table_id) × (top.now.table_id.words ≡ 1) × (top.now.table_id.slots ≡ 1) }
    requires idle { IsIdle seat.old.me }
    ensures same { (seat.new.table_id ≡ seat.old.table_id) × (seat.new.id ≡ seat.old.id) }
    ensures gained { (m : _) × OnlyLooked seat.old.me m × Took (counts_of L.faults L.calls) (HasFacts L.calls L.lender) result m seat.new.me }
{
    for _ in rt.forever() {
        if let Ok(word) = try_turn(top, seat) {
            return word;
        }
        thread::yield_now();
    }
    unreachable!()
}

/// Gives the turn and the client back.
pub(crate) fn give_back<L: Link>(top: &Top<L>, seat: &mut PassSeat<L>, word: u64, ending: Ending)
    requires table { (seat.old.table_id ≡ top.now.table_id) × (top.now.table_id.words ≡ 1) × (top.now.table_id.slots ≡ 1) }
    requires client { (history : _) × (client : _) × IsReady (counts_of L.faults L.calls) (HasFacts L.calls L.lender) seat.old.me history client
        × (word ≡ 2 * length client.history) }
    ensures same { (seat.new.table_id ≡ seat.old.table_id) × (seat.new.id ≡ seat.old.id) }
    ensures gave { (history : _) (client : _) → IsReady (counts_of L.faults L.calls) (HasFacts L.calls L.lender) seat.old.me history client
        → seat.new.me ≡ (after_turn (counts_of L.faults L.calls) ending client seat.old.me.0, []) }
{
    match ending {
        Ending::Seen => top.store::<GiveSeen>(seat, 0, word),
        Ending::Unseen => top.store::<GiveUnseen>(seat, 0, word),
        Ending::LinkFailed => top.store::<GiveLinkFailed>(seat, 0, word),
        Ending::ReplyFailed => top.store::<GiveReplyFailed>(seat, 0, word),
    }
}
