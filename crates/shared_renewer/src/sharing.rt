ghost use Rattle.std.specs.Prelude.{◌≡◌, ◌≤◌, ◌<◌, ◌+◌, ◌*◌, ◌^◌, [], ◌∷◌, length, IfOk, IfErr, OnErr};
ghost use Rattle.renewer.specs.Histories.{NoWaste};
ghost use Rattle.shared_renewer.specs.Counts.{AreWithin, GoOnFrom, counts_of, facts_of};
ghost use Rattle.shared_renewer.specs.Passes.{IsKept, IsLeasedInTurn, Keeps, LeaseLeaves, Loses, NeverFalls, SawTurn, TryLeaves};
ghost use Rattle.shared_renewer.specs.Views.{Begins, fresh, joined, kept_share, looked, longer, new_share, sum_of};

use crate::asking::{Outcome, wait_and_ask};
use crate::fault::{NewFault, TryFault};
use crate::lease::{copy_of_kept, later};
use crate::looking::{lease_or_stale, newest_of, try_look, word_of};
use crate::pass::Pass;
use crate::rule::{Cut, Look, Shares, Start, Unite};
use crate::turns::PassSeat;
use crate::view::View;
use atomic_table::Table;
use client_link::Link;
use renewer::{Flight, Lease, LeaseFault};
use std::alloc::{AllocError, Global};
use std::marker::Model;
use std::snapshot::Snapshot;
use std::sync::Wait;
use wif_base::LAST_MOMENT;

type ClientTable<L> = Table<Flight<L>, View, Start<L>, Shares<L>, Global>;

/// One client that passes share. They take turns by a word in memory: whoever has the turn has the client.
#[derive(Drop)]
pub struct Renewer<L: Link> {
    table: ClientTable<L>,
}

impl<L: Link> Model for Renewer<L> {
    ghost use Rattle.std.specs.Prelude.{◌≡◌};
    ghost use Rattle.shared_renewer.specs.Passes.{Handed};

    ghost Value = { Handed L };

    ghost view = { λ r. record { table = r.table.shared.table_id; shares = r.table.shared.key.shares; client = r.table.shared.key.flight.value } };

    ghost invariant = { λ r. (r.table.shared.table_id.words ≡ 1) × (r.table.shared.table_id.slots ≡ 1) };
}

impl<L: Link> Renewer<L> {
    /// Shares a client. The pass has every share.
    pub fn new(
        alloc: Global,
        flight: Flight<L>,
        shares: u32,
    ) -> Result<(Renewer<L>, Pass<L>), NewFault<L>>
        requires { 1 ≤ shares }
        ensures shared { IfOk result (λ made. (made.0.shares ≡ shares) × (made.0.client ≡ flight) × (made.1.table ≡ made.0.table)) }
        ensures view { IfOk result (λ made. made.1.view
            ≡ fresh (facts_of L.calls L.lender flight) (counts_of L.faults L.calls flight) shares flight.history) }
        ensures memory { IfErr result (λ fault. fault.flight ≡ flight) }
    {
        let Ok(newest) = newest_of(alloc, &flight) else {
            return Err(NewFault { flight });
        };
        let word = word_of(&flight);
        let margin = flight.margin();
        let start = Start {
            flight: Snapshot::of(&flight),
            shares,
        };
        match laid(alloc, word, flight, &start) {
            Ok((table, seat)) => Ok((
                Renewer { table },
                Pass {
                    seat,
                    newest,
                    margin,
                    shares,
                },
            )),
            Err(fault) => {
                drop(newest);
                Err(fault)
            }
        }
    }

    /// A pass for another user, with one of this pass's shares.
    pub fn pass(&self, alloc: Global, from: &mut Pass<L>) -> Result<Pass<L>, AllocError>
        requires table { from.old.table ≡ self.now.table }
        requires two { 2 ≤ from.old.view.share }
        ensures pass { IfOk result (λ pass. pass ≡ record { table = from.old.table; view = new_share from.old.view }) }
        ensures from { IfOk result (λ _. from.new ≡ record { table = from.old.table; view = kept_share from.old.view }) }
        ensures memory { OnErr result (from.new ≡ from.old) }
    {
        let newest = copy_of_kept(alloc, &from.newest)?;
        let seat = self.table.shared.split_seat::<Cut>(&mut from.seat);
        from.shares -= 1;
        Ok(Pass {
            seat,
            newest,
            margin: from.margin,
            shares: 1,
        })
    }

    /// The newest renewal, where no other pass has the turn and it covers the moment. It renews nothing and doesn't wait: it looks at the
    /// word once or twice.
    pub fn try_lease(&self, alloc: Global, pass: &mut Pass<L>, at: u64) -> Result<Lease, TryFault>
        requires { pass.old.table ≡ self.now.table }
        ensures table { pass.new.table ≡ pass.old.table }
        ensures keeps { Keeps pass.old.view pass.new.view }
        ensures rises { NeverFalls pass.old.view pass.new.view }
        ensures lost { pass.new.view.lost ≡ pass.old.view.lost }
        ensures looks { pass.new.view.steps ≤ pass.old.view.steps + 2 }
        ensures leased { IfOk result (λ lease. SawTurn 0 pass.old.view pass.new.view × IsKept at pass.new.view lease) }
        ensures faults { IfErr result (TryLeaves at pass.old.view pass.new.view) }
    {
        let copies = try_look(&self.table.shared, alloc, &mut pass.seat)?;
        pass.newest = copies.kept;
        lease_or_stale(copies.given, pass.margin, at)
    }

    /// Waits until no other pass has the turn, and then leases as the client does.
    pub fn lease_at<R: Wait>(
        &self,
        rt: &R,
        alloc: Global,
        pass: &mut Pass<L>,
        at: u64,
    ) -> Result<Lease, LeaseFault>
        requires table { pass.old.table ≡ self.now.table }
        requires moment { at ≤ LAST_MOMENT }
        ensures table { pass.new.table ≡ pass.old.table }
        ensures keeps { Keeps pass.old.view pass.new.view }
        ensures rises { NeverFalls pass.old.view pass.new.view }
        ensures lost { Loses pass.old.view pass.new.view result }
        ensures leased { IfOk result (IsLeasedInTurn at pass.old.view pass.new.view) }
        ensures faults { IfErr result (LeaseLeaves at pass.old.view pass.new.view) }
    {
        match wait_and_ask(rt, &self.table.shared, alloc, &mut pass.seat, at) {
            Outcome::Seen { answer, newest } => {
                pass.newest = newest;
                answer
            }
            Outcome::Unseen { fault } => Err(fault),
        }
    }

    /// Joins a pass into another, which then looks at the word once. It takes no memory.
    pub fn end(&self, pass: Pass<L>, into: &mut Pass<L>)
        requires pass { pass.table ≡ self.now.table }
        requires into { into.old.table ≡ self.now.table }
        ensures table { into.new.table ≡ into.old.table }
        ensures view { into.new.view ≡ looked into.new.view.last (joined into.old.view pass.view) }
        ensures seen { into.new.view.seen ≡ longer into.old.view.seen pass.view.seen }
        ensures prefixes { Begins into.old.view.seen into.new.view.seen × Begins pass.view.seen into.new.view.seen }
        ensures share { into.new.view.share ≡ into.old.view.share + pass.view.share }
        ensures lost { into.new.view.lost ≡ sum_of into.old.view.lost pass.view.lost }
    {
        let Pass {
            seat,
            newest,
            margin: _,
            shares,
        } = pass;
        self.table.shared.join_seat::<Unite>(&mut into.seat, seat);
        self.table.shared.load::<Look>(&mut into.seat, 0);
        into.newest = later(into.newest.take(), newest);
        into.shares += shares;
    }

    /// Gives the client back for every share. It takes no memory.
    pub fn close(self, pass: Pass<L>) -> Flight<L>
        requires table { pass.table ≡ self.table }
        requires all { pass.view.share ≡ self.shares }
        ensures client { (result.margin ≡ self.client.margin) × (result.config ≡ self.client.config) }
        ensures before { L.calls result.first ≡ L.calls self.client.first }
        ensures calls { GoOnFrom (L.calls self.client.link) (L.calls result.link) }
        ensures seen { Begins pass.view.seen result.history }
        ensures waste { NoWaste result.margin result.history }
        ensures left { AreWithin pass.view.left (counts_of L.faults L.calls result) }
        ensures lost { AreWithin pass.view.lost (counts_of L.faults L.calls result) }
        ensures same { L.lender result.link ≡ L.lender self.client.link }
    {
        let Renewer { table } = self;
        let Pass {
            seat,
            newest,
            margin: _,
            shares: _,
        } = pass;
        drop(newest);
        let mut closed = table.close_with(seat);
        let flight = closed.take(0);
        closed.free();
        flight
    }
}

// A table of one word, and of one slot for the client.
fn laid<L: Link>(
    alloc: Global,
    word: u64,
    flight: Flight<L>,
    start: &Start<L>,
) -> Result<(ClientTable<L>, PassSeat<L>), NewFault<L>>
    requires word { word ≡ 2 * length flight.history }
    requires start { (start.now.flight.value ≡ flight) × (1 ≤ start.now.shares) × (start.now.shares < 2 ^ 32) }
    requires history { NoWaste flight.margin flight.history × (length flight.history ≤ 10_000) }
    ensures laid { IfOk result (λ made. (made.0.shared.table_id.words ≡ 1) × (made.0.shared.table_id.slots ≡ 1)
        × (made.1.table_id ≡ made.0.shared.table_id) × (made.0.shared.key ≡ start.now)) }
    ensures view { IfOk result (λ made. made.1.me
        ≡ (fresh (facts_of L.calls L.lender flight) (counts_of L.faults L.calls flight) start.now.shares flight.history, [])) }
    ensures memory { IfErr result (λ fault. fault.flight ≡ flight) }
{
    let mut slots = Vec::new(alloc);
    if let Err(failed) = slots.push(flight) {
        slots.destroy_empty();
        return Err(NewFault {
            flight: failed.value,
        });
    }
    match Table::new(alloc, &[word], slots, start) {
        Ok(made) => Ok(made),
        Err(refused) => {
            let mut slots = refused.slots;
            let flight = slots.pop().unwrap();
            slots.destroy_empty();
            Err(NewFault { flight })
        }
    }
}
