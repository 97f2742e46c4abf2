ghost use Rattle.std.specs.Prelude.{◌≡◌, ◌<◌, ◌++◌, ◌∷◌, [], length, IfOk, IfErr, OnOk, OnErr};
ghost use Rattle.renewer.specs.Leases.{IsRecorded};
ghost use Rattle.renewer.specs.declared.fault.LeaseFault.TheVariants as fault;

use crate::fault::LeaseFault;
use crate::renewal::{Lease, Renewal};
use crate::steps::renew;
use client_link::Link;
use client_proto::ClientConfig;
use std::alloc::{AllocError, Global};
use std::marker::Model;
use std::snapshot::Snapshot;
use wif_base::LAST_MOMENT;

/// The most renewals that a client keeps.
const MOST_RENEWALS: usize = 10_000;

/// A client in one thread, over a link. It keeps each token that it was given, and asks for another only where the newest doesn't cover
/// the moment: where it doesn't end later than the margin behind it.
#[derive(Drop)]
pub struct Flight<L: Link> {
    link: L,
    config: ClientConfig,
    margin: u64,
    history: Vec<Renewal>,
    first: Snapshot<L>,
}

impl<L: Link> Model for Flight<L> {
    ghost use Rattle.renewer.specs.Flights.{Flown, IsSound};

    ghost Value = { Flown L };

    ghost view = { λ f. record { link = f.link; config = f.config; margin = f.margin; history = f.history.items; first = f.first.value } };

    ghost invariant = { λ f. IsSound f.config f.margin f.history.items (L.calls f.first.value) (L.calls f.link) };
}

impl<L: Link> Flight<L> {
    ghost use Rattle.std.specs.Prelude.{◌≡◌, ◌≤◌, ◌⊎◌, ◌++◌, ◌∷◌, [], ℕ, List, length, Some, Ok, Err, IfOk, IfErr, slice_get};
    ghost use Rattle.wif_base.specs.Causes.{Rose};
    ghost use Rattle.client_link.specs.declared.target.Target.{Target as Asked};
    ghost use Rattle.renewer.specs.Flights.{IsSound};
    ghost use Rattle.renewer.specs.Histories.{IsUncovered, RecordsAtMost, newest};
    ghost use Rattle.renewer.specs.Leases.{FaultLeaves, IsAsked, IsBad, IsExhausted, IsLeased, IsRefusal, TellsMore};
    ghost use Rattle.renewer.specs.declared.fault.LeaseFault.TheVariants as fault;
    ghost use Rattle.renewer.specs.declared.renewal.Renewal.{Renewal as Token};

    /// A client that was given nothing so far. It takes no memory.
    pub fn new(alloc: Global, link: L, config: ClientConfig, margin: u64) -> Self
        requires { margin ≤ 3600 }
        ensures parts { (result.link ≡ link) × (result.config ≡ config) × (result.margin ≡ margin) }
        ensures empty { result.history ≡ [] }
        ensures first { result.first ≡ link }
    {
        let first = Snapshot::of(&link);
        Flight {
            link,
            config,
            margin,
            history: Vec::new(alloc),
            first,
        }
    }

    /// The newest token, where it covers the moment. Else it asks for one, records it, and leases that.
    pub fn lease(&mut self, alloc: Global, at: u64) -> Result<Lease, LeaseFault>
        requires { at ≤ LAST_MOMENT }

        // What is leased is the newest renewal. One is recorded at most, and only where the newest didn't cover the moment.
        ensures leased { IfOk result (IsLeased self.new.margin at self.new.history) }
        ensures recorded { RecordsAtMost self.old.margin at self.old.history self.new.history }
        ensures faults { IfErr result (FaultLeaves at self.old.history self.new.history) }

        // Each fault has its cause.
        ensures link_fault { result ≡ Err fault.LinkFault → Rose (L.faults self.old.link) (L.faults self.new.link) }
        ensures refused { (reply : List ℕ) → result ≡ Err (fault.Refused reply) → (target : Asked) × IsRefusal target at reply }
        ensures bad_reply { (reply : List ℕ) → result ≡ Err (fault.BadReply reply) → (target : Asked) × IsBad self.old.config target at reply }
        ensures short_lived { (renewal : Token) → self.new.history ≡ self.old.history ++ renewal ∷ [] → renewal.exp ≤ at
            → result ≡ Err (fault.ShortLived renewal.exp) }
        ensures exhausted { (exp : ℕ) → result ≡ Err (fault.Exhausted exp) → IsExhausted self.old.margin at self.old.history exp }
        ensures exhausts { (exp : ℕ) → IsExhausted self.old.margin at self.old.history exp → result ≡ Err (fault.Exhausted exp) }

        // What it asked, where the link tells its calls.
        ensures told { TellsMore (L.calls self.old.link) (L.calls self.new.link)
            (IsAsked self.old.config self.old.margin at self.old.history self.new.history result) }
        ensures kept { (self.new.config ≡ self.old.config) × (self.new.margin ≡ self.old.margin) × (self.new.first ≡ self.old.first) }
        ensures count { L.faults self.old.link ≤ L.faults self.new.link }
        ensures same { L.lender self.new.link ≡ L.lender self.old.link }
    {
        let count = self.history.len();
        if let Some(renewal) = self.history.last() {
            if at + self.margin < renewal.exp {
                return lease_of(alloc, count - 1, renewal);
            }
            if count == MOST_RENEWALS {
                return Err(LeaseFault::Exhausted { exp: renewal.exp });
            }
        }
        match renew(alloc, &mut self.link, &self.config, at) {
            Ok(renewal) => record(alloc, &mut self.history, renewal, at),
            Err(fault) => Err(fault),
        }
    }

    /// The renewals, the oldest first.
    pub fn history(&self) -> &[Renewal]
        ensures history { result.now ≡ self.now.history }
        ensures sound { IsSound self.now.config self.now.margin self.now.history (L.calls self.now.first) (L.calls self.now.link) }
    {
        self.history.as_slice()
    }

    /// How long before its end a token is no longer leased, in seconds.
    pub fn margin(&self) -> u64
        ensures { result ≡ self.now.margin }
    {
        self.margin
    }

    /// Gives the link back. It takes no memory.
    pub fn into_link(self) -> L
        ensures { result ≡ self.link }
    {
        let Flight {
            link,
            config: _config,
            margin: _,
            history: _history,
            first: _first,
        } = self;
        link
    }
}

// The lease of a renewal at a place.
fn lease_of(alloc: Global, index: usize, renewal: &Renewal) -> Result<Lease, LeaseFault>
    requires { index < 10_000 }
    ensures lease { IfOk result (λ lease. lease ≡ record { index = index; token = renewal.now.token; exp = renewal.now.exp }) }
    ensures memory { IfErr result (λ error. error ≡ fault.Memory) }
{
    Ok(Lease {
        index: index as u32,
        token: renewal.token.copy(alloc)?,
        exp: renewal.exp,
    })
}

// Puts a renewal behind the others.
fn put(history: &mut Vec<Renewal>, renewal: Renewal) -> Result<(), AllocError>
    ensures ok { OnOk result (history.new.items ≡ history.old.items ++ renewal ∷ []) }
    ensures err { OnErr result (history.new.items ≡ history.old.items) }
{
    match history.push(renewal) {
        Ok(()) => Ok(()),
        Err(refused) => {
            drop(refused);
            Err(AllocError)
        }
    }
}

// Records a renewal and leases it, where it ends after the moment.
fn record(
    alloc: Global,
    history: &mut Vec<Renewal>,
    renewal: Renewal,
    at: u64,
) -> Result<Lease, LeaseFault>
    requires { length history.old.items < 10_000 }
    ensures { IsRecorded at history.old.items history.new.items renewal result }
{
    if renewal.exp <= at {
        let exp = renewal.exp;
        put(history, renewal)?;
        return Err(LeaseFault::ShortLived { exp });
    }
    match lease_of(alloc, history.len(), &renewal) {
        Ok(lease) => match put(history, renewal) {
            Ok(()) => Ok(lease),
            Err(AllocError) => {
                drop(lease);
                Err(LeaseFault::Memory)
            }
        },
        Err(fault) => {
            drop(renewal);
            Err(fault)
        }
    }
}
