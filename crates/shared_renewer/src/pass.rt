ghost use Rattle.std.specs.Prelude.{◌≡◌, IfSome, IfNone};
ghost use Rattle.renewer.specs.Histories.{IsUncovered};
ghost use Rattle.shared_renewer.specs.Passes.{IsKept};

use crate::turns::PassSeat;
use client_link::Link;
use renewer::Lease;
use std::marker::Model;

/// The right of one user to take the turn, with its own copy of the newest renewal that it has seen.
#[derive(Drop)]
pub struct Pass<L: Link> {
    pub(crate) seat: PassSeat<L>,
    pub(crate) newest: Option<Lease>,
    pub(crate) margin: u64,
    pub(crate) shares: u32,
}

impl<L: Link> Model for Pass<L> {
    ghost use Rattle.shared_renewer.specs.Passes.{Known};
    ghost use Rattle.shared_renewer.specs.Seats.{IsSettled};

    ghost Value = { Known };

    ghost view = { λ p. record { table = p.seat.table_id; view = p.seat.me.0 } };

    ghost invariant = { λ p. IsSettled p.seat.me p.newest p.margin p.shares };
}

impl<L: Link> Pass<L> {
    /// The newest renewal that this pass has seen, where it covers the moment.
    pub fn kept(&self, at: u64) -> Option<&Lease>
        ensures some { IfSome result (λ lease. IsKept at self.now.view lease.now) }
        ensures none { IfNone result (IsUncovered self.now.view.facts.margin at self.now.view.seen) }
    {
        match &self.newest {
            Some(lease) => {
                if at.saturating_add(self.margin) < lease.exp {
                    Some(lease)
                } else {
                    None
                }
            }
            None => None,
        }
    }

    /// How many shares it has of the right to close.
    pub fn shares(&self) -> u32
        ensures { result ≡ self.now.view.share }
    {
        self.shares
    }
}
