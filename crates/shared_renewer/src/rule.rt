// The rule of the table, and how its steps change what a pass knows.
use crate::view::View;
use atomic_table::{Join, Play, Split, TableRule};
use client_link::Link;
use renewer::Flight;
use std::marker::PhantomData;
use std::snapshot::Snapshot;

/// The rule of a client that passes share.
pub struct Shares<L> {
    link: PhantomData<L>,
}

/// The client as it was shared, and the number of shares.
#[derive(Drop)]
pub struct Start<L: Link> {
    pub flight: Snapshot<Flight<L>>,
    pub shares: u32,
}

impl<L: Link> TableRule<Flight<L>, View, Start<L>> for Shares<L> {
    ghost use Rattle.shared_renewer.specs.Counts.{HasFacts, counts_of, facts_of};
    ghost use Rattle.shared_renewer.specs.Rules.{RenewalRule};
    ghost use Rattle.shared_renewer.specs.Views.{fresh};

    ghost holds = { λ key. RenewalRule (counts_of L.faults L.calls) (HasFacts L.calls L.lender) (facts_of L.calls L.lender key.flight.value) key.shares };

    ghost first = { λ key. let client = key.flight.value in
        fresh (facts_of L.calls L.lender client) (counts_of L.faults L.calls client) key.shares client.history };
}

/// A look at the word.
pub struct Look;

impl<L: Link> Play<Flight<L>, View> for Look {
    ghost use Rattle.shared_renewer.specs.Turns.{looks};

    ghost then = { looks };
}

/// A try to gain the turn.
pub struct Take;

impl<L: Link> Play<Flight<L>, View> for Take {
    ghost use Rattle.shared_renewer.specs.Counts.{HasFacts, counts_of};
    ghost use Rattle.shared_renewer.specs.Turns.{tries};

    ghost then = { tries (counts_of L.faults L.calls) (HasFacts L.calls L.lender) };
}

/// The turn's end, behind which the history is seen.
pub struct GiveSeen;

impl<L: Link> Play<Flight<L>, View> for GiveSeen {
    ghost use Rattle.shared_renewer.specs.Counts.{HasFacts, counts_of};
    ghost use Rattle.shared_renewer.specs.Turns.{gives};
    ghost use Rattle.shared_renewer.specs.declared.turns.Ending.TheVariants.{Seen};

    ghost then = { gives (counts_of L.faults L.calls) (HasFacts L.calls L.lender) Seen };
}

/// The turn's end, behind which nothing more is seen.
pub struct GiveUnseen;

impl<L: Link> Play<Flight<L>, View> for GiveUnseen {
    ghost use Rattle.shared_renewer.specs.Counts.{HasFacts, counts_of};
    ghost use Rattle.shared_renewer.specs.Turns.{gives};
    ghost use Rattle.shared_renewer.specs.declared.turns.Ending.TheVariants.{Unseen};

    ghost then = { gives (counts_of L.faults L.calls) (HasFacts L.calls L.lender) Unseen };
}

/// The turn's end behind a fault of the link.
pub struct GiveLinkFailed;

impl<L: Link> Play<Flight<L>, View> for GiveLinkFailed {
    ghost use Rattle.shared_renewer.specs.Counts.{HasFacts, counts_of};
    ghost use Rattle.shared_renewer.specs.Turns.{gives};
    ghost use Rattle.shared_renewer.specs.declared.turns.Ending.TheVariants.{LinkFailed};

    ghost then = { gives (counts_of L.faults L.calls) (HasFacts L.calls L.lender) LinkFailed };
}

/// The turn's end behind a reply that is refused or bad.
pub struct GiveReplyFailed;

impl<L: Link> Play<Flight<L>, View> for GiveReplyFailed {
    ghost use Rattle.shared_renewer.specs.Counts.{HasFacts, counts_of};
    ghost use Rattle.shared_renewer.specs.Turns.{gives};
    ghost use Rattle.shared_renewer.specs.declared.turns.Ending.TheVariants.{ReplyFailed};

    ghost then = { gives (counts_of L.faults L.calls) (HasFacts L.calls L.lender) ReplyFailed };
}

/// A share for a new pass.
pub struct Cut;

impl Split<View> for Cut {
    ghost use Rattle.shared_renewer.specs.Views.{kept_share, new_share};

    ghost left = { kept_share };

    ghost right = { new_share };
}

/// Two passes become one.
pub struct Unite;

impl Join<View> for Unite {
    ghost use Rattle.shared_renewer.specs.Views.{joined, spent_view};

    ghost both = { joined };

    ghost spent = { spent_view };
}
