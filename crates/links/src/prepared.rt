use crate::tokens::Issued;
use crate::{Entry, RecordedLink};
use base_types::Text;
use service_view::Ready;
use std::marker::Model;

/// What the recording of an entry needs.
#[derive(Debug, Drop)]
pub(crate) enum Plan {
    Put(Ready),
    Link { entry: Entry, issued: Issued },
}

/// An entry that a state licensed, with all that its recording needs. Contracts see the entry, and what is held of the link
/// that it records, if it records one, with its token's payload and text.
#[derive(Debug, Drop)]
pub struct Prepared {
    pub(crate) plan: Plan,
    pub(crate) token: Option<Text>,
}

impl Model for Prepared {
    ghost use Rattle.std.specs.Coded.{codes};
    ghost use Rattle.cel_values.specs.contracts.expr.Expr as tree;
    ghost use Rattle.links.specs.Prepared.{PreparedEntry, planned, with_token};

    ghost Value = { PreparedEntry };

    ghost coded = { Prim.hlevel (codes, tree.the_row.coded) };

    ghost view = { λ p. with_token (planned p.plan) p.token };
}

impl Prepared {
    ghost use Rattle.std.specs.Prelude.{◌≡◌, option_map};

    /// The text of the link's token.
    pub fn token(&self) -> Option<&str>
        ensures { option_map (λ text. text.now) result ≡ self.now.token }
    {
        match &self.token {
            None => None,
            Some(token) => Some(token.as_str()),
        }
    }

    /// The payload of the link's token.
    pub fn payload(&self) -> Option<&str>
        ensures { option_map (λ text. text.now) result ≡ self.now.payload }
    {
        match &self.plan {
            Plan::Put(_) => None,
            Plan::Link { issued, .. } => Some(issued.payload.as_str()),
        }
    }

    /// What is held of the link.
    pub fn recorded(&self) -> Option<&RecordedLink>
        ensures { option_map (λ recorded. recorded.now) result ≡ self.now.recorded }
    {
        match &self.plan {
            Plan::Put(_) => None,
            Plan::Link { issued, .. } => Some(&issued.recorded),
        }
    }
}
