//! The grammar of the expression language, and a parser that answers by it: the tree in which each call is an
//! ordinary call.
#![tactic(auto)]

mod draft;
mod error;
mod frames;
mod parser;
mod reader;

pub use draft::{Draft, DraftPair};
pub use error::{ParseError, SyntaxRule};
pub use parser::{one_draft, parse_draft, viable_prefix};
pub use reader::strength_of;
