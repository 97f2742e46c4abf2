use crate::draft::{Draft, DraftPair};
use base_types::Items;
use cel_tokens::Name;
use cel_values::BinaryOp;

/// An operator whose last operand is still to come.
#[derive(Drop)]
pub enum Pending {
    Left(Draft, BinaryOp),
    Bang,
    Minus,
    Otherwise(Draft, Draft),
}

/// A bracket with one expression in it.
#[derive(Drop)]
pub enum Single {
    Group,
    At(Draft),
}

/// A bracket with expressions in it.
#[derive(Drop)]
pub enum Many {
    List,
    Call(Name),
    Method(Draft, Name),
}

/// What is open, and what it has so far.
#[derive(Drop)]
pub enum Frame {
    Waiting(Pending),
    /// A condition and its `?`.
    Chosen(Draft),
    One(Single),
    /// With the expressions that a comma follows.
    Several(Many, Items<Draft>),
    /// With the pairs that a comma follows, before a key.
    Key(Items<DraftPair>),
    Value(Items<DraftPair>, Draft),
}

/// The last operand, which what follows may still extend.
#[derive(Drop)]
pub enum Last {
    Integer(u64),
    Name(Name),
    Field(Draft, Name),
    Whole(Draft),
}

/// What may come next.
#[derive(Drop)]
pub enum Place {
    Operand,
    /// Behind a dot.
    Dotted(Draft),
    After(Last),
}
