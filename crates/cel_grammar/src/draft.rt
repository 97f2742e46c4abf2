use base_types::{Boxed, Items};
use cel_tokens::{Literal, Name};
use cel_values::BinaryOp;

/// An expression in which every call is an ordinary call. Each name keeps its place.
#[cycle(draft)]
#[derive(Debug, Drop)]
pub enum Draft {
    Literal(Literal),
    Int(i64),
    Name(Name),
    List(Items<Draft>),
    Map(Items<DraftPair>),
    Select(Boxed<Draft>, Name),
    Index(Boxed<Draft>, Boxed<Draft>),
    Call(Name, Items<Draft>),
    Method(Boxed<Draft>, Name, Items<Draft>),
    Not(Boxed<Draft>),
    Neg(Boxed<Draft>),
    Binary(BinaryOp, Boxed<Draft>, Boxed<Draft>),
    Cond(Boxed<Draft>, Boxed<Draft>, Boxed<Draft>),
}

/// A pair of a map literal.
#[cycle(draft)]
#[derive(Debug, Drop)]
pub struct DraftPair {
    pub key: Draft,
    pub value: Draft,
}
