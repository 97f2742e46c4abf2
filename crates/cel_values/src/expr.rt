use base_types::{Boxed, Items, Text};

/// An operator of two operands.
#[derive(Clone, Copy, Debug, PartialEq, Eq)]
pub enum BinaryOp {
    Or,
    And,
    Lt,
    Le,
    Gt,
    Ge,
    Eq,
    Ne,
    /// `in`
    Within,
    Add,
    Sub,
    Mul,
    Div,
    Rem,
}

/// A macro over the items of a list or the keys of a map.
#[derive(Clone, Copy, Debug, PartialEq, Eq)]
pub enum MacroKind {
    All,
    Exists,
    ExistsOne,
    Filter,
    Map,
}

/// An expression of the language, its macros told apart from calls.
#[cycle(expr)]
#[derive(Debug, Drop)]
pub enum Expr {
    Null,
    Bool(bool),
    Int(i64),
    Text(Text),
    Name(Text),
    List(Items<Expr>),
    Map(Items<MapPair>),
    Select(Boxed<Expr>, Text),
    /// `has(e.f)`
    Has(Boxed<Expr>, Text),
    Index(Boxed<Expr>, Boxed<Expr>),
    /// A call of a function, or of a method of the first part.
    Call(Option<Boxed<Expr>>, Text, Items<Expr>),
    Not(Boxed<Expr>),
    Neg(Boxed<Expr>),
    Binary(BinaryOp, Boxed<Expr>, Boxed<Expr>),
    /// `condition ? first : second`
    Cond(Boxed<Expr>, Boxed<Expr>, Boxed<Expr>),
    /// The range, the variable, the predicate of a `map` with three arguments, and what is taken of each item.
    Macro(MacroKind, Boxed<Expr>, Text, Option<Boxed<Expr>>, Boxed<Expr>),
}

/// A pair of a map literal.
#[cycle(expr)]
#[derive(Debug, Drop)]
pub struct MapPair {
    pub key: Expr,
    pub value: Expr,
}
