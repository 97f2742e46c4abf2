use base_types::{Boxed, Text};

/// A type of the expression language.
#[cycle(cel_type)]
#[derive(Debug, Drop)]
pub enum CelType {
    /// Any type: what isn't known before the values are.
    Dyn,
    Null,
    Bool,
    Int,
    Text,
    Time,
    Span,
    List(Boxed<CelType>),
    /// A map of texts to values of the type.
    Map(Boxed<CelType>),
}

/// A name and the type that it is declared with.
#[derive(Debug, Drop)]
pub struct Declaration {
    pub name: Text,
    pub of: CelType,
}
