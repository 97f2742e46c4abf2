use base_types::{Items, Text};

/// A value of the expression language.
#[derive(Debug, Drop)]
#[cycle(value)]
pub enum Value {
    Null,
    Bool(bool),
    Int(i64),
    Text(Text),
    List(Items<Value>),
    /// The entries in byte order of their keys, each key once.
    Map(Items<MapEntry>),
    /// Seconds since 1970-01-01T00:00:00Z.
    Time(i64),
    /// Seconds.
    Span(i64),
    /// A JSON number that is no integer of 64 bits.
    Opaque,
}

/// A key of a map and its value.
#[derive(Debug, Drop)]
#[cycle(value)]
pub struct MapEntry {
    pub key: Text,
    pub value: Value,
}
