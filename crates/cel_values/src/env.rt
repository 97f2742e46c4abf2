use crate::Value;
use base_types::{Items, Text};

/// A name and the value that it stands for.
#[derive(Debug, Drop)]
pub struct Binding {
    pub name: Text,
    pub value: Value,
}

/// What names stand for: the first binding of a name counts.
pub type Env = Items<Binding>;
