use base_types::{Items, Text, TextMap};

/// What an outside token says of its bearer.
#[derive(Debug, Drop)]
pub struct Identity {
    pub subject: Text,
    pub groups: Items<Text>,
    pub attributes: TextMap<Text>,
}
