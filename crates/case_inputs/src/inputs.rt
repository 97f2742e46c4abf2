use crate::escapes::unescaped;
use std::alloc::{AllocError, Global};

/// What a line hands to its call: byte strings behind one another.
#[derive(Drop)]
pub struct Inputs {
    parts: Vec<Vec<u8>>,
}

impl Inputs {
    /// The inputs between the tabs of a text.
    pub fn read(alloc: Global, text: &str) -> Result<Self, AllocError> {
        let mut parts = Vec::new(alloc);
        for part in text.split('\t') {
            parts.push(unescaped(alloc, part)?)?;
        }
        Ok(Inputs { parts })
    }

    /// The bytes of an input, and none where it isn't there.
    pub fn bytes(&self, index: usize) -> &[u8] {
        match self.parts.get(index) {
            Some(part) => part.as_slice(),
            None => &[],
        }
    }

    /// An input that is a text, and else the empty text.
    pub fn text(&self, index: usize) -> &str {
        std::str::from_utf8(self.bytes(index)).unwrap_or("")
    }

    /// An input that is a number, and else 0.
    pub fn number(&self, index: usize) -> u64 {
        self.text(index).parse::<u64>().unwrap_or(0)
    }
}
