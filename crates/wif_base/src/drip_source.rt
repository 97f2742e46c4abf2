ghost use Rattle.std.specs.Prelude.{None, ◌≡◌};

use crate::{Failed, MemSource, Source};

/// A source in memory that gives one byte at a time, for tests of what a cut changes. It tells nothing of its bytes.
#[derive(Drop)]
pub struct DripSource {
    inner: MemSource,
    faults: u64,
}

impl DripSource {
    pub fn new(inner: MemSource) -> Self {
        DripSource { inner, faults: 0 }
    }
}

impl Source for DripSource {
    ghost left = { λ _. None };

    ghost faults = { λ s. s.faults };

    ghost lender = { λ _. 0 };

    fn read(&mut self, into: &mut [u8]) -> Result<usize, Failed> {
        let end = into.len().min(1);
        match self.inner.read(&mut into[..end]) {
            Ok(count) => Ok(count),
            Err(Failed) => {
                self.faults = self.faults.saturating_add(1);
                Err(Failed)
            }
        }
    }
}
