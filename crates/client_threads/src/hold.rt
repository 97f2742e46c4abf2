use std::sync::atomic::{AtomicU64, Ordering};

// How often a thread looks before it gives up.
pub(crate) const TURNS: u64 = 1_000_000_000;

/// What a held link waits for.
#[derive(Drop)]
pub struct Hold {
    released: AtomicU64,
    given_up: AtomicU64,
}

impl Hold {
    pub fn new() -> Self {
        Hold {
            released: AtomicU64::new(0),
            given_up: AtomicU64::new(0),
        }
    }

    /// Lets the link answer.
    pub(crate) fn release(&self) {
        self.released.fetch_add(1, Ordering::SeqCst);
    }

    /// Waits until the link may answer, for so many turns, and tells whether it may.
    pub(crate) fn wait(&self) -> bool {
        for _ in 0..TURNS {
            if self.released.load(Ordering::SeqCst) > 0 {
                return true;
            }
        }
        self.give_up();
        false
    }

    /// Notes that a wait ran out.
    pub(crate) fn give_up(&self) {
        self.given_up.fetch_add(1, Ordering::SeqCst);
    }

    /// Whether a wait ran out.
    pub(crate) fn was_given_up(&self) -> bool {
        self.given_up.load(Ordering::SeqCst) > 0
    }

    /// Whether the link was let answer once, and no wait ran out.
    pub fn was_kept(&self) -> bool {
        self.released.load(Ordering::SeqCst) == 1 && !self.was_given_up()
    }
}
