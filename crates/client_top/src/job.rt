use crate::outcome::Outcome;
use client_link::Link;
use shared_renewer::Pass;
use std::alloc::AllocError;

/// What one worker has, and what it finds.
#[derive(Drop)]
pub(crate) struct Job<'m, L: Link> {
    pub pass: Pass<L>,
    pub moments: &'m [u64],
    /// An outcome for each moment. Until the worker is done, and where memory ran out, there are none.
    pub outcomes: Result<Vec<Outcome>, AllocError>,
}
