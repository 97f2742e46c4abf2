ghost use Rattle.std.specs.Prelude.{◌≡◌, length, All};

use crate::hold::{Hold, TURNS};
use client_link::Link;
use shared_renewer::{Pass, Renewer, TryFault};
use std::alloc::Global;
use std::sync::Wait;
use std::thread;
use std::thread::Threads;

/// The moment at which the threads lease and look.
pub const MOMENT: u64 = 1_700_000_000;

/// What a thread found.
#[derive(Clone, Copy, Debug, PartialEq, Eq)]
pub enum Found {
    Nothing,
    Lease { index: u32, exp: u64 },
    Busy { word: u64 },
}

/// What one thread has, and what it found.
#[derive(Drop)]
pub struct Job<L: Link> {
    pub pass: Pass<L>,
    pub found: Found,
}

/// Leases in the first thread, and looks in each other until it finds that another pass has the turn, which then releases the hold.
pub fn find_in_threads<L: Link + Send, R: Threads + Wait + Sync>(
    rt: &R,
    alloc: Global,
    renewer: &Renewer<L>,
    hold: &Hold,
    jobs: &mut [Job<L>],
)
    requires starts { All (λ job. job.pass.table ≡ renewer.now.table) jobs.old }
    ensures len { length jobs.new ≡ length jobs.old }
    ensures ends { All (λ job. job.pass.table ≡ renewer.now.table) jobs.new }
{
    let threads = jobs.len().max(1);
    thread::for_each_mut(
        rt,
        jobs,
        threads,
        &|place, job| {
            find(rt, alloc, renewer, hold, place, job);
        },
    );
}

fn find<L: Link, R: Wait>(
    rt: &R,
    alloc: Global,
    renewer: &Renewer<L>,
    hold: &Hold,
    place: usize,
    job: &mut Job<L>,
)
    requires { job.old.pass.table ≡ renewer.now.table }
    ensures { job.new.pass.table ≡ job.old.pass.table }
{
    job.found = if place == 0 {
        leased(rt, alloc, renewer, &mut job.pass)
    } else {
        seen_busy(alloc, renewer, hold, &mut job.pass)
    };
}

fn leased<L: Link, R: Wait>(
    rt: &R,
    alloc: Global,
    renewer: &Renewer<L>,
    pass: &mut Pass<L>,
) -> Found
    requires { pass.old.table ≡ renewer.now.table }
    ensures { pass.new.table ≡ pass.old.table }
{
    match renewer.lease_at(rt, alloc, pass, MOMENT) {
        Ok(lease) => Found::Lease {
            index: lease.index,
            exp: lease.exp,
        },
        Err(fault) => {
            drop(fault);
            Found::Nothing
        }
    }
}

// Looks until another pass has the turn, and then releases the hold. It stops where the link's wait runs out.
fn seen_busy<L: Link>(alloc: Global, renewer: &Renewer<L>, hold: &Hold, pass: &mut Pass<L>) -> Found
    requires { pass.old.table ≡ renewer.now.table }
    ensures { pass.new.table ≡ pass.old.table }
{
    for _ in 0..TURNS {
        if hold.was_given_up() {
            return Found::Nothing;
        }
        if let Some(word) = busy_word(alloc, renewer, pass) {
            hold.release();
            return Found::Busy { word };
        }
    }
    hold.give_up();
    Found::Nothing
}

// The word of one look, where it shows that another pass has the turn.
fn busy_word<L: Link>(alloc: Global, renewer: &Renewer<L>, pass: &mut Pass<L>) -> Option<u64>
    requires { pass.old.table ≡ renewer.now.table }
    ensures { pass.new.table ≡ pass.old.table }
{
    match renewer.try_lease(alloc, pass, MOMENT) {
        Err(TryFault::Busy { word }) => { if word % 2 == 1 { Some(word) } else { None } }
        other => {
            drop(other);
            None
        }
    }
}
