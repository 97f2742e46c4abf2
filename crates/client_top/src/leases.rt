ghost use Rattle.std.specs.Prelude.{◌≡◌, ◌≤◌, length, map, string_bytes, IfOk};
ghost use Rattle.std.specs.List.{AllByRecursion};
ghost use Rattle.client_top.specs.Runs.{Leased, Reports};

use crate::gate::Gate;
use crate::outcome::Outcome;
use crate::ready::Ready;
use crate::report::report;
use crate::workers::run_workers;
use client_link::Link;
use client_proto::ClientConfig;
use renewer::Flight;
use shared_renewer::Renewer;
use std::alloc::{AllocError, Global};
use std::sync::Wait;
use std::thread::Threads;
use wif_base::LAST_MOMENT;

/// Leases by the workers, and then makes the report on it.
pub(crate) fn report_of<L: Link + Send, K: Gate + Sync, R: Threads + Wait + Sync>(
    rt: &R,
    alloc: Global,
    margin: u64,
    ready: Ready,
    link: &mut L,
    gate: &K,
) -> Result<String, AllocError>
    requires margin { margin ≤ 3600 }
    requires few { length ready.moments.items ≤ 64 }
    requires moments { AllByRecursion (λ list. AllByRecursion (λ at. at ≤ LAST_MOMENT) list.items) ready.moments.items }
    ensures { IfOk result (λ text. Reports margin ready.client (map (λ list. list.items) ready.moments.items)
        (L.calls link.old) (L.calls link.new) (L.faults link.old) (L.faults link.new) (string_bytes text)) }
{
    let Ready { client, moments } = ready;
    match leases_of(rt, alloc, margin, client, &moments, &mut *link, gate) {
        Ok((flight, lists)) => {
            let text = report(alloc, &moments, &lists, flight.history());
            // A link that is lent is known again only once it is given back.
            let _link = flight.into_link();
            drop(lists);
            drop(moments);
            text
        }
        Err(AllocError) => {
            drop(moments);
            Err(AllocError)
        }
    }
}

// One client for all workers, which gives it back with what it was given.
fn leases_of<L: Link + Send + Drop, K: Gate + Sync, R: Threads + Wait + Sync>(
    rt: &R,
    alloc: Global,
    margin: u64,
    client: ClientConfig,
    moments: &[Vec<u64>],
    link: L,
    gate: &K,
) -> Result<(Flight<L>, Vec<Vec<Outcome>>), AllocError>
    requires margin { margin ≤ 3600 }
    requires few { length moments.now ≤ 64 }
    requires moments { AllByRecursion (λ list. AllByRecursion (λ at. at ≤ LAST_MOMENT) list.items) moments.now }
    ensures leased { IfOk result (λ made. Leased margin client (map (λ list. list.items) moments.now)
        (L.calls link) (L.calls made.0.link) (L.faults link) (L.faults made.0.link)
        (map (λ list. list.items) made.1.items) made.0.history) }
    ensures same { IfOk result (λ made. L.lender made.0.link ≡ L.lender link) }
{
    let shares = moments.len() as u32 + 1;
    let flight = Flight::new(alloc, link, client, margin);
    let (renewer, mut pass) = match Renewer::new(alloc, flight, shares) {
        Ok(made) => made,
        Err(fault) => {
            drop(fault);
            return Err(AllocError);
        }
    };
    match run_workers(rt, alloc, &renewer, &mut pass, moments, gate) {
        Ok(lists) => Ok((renewer.close(pass), lists)),
        Err(AllocError) => {
            drop(pass);
            drop(renewer);
            Err(AllocError)
        }
    }
}
