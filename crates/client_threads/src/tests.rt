ghost use Rattle.std.specs.Prelude.{◌≡◌};

use crate::{Found, HeldLink, Hold, Job, MOMENT, find_in_threads};
use client_link::Link;
use client_proto::{ClientConfig, read_config};
use renewer::Flight;
use shared_renewer::{Pass, Renewer, TryFault};
use std::alloc::{AllocError, Global};
use std::sync::Wait;
use std::test::Fail;
use std::thread::Threads;

const FILE: &[u8] = br#"{
"type":"external_account",
"audience":"//iam.googleapis.com/projects/1/locations/global/workloadIdentityPools/pool-a/providers/prov-a",
"subject_token_type":"urn:ietf:params:oauth:token-type:jwt",
"token_url":"http://h/t",
"credential_source":{"file":"f"}}"#;

const REPLY: &[u8] =
    b"HTTP/1.1 200 OK\r\nContent-Length: 59\r\n\r\n{\"access_token\":\"t\",\"token_type\":\"Bearer\",\"expires_in\":900}";

// What both threads found, and then the joined pass: its newest renewal's place and, a second later, that renewal's end.
#[derive(Clone, Copy, Debug, PartialEq, Eq)]
struct Told {
    first: Found,
    second: Found,
    kept: Option<u32>,
    stale: Option<u64>,
}

fn client(alloc: Global) -> Result<ClientConfig, AllocError> {
    match read_config(alloc, FILE) {
        Ok(config) => Ok(config),
        Err(_) => Err(AllocError),
    }
}

fn job<L: Link>(pass: Pass<L>) -> Job<L>
    ensures { result.pass ≡ pass }
{
    Job {
        pass,
        found: Found::Nothing,
    }
}

fn kept_index<L: Link>(pass: &Pass<L>) -> Option<u32> {
    match pass.kept(MOMENT + 839) {
        Some(lease) => Some(lease.index),
        None => None,
    }
}

fn stale_end<L: Link>(alloc: Global, renewer: &Renewer<L>, pass: &mut Pass<L>) -> Option<u64>
    requires { pass.old.table ≡ renewer.now.table }
{
    match renewer.try_lease(alloc, pass, MOMENT + 840) {
        Err(TryFault::Stale { newest }) => newest,
        other => {
            drop(other);
            None
        }
    }
}

fn found_by_both<L: Link + Send, R: Threads + Wait + Sync>(
    rt: &R,
    alloc: Global,
    renewer: &Renewer<L>,
    hold: &Hold,
    passes: (Pass<L>, Pass<L>),
) -> Told
    requires first { passes.0.table ≡ renewer.now.table }
    requires second { passes.1.table ≡ renewer.now.table }
{
    let (one, other) = passes;
    let mut jobs = [job(one), job(other)];
    find_in_threads(rt, alloc, renewer, hold, &mut jobs);
    let [first, second] = jobs;
    let mut pass = second.pass;
    renewer.end(first.pass, &mut pass);
    let kept = kept_index(&pass);
    let stale = stale_end(alloc, renewer, &mut pass);
    drop(pass);
    Told {
        first: first.found,
        second: second.found,
        kept,
        stale,
    }
}

fn told_by_two<R: Threads + Wait + Sync>(
    rt: &R,
    alloc: Global,
    hold: &Hold,
) -> Result<Told, AllocError> {
    let link = HeldLink::new(hold, b"subject", REPLY);
    let flight = Flight::new(alloc, link, client(alloc)?, 60);
    match Renewer::new(alloc, flight, 2) {
        Ok((renewer, mut first)) => {
            let told = match renewer.pass(alloc, &mut first) {
                Ok(second) => Ok(found_by_both(rt, alloc, &renewer, hold, (first, second))),
                Err(AllocError) => {
                    drop(first);
                    Err(AllocError)
                }
            };
            drop(renewer);
            told
        }
        Err(fault) => {
            drop(fault);
            Err(AllocError)
        }
    }
}

#[test]
fn held_link(rt: HostRuntime) -> Result<(), Fail> {
    let hold = Hold::new();
    let told = told_by_two(&rt, rt.alloc(), &hold)?;
    let lease = Found::Lease {
        index: 0,
        exp: MOMENT + 900,
    };
    assert_eq!(rt; told.first, lease);
    assert_eq!(rt; told.second, Found::Busy { word: 1 });
    assert_eq!(rt; told.kept, Some(0));
    assert_eq!(rt; told.stale, Some(MOMENT + 900));
    assert!(rt; hold.was_kept());
    Ok(())
}
