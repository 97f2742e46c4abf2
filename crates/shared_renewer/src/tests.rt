ghost use Rattle.std.specs.Prelude.{◌≡◌};

use crate::{Pass, Renewer, TryFault};
use base_types::Bytes;
use client_link::ScriptLink;
use client_proto::{ClientConfig, read_config};
use renewer::Flight;
use std::alloc::{AllocError, Global};
use std::sync::Wait;
use std::test::Fail;

const MOMENT: u64 = 1_700_000_000;

const FILE: &[u8] = br#"{
"type":"external_account",
"audience":"//iam.googleapis.com/projects/1/locations/global/workloadIdentityPools/pool-a/providers/prov-a",
"subject_token_type":"urn:ietf:params:oauth:token-type:jwt",
"token_url":"http://h/t",
"credential_source":{"file":"f"}}"#;

const REPLY: &[u8] =
    b"HTTP/1.1 200 OK\r\nContent-Length: 59\r\n\r\n{\"access_token\":\"t\",\"token_type\":\"Bearer\",\"expires_in\":900}";

fn flight(alloc: Global) -> Result<Flight<ScriptLink>, AllocError> {
    let config = match read_config(alloc, FILE) {
        Ok(config) => config,
        Err(_) => return Err(AllocError),
    };
    match replies(alloc) {
        Ok(replies) => Ok(Flight::new(
            alloc,
            ScriptLink::new(alloc, replies, Vec::new(alloc)),
            config,
            60,
        )),
        Err(AllocError) => {
            drop(config);
            Err(AllocError)
        }
    }
}

fn replies(alloc: Global) -> Result<Vec<Bytes>, AllocError> {
    let mut replies = Vec::new(alloc);
    replies.push(Bytes::copy_of(alloc, b"subject")?)?;
    replies.push(Bytes::copy_of(alloc, REPLY)?)?;
    Ok(replies)
}

// What a pass kept once a lease was made by another, and that one joined into it.
fn kept_behind<R: Wait>(
    rt: &R,
    alloc: Global,
    renewer: &Renewer<ScriptLink>,
    mut first: Pass<ScriptLink>,
    second: &mut Pass<ScriptLink>,
) -> Option<u32>
    requires first { first.table ≡ renewer.now.table }
    requires second { second.old.table ≡ renewer.now.table }
{
    drop(renewer.lease_at(rt, alloc, &mut first, MOMENT));
    renewer.end(first, second);
    match second.kept(MOMENT) {
        Some(lease) => Some(lease.index),
        None => None,
    }
}

fn is_stale(alloc: Global, renewer: &Renewer<ScriptLink>, pass: &mut Pass<ScriptLink>) -> bool
    requires { pass.old.table ≡ renewer.now.table }
    ensures { pass.new.table ≡ pass.old.table }
{
    match renewer.try_lease(alloc, pass, MOMENT) {
        Err(TryFault::Stale { newest: None }) => true,
        other => {
            drop(other);
            false
        }
    }
}

// Whether a first look finds nothing, and what the second pass keeps.
fn told<R: Wait>(
    rt: &R,
    alloc: Global,
    renewer: Renewer<ScriptLink>,
    mut first: Pass<ScriptLink>,
    mut second: Pass<ScriptLink>,
) -> (bool, Option<u32>)
    requires first { first.table ≡ renewer.table }
    requires second { second.table ≡ renewer.table }
{
    let stale = is_stale(alloc, &renewer, &mut first);
    let kept = kept_behind(rt, alloc, &renewer, first, &mut second);
    drop(second);
    drop(renewer);
    (stale, kept)
}

fn told_by_two<R: Wait>(
    rt: &R,
    alloc: Global,
    flight: Flight<ScriptLink>,
) -> Option<(bool, Option<u32>)> {
    match Renewer::new(alloc, flight, 2) {
        Ok((renewer, mut first)) => match renewer.pass(alloc, &mut first) {
            Ok(second) => Some(told(rt, alloc, renewer, first, second)),
            Err(AllocError) => {
                drop(first);
                drop(renewer);
                None
            }
        },
        Err(fault) => {
            drop(fault);
            None
        }
    }
}

#[test]
fn kept_is_what_a_joined_pass_has_seen(rt: HostRuntime) -> Result<(), Fail> {
    let flight = flight(rt.alloc())?;
    let told = told_by_two(&rt, rt.alloc(), flight);
    assert_eq!(rt; told, Some((true, Some(0))));
    Ok(())
}
