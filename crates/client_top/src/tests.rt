use crate::{Gate, client_run};
use base_types::Bytes;
use client_link::ScriptLink;
use std::alloc::{AllocError, Global};
use std::sync::Wait;
use std::sync::atomic::{AtomicU64, Ordering};
use std::test::Fail;
use std::thread::Threads;
use wif_base::{MemSink, MemSource};

const FILE: &[u8] = br#"{
"type":"external_account",
"audience":"//iam.googleapis.com/projects/1/locations/global/workloadIdentityPools/pool-a/providers/prov-a",
"subject_token_type":"urn:ietf:params:oauth:token-type:jwt",
"token_url":"http://h/t",
"credential_source":{"file":"f"}}"#;

const REPLY: &[u8] =
    b"HTTP/1.1 200 OK\r\nContent-Length: 59\r\n\r\n{\"access_token\":\"t\",\"token_type\":\"Bearer\",\"expires_in\":900}";

// A gate at which two workers meet: each waits until the other has come.
#[derive(Drop)]
struct Meeting {
    first: AtomicU64,
    second: AtomicU64,
    given_up: AtomicU64,
}

impl Meeting {
    fn new() -> Self {
        Meeting {
            first: AtomicU64::new(0),
            second: AtomicU64::new(0),
            given_up: AtomicU64::new(0),
        }
    }

    // Whether each came once and met the other.
    fn was_held(&self) -> bool {
        self.first.load(Ordering::SeqCst) == 1
            && self.second.load(Ordering::SeqCst) == 1
            && self.given_up.load(Ordering::SeqCst) == 0
    }
}

impl Gate for Meeting {
    fn stand(&self, worker: u32) {
        let (mine, other) = if worker == 0 {
            (&self.first, &self.second)
        } else {
            (&self.second, &self.first)
        };
        mine.fetch_add(1, Ordering::SeqCst);
        for _ in 0..1_000_000_000 {
            if other.load(Ordering::SeqCst) > 0 {
                return;
            }
        }
        self.given_up.fetch_add(1, Ordering::SeqCst);
    }
}

fn replies(alloc: Global) -> Result<Vec<Bytes>, AllocError> {
    let mut replies = Vec::new(alloc);
    replies.push(Bytes::copy_of(alloc, b"subject")?)?;
    replies.push(Bytes::copy_of(alloc, REPLY)?)?;
    Ok(replies)
}

const MOMENTS: &[u8] = b"0 1700000000\n1 1700000000\n";

const TOLD: &[u8] =
    b"0 1700000000 lease 0 1700000900\n1 1700000000 lease 0 1700000900\nrenewal 0 asked 1700000000 exp 1700000900 token t\n";

fn words_of(alloc: Global, line: &str) -> Result<Vec<String>, AllocError> {
    let mut words = Vec::new(alloc);
    for word in line.split_ascii_whitespace() {
        words.push(word.to_owned(alloc)?)?;
    }
    Ok(words)
}

fn source_of(alloc: Global, bytes: &[u8]) -> Result<MemSource, AllocError> {
    Ok(MemSource::new(bytes.to_vec(alloc)?, Vec::new(alloc)))
}

fn sink(alloc: Global) -> Result<MemSink, AllocError> {
    let mut room = Vec::new(alloc);
    room.reserve(4096)?;
    Ok(MemSink::new(room, Vec::new(alloc)))
}

// The status of a run of two workers, and whether they were told of two leases by one renewal.
fn status_of_two<R: Threads + Wait + Sync>(
    rt: &R,
    alloc: Global,
    gate: &Meeting,
) -> Result<(u8, bool), AllocError> {
    let words = words_of(alloc, "run client.json 2 60")?;
    let mut config = source_of(alloc, FILE)?;
    let mut input = source_of(alloc, MOMENTS)?;
    let mut output = sink(alloc)?;
    let mut link = ScriptLink::new(alloc, replies(alloc)?, Vec::new(alloc));
    let status = client_run(
        rt,
        alloc,
        words.as_slice(),
        &mut config,
        &mut input,
        &mut output,
        &mut link,
        gate,
    );
    Ok((status, output.bytes.as_slice() == TOLD))
}

#[test]
fn workers_stand_at_the_gate_at_once(rt: HostRuntime) -> Result<(), Fail> {
    let gate = Meeting::new();
    let (status, told) = status_of_two(&rt, rt.alloc(), &gate)?;
    assert_eq!(rt; status, 0);
    assert!(rt; told);
    assert!(rt; gate.was_held());
    Ok(())
}
