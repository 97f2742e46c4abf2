//! The program `wif_client`: workers that share one client, and what they were leased at the moments of an input.
#![tactic(auto)]

use client_link::TcpLink;
use client_top::{NoGate, client_run};
use std::process::ExitCode;
use std::sync::Wait;
use std::thread::Threads;
use std::{env, io};
use wif_base::{FileSource, StdinSource, StdoutSink};

// The words behind the program's name.
fn words_of(rt: &HostRuntime) -> io::Result<Vec<String>> {
    let mut words = Vec::new(rt.alloc());
    for word in env::args(rt)?.skip(1) {
        words.push(word)?;
    }
    Ok(words)
}

// The word at a place, or none.
fn word_at(words: &[String], index: usize) -> &str {
    match words.get(index) {
        Some(word) => word.as_str(),
        None => "",
    }
}

fn status_of<R: Threads + Wait + Sync>(host: &HostRuntime, rt: &R, words: &[String]) -> u8 {
    let mut config = FileSource::open(host, word_at(words, 1));
    let mut input = StdinSource::new(host);
    let mut output = StdoutSink::new(io::writer(host));
    let mut link = TcpLink::new(host);
    client_run(
        rt,
        host.alloc(),
        words,
        &mut config,
        &mut input,
        &mut output,
        &mut link,
        &NoGate,
    )
}

fn main(rt: HostRuntime) -> ExitCode {
    let status = match words_of(&rt) {
        Ok(words) => status_of(&rt, &rt, &words),
        Err(error) => {
            if error.kind() == io::ErrorKind::OutOfMemory {
                7
            } else {
                2
            }
        }
    };
    if status != 0 {
        let _ = eprintln!(rt; "status {status}");
    }
    ExitCode::from(status)
}
