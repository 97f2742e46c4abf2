//! The program `sts`: a security token service over connections or over a script of requests, and the expressions of its conditions.
#![tactic(auto)]

mod cel;
mod command;
mod counts;
mod fault_line;
mod init;
mod listen;
mod listen_words;
mod opening;
mod run;
mod script;
mod setup;
mod stdio;
#[cfg(test)]
mod tests;
mod work;

pub use command::Command;
use command::command_of;
use connection_ends::TcpEnds;
pub use listen::sts_listen;
pub use listen_words::{Listening, listening_of};
pub use run::sts_run;
use std::alloc::AllocError;
use std::process::ExitCode;
use std::{env, io};
use wif_base::{FileDisk, FileSource, StdinSource, StdoutSink, SystemClock};

// The words behind the program's name.
fn words_of(rt: &HostRuntime) -> io::Result<Vec<String>> {
    let mut words = Vec::new(rt.alloc());
    for word in env::args(rt)?.skip(1) {
        words.push(word)?;
    }
    Ok(words)
}

// The word at a place, or none.
fn word_at(words: &[String], index: usize) -> &str {
    match words.get(index) {
        Some(word) => word.as_str(),
        None => "",
    }
}

// The file of the journal: made for `init`, and opened where it is there for `script`.
fn disk_of(rt: &HostRuntime, words: &[String]) -> FileDisk {
    match command_of(words) {
        Some(Command::Init) => FileDisk::create(rt, word_at(words, 1)),
        Some(Command::Script) | Some(Command::Stdio) | Some(Command::Cel) | None => {
            FileDisk::open(rt, word_at(words, 2))
        }
    }
}

fn status_of(rt: &HostRuntime, words: &[String]) -> u8 {
    let mut config = FileSource::open(rt, word_at(words, 1));
    let mut input = StdinSource::new(rt);
    let mut output = StdoutSink::new(io::writer(rt));
    let mut disk = disk_of(rt, words);
    let mut clock = SystemClock::new(rt);
    sts_run(
        rt.alloc(),
        words,
        &mut config,
        &mut input,
        &mut output,
        &mut disk,
        &mut clock,
    )
}

// The connections of the port that the words name, one after another.
fn listen_status_of(rt: &HostRuntime, words: &[String], port: u16) -> u8 {
    let mut config = FileSource::open(rt, word_at(words, 1));
    let mut ends = TcpEnds::bind(rt, port);
    let mut disk = FileDisk::open(rt, word_at(words, 2));
    let mut clock = SystemClock::new(rt);
    sts_listen(
        rt.alloc(),
        words,
        &mut config,
        &mut ends,
        &mut disk,
        &mut clock,
    )
}

fn run_words(rt: &HostRuntime, words: &[String]) -> u8 {
    match listening_of(rt.alloc(), words) {
        Ok(Some(asked)) => listen_status_of(rt, words, asked.port),
        Ok(None) => status_of(rt, words),
        Err(AllocError) => 7,
    }
}

fn main(rt: HostRuntime) -> ExitCode {
    let status = match words_of(&rt) {
        Ok(words) => run_words(&rt, &words),
        Err(error) => {
            if error.kind() == io::ErrorKind::OutOfMemory {
                7
            } else {
                2
            }
        }
    };
    if status != 0 {
        let _ = eprintln!(rt; "status {status}");
    }
    ExitCode::from(status)
}
