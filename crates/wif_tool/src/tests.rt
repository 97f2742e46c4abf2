ghost use Rattle.std.specs.Prelude.{◌≡◌, false, IfOk};

use crate::{sts_listen, sts_run};
use connection_ends::{Ends, MemEnds, MemPair};
use std::alloc::{AllocError, Global};
use std::collections::VecDeque;
use std::test::Fail;
use wif_base::{DripSource, MemClock, MemDisk, MemSink, MemSource, Source};

const CONFIG: &[u8] =
    br#"{"issuer":"https://sts.example","key":"U1NTU1NTU1NTU1NTU1NTU1NTU1NTU1NTU1NTU1NTU1M","admin":"admin-secret-000001","gate":"gate-secret-0000001"}"#;

const JOURNAL: &[u8] = b"WIFJ0001\0";

const NOT_FOUND: &str = "404 46\n{\"error\":\"not_found\",\"error_description\":\"H4\"}\n";

const INACTIVE: &str = "200 16\n{\"active\":false}\n";

fn words_of(alloc: Global, line: &str) -> Result<Vec<String>, AllocError> {
    let mut words = Vec::new(alloc);
    for word in line.split_ascii_whitespace() {
        words.push(word.to_owned(alloc)?)?;
    }
    Ok(words)
}

// Which calls of the configuration, the input, the output and the disk fail.
#[derive(Clone, Copy)]
struct Failing {
    config: u64,
    input: u64,
    output: u64,
    disk: u64,
}

const NEVER: Failing = Failing {
    config: 999,
    input: 999,
    output: 999,
    disk: 999,
};

#[derive(Drop)]
struct Ran {
    status: u8,
    output: String,
}

fn sink_of(alloc: Global, fail: u64) -> Result<MemSink, AllocError> {
    let mut room = Vec::new(alloc);
    room.reserve(65536)?;
    Ok(MemSink::new(room, vec![in alloc; fail]?))
}

fn run_with(
    alloc: Global,
    line: &str,
    config: &[u8],
    input: &mut impl Source,
    failing: Failing,
) -> Result<Ran, Fail> {
    run_over(alloc, line, config, JOURNAL, input, failing)
}

fn run_over(
    alloc: Global,
    line: &str,
    config: &[u8],
    journal: &[u8],
    input: &mut impl Source,
    failing: Failing,
) -> Result<Ran, Fail> {
    let words = words_of(alloc, line)?;
    let mut config = MemSource::new(config.to_vec(alloc)?, vec![in alloc; failing.config]?);
    let mut output = sink_of(alloc, failing.output)?;
    let mut disk = MemDisk::new(alloc, journal, 4096, 64, vec![in alloc; failing.disk]?)?;
    let mut clock = MemClock::new(Vec::new(alloc), Vec::new(alloc));
    let status = sts_run(
        alloc,
        &words,
        &mut config,
        input,
        &mut output,
        &mut disk,
        &mut clock,
    );
    let text = std::str::from_utf8(&output.bytes).unwrap_or("no text");
    Ok(Ran {
        status,
        output: text.to_owned(alloc)?,
    })
}

fn run(alloc: Global, input: &[u8], failing: Failing) -> Result<Ran, Fail> {
    let mut source = MemSource::new(input.to_vec(alloc)?, vec![in alloc; failing.input]?);
    run_with(alloc, "script c j", CONFIG, &mut source, failing)
}

// `before`, then a byte so many times, then `after`.
fn around(
    alloc: Global,
    before: &str,
    byte: u8,
    count: usize,
    after: &str,
) -> Result<Vec<u8>, AllocError> {
    let mut bytes = before.as_bytes().to_vec(alloc)?;
    for _ in 0..count {
        bytes.push(byte)?;
    }
    bytes.extend_from_slice(after.as_bytes())?;
    Ok(bytes)
}

#[test]
fn a_script_may_be_cut_anywhere(rt: HostRuntime) -> Result<(), Fail> {
    let alloc = rt.alloc();
    let script = b"/v1/none - 7 3\nabc\n/v1/introspect gate-secret-0000001 7 7\ntoken=a\n";
    for length in 0..script.len() + 1 {
        let (front, _) = script.split_at(length);
        let mut whole = MemSource::new(front.to_vec(alloc)?, Vec::new(alloc));
        let ran = run_with(alloc, "script c j", CONFIG, &mut whole, NEVER)?;
        let wanted = match length {
            0 => String::new(alloc),
            1..=18 => "fault 8 at 0\n".to_owned(alloc)?,
            19 => NOT_FOUND.to_owned(alloc)?,
            66 => format!(in alloc; "{NOT_FOUND}{INACTIVE}")?,
            _ => format!(in alloc; "{NOT_FOUND}fault 8 at 19\n")?,
        };
        assert_eq!(rt; ran.output.as_str(), wanted.as_str(), "{length}");
        let mut drip = DripSource::new(MemSource::new(front.to_vec(alloc)?, Vec::new(alloc)));
        let dripped = run_with(alloc, "script c j", CONFIG, &mut drip, NEVER)?;
        assert_eq!(rt; dripped.status, ran.status, "{length}");
        assert_eq!(rt; dripped.output.as_str(), wanted.as_str(), "{length}");
    }
    Ok(())
}

#[test]
fn each_call_of_the_outside_may_fail(rt: HostRuntime) -> Result<(), Fail> {
    let alloc = rt.alloc();
    let frame = b"/v1/none - 0 0\n\n";
    let bad = b"/v1/none - 0 0\n\nx";
    let config = Failing { config: 0, ..NEVER };
    let config_end = Failing { config: 1, ..NEVER };
    let input = Failing { input: 0, ..NEVER };
    let input_end = Failing { input: 1, ..NEVER };
    let output = Failing { output: 0, ..NEVER };
    let output_line = Failing { output: 1, ..NEVER };
    let cases: [(&[u8], Failing, u8, &str); 8] = [
        (frame, NEVER, 0, NOT_FOUND),
        (frame, config, 3, ""),
        (frame, config_end, 3, ""),
        (frame, input, 3, ""),
        (frame, input_end, 3, NOT_FOUND),
        (frame, output, 4, ""),
        (bad, output, 4, ""),
        (bad, output_line, 4, NOT_FOUND),
    ];
    for (script, failing, status, wanted) in cases {
        let ran = run(alloc, script, failing)?;
        assert_eq!(rt; ran.status, status);
        assert_eq!(rt; ran.output.as_str(), wanted);
    }
    Ok(())
}

#[test]
fn words_and_configuration_are_looked_at_first(rt: HostRuntime) -> Result<(), Fail> {
    let alloc = rt.alloc();
    let cases: [(&str, &[u8], u8); 16] = [
        ("script c j", CONFIG, 0),
        ("init", CONFIG, 2),
        ("Init j", CONFIG, 2),
        ("cel", CONFIG, 0),
        ("cel", b"", 0),
        ("cel c", CONFIG, 2),
        ("cel c j", CONFIG, 2),
        ("", CONFIG, 2),
        ("script", CONFIG, 2),
        ("script c", CONFIG, 2),
        ("script c j x", CONFIG, 2),
        ("Script c j", CONFIG, 2),
        ("stdio c j", CONFIG, 0),
        ("stdio c", CONFIG, 2),
        ("script c j", b"", 1),
        ("stdio c j", b"", 1),
    ];
    for (line, config, status) in cases {
        let mut input = MemSource::new(Vec::new(alloc), Vec::new(alloc));
        let ran = run_with(alloc, line, config, &mut input, NEVER)?;
        assert_eq!(rt; ran.status, status, "{line}");
    }
    Ok(())
}

#[test]
fn journals_are_made_opened_or_refused(rt: HostRuntime) -> Result<(), Fail> {
    let alloc = rt.alloc();
    let disk = Failing { disk: 0, ..NEVER };
    let output = Failing { output: 0, ..NEVER };
    let cases: [(&str, &[u8], Failing, u8, &str); 10] = [
        ("init j", b"", NEVER, 0, ""),
        ("init j", b"x", NEVER, 6, ""),
        ("init j", b"", disk, 5, ""),
        ("script c j", JOURNAL, NEVER, 0, NOT_FOUND),
        ("script c j", b"WIFJ0001\x02x", NEVER, 0, NOT_FOUND),
        ("script c j", JOURNAL, disk, 5, ""),
        ("script c j", b"", NEVER, 6, "fault 6 at 0 rule J1\n"),
        (
            "script c j",
            b"WIFJ0001",
            NEVER,
            6,
            "fault 6 at 8 rule J2\n",
        ),
        (
            "script c j",
            b"WIFJ0001\x01\0\0\0\x01x\0",
            NEVER,
            6,
            "fault 6 at 8 rule J3\n",
        ),
        ("script c j", b"", output, 4, ""),
    ];
    for (line, journal, failing, status, wanted) in cases {
        let mut input = MemSource::new(b"/v1/none - 0 0\n\n".to_vec(alloc)?, Vec::new(alloc));
        let ran = run_over(alloc, line, CONFIG, journal, &mut input, failing)?;
        assert_eq!(rt; ran.status, status, "{line}");
        assert_eq!(rt; ran.output.as_str(), wanted, "{line}");
    }
    Ok(())
}

#[test]
fn lines_are_answered_by_the_word_cel(rt: HostRuntime) -> Result<(), Fail> {
    let alloc = rt.alloc();
    let lines = b"{\"expr\":\"(1+2)*3\"}\n{\"expr\":\"a b\"}\nx";
    let answers = "tree (1 + 2) * 3\ntype int\nvalue 9\nsyntax 2 S1\nbad line\n";
    let long = around(alloc, "\n", b'x', 65_537, "")?;
    let config = Failing { config: 0, ..NEVER };
    let input = Failing { input: 1, ..NEVER };
    let output = Failing { output: 0, ..NEVER };
    let cases: [(&[u8], Failing, u8, &str); 6] = [
        (lines, NEVER, 0, answers),
        (lines, config, 0, answers),
        (
            lines,
            input,
            3,
            "tree (1 + 2) * 3\ntype int\nvalue 9\nsyntax 2 S1\n",
        ),
        (lines, output, 4, ""),
        (&long, NEVER, 8, "bad line\n"),
        (b"", NEVER, 0, ""),
    ];
    for (bytes, failing, status, wanted) in cases {
        let mut source = MemSource::new(bytes.to_vec(alloc)?, vec![in alloc; failing.input]?);
        let ran = run_with(alloc, "cel", CONFIG, &mut source, failing)?;
        assert_eq!(rt; ran.status, status);
        assert_eq!(rt; ran.output.as_str(), wanted);
    }
    Ok(())
}

const ASKED: &[u8] =
    b"POST /v1/introspect HTTP/1.1\r\nAuthorization: Bearer gate-secret-0000001\r\nContent-Type: application/x-www-form-urlencoded\r\nContent-Length: 7\r\n\r\ntoken=a";

const ANSWERED: &[u8] =
    b"HTTP/1.1 200 OK\r\nContent-Type: application/json\r\nContent-Length: 16\r\nCache-Control: no-store\r\nPragma: no-cache\r\n\r\n{\"active\":false}";

#[test]
fn a_request_without_a_moment_has_no_reply(rt: HostRuntime) -> Result<(), Fail> {
    let alloc = rt.alloc();
    let words = words_of(alloc, "stdio c j")?;
    let mut config = MemSource::new(CONFIG.to_vec(alloc)?, Vec::new(alloc));
    let mut twice = ASKED.to_vec(alloc)?;
    twice.extend_from_slice(ASKED)?;
    let mut input = MemSource::new(twice, Vec::new(alloc));
    let mut output = sink_of(alloc, 999)?;
    let mut disk = MemDisk::new(alloc, JOURNAL, 4096, 64, Vec::new(alloc))?;
    let mut clock = MemClock::new(vec![in alloc; 1_700_000_000]?, Vec::new(alloc));
    let status = sts_run(
        alloc,
        &words,
        &mut config,
        &mut input,
        &mut output,
        &mut disk,
        &mut clock,
    );
    let bytes = output.bytes;
    assert_eq!(rt; status, 9);
    assert_eq!(rt; bytes.as_slice(), ANSWERED);
    Ok(())
}

// Two connections with one request each, of which the calls with these numbers fail.
fn two_ends(alloc: Global, fail: Vec<u64>) -> Result<MemEnds, AllocError>
    ensures { IfOk result (λ ends. ⟦<MemEnds as Ends>⟧.is_out ends ≡ false) }
{
    let mut waiting = VecDeque::new(alloc);
    for _ in 0..2 {
        let input = MemSource::new(ASKED.to_vec(alloc)?, Vec::new(alloc));
        let output = sink_of(alloc, 999)?;
        waiting.push_back(MemPair { input, output })?;
    }
    MemEnds::new(alloc, waiting, fail)
}

fn listen(alloc: Global, line: &str, ends: &mut MemEnds) -> Result<u8, AllocError>
    requires { ⟦<MemEnds as Ends>⟧.is_out ends.old ≡ false }
{
    let words = words_of(alloc, line)?;
    let mut config = MemSource::new(CONFIG.to_vec(alloc)?, Vec::new(alloc));
    let mut disk = MemDisk::new(alloc, JOURNAL, 4096, 64, Vec::new(alloc))?;
    let mut clock = MemClock::new(
        vec![in alloc; 1_700_000_000, 1_700_000_001]?,
        Vec::new(alloc),
    );
    Ok(sts_listen(alloc, &words, &mut config, ends, &mut disk, &mut clock))
}

#[test]
fn connections_are_served_one_after_another(rt: HostRuntime) -> Result<(), Fail> {
    let alloc = rt.alloc();
    let cases: [(&str, u64, u8, usize); 5] = [
        ("listen c j 8080 2", 999, 0, 2),
        ("listen c j 8080 2", 1, 3, 1),
        ("listen c j 8080 3", 999, 3, 2),
        ("listen c j 65536 2", 999, 2, 0),
        ("listen c j 8080 02", 999, 2, 0),
    ];
    for (line, failing, wanted, count) in cases {
        let mut ends = two_ends(alloc, vec![in alloc; failing]?)?;
        let status = listen(alloc, line, &mut ends)?;
        let given = ends.given;
        let all = given
            .iter()
            .all(|pair| pair.output.bytes.as_slice() == ANSWERED);
        let served = given.len();
        drop(given);
        assert_eq!(rt; status, wanted, "{line}");
        assert_eq!(rt; served, count, "{line}");
        assert!(rt; all, "{line}");
    }
    Ok(())
}
