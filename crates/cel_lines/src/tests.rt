use crate::{LinesEnd, run_lines};
use std::alloc::{AllocError, Global};
use std::test::Fail;
use wif_base::{DripSource, MemSink, MemSource, Source};

#[derive(Drop)]
struct Ran {
    end: LinesEnd,
    output: String,
}

const ALWAYS: u64 = 999_999;

// A run whose sink has this much room.
fn run_over(alloc: Global, input: &mut impl Source, room: usize) -> Result<Ran, Fail> {
    let bytes = Vec::with_capacity(alloc, room)?;
    let mut output = MemSink::new(bytes, Vec::new(alloc));
    let end = run_lines(alloc, input, &mut output);
    let text = std::str::from_utf8(&output.bytes).unwrap_or("no text");
    Ok(Ran {
        end,
        output: text.to_owned(alloc)?,
    })
}

fn source_of(alloc: Global, bytes: &[u8], failing: u64) -> Result<MemSource, AllocError> {
    Ok(MemSource::new(bytes.to_vec(alloc)?, vec![in alloc; failing]?))
}

fn run_slowly(alloc: Global, bytes: &[u8], failing: u64) -> Result<Ran, Fail> {
    let inner = source_of(alloc, bytes, failing)?;
    run_over(alloc, &mut DripSource::new(inner), 1_000_000)
}

// `before`, then a byte so many times, then `after`.
fn around(
    alloc: Global,
    before: &str,
    byte: u8,
    count: usize,
    after: &str,
) -> Result<Vec<u8>, AllocError> {
    let mut bytes = before.as_bytes().to_vec(alloc)?;
    for _ in 0..count {
        bytes.push(byte)?;
    }
    bytes.extend_from_slice(after.as_bytes())?;
    Ok(bytes)
}

#[test]
fn a_source_may_fail_in_the_middle_of_a_line(rt: HostRuntime) -> Result<(), Fail> {
    let alloc = rt.alloc();
    let input = b"{\"expr\":\"a\"}\n{\"expr\":\"b\"}\n";
    for (failing, wanted) in [
        (0, ""),
        (12, ""),
        (13, "tree a\ntype fault 0 T1\nerror Unbound\n"),
        (20, "tree a\ntype fault 0 T1\nerror Unbound\n"),
        (25, "tree a\ntype fault 0 T1\nerror Unbound\n"),
        (
            26,
            "tree a\ntype fault 0 T1\nerror Unbound\ntree b\ntype fault 0 T1\nerror Unbound\n",
        ),
    ] {
        let ran = run_slowly(alloc, input, failing)?;
        assert_eq!(rt; ran.end, LinesEnd::ReadFault, "{failing}");
        assert_eq!(rt; ran.output.as_str(), wanted, "{failing}");
    }
    Ok(())
}

#[test]
fn a_sink_may_fail_within_an_answer(rt: HostRuntime) -> Result<(), Fail> {
    let alloc = rt.alloc();
    let wanted =
        "tree a\ntype fault 0 T1\nerror Unbound\nbad line\ntree b\ntype fault 0 T1\nerror Unbound\n";
    let input = b"{\"expr\":\"a\"}\n\n{\"expr\":\"b\"}";
    let long = around(alloc, "{\"expr\":\"a\"}\n\n", b'x', 65_537, "")?;
    for room in 0..wanted.len() {
        let mut source = source_of(alloc, input, ALWAYS)?;
        let ran = run_over(alloc, &mut source, room)?;
        assert_eq!(rt; ran.end, LinesEnd::WriteFault, "{room}");
        assert!(rt; wanted.starts_with(ran.output.as_str()), "{room}");
    }
    for (room, end) in [(45, LinesEnd::WriteFault), (46, LinesEnd::LineTooLong)] {
        let mut source = source_of(alloc, &long, ALWAYS)?;
        let ran = run_over(alloc, &mut source, room)?;
        assert_eq!(rt; ran.end, end, "{room}");
    }
    Ok(())
}
