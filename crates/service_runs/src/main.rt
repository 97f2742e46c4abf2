//! Cases of the service's own calls as data: each line of standard input is a call with its inputs, and the line that is printed for
//! it is what the call answers. A line that begins with `#` is printed as it stands, and so is an empty one.
#![tactic(auto)]

mod crashes;
mod journals;
mod service;

use case_inputs::Inputs;
use std::alloc::{AllocError, Global};
use std::io;

fn answer(alloc: Global, call: &str, inputs: &Inputs) -> Result<String, AllocError> {
    match call {
        "frame" => service::frame(alloc, inputs),
        "journal" => journals::journal(alloc, inputs),
        "script" => service::script(alloc, inputs),
        "crash" => crashes::crash(alloc, inputs),
        "connection" => service::connection(alloc, inputs),
        "chains" => service::chains(alloc, inputs),
        "admits" => service::admitted(alloc, inputs),
        _ => "no such call".to_owned(alloc),
    }
}

// The line that is printed for a line.
fn line_for(alloc: Global, line: &str) -> Result<String, AllocError> {
    if line.is_empty() || line.starts_with('#') {
        return line.to_owned(alloc);
    }
    let (call, rest) = line.split_once('\t').unwrap_or((line, ""));
    let inputs = Inputs::read(alloc, rest)?;
    answer(alloc, call, &inputs)
}

fn main(rt: HostRuntime) -> io::Result<()> {
    for line in rt.lines(rt.alloc()) {
        let answer = line_for(rt.alloc(), line?.as_str())?;
        println!(rt; "{answer}")?;
    }
    Ok(())
}
