//! Cases as data: each line of standard input is a public call of the crates with its inputs, and the line that is printed
//! for it is what the call answers. A line that begins with `#` is printed as it stands, and so is an empty one.
#![tactic(auto)]

mod boundaries;
mod expressions;
mod json;
mod names;
mod policies;
mod providers;
mod service;
mod signatures;

use case_inputs::Inputs;
use std::alloc::{AllocError, Global};
use std::io;

fn answer(alloc: Global, call: &str, inputs: &Inputs) -> Result<String, AllocError> {
    match call {
        "number" => json::number(alloc, inputs),
        "text" => json::text(alloc, inputs),
        "texts" => json::texts(alloc, inputs),
        "size" => json::size(alloc, inputs),
        "visible" => json::visible(alloc, inputs),
        "value" => json::value(alloc, inputs),
        "hmac" => signatures::hmac_of(alloc, inputs),
        "sign" => signatures::signed(alloc, inputs),
        "verify" => signatures::verified(alloc, inputs),
        "claims" => signatures::claims(alloc, inputs),
        "timing" => signatures::timed(alloc, inputs),
        _ => answer_of_names(alloc, call, inputs),
    }
}

fn answer_of_names(alloc: Global, call: &str, inputs: &Inputs) -> Result<String, AllocError> {
    match call {
        "name" => names::name(alloc, inputs),
        "covers" => names::covering(alloc, inputs),
        "account_resource" => names::resource_of_account(alloc, inputs),
        "names_outside" => names::names_outside(alloc, inputs),
        "names_account" => names::names_account(alloc, inputs),
        "granted" => policies::grants(alloc, inputs),
        "scope" => policies::scope(alloc, inputs),
        "command" => service::command(alloc, inputs),
        "config" => service::config(alloc, inputs),
        "route" => service::route(alloc, inputs),
        "tokens" => expressions::tokens(alloc, inputs),
        "tree" => expressions::tree(alloc, inputs),
        "lines" => expressions::lines(alloc, inputs),
        "overloads" => expressions::overloads(alloc),
        "admit" => providers::admitted(alloc, inputs),
        "boundary" => boundaries::rules(alloc, inputs),
        "bound" => boundaries::bound(alloc, inputs),
        _ => "no such call".to_owned(alloc),
    }
}

// The line that is printed for a line.
fn line_for(alloc: Global, line: &str) -> Result<String, AllocError> {
    if line.is_empty() || line.starts_with('#') {
        return line.to_owned(alloc);
    }
    let (call, rest) = line.split_once('\t').unwrap_or((line, ""));
    let inputs = Inputs::read(alloc, rest)?;
    answer(alloc, call, &inputs)
}

fn main(rt: HostRuntime) -> io::Result<()> {
    for line in rt.lines(rt.alloc()) {
        let answer = line_for(rt.alloc(), line?.as_str())?;
        println!(rt; "{answer}")?;
    }
    Ok(())
}
