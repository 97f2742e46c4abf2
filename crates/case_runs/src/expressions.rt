use case_inputs::{Inputs, escaped};
use cel_builtins::OVERLOADS;
use cel_lines::run_lines;
use cel_syntax::{ParseError, parse, print};
use cel_tokens::lex;
use std::alloc::{AllocError, Global};
use wif_base::{MemSink, MemSource};

/// `tokens TEXT`: the places of its tokens, and where what forms none stands.
pub(crate) fn tokens(alloc: Global, inputs: &Inputs) -> Result<String, AllocError> {
    let lexing = lex(alloc, inputs.text(0))?;
    let mut text = "at".to_owned(alloc)?;
    for lexeme in lexing.tokens.as_slice() {
        let at = lexeme.at;
        text.push_str(format!(in alloc; " {at}")?.as_str())?;
    }
    if let Some(stop) = lexing.stop {
        text.push_str(format!(in alloc; " stop {stop}")?.as_str())?;
    }
    Ok(text)
}

/// `tree TEXT`: the expression as it is printed, or the place and the rule of its first fault.
pub(crate) fn tree(alloc: Global, inputs: &Inputs) -> Result<String, AllocError> {
    match parse(alloc, inputs.text(0)) {
        Ok(tree) => {
            let printed = print(alloc, &tree)?;
            escaped(alloc, printed.as_str().as_bytes())
        }
        Err(ParseError::Fault { at, rule }) => format!(in alloc; "fault {at} {rule:?}"),
        Err(ParseError::Memory) => Err(AllocError),
    }
}

/// `lines BYTES`: how a run over the lines ends, and its output.
pub(crate) fn lines(alloc: Global, inputs: &Inputs) -> Result<String, AllocError> {
    let mut input = MemSource::new(inputs.bytes(0).to_vec(alloc)?, Vec::new(alloc));
    let mut output = MemSink::new(Vec::with_capacity(alloc, 65536)?, Vec::new(alloc));
    let end = run_lines(alloc, &mut input, &mut output);
    let written = escaped(alloc, output.bytes.as_slice())?;
    format!(in alloc; "{end:?} {written}")
}

/// `overloads`: the key and the kind of the result of each row of the overload table.
pub(crate) fn overloads(alloc: Global) -> Result<String, AllocError> {
    let mut text = "rows".to_owned(alloc)?;
    for row in &OVERLOADS {
        let key = row.0;
        let kind = row.1;
        text.push_str(format!(in alloc; " {key}:{kind}")?.as_str())?;
    }
    Ok(text)
}
