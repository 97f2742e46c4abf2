ghost use Rattle.std.specs.Prelude.{◌≡◌, ◌≤◌, IfOk, IfSome};
ghost use Rattle.client_top.specs.Words.{run_from as of_numbers, run_of as of_words, texts};

use client_proto::read_decimal;
use std::alloc::{AllocError, Global};

/// What the words of a command line ask for.
#[derive(Clone, Copy, Debug, PartialEq, Eq)]
pub struct Run {
    pub workers: u32,
    /// How long before its end a token is no longer leased, in seconds.
    pub margin: u64,
}

/// The run that the words behind the program's name ask for.
pub fn run_of(alloc: Global, words: &[String]) -> Result<Option<Run>, AllocError>
    ensures run { IfOk result (λ run. run ≡ of_words (texts words.now)) }
    ensures range { IfOk result (λ found. IfSome found (λ run. (1 ≤ run.workers) × (run.workers ≤ 64) × (run.margin ≤ 3600))) }
{
    match words {
        [name, _, workers, margin] => {
            if name.as_str() == "run" {
                run_from(alloc, workers.as_str(), margin.as_str())
            } else {
                Ok(None)
            }
        }
        _ => Ok(None),
    }
}

// The run of these workers and this margin.
fn run_from(alloc: Global, workers: &str, margin: &str) -> Result<Option<Run>, AllocError>
    ensures run { IfOk result (λ run. run ≡ of_numbers workers.now margin.now) }
    ensures range { IfOk result (λ found. IfSome found (λ run. (1 ≤ run.workers) × (run.workers ≤ 64) × (run.margin ≤ 3600))) }
{
    let workers = read_decimal(alloc, workers, 64)?;
    let margin = read_decimal(alloc, margin, 3600)?;
    let Some(workers) = workers else {
        return Ok(None);
    };
    let Some(margin) = margin else {
        return Ok(None);
    };
    if workers == 0 {
        return Ok(None);
    }
    Ok(Some(Run {
        workers: workers as u32,
        margin,
    }))
}
