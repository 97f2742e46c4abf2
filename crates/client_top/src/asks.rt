ghost use Rattle.std.specs.Prelude.{◌≡◌, ◌≤◌, IfOk, IsErrOf};
ghost use Rattle.client_top.specs.Asks.{AreAsks, IsAskOf, NoAsks};
ghost use Rattle.client_top.specs.declared.unready.Unready.TheVariants as unready;

use crate::cuts::front_line;
use crate::unready::Unready;
use client_proto::read_decimal;
use std::alloc::{AllocError, Global};
use wif_base::LAST_MOMENT;

/// The most lines of an input.
const MOST_ASKS: usize = 100_000;

/// A worker wants a lease at a moment.
#[derive(Clone, Copy, Debug, PartialEq, Eq)]
pub struct Ask {
    pub worker: u32,
    pub moment: u64,
}

/// The lines of an input, in order.
pub(crate) fn read_asks(alloc: Global, bytes: &[u8], workers: u32) -> Result<Vec<Ask>, Unready>
    requires { 1 ≤ workers }
    ensures read { IfOk result (λ asks. AreAsks workers bytes.now asks.items) }
    ensures form { IsErrOf result unready.NoAsks → NoAsks workers bytes.now }
    ensures client { IsErrOf result unready.NoClient → ⊥ }
    ensures failed { IsErrOf result unready.Failed → ⊥ }
{
    let mut asks = Vec::new(alloc);
    let mut rest = bytes;
    'lines: while !rest.is_empty() {
        if asks.len() == MOST_ASKS {
            return Err(Unready::NoAsks);
        }
        let (line, more) = front_line(rest);
        match ask_in(alloc, line, workers) {
            Ok(Some(ask)) => {
                if asks.push(ask).is_err() {
                    return Err(Unready::Memory);
                }
            }
            Ok(None) => return Err(Unready::NoAsks),
            Err(AllocError) => return Err(Unready::Memory),
        }
        rest = more;
    }
    Ok(asks)
}

// What a line asks for.
fn ask_in(alloc: Global, line: &[u8], workers: u32) -> Result<Option<Ask>, AllocError>
    requires { 1 ≤ workers }
    ensures { IfOk result (IsAskOf workers line.now) }
{
    match std::str::from_utf8(line) {
        Ok(text) => ask_of(alloc, text, workers),
        Err(_) => Ok(None),
    }
}

fn ask_of(alloc: Global, text: &str, workers: u32) -> Result<Option<Ask>, AllocError>
    requires { 1 ≤ workers }
    ensures { IfOk result (IsAskOf workers text.now) }
{
    let Some((worker, moment)) = text.split_once(' ') else {
        return Ok(None);
    };
    let worker = read_decimal(alloc, worker, u64::from(workers - 1))?;
    let moment = read_decimal(alloc, moment, LAST_MOMENT)?;
    let Some(worker) = worker else {
        return Ok(None);
    };
    let Some(moment) = moment else {
        return Ok(None);
    };
    Ok(Some(Ask {
        worker: worker as u32,
        moment,
    }))
}
