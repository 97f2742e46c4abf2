ghost use Rattle.std.specs.Prelude.{◌≡◌, map, IfOk};
ghost use Rattle.client_top.specs.Asks.{moments_by as by_worker, moments_of as of_worker};

use crate::asks::Ask;
use std::alloc::{AllocError, Global};

/// The moments of each of the workers, in the order of the lines.
pub(crate) fn moments_by(
    alloc: Global,
    asks: &[Ask],
    workers: u32,
) -> Result<Vec<Vec<u64>>, AllocError>
    ensures { IfOk result (λ lists. map (λ list. list.items) lists.items ≡ by_worker workers asks.now) }
{
    let mut lists = Vec::new(alloc);
    for worker in 0..workers {
        let list = moments_of(alloc, asks, worker)?;
        lists.push(list)?;
    }
    Ok(lists)
}

fn moments_of(alloc: Global, asks: &[Ask], worker: u32) -> Result<Vec<u64>, AllocError>
    ensures { IfOk result (λ list. list.items ≡ of_worker worker asks.now) }
{
    asks.iter()
        .filter(|ask| ask.worker == worker)
        .map(|ask| ask.moment)
        .collect(alloc)
}
