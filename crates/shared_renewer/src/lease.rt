// Copies of leases.
ghost use Rattle.std.specs.Prelude.{◌≡◌, ◌≤◌, ◌+◌, ◌<◌, length, IfOk, IfErr, Some, None};
ghost use Rattle.shared_renewer.specs.Passes.{IsNewest};
ghost use Rattle.shared_renewer.specs.Views.{longer};

use renewer::{Lease, Renewal};
use std::alloc::{AllocError, Global};

pub(crate) fn copy_of(alloc: Global, lease: &Lease) -> Result<Lease, AllocError>
    ensures { IfOk result (λ copy. copy ≡ lease.now) }
{
    Ok(Lease {
        index: lease.index,
        token: lease.token.copy(alloc)?,
        exp: lease.exp,
    })
}

pub(crate) fn copy_of_kept(
    alloc: Global,
    lease: &Option<Lease>,
) -> Result<Option<Lease>, AllocError>
    ensures { IfOk result (λ copy. copy ≡ lease.now) }
{
    match lease {
        Some(lease) => Ok(Some(copy_of(alloc, lease)?)),
        None => Ok(None),
    }
}

/// The lease of the newest renewal.
pub(crate) fn newest_lease(alloc: Global, history: &[Renewal]) -> Result<Option<Lease>, AllocError>
    requires { length history.now ≤ 10_000 }
    ensures { IfOk result (IsNewest history.now) }
{
    let count = history.len();
    if count == 0 {
        return Ok(None);
    }
    let newest = &history[count - 1];
    Ok(Some(Lease {
        index: (count - 1) as u32,
        token: newest.token.copy(alloc)?,
        exp: newest.exp,
    }))
}

/// That of the longer of two lists.
pub(crate) fn later(one: Option<Lease>, other: Option<Lease>) -> Option<Lease>
    ensures { (a b : _) → IsNewest a one → IsNewest b other → IsNewest (longer a b) result }
{
    match (&one, &other) {
        (Some(a), Some(b)) if b.index <= a.index => one,
        (Some(_), None) => one,
        _ => other,
    }
}
