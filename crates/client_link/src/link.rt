ghost use Rattle.std.specs.Prelude.{◌≡◌, ◌≤◌, ℕ, List, Option, length, IfOk, MatchResult};
ghost use Rattle.client_link.specs.Calls.{Adds, Keeps};
ghost use Rattle.client_link.specs.Faults.{FailsByCount};
ghost use Rattle.client_link.specs.declared.target.LinkCall.{LinkCall as Call};

use crate::{LinkError, Target};
use base_types::Bytes;
use std::alloc::Global;

/// The most bytes of a reply.
pub const REPLY_LIMIT: usize = 65536;

/// How a client asks the outside.
pub trait Link {
    /// The calls that were answered, in order, where they are told.
    ghost calls: { Self → Option (List Call) };

    /// How often the link has failed.
    ghost faults: { Self → ℕ };

    /// Which borrow it is, where it is lent.
    ghost lender: { Self → ℕ };

    /// The reply to a request, at most 65,536 bytes.
    fn call(&mut self, alloc: Global, target: Target, request: &[u8]) -> Result<Bytes, LinkError>
        ensures size { IfOk result (λ reply. length reply ≤ REPLY_LIMIT) }
        ensures told { MatchResult result
            (λ reply. Adds (calls self.old) (calls self.new) (record { target = target; request = request.now; reply = reply }))
            (λ _. Keeps (calls self.old) (calls self.new)) }
        ensures cause { FailsByCount (faults self.old) (faults self.new) result }
        ensures same { lender self.new ≡ lender self.old };
}

impl<L: Link> Link for &mut L {
    ghost calls = { λ l. L.calls l.now };

    ghost faults = { λ l. L.faults l.now };

    ghost lender = { λ l. l.ghost_name };

    fn call(&mut self, alloc: Global, target: Target, request: &[u8]) -> Result<Bytes, LinkError> {
        Link::call(&mut **self, alloc, target, request)
    }
}
