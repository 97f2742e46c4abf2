ghost use Rattle.std.specs.Prelude.{None, Some, ◌≡◌, ◌≤◌, length, IfOk, MatchResult};
ghost use Rattle.client_link.specs.Calls.{Adds, Keeps};
ghost use Rattle.client_link.specs.Faults.{FailsByCount};
ghost use Rattle.client_threads.specs.Replies.{held_reply};

use crate::hold::Hold;
use base_types::Bytes;
use client_link::{Link, LinkError, REPLY_LIMIT, Target};
use std::alloc::Global;

/// A link whose token service answers only once the hold is released, and fails where that takes too long. It tells nothing of its calls.
#[derive(Drop)]
pub struct HeldLink<'a> {
    hold: &'a Hold,
    subject: &'a [u8],
    reply: &'a [u8],
    faults: u64,
}

impl<'a> HeldLink<'a> {
    /// The link that answers with this subject token, and once it is released with this reply.
    pub fn new(hold: &'a Hold, subject: &'a [u8], reply: &'a [u8]) -> Self
        ensures replies { (result.subject.now ≡ subject.now) × (result.reply.now ≡ reply.now) }
        ensures faults { ⟦<HeldLink<'a> as Link>⟧.faults result ≡ 0 }
    {
        HeldLink {
            hold,
            subject,
            reply,
            faults: 0,
        }
    }
}

// A copy of a reply that isn't too long.
fn copy_of(alloc: Global, reply: &[u8]) -> Result<Bytes, LinkError>
    ensures size { IfOk result (λ copy. length copy ≤ REPLY_LIMIT) }
    ensures copy { IfOk result (λ copy. copy ≡ reply.now) }
{
    if reply.len() > REPLY_LIMIT {
        return Err(LinkError::Failed);
    }
    Ok(Bytes::copy_of(alloc, reply)?)
}

fn answer(
    alloc: Global,
    hold: &Hold,
    target: Target,
    subject: &[u8],
    reply: &[u8],
) -> Result<Bytes, LinkError>
    ensures size { IfOk result (λ answer. length answer ≤ REPLY_LIMIT) }
    ensures reply { IfOk result (λ answer. held_reply subject.now reply.now target ≡ Some answer) }
{
    match target {
        Target::Credential => copy_of(alloc, subject),
        Target::Token => {
            if hold.wait() {
                copy_of(alloc, reply)
            } else {
                Err(LinkError::Failed)
            }
        }
        Target::Account => Err(LinkError::Failed),
    }
}

// Counts a fault where the outside failed.
fn note_failed(answer: Result<Bytes, LinkError>, faults: &mut u64) -> Result<Bytes, LinkError>
    ensures answer { result ≡ answer }
    ensures cause { FailsByCount faults.old faults.new result }
{
    match answer {
        Ok(reply) => Ok(reply),
        Err(LinkError::Memory) => Err(LinkError::Memory),
        Err(LinkError::Failed) => {
            *faults = faults.saturating_add(1);
            Err(LinkError::Failed)
        }
    }
}

impl<'a> Link for HeldLink<'a> {
    ghost calls = { λ _. None };

    ghost faults = { λ s. s.faults };

    ghost lender = { λ _. 0 };

    fn call(&mut self, alloc: Global, target: Target, request: &[u8]) -> Result<Bytes, LinkError>
        ensures size { IfOk result (λ reply. length reply ≤ REPLY_LIMIT) }
        ensures told { MatchResult result
            (λ reply. Adds (⟦<HeldLink<'a> as Link>⟧.calls self.old) (⟦<HeldLink<'a> as Link>⟧.calls self.new)
            (record { target = target; request = request.now; reply = reply }))
            (λ _. Keeps (⟦<HeldLink<'a> as Link>⟧.calls self.old) (⟦<HeldLink<'a> as Link>⟧.calls self.new)) }
        ensures cause { FailsByCount (⟦<HeldLink<'a> as Link>⟧.faults self.old) (⟦<HeldLink<'a> as Link>⟧.faults self.new) result }
        ensures same { ⟦<HeldLink<'a> as Link>⟧.lender self.new ≡ ⟦<HeldLink<'a> as Link>⟧.lender self.old }
        ensures reply { IfOk result (λ reply. held_reply self.old.subject.now self.old.reply.now target ≡ Some reply) }
        ensures kept { (self.new.subject ≡ self.old.subject) × (self.new.reply ≡ self.old.reply) }
    {
        let _request = request;
        note_failed(
            answer(alloc, self.hold, target, self.subject, self.reply),
            &mut self.faults,
        )
    }
}
