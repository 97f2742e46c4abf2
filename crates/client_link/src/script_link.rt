ghost use Rattle.std.specs.Prelude.{◌≡◌, ◌≤◌, ◌↔◌, Some, None, [], ◌++◌, ◌∷◌, length, IfOk, IfErr, OnOk, OnErr, Err, MatchResult, option_map};
ghost use Rattle.client_link.specs.Calls.{Adds, Keeps};
ghost use Rattle.client_link.specs.Faults.{FailsByCount, CountsFailed};
ghost use Rattle.client_link.specs.Scripts as script;
ghost use Rattle.client_link.specs.declared.fault.LinkError.TheVariants.{Failed};
ghost use Rattle.wif_base.specs.Counts.{next_count};

use crate::link::REPLY_LIMIT;
use crate::{Link, LinkCall, LinkError, Target};
use base_types::{Bytes, both};
use std::alloc::{AllocError, Global};

/// A link in memory, which answers from a list of replies and tells its calls. Past its last reply it fails, at a reply of more than
/// 65,536 bytes, and at the calls whose numbers, from 0, stand in `fail`. A call that isn't answered takes no reply.
#[derive(Drop)]
pub struct ScriptLink {
    pub replies: Vec<Bytes>,
    pub fail: Vec<u64>,
    /// The calls that were answered.
    pub answered: Vec<LinkCall>,
    /// How many calls there were.
    pub made: u64,
    faults: u64,
}

impl ScriptLink {
    pub fn new(alloc: Global, replies: Vec<Bytes>, fail: Vec<u64>) -> Self
        ensures replies { result.replies.items ≡ replies.items }
        ensures fail { result.fail.items ≡ fail.items }
        ensures calls { ⟦<ScriptLink as Link>⟧.calls result ≡ Some [] }
        ensures made { result.made ≡ 0 }
        ensures faults { ⟦<ScriptLink as Link>⟧.faults result ≡ 0 }
    {
        ScriptLink {
            replies,
            fail,
            answered: Vec::new(alloc),
            made: 0,
            faults: 0,
        }
    }
}

// The reply of that number, where the link has one that isn't too long.
fn next_reply(replies: &[Bytes], number: usize) -> Option<&Bytes>
    ensures { option_map (λ reply. reply.now) result ≡ script.next_reply replies.now number }
{
    let reply = replies.get(number)?;
    if reply.as_slice().len() <= REPLY_LIMIT {
        Some(reply)
    } else {
        None
    }
}

// The reply to a call, behind so many that were answered.
fn reply_to<'a>(fail: &[u64], call: u64, replies: &'a [Bytes], answered: usize) -> Option<&'a Bytes>
    ensures { option_map (λ reply. reply.now) result ≡ script.script_reply fail.now call replies.now answered }
{
    if fail.contains(&call) {
        None
    } else {
        next_reply(replies, answered)
    }
}

// The call as it is told, and its reply.
fn answer(
    alloc: Global,
    target: Target,
    request: &[u8],
    reply: Option<&Bytes>,
) -> Result<(LinkCall, Bytes), LinkError>
    ensures told { IfOk result (λ answer. (answer.0 ≡ record { target = target; request = request.now; reply = answer.1 })
        × (option_map (λ found. found.now) reply.entry ≡ Some answer.1)) }
    ensures failed { IfErr result (λ error. (error ≡ Failed) ↔ (option_map (λ found. found.now) reply.entry ≡ None)) }
{
    let Some(reply) = reply else {
        return Err(LinkError::Failed);
    };
    let request = Bytes::copy_of(alloc, request);
    let (request, (told, reply)) = both(request, both(reply.copy(alloc), reply.copy(alloc)))?;
    let call = LinkCall {
        target,
        request,
        reply: told,
    };
    Ok((call, reply))
}

// Puts the call behind the others.
fn put_call(answered: &mut Vec<LinkCall>, call: LinkCall) -> Result<(), AllocError>
    ensures ok { OnOk result (answered.new.items ≡ answered.old.items ++ call ∷ []) }
    ensures err { OnErr result (answered.new.items ≡ answered.old.items) }
{
    match answered.push(call) {
        Ok(()) => Ok(()),
        Err(refused) => {
            drop(refused);
            Err(AllocError)
        }
    }
}

// Counts a fault where the outside failed.
pub(crate) fn note_failed<T>(answer: Result<T, LinkError>, faults: &mut u64) -> Result<T, LinkError>
    ensures answer { result ≡ answer }
    ensures cause { FailsByCount faults.old faults.new result }
    ensures count { CountsFailed faults.old faults.new result }
{
    match answer {
        Ok(value) => Ok(value),
        Err(LinkError::Memory) => Err(LinkError::Memory),
        Err(LinkError::Failed) => {
            *faults = faults.saturating_add(1);
            Err(LinkError::Failed)
        }
    }
}

impl Link for ScriptLink {
    ghost calls = { λ s. Some s.answered.items };

    ghost faults = { λ s. s.faults };

    ghost lender = { λ _. 0 };

    fn call(&mut self, alloc: Global, target: Target, request: &[u8]) -> Result<Bytes, LinkError>
        ensures size { IfOk result (λ reply. length reply ≤ REPLY_LIMIT) }
        ensures told { MatchResult result
            (λ reply. Adds (⟦<ScriptLink as Link>⟧.calls self.old) (⟦<ScriptLink as Link>⟧.calls self.new)
            (record { target = target; request = request.now; reply = reply }))
            (λ _. Keeps (⟦<ScriptLink as Link>⟧.calls self.old) (⟦<ScriptLink as Link>⟧.calls self.new)) }
        ensures cause { FailsByCount (⟦<ScriptLink as Link>⟧.faults self.old) (⟦<ScriptLink as Link>⟧.faults self.new) result }
        ensures same { ⟦<ScriptLink as Link>⟧.lender self.new ≡ ⟦<ScriptLink as Link>⟧.lender self.old }
        ensures reply { IfOk result (λ reply.
            script.script_reply self.old.fail.items self.old.made self.old.replies.items (length self.old.answered.items) ≡ Some reply) }
        ensures failed { (result ≡ Err Failed)
            ↔ (script.script_reply self.old.fail.items self.old.made self.old.replies.items (length self.old.answered.items) ≡ None) }
        ensures count { CountsFailed (⟦<ScriptLink as Link>⟧.faults self.old) (⟦<ScriptLink as Link>⟧.faults self.new) result }
        ensures made { self.new.made ≡ next_count self.old.made }
        ensures kept { (self.new.replies ≡ self.old.replies) × (self.new.fail ≡ self.old.fail) }
    {
        let call = self.made;
        self.made = call.saturating_add(1);
        let reply = reply_to(&self.fail, call, &self.replies, self.answered.len());
        let answer = answer(alloc, target, request, reply);
        let (call, reply) = note_failed(answer, &mut self.faults)?;
        match put_call(&mut self.answered, call) {
            Ok(()) => Ok(reply),
            Err(AllocError) => {
                drop(reply);
                Err(LinkError::Memory)
            }
        }
    }
}

#[cfg(test)]
mod tests {
    use super::*;
    use std::test::Fail;

    fn one_call(alloc: Global, link: &mut ScriptLink, name: &[u8]) -> Result<Bytes, LinkError> {
        link.call(alloc, Target::Credential, name)
    }

    #[test]
    fn script_answers_in_order(rt: HostRuntime) -> Result<(), Fail> {
        let alloc = rt.alloc();
        let mut replies = Vec::new(alloc);
        replies.push(Bytes::copy_of(alloc, b"one")?)?;
        replies.push(Bytes::new(vec![in alloc; b'x'; 65536]?))?;
        replies.push(Bytes::new(vec![in alloc; b'x'; 65537]?))?;
        let mut link = ScriptLink::new(alloc, replies, [1].to_vec(alloc)?);
        for (call, size) in [
            (0, Some(3)),
            (1, None),
            (2, Some(65536)),
            (3, None),
            (4, None),
        ] {
            assert_eq!(rt; link.made, call);
            let answer = one_call(alloc, &mut link, b"a").ok();
            assert_eq!(rt; answer.map(|reply| reply.as_slice().len()), size);
        }
        assert_eq!(rt; link.faults, 3);
        assert_eq!(rt; link.answered.len(), 2);
        Ok(())
    }
}
