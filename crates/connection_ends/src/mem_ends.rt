ghost use Rattle.std.specs.Prelude.{◌≡◌, ◌≤◌, ◌+◌, ℕ, List, Some, None, length, vec_len, vec_capacity, true, false, if◌then◌else◌, IfOk, OnOk, OnErr, IsOk, IsErr, [], ◌∷◌, ◌++◌};
ghost use Rattle.connection_ends.specs.Pairs.{Pair, Takes, Puts};
ghost use Rattle.wif_base.specs.Causes.{HasCause};
ghost use Rattle.wif_base.specs.Counts.{next_count, is_chosen, CountsFault};

use crate::Ends;
use std::alloc::{AllocError, Global};
use std::collections::VecDeque;
use std::marker::Model;
use wif_base::{Failed, MemSink, MemSource, Sink, Source};

/// Both ends of a connection in memory.
#[derive(Drop)]
pub struct MemPair {
    pub input: MemSource,
    pub output: MemSink,
}

impl Model for MemPair {
    ghost use Rattle.connection_ends.specs.Pairs.{Pair};

    ghost Value = { Pair };

    ghost view = { λ p. record {
      left = ⟦<MemSource as Source>⟧.left p.input;
      read_faults = ⟦<MemSource as Source>⟧.faults p.input;
      taken = ⟦<MemSink as Sink>⟧.taken p.output;
      write_faults = ⟦<MemSink as Sink>⟧.faults p.output;
    } };
}

/// Connections in memory. Past the last it fails, and at the calls of `next` whose numbers, from 0, stand in `fail`. It
/// keeps those that are given back, for which it took the room when it was made.
#[derive(Drop)]
pub struct MemEnds {
    pub waiting: VecDeque<MemPair>,
    pub given: Vec<MemPair>,
    pub fail: Vec<u64>,
    /// How many calls of `next` there were.
    pub calls: u64,
    is_out: bool,
    faults: u64,
    ghost room: { vec_len given + length waiting.items + (if is_out then 1 else 0) ≤ vec_capacity given },
}

impl MemEnds {
    pub fn new(
        alloc: Global,
        waiting: VecDeque<MemPair>,
        fail: Vec<u64>,
    ) -> Result<Self, AllocError>
        ensures waiting { IfOk result (λ e. ⟦<MemEnds as Ends>⟧.waiting e ≡ Some waiting.items) }
        ensures given { IfOk result (λ e. ⟦<MemEnds as Ends>⟧.given e ≡ Some []) }
        ensures none_out { IfOk result (λ e. ⟦<MemEnds as Ends>⟧.is_out e ≡ false) }
        ensures fail { IfOk result (λ e. e.fail.items ≡ fail.items) }
        ensures calls { IfOk result (λ e. e.calls ≡ 0) }
        ensures faults { IfOk result (λ e. ⟦<MemEnds as Ends>⟧.faults e ≡ 0) }
    {
        match Vec::with_capacity(alloc, waiting.len()) {
            Ok(given) => Ok(MemEnds {
                waiting,
                given,
                fail,
                calls: 0,
                is_out: false,
                faults: 0,
            }),
            Err(AllocError) => {
                drop(waiting);
                drop(fail);
                Err(AllocError)
            }
        }
    }
}

impl Ends for MemEnds {
    type In = MemSource;

    type Out = MemSink;

    ghost waiting = { λ e. Some e.waiting.items };

    ghost given = { λ e. Some e.given.items };

    ghost is_out = { λ e. e.is_out };

    ghost faults = { λ e. e.faults };

    ghost lender = { λ _. 0 };

    fn next(&mut self) -> Result<(MemSource, MemSink), Failed>
        requires { ⟦<MemEnds as Ends>⟧.is_out self.old ≡ false }
        ensures first { IfOk result (λ ends. Takes (⟦<MemEnds as Ends>⟧.waiting self.old) (⟦<MemEnds as Ends>⟧.waiting self.new)
            ((record {
              left = ⟦<MemSource as Source>⟧.left ends.0;
              read_faults = ⟦<MemSource as Source>⟧.faults ends.0;
              taken = ⟦<MemSink as Sink>⟧.taken ends.1;
              write_faults = ⟦<MemSink as Sink>⟧.faults ends.1;
            }) ∷ [])) }
        ensures failed { OnErr result (⟦<MemEnds as Ends>⟧.waiting self.new ≡ ⟦<MemEnds as Ends>⟧.waiting self.old) }
        ensures given { ⟦<MemEnds as Ends>⟧.given self.new ≡ ⟦<MemEnds as Ends>⟧.given self.old }
        ensures out { OnOk result (⟦<MemEnds as Ends>⟧.is_out self.new ≡ true) }
        ensures none_out { OnErr result (⟦<MemEnds as Ends>⟧.is_out self.new ≡ false) }
        ensures cause { HasCause (⟦<MemEnds as Ends>⟧.faults self.old) (⟦<MemEnds as Ends>⟧.faults self.new) result }
        ensures same { ⟦<MemEnds as Ends>⟧.lender self.new ≡ ⟦<MemEnds as Ends>⟧.lender self.old }
        ensures count { CountsFault (⟦<MemEnds as Ends>⟧.faults self.old) (⟦<MemEnds as Ends>⟧.faults self.new) result }
        ensures chosen { is_chosen self.old.fail.items self.old.calls ≡ true → IsErr result }
        ensures sound { is_chosen self.old.fail.items self.old.calls ≡ false → (first : Pair) → (rest : List Pair)
            → ⟦<MemEnds as Ends>⟧.waiting self.old ≡ Some (first ∷ rest) → IsOk result }
        ensures calls { self.new.calls ≡ next_count self.old.calls }
        ensures fail { self.new.fail ≡ self.old.fail }
    {
        let call = self.calls;
        self.calls = call.saturating_add(1);
        if !self.fail.contains(&call) {
            if let Some(MemPair { input, output }) = self.waiting.pop_front() {
                self.is_out = true;
                return Ok((input, output));
            }
        }
        self.faults = self.faults.saturating_add(1);
        Err(Failed)
    }

    fn done(&mut self, input: MemSource, output: MemSink)
        requires { ⟦<MemEnds as Ends>⟧.is_out self.old ≡ true }
        ensures given { Puts (⟦<MemEnds as Ends>⟧.given self.old) (⟦<MemEnds as Ends>⟧.given self.new)
            ((record {
              left = ⟦<MemSource as Source>⟧.left input;
              read_faults = ⟦<MemSource as Source>⟧.faults input;
              taken = ⟦<MemSink as Sink>⟧.taken output;
              write_faults = ⟦<MemSink as Sink>⟧.faults output;
            }) ∷ []) }
        ensures waiting { ⟦<MemEnds as Ends>⟧.waiting self.new ≡ ⟦<MemEnds as Ends>⟧.waiting self.old }
        ensures none_out { ⟦<MemEnds as Ends>⟧.is_out self.new ≡ false }
        ensures count { ⟦<MemEnds as Ends>⟧.faults self.new ≡ ⟦<MemEnds as Ends>⟧.faults self.old }
        ensures same { ⟦<MemEnds as Ends>⟧.lender self.new ≡ ⟦<MemEnds as Ends>⟧.lender self.old }
        ensures calls { self.new.calls ≡ self.old.calls }
        ensures fail { self.new.fail ≡ self.old.fail }
    {
        self.is_out = false;
        self.given.push(MemPair { input, output }).unwrap();
    }
}
