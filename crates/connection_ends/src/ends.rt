ghost use Rattle.std.specs.Prelude.{ℕ, List, Option, ◌≡◌, [], ◌∷◌, IfOk, OnOk, OnErr, Bool, true, false};
ghost use Rattle.connection_ends.specs.Pairs.{Pair, Takes, Puts};
ghost use Rattle.wif_base.specs.Causes.{HasCause};

use wif_base::{Failed, Sink, Source};

/// Where connections come from, one after another.
pub trait Ends {
    type In: Source;

    type Out: Sink;

    /// The connections that wait, where they are told.
    ghost waiting: { Self → Option (List Pair) };

    /// The connections that were given back, where they are told.
    ghost given: { Self → Option (List Pair) };

    /// Whether a connection is out.
    ghost is_out: { Self → Bool };

    /// How often it has failed.
    ghost faults: { Self → ℕ };

    /// Which borrow it is, where it is lent.
    ghost lender: { Self → ℕ };

    /// Both ends of the next connection, which are then out.
    fn next(&mut self) -> Result<(Self::In, Self::Out), Failed>
        requires { Self.is_out self.old ≡ false }
        ensures first { IfOk result (λ ends. Takes (Self.waiting self.old) (Self.waiting self.new)
            ((record {
              left = Self.In.left ends.0;
              read_faults = Self.In.faults ends.0;
              taken = Self.Out.taken ends.1;
              write_faults = Self.Out.faults ends.1;
            }) ∷ [])) }
        ensures failed { OnErr result (Self.waiting self.new ≡ Self.waiting self.old) }
        ensures given { Self.given self.new ≡ Self.given self.old }
        ensures out { OnOk result (Self.is_out self.new ≡ true) }
        ensures none_out { OnErr result (Self.is_out self.new ≡ false) }
        ensures cause { HasCause (Self.faults self.old) (Self.faults self.new) result }
        ensures same { Self.lender self.new ≡ Self.lender self.old };

    /// Gives both ends back, behind their connection.
    fn done(&mut self, input: Self::In, output: Self::Out)
        requires { Self.is_out self.old ≡ true }
        ensures given { Puts (Self.given self.old) (Self.given self.new)
            ((record {
              left = Self.In.left input;
              read_faults = Self.In.faults input;
              taken = Self.Out.taken output;
              write_faults = Self.Out.faults output;
            }) ∷ []) }
        ensures waiting { Self.waiting self.new ≡ Self.waiting self.old }
        ensures none_out { Self.is_out self.new ≡ false }
        ensures count { Self.faults self.new ≡ Self.faults self.old }
        ensures same { Self.lender self.new ≡ Self.lender self.old };
}

impl<E: Ends> Ends for &mut E {
    type In = E::In;

    type Out = E::Out;

    ghost waiting = { λ e. E.waiting e.now };

    ghost given = { λ e. E.given e.now };

    ghost is_out = { λ e. E.is_out e.now };

    ghost faults = { λ e. E.faults e.now };

    ghost lender = { λ e. e.ghost_name };

    fn next(&mut self) -> Result<(E::In, E::Out), Failed> {
        Ends::next(&mut **self)
    }

    fn done(&mut self, input: E::In, output: E::Out) {
        Ends::done(&mut **self, input, output)
    }
}
