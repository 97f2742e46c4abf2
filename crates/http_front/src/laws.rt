ghost use Rattle.std.specs.Prelude.{◌≡◌, ◌++◌, ◌⊎◌, ℕ, List};
ghost use Rattle.http_front.specs.Messages.{Message, IsMessage, message_text, Refused, IsPart};
ghost use Rattle.http_front.specs.Rules.{IsOfNoHead};
ghost use Rattle.http_front.specs.Streams.{StreamEnd, HttpSpells, SameEnd};
ghost use Rattle.http_front.specs.declared.rule.HttpRule.{HttpRule};

/// A law: bytes begin with one request at most, no request stands where one is refused or is not whole, and what is
/// refused is refused by one rule, of which H1 and H2 count as one. What is not whole is refused by H1, H2 or H11 alone,
/// where the input ends.
pub fn each_front_is_read_in_one_way()
    ensures one_message { (m n : Message) (x y : List ℕ) → IsMessage m → IsMessage n
        → message_text m ++ x ≡ message_text n ++ y → (m ≡ n) × (x ≡ y) }
    ensures refused_or_read { (m : Message) (x bytes : List ℕ) (rule : HttpRule) → IsMessage m
        → bytes ≡ message_text m ++ x → Refused bytes rule → ⊥ }
    ensures one_rule { (bytes : List ℕ) (rule other : HttpRule) → Refused bytes rule → Refused bytes other
        → (rule ≡ other) ⊎ (IsOfNoHead rule × IsOfNoHead other) }
    ensures part_or_read { (m : Message) (x bytes : List ℕ) → IsMessage m → bytes ≡ message_text m ++ x → IsPart bytes → ⊥ }
    ensures rule_of_a_part { (bytes : List ℕ) (rule : HttpRule) → IsPart bytes → Refused bytes rule
        → IsOfNoHead rule ⊎ (rule ≡ HttpRule.H11) }
{}

/// A law: a stream is one list of requests and one end.
pub fn a_stream_is_cut_in_one_way()
    ensures requests { (bytes : List ℕ) (ms ns : List Message) (end other : StreamEnd)
        → HttpSpells bytes ms end → HttpSpells bytes ns other → ms ≡ ns }
    ensures end { (bytes : List ℕ) (ms ns : List Message) (end other : StreamEnd)
        → HttpSpells bytes ms end → HttpSpells bytes ns other → SameEnd end other }
{}
