ghost use Rattle.std.specs.Prelude.{◌≡◌, true, ℕ, List, Some, IsUtf8, option_and_then, codes};
ghost use Rattle.std.specs.Fmt.{decimal};
ghost use Rattle.base64.specs.GeneralPurpose.{IsBytes};
ghost use Rattle.json_text.specs.Document.{document, text_at};
ghost use Rattle.access_token.specs.declared.facts.Facts.{Facts};
ghost use Rattle.access_token.specs.Exact.{IsExact};
ghost use Rattle.access_token.specs.Forms.{is_facts};
ghost use Rattle.access_token.specs.Payload.{payload_data, payload_text};
ghost use Rattle.access_token.specs.Reading.{payload_facts};

/// A law: the payload of exact facts is UTF-8, reads back as its tree, and has the link's number as its `jti`.
pub fn payload_tells_its_number()
    ensures utf8 { (issuer : List ℕ) (facts : Facts) → IsExact issuer facts → IsUtf8 (payload_text issuer facts) }
    ensures bytes { (issuer : List ℕ) (facts : Facts) → IsExact issuer facts → IsBytes (payload_text issuer facts) }
    ensures tree { (issuer : List ℕ) (facts : Facts) → IsExact issuer facts
        → document (payload_text issuer facts) ≡ Some (payload_data issuer facts) }
    ensures number { (issuer : List ℕ) (facts : Facts) → IsExact issuer facts
        → option_and_then (text_at (codes "jti")) (document (payload_text issuer facts)) ≡ Some (decimal facts.number) }
{}

/// A law: the payload of exact facts of their forms says them, and a text that says facts is their payload and no other.
pub fn payload_says_its_facts()
    ensures says { (issuer : List ℕ) (facts : Facts) → IsExact issuer facts → is_facts facts ≡ true
        → payload_facts issuer (payload_text issuer facts) ≡ Some facts }
    ensures no_other { (issuer text : List ℕ) (facts : Facts) → payload_facts issuer text ≡ Some facts
        → (text ≡ payload_text issuer facts) × (is_facts facts ≡ true) }
{}
