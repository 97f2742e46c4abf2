ghost use Rattle.std.specs.Prelude.{◌≡◌, ℕ, List, None};
ghost use Rattle.base64.specs.GeneralPurpose.{IsBytes};
ghost use Rattle.json_text.specs.Document.{document};
ghost use Rattle.hmac_jws.specs.Compact.{compact, signed_text};
ghost use Rattle.hmac_jws.specs.Verified.{MacGood, first_header_fault, payload_of};

/// A law: what `sign` writes verifies under its key, and its payload is what was signed.
pub fn signed_text_verifies()
    ensures good { (key payload : List ℕ) → IsBytes payload → MacGood key (compact key payload) }
    ensures payload { (key payload : List ℕ) → IsBytes payload
        → payload_of (compact key payload) ≡ payload }
{}

/// A law: a text verifies under a key exactly where it is the signed text of its payload and of some
/// header without a fault.
pub fn verified_text_is_signed()
    ensures good { (key header payload : List ℕ) → IsBytes header → IsBytes payload
        → first_header_fault (document header) ≡ None → MacGood key (signed_text key header payload) }
    ensures signed { (key text : List ℕ) → IsBytes text → MacGood key text
        → (header : List ℕ) × (text ≡ signed_text key header (payload_of text))
        × (first_header_fault (document header) ≡ None) }
{}
