// The records of a file, place by place.
ghost use Rattle.std.specs.Prelude.{◌≡◌, ◌<◌, ◌≤◌, ◌↔◌, ◌+◌, IsTrue, ℕ, List, length};
ghost use Rattle.grant_journal.specs.JournalBytes.{four_bytes};
ghost use Rattle.grant_journal.specs.Places.{HasMarker, StandsAt, IsNext, PassesLimit};

use crate::{JournalFile, JournalRule, Standing};

const LIMIT: u64 = 67_108_864;

const LONGEST: u64 = 262_144;

impl JournalFile {
    ghost use Rattle.grant_journal.specs.Reading.{IsReadOf};

    /// Whether the file begins as a journal does. If not, it breaks J1.
    pub fn has_marker(&self) -> bool
        ensures { (file : List ℕ) → IsReadOf file self.now → (IsTrue result ↔ HasMarker file) }
    {
        self.bytes.starts_with(b"WIFJ0001")
    }

    /// What stands at a place behind whole records within the limit.
    pub fn standing(&self, at: u64) -> Standing<'_>
        requires { at < 67108864 }
        ensures stands { (file : List ℕ) → IsReadOf file self.now → StandsAt file at result }
        ensures next { IsNext at result }
    {
        if at >= self.length {
            return Standing::Bad(JournalRule::J2);
        }
        let (_, piece) = self.bytes.split_at(at as usize);
        if piece[0] != 1 {
            return Standing::Closed;
        }
        let (_, behind) = piece.split_at(1);
        if behind.len() < 4 {
            return Standing::Bad(JournalRule::J2);
        }
        let (number, behind) = behind.split_at(4);
        let size = told_number(number);
        if self.length - at < 5 + size {
            return Standing::Bad(JournalRule::J2);
        }
        if size > LONGEST {
            return Standing::Bad(JournalRule::J3);
        }
        let (text, _) = behind.split_at(size as usize);
        Standing::Text {
            text,
            next: at + 5 + size,
        }
    }
}

// The number that four bytes tell.
fn told_number(bytes: &[u8]) -> u64
    requires { length bytes.now ≡ 4 }
    ensures { bytes.now ≡ four_bytes result }
{
    bytes[0] as u64 * 16_777_216
        + bytes[1] as u64 * 65_536
        + bytes[2] as u64 * 256
        + bytes[3] as u64
}

/// Whether a journal that ends with a closed gate at this place would pass the limit. A record in front of it then breaks J5.
pub fn passes_limit(at: u64) -> bool
    ensures { IsTrue result ↔ PassesLimit at }
{
    at >= LIMIT
}
