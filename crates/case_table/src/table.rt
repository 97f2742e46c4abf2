ghost use Rattle.std.specs.Prelude.{◌≡◌, ◌≢◌, ◌<◌, ◌≤◌, ℕ, List, length, IfOk, IfErr, IfSome, IfNone};
ghost use Rattle.case_table.specs.Cases.{found, key_at, KeysApart, IsDoubled};

use std::marker::Model;

/// Two rows with one key.
#[derive(Clone, Copy, Debug, PartialEq, Eq)]
pub struct Doubled {
    pub first: usize,
    pub second: usize,
}

/// Rows of a key and a value, no two with one key.
#[derive(Debug, Drop)]
pub struct Table<const N: usize> {
    rows: [(u32, u32); N],
}

impl<const N: usize> Model for Table<N> {
    ghost Value = { List (ℕ × ℕ) };

    ghost view = { λ table. table.rows };
}

impl<const N: usize> Table<N> {
    /// The table of these rows, or the first two with one key: those whose second comes first, and of these the one whose first does.
    pub fn new(rows: [(u32, u32); N]) -> Result<Self, Doubled>
        ensures rows { IfOk result (λ table. table ≡ rows.entry) }
        ensures apart { IfOk result (λ table. KeysApart rows.entry) }
        ensures doubled { IfErr result (λ doubled. IsDoubled rows.entry doubled) }
    {
        for second in 0..N {
            if let Some(first) = place_before(rows[second].0, &rows, second) {
                return Err(Doubled { first, second });
            }
        }
        Ok(Table { rows })
    }

    /// The value of the row with this key.
    pub fn find(&self, key: u32) -> Option<u32>
        ensures { result ≡ found key self.now }
    {
        value_under(&self.rows, key)
    }
}

/// The value of the first row with this key.
pub fn value_under(rows: &[(u32, u32)], key: u32) -> Option<u32>
    ensures { result ≡ found key rows.now }
{
    for row in rows {
        if row.0 == key {
            return Some(row.1);
        }
    }
    None
}

// The first place before `end` whose row has this key.
fn place_before(key: u32, rows: &[(u32, u32)], end: usize) -> Option<usize>
    requires { end ≤ length rows.now }
    ensures place { IfSome result (λ place. (place < end) × (key_at rows.now place ≡ key)) }
    ensures first { IfSome result (λ place. (at : ℕ) → at < place → key_at rows.now at ≢ key) }
    ensures none { IfNone result ((at : ℕ) → at < end → key_at rows.now at ≢ key) }
{
    for place in 0..end {
        if rows[place].0 == key {
            return Some(place);
        }
    }
    None
}
