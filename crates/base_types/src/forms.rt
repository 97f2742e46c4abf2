ghost use Rattle.std.specs.Prelude.{◌≡◌};
ghost use Rattle.base_types.specs.Forms.{has_size as size_is, is_visible_text as all_visible};

/// Whether a text has from `low` to `high` bytes.
pub fn has_size(text: &str, low: usize, high: usize) -> bool
    ensures { result ≡ size_is low high text.now }
{
    low <= text.len() && text.len() <= high
}

/// Whether each byte of a text is visible ASCII, 0x21 to 0x7E.
pub fn is_visible_text(text: &str) -> bool
    ensures { result ≡ all_visible text.now }
{
    text.bytes().all(|byte| 33 <= byte && byte <= 126)
}
