ghost use Rattle.std.specs.Prelude.{◌≡◌, None, IfSome};
ghost use Rattle.client_top.specs.Cuts.{HasNoFeed, IsFeedAt, IsFrontLine};

/// The line at the front of some bytes, and what is behind its line feed.
pub(crate) fn front_line(bytes: &[u8]) -> (&[u8], &[u8])
    ensures { IsFrontLine bytes.now result.0.now result.1.now }
{
    match find_feed(bytes) {
        Some(size) => (&bytes[..size], &bytes[size + 1..]),
        None => bytes.split_at(bytes.len()),
    }
}

// The place of the first line feed.
fn find_feed(bytes: &[u8]) -> Option<usize>
    ensures found { IfSome result (IsFeedAt bytes.now) }
    ensures none { result ≡ None → HasNoFeed bytes.now }
{
    'bytes: for index in 0..bytes.len() {
        if bytes[index] == b'\n' {
            return Some(index);
        }
    }
    None
}
