ghost use Rattle.std.specs.Prelude.{◌≡◌, ◌≤◌, None, length, take, IfSome};
ghost use Rattle.cel_lines.specs.Lines.{HasNoFeed};
ghost use Rattle.cel_lines.specs.Front.{IsFeedAt, IsAtFront};

/// How many bytes a line has at most, its line feed not counted.
pub(crate) const LONGEST: usize = 65536;

/// What stands at the front of some bytes.
#[derive(Clone, Copy, Debug, PartialEq, Eq)]
pub(crate) enum Front {
    /// A line of so many bytes, and its line feed.
    Line(usize),
    /// The front of a line, or nothing.
    Part,
    /// More bytes than a line has.
    TooLong,
}

/// Looks for the line at the front of some bytes, of which the first are known to have no line feed.
pub(crate) fn front_of(bytes: &[u8], looked: usize) -> Front
    requires within { looked ≤ length bytes.now }
    requires clear { HasNoFeed (take looked bytes.now) }
    ensures { IsAtFront bytes.now result }
{
    match find_feed(bytes, looked) {
        Some(size) => {
            if size <= LONGEST {
                Front::Line(size)
            } else {
                Front::TooLong
            }
        }
        None => {
            if bytes.len() <= LONGEST {
                Front::Part
            } else {
                Front::TooLong
            }
        }
    }
}

// The place of the first line feed.
fn find_feed(bytes: &[u8], looked: usize) -> Option<usize>
    requires within { looked ≤ length bytes.now }
    requires clear { HasNoFeed (take looked bytes.now) }
    ensures found { IfSome result (IsFeedAt bytes.now) }
    ensures none { result ≡ None → HasNoFeed bytes.now }
{
    'bytes: for index in looked..bytes.len() {
        if bytes[index] == b'\n' {
            return Some(index);
        }
    }
    None
}
