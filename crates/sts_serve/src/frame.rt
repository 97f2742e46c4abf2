use base_types::{Bytes, Text};

/// A request of a script: `PATH SP BEARER SP MOMENT SP LENGTH LF BODY LF`.
#[derive(Debug, Drop)]
pub struct Frame {
    /// 1 to 2,048 visible ASCII.
    pub path: Text,
    /// 1 to 8,192 visible ASCII; `-` stands for none.
    pub bearer: Option<Text>,
    /// Seconds since 1970-01-01T00:00:00Z, at most 200,000,000,000.
    pub moment: u64,
    /// At most 65,536 bytes.
    pub body: Bytes,
}

/// What stands at the front of some bytes.
#[derive(Debug, Drop)]
pub enum Found {
    /// A frame of so many bytes.
    Whole(Frame, usize),
    /// The front of a frame; no bytes are one too.
    Part,
    /// What never becomes a frame.
    Never,
}
