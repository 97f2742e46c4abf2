use sts_core::Stop;

/// How a run over a stream of requests ended.
#[derive(Clone, Copy, Debug, PartialEq, Eq)]
pub enum Served {
    /// The input was read to its end.
    Done,
    ReadFault,
    WriteFault,
    ClockFault,
    /// From this place on, after whole frames, stands what is no frame.
    Malformed { offset: u64 },
    /// The input has more than 2^30 bytes.
    InputLimit,
    Stopped(Stop),
}
