/// How a run over lines ended.
#[derive(Clone, Copy, Debug, PartialEq, Eq)]
pub enum LinesEnd {
    /// The input was read to its end.
    Done,
    ReadFault,
    WriteFault,
    /// A line has more than 65,536 bytes.
    LineTooLong,
    /// The input has more than 2^30 bytes.
    InputLimit,
    Memory,
}
