/// How the work ended.
#[derive(Clone, Copy, Debug, PartialEq, Eq)]
pub enum WorkEnd {
    /// The line was written.
    Done,
    WriteFault,
    Memory,
}
