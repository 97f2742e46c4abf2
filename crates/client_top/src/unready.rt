/// Why a run has nothing to lease.
#[derive(Clone, Copy, Debug, PartialEq, Eq)]
pub(crate) enum Unready {
    /// The client's file is none.
    NoClient,
    Failed,
    /// The input isn't of its form.
    NoAsks,
    Memory,
}
