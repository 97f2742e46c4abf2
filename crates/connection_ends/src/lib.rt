//! Connections, one after another: in memory, and of a TCP port with a limit of time.
#![tactic(auto)]

mod ends;
mod mem_ends;
mod tcp_end;
mod tcp_ends;

pub use ends::Ends;
pub use mem_ends::{MemEnds, MemPair};
pub use tcp_end::TcpEnd;
pub use tcp_ends::TcpEnds;
