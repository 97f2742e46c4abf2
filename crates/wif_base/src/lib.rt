//! The outside as the service sees it: a source, a sink, a disk and a clock, each with a count of its
//! faults, over memory and over the real thing; requests, replies and routes.
#![tactic(auto)]

mod carry;
mod clock;
mod disk;
mod drip_source;
mod failed;
mod file_disk;
mod file_source;
mod mem_clock;
mod mem_disk;
mod mem_sink;
mod mem_source;
mod numbered;
mod request;
mod route;
mod sink;
mod source;
mod stdin_source;
mod stdout_sink;
mod system_clock;
mod whole;
mod written;

pub use carry::{Carry, INPUT_LIMIT, More};
pub use clock::{Clock, LAST_MOMENT};
pub use disk::Disk;
pub use drip_source::DripSource;
pub use failed::Failed;
pub use file_disk::FileDisk;
pub use file_source::FileSource;
pub use mem_clock::MemClock;
pub use mem_disk::{DiskCall, MemDisk, Room};
pub use mem_sink::MemSink;
pub use mem_source::MemSource;
pub use request::{Reply, Request};
pub use route::{Route, route_of};
pub use sink::Sink;
pub use source::Source;
pub use stdin_source::StdinSource;
pub use stdout_sink::StdoutSink;
pub use system_clock::SystemClock;
pub use whole::{ReadEnd, read_whole};
pub use written::write_text;
