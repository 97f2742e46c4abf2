ghost use Rattle.std.specs.Prelude.{None, ◌≡◌, ◌≤◌, ◌<◌, length, IfOk};
ghost use Rattle.std.specs.Io.{ReadsAtMost};

use std::io::{ErrorKind, Read, Write};
use std::net::{Shutdown, TcpStream};
use std::rt::Clock;
use std::time::{Duration, Instant};
use wif_base::{Failed, Sink, Source};

// How long a connection may last in all.
const SECONDS: u64 = 30;

/// One direction of a connection, which fails past the connection's time. It tells nothing of its bytes.
#[derive(Drop)]
pub struct TcpEnd<'r, R: Clock> {
    rt: &'r R,
    stream: TcpStream,
    end: Instant,
    faults: u64,
}

impl<'r, R: Clock> TcpEnd<'r, R> {
    /// Both directions of a connection that begins now.
    pub(crate) fn both_of(rt: &'r R, stream: TcpStream) -> Result<(Self, Self), Failed> {
        let Ok(now) = Instant::now(rt) else {
            return Err(Failed);
        };
        let Some(end) = now.checked_add(Duration::from_secs(SECONDS)) else {
            return Err(Failed);
        };
        let Ok(other) = stream.try_clone() else {
            return Err(Failed);
        };
        let input = TcpEnd {
            rt,
            stream,
            end,
            faults: 0,
        };
        let output = TcpEnd {
            rt,
            stream: other,
            end,
            faults: 0,
        };
        Ok((input, output))
    }

    /// Says to the other side that nothing more is written.
    pub(crate) fn end_writing(&self) {
        let _ended = self.stream.shutdown(Shutdown::Write).is_ok();
    }
}

// What is left of the connection's time.
fn time_left<R: Clock>(rt: &R, end: Instant) -> Result<Duration, Failed> {
    let Ok(now) = Instant::now(rt) else {
        return Err(Failed);
    };
    if now >= end {
        return Err(Failed);
    }
    Ok(end - now)
}

fn read_within<R: Clock>(
    rt: &R,
    stream: &mut TcpStream,
    end: Instant,
    into: &mut [u8],
) -> Result<usize, Failed>
    ensures bound { ReadsAtMost result into.new }
{
    for _ in 0..u64::MAX {
        let left = time_left(rt, end)?;
        if stream.set_read_timeout(Some(left)).is_err() {
            return Err(Failed);
        }
        match stream.read(into) {
            Ok(count) => return Ok(count),
            Err(error) => {
                if error.kind() != ErrorKind::Interrupted {
                    return Err(Failed);
                }
            }
        }
    }
    Err(Failed)
}

fn write_within<R: Clock>(
    rt: &R,
    stream: &mut TcpStream,
    end: Instant,
    bytes: &[u8],
) -> Result<usize, Failed>
    ensures bound { IfOk result (λ count. count ≤ length bytes.now) }
    ensures some { IfOk result (λ count. 0 < length bytes.now → 0 < count) }
{
    for _ in 0..u64::MAX {
        let left = time_left(rt, end)?;
        if stream.set_write_timeout(Some(left)).is_err() {
            return Err(Failed);
        }
        match stream.write(bytes) {
            Ok(count) => {
                if count == 0 && !bytes.is_empty() {
                    return Err(Failed);
                }
                return Ok(count);
            }
            Err(error) => {
                if error.kind() != ErrorKind::Interrupted {
                    return Err(Failed);
                }
            }
        }
    }
    Err(Failed)
}

impl<'r, R: Clock> Source for TcpEnd<'r, R> {
    ghost left = { λ _. None };

    ghost faults = { λ s. s.faults };

    ghost lender = { λ _. 0 };

    fn read(&mut self, into: &mut [u8]) -> Result<usize, Failed> {
        match read_within(self.rt, &mut self.stream, self.end, into) {
            Ok(count) => Ok(count),
            Err(Failed) => {
                self.faults = self.faults.saturating_add(1);
                Err(Failed)
            }
        }
    }
}

impl<'r, R: Clock> Sink for TcpEnd<'r, R> {
    ghost taken = { λ _. None };

    ghost faults = { λ s. s.faults };

    ghost lender = { λ _. 0 };

    fn write(&mut self, bytes: &[u8]) -> Result<usize, Failed> {
        match write_within(self.rt, &mut self.stream, self.end, bytes) {
            Ok(count) => Ok(count),
            Err(Failed) => {
                self.faults = self.faults.saturating_add(1);
                Err(Failed)
            }
        }
    }

    fn flush(&mut self) -> Result<(), Failed> {
        Ok(())
    }
}
