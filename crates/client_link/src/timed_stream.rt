ghost use Rattle.std.specs.Prelude.{None, ◌≤◌, ◌<◌, length, IfOk};
ghost use Rattle.std.specs.Io.{ReadsAtMost};

use std::io::{ErrorKind, Read, Write};
use std::net::{Net, OpenStream, SocketAddr, TcpStream, ToSocketAddrs};
use std::rt::Clock;
use std::time::{Duration, Instant};
use wif_base::{Failed, Sink, Source};

// How long a connection may last in all.
const SECONDS: u64 = 30;

/// A connection that fails past its time. It tells nothing of its bytes.
#[derive(Drop)]
pub(crate) struct TimedStream<'r, R: Net + Clock> {
    rt: &'r R,
    stream: R::Stream,
    end: Instant,
    faults: u64,
}

impl<'r, R: Net + Clock> TimedStream<'r, R> {
    /// Connects to a host's port, by each of its addresses in turn.
    pub(crate) fn connect(rt: &'r R, address: (&str, u16)) -> Result<Self, Failed> {
        let Ok(now) = Instant::now(rt) else {
            return Err(Failed);
        };
        let Some(end) = now.checked_add(Duration::from_secs(SECONDS)) else {
            return Err(Failed);
        };
        let Ok(addresses) = address.to_socket_addrs(rt) else {
            return Err(Failed);
        };
        for address in addresses {
            if let Ok(stream) = connect_within(rt, address, end) {
                return Ok(TimedStream {
                    rt,
                    stream,
                    end,
                    faults: 0,
                });
            }
        }
        Err(Failed)
    }
}

fn connect_within<R: Net + Clock>(
    rt: &R,
    address: SocketAddr,
    end: Instant,
) -> Result<R::Stream, Failed> {
    let left = time_left(rt, end)?;
    match TcpStream::connect_timeout(rt, &address, left) {
        Ok(stream) => Ok(stream),
        Err(_) => Err(Failed),
    }
}

// What is left of the connection's time.
fn time_left<R: Clock>(rt: &R, end: Instant) -> Result<Duration, Failed> {
    let Ok(now) = Instant::now(rt) else {
        return Err(Failed);
    };
    if now >= end {
        return Err(Failed);
    }
    Ok(end - now)
}

fn read_within<R: Net + Clock>(
    rt: &R,
    stream: &mut R::Stream,
    end: Instant,
    into: &mut [u8],
) -> Result<usize, Failed>
    ensures bound { ReadsAtMost result into.new }
{
    for _ in 0..u64::MAX {
        let left = time_left(rt, end)?;
        if stream.set_read_timeout(Some(left)).is_err() {
            return Err(Failed);
        }
        match stream.read(into) {
            Ok(count) => return Ok(count),
            Err(error) => {
                if error.kind() != ErrorKind::Interrupted {
                    return Err(Failed);
                }
            }
        }
    }
    Err(Failed)
}

fn write_within<R: Net + Clock>(
    rt: &R,
    stream: &mut R::Stream,
    end: Instant,
    bytes: &[u8],
) -> Result<usize, Failed>
    ensures bound { IfOk result (λ count. count ≤ length bytes.now) }
    ensures some { IfOk result (λ count. 0 < length bytes.now → 0 < count) }
{
    for _ in 0..u64::MAX {
        let left = time_left(rt, end)?;
        if stream.set_write_timeout(Some(left)).is_err() {
            return Err(Failed);
        }
        match stream.write(bytes) {
            Ok(count) => {
                if count == 0 && !bytes.is_empty() {
                    return Err(Failed);
                }
                return Ok(count);
            }
            Err(error) => {
                if error.kind() != ErrorKind::Interrupted {
                    return Err(Failed);
                }
            }
        }
    }
    Err(Failed)
}

impl<'r, R: Net + Clock> Source for TimedStream<'r, R> {
    ghost left = { λ _. None };

    ghost faults = { λ s. s.faults };

    ghost lender = { λ _. 0 };

    fn read(&mut self, into: &mut [u8]) -> Result<usize, Failed> {
        match read_within(self.rt, &mut self.stream, self.end, into) {
            Ok(count) => Ok(count),
            Err(Failed) => {
                self.faults = self.faults.saturating_add(1);
                Err(Failed)
            }
        }
    }
}

impl<'r, R: Net + Clock> Sink for TimedStream<'r, R> {
    ghost taken = { λ _. None };

    ghost faults = { λ s. s.faults };

    ghost lender = { λ _. 0 };

    fn write(&mut self, bytes: &[u8]) -> Result<usize, Failed> {
        match write_within(self.rt, &mut self.stream, self.end, bytes) {
            Ok(count) => Ok(count),
            Err(Failed) => {
                self.faults = self.faults.saturating_add(1);
                Err(Failed)
            }
        }
    }

    fn flush(&mut self) -> Result<(), Failed> {
        Ok(())
    }
}
