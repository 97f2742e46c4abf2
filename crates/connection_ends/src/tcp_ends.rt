ghost use Rattle.std.specs.Prelude.{None, ◌≡◌, false};

use crate::{Ends, TcpEnd};
use std::net::{Net, TcpListener, TcpStream};
use std::rt::Clock;
use wif_base::{Failed, Source};

// How much is read of a connection that is done with, in pieces of 4,096 bytes.
const LAST_PIECES: usize = 16;

/// The connections of a port of 127.0.0.1, each of at most 30 seconds in all. Where the port couldn't be bound the first
/// call fails.
#[derive(Drop)]
pub struct TcpEnds<'r, R: Clock> {
    rt: &'r R,
    listener: Option<TcpListener>,
    is_out: bool,
    faults: u64,
}

impl<'r, R: Clock + Net<Listener = TcpListener, Stream = TcpStream>> TcpEnds<'r, R> {
    pub fn bind(rt: &'r R, port: u16) -> Self
        ensures none_out { ⟦<TcpEnds<'r, R> as Ends>⟧.is_out result ≡ false }
        ensures faults { ⟦<TcpEnds<'r, R> as Ends>⟧.faults result ≡ 0 }
    {
        TcpEnds {
            rt,
            listener: TcpListener::bind(rt, ("127.0.0.1", port)).ok(),
            is_out: false,
            faults: 0,
        }
    }
}

fn next_ends<'r, R: Clock>(
    rt: &'r R,
    listener: &Option<TcpListener>,
) -> Result<(TcpEnd<'r, R>, TcpEnd<'r, R>), Failed> {
    let Some(listener) = listener else {
        return Err(Failed);
    };
    match listener.accept() {
        Ok((stream, _peer)) => TcpEnd::both_of(rt, stream),
        Err(_) => Err(Failed),
    }
}

// Reads what still comes, so that closing loses no reply on its way.
fn read_last<S: Source>(source: &mut S) {
    let mut piece = [0; 4096];
    for _ in 0..LAST_PIECES {
        match source.read(&mut piece) {
            Ok(0) => return,
            Ok(_) => {}
            Err(Failed) => return,
        }
    }
}

impl<'r, R: Clock> Ends for TcpEnds<'r, R> {
    type In = TcpEnd<'r, R>;

    type Out = TcpEnd<'r, R>;

    ghost waiting = { λ _. None };

    ghost given = { λ _. None };

    ghost is_out = { λ e. e.is_out };

    ghost faults = { λ e. e.faults };

    ghost lender = { λ _. 0 };

    fn next(&mut self) -> Result<(TcpEnd<'r, R>, TcpEnd<'r, R>), Failed> {
        match next_ends(self.rt, &self.listener) {
            Ok(pair) => {
                self.is_out = true;
                Ok(pair)
            }
            Err(Failed) => {
                self.faults = self.faults.saturating_add(1);
                Err(Failed)
            }
        }
    }

    fn done(&mut self, input: TcpEnd<'r, R>, output: TcpEnd<'r, R>) {
        self.is_out = false;
        output.end_writing();
        drop(output);
        let mut input = input;
        read_last(&mut input);
        drop(input);
    }
}
