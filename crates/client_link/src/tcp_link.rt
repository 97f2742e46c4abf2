ghost use Rattle.std.specs.Prelude.{None, ◌≡◌, ◌≤◌, length, IfOk, MatchResult};
ghost use Rattle.client_link.specs.Calls.{Adds, Keeps};
ghost use Rattle.client_link.specs.Faults.{FailsByCount, CountsFailed};

use crate::address::address_in;
use crate::link::REPLY_LIMIT;
use crate::script_link::note_failed;
use crate::timed_stream::TimedStream;
use crate::{Link, LinkError, Target};
use base_types::Bytes;
use std::alloc::Global;
use std::fs::File;
use std::net::Net;
use std::rt::{Clock, Files};
use wif_base::{Failed, FileSource, Source, write_text};

/// The link over files and sockets. For a credential it reads the file that the request names; each other request takes a connection of
/// its own, to the host and the port of its Host field, port 80 where none is named, of at most 30 seconds in all. A reply or a file of
/// more than 65,536 bytes is a fault. It tells nothing of its calls.
#[derive(Drop)]
pub struct TcpLink<R> {
    rt: R,
    faults: u64,
}

impl<R: Net + Files<File = File> + Clock> TcpLink<R> {
    pub fn new(rt: R) -> Self
        ensures { ⟦<TcpLink<R> as Link>⟧.faults result ≡ 0 }
    {
        TcpLink { rt, faults: 0 }
    }
}

// Puts what was read behind the rest, as far as a reply may go.
fn put_piece(reply: &mut Vec<u8>, piece: &[u8]) -> Result<(), LinkError>
    requires { length reply.old.items ≤ REPLY_LIMIT }
    ensures { length reply.new.items ≤ REPLY_LIMIT }
{
    if piece.len() > REPLY_LIMIT - reply.len() {
        return Err(LinkError::Failed);
    }
    reply.extend_from_slice(piece)?;
    Ok(())
}

// All that a source has left.
fn read_whole<S: Source>(alloc: Global, source: &mut S) -> Result<Bytes, LinkError>
    ensures { IfOk result (λ reply. length reply ≤ REPLY_LIMIT) }
{
    let mut reply = Vec::new(alloc);
    let mut piece = [0; 4096];
    for _ in 0..u64::MAX {
        match source.read(&mut piece) {
            Ok(0) => return Ok(Bytes::new(reply)),
            Ok(count) => put_piece(&mut reply, &piece[..count])?,
            Err(Failed) => return Err(LinkError::Failed),
        }
    }
    Err(LinkError::Failed)
}

fn read_named<R: Files<File = File>>(alloc: Global, rt: &R, name: &[u8]) -> Result<Bytes, LinkError>
    ensures { IfOk result (λ reply. length reply ≤ REPLY_LIMIT) }
{
    let Ok(path) = std::str::from_utf8(name) else {
        return Err(LinkError::Failed);
    };
    let mut file = FileSource::open(rt, path);
    read_whole(alloc, &mut file)
}

fn exchange<R: Net + Clock>(alloc: Global, rt: &R, request: &[u8]) -> Result<Bytes, LinkError>
    ensures { IfOk result (λ reply. length reply ≤ REPLY_LIMIT) }
{
    let Some(address) = address_in(request) else {
        return Err(LinkError::Failed);
    };
    let Ok(mut stream) = TimedStream::connect(rt, address) else {
        return Err(LinkError::Failed);
    };
    match write_text(&mut stream, request) {
        Ok(()) => read_whole(alloc, &mut stream),
        Err(Failed) => Err(LinkError::Failed),
    }
}

fn answer<R: Net + Files<File = File> + Clock>(
    alloc: Global,
    rt: &R,
    target: Target,
    request: &[u8],
) -> Result<Bytes, LinkError>
    ensures { IfOk result (λ reply. length reply ≤ REPLY_LIMIT) }
{
    match target {
        Target::Credential => read_named(alloc, rt, request),
        Target::Token | Target::Account => exchange(alloc, rt, request),
    }
}

impl<R: Net + Files<File = File> + Clock> Link for TcpLink<R> {
    ghost calls = { λ _. None };

    ghost faults = { λ s. s.faults };

    ghost lender = { λ _. 0 };

    fn call(&mut self, alloc: Global, target: Target, request: &[u8]) -> Result<Bytes, LinkError>
        ensures size { IfOk result (λ reply. length reply ≤ REPLY_LIMIT) }
        ensures told { MatchResult result
            (λ reply. Adds (⟦<TcpLink<R> as Link>⟧.calls self.old) (⟦<TcpLink<R> as Link>⟧.calls self.new)
            (record { target = target; request = request.now; reply = reply }))
            (λ _. Keeps (⟦<TcpLink<R> as Link>⟧.calls self.old) (⟦<TcpLink<R> as Link>⟧.calls self.new)) }
        ensures cause { FailsByCount (⟦<TcpLink<R> as Link>⟧.faults self.old) (⟦<TcpLink<R> as Link>⟧.faults self.new) result }
        ensures same { ⟦<TcpLink<R> as Link>⟧.lender self.new ≡ ⟦<TcpLink<R> as Link>⟧.lender self.old }
        ensures count { CountsFailed (⟦<TcpLink<R> as Link>⟧.faults self.old) (⟦<TcpLink<R> as Link>⟧.faults self.new) result }
    {
        note_failed(answer(alloc, &self.rt, target, request), &mut self.faults)
    }
}

#[cfg(test)]
mod tests {
    use super::*;
    use std::io::{Read, Write};
    use std::net::TcpListener;
    use std::test::Fail;
    use std::{fs, thread};

    // Takes one connection, reads a piece of it, and answers.
    fn serve_one(listener: &TcpListener) -> bool {
        let Ok((mut stream, _peer)) = listener.accept() else {
            return false;
        };
        let mut piece = [0; 64];
        if stream.read(&mut piece).is_err() {
            return false;
        }
        stream.write_all(b"reply").is_ok()
    }

    #[test]
    fn files_and_sockets_are_read_to_their_end(rt: HostRuntime) -> Result<(), Fail> {
        let alloc = rt.alloc();
        fs::write(&rt, "credential", "abc\n")?;
        let mut link = TcpLink::new(&rt);
        let file = link.call(alloc, Target::Credential, b"credential").ok();
        assert_eq!(rt;
            file.map(|reply| reply.into_vec()),
            Some(b"abc\n".to_vec(alloc)?)
        );
        assert_eq!(rt; link.faults, 0);
        fs::remove_file(&rt, "credential")?;
        assert!(rt; link.call(alloc, Target::Credential, b"credential").is_err());
        assert_eq!(rt; link.faults, 1);

        let listener = TcpListener::bind(&rt, "127.0.0.1:0")?;
        let port = listener.local_addr()?.port();
        let request = format!(in alloc; "POST / HTTP/1.1\r\nHost: 127.0.0.1:{port}\r\n\r\n")?;
        let server = thread::spawn(&rt, move || serve_one(&listener))?;
        let reply = link.call(alloc, Target::Token, request.as_bytes()).ok();
        assert!(rt; server.join(&rt));
        assert_eq!(rt;
            reply.map(|reply| reply.into_vec()),
            Some(b"reply".to_vec(alloc)?)
        );
        assert!(rt; link.call(alloc, Target::Token, request.as_bytes()).is_err());
        assert_eq!(rt; link.faults, 2);
        Ok(())
    }
}
