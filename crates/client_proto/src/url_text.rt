ghost use Rattle.std.specs.Prelude.{◌≡◌, ◌∷◌, IfOk};
ghost use Rattle.std.specs.List.{list_all};
ghost use Rattle.base_types.specs.Forms.{passing};
ghost use Rattle.json_text.specs.Reads.{Reads};
ghost use Rattle.iam_names.specs.Forms.{is_host as host_form, is_host_byte as host_byte};
ghost use Rattle.client_proto.specs.Urls as urls;

use crate::config::Url;
use crate::cut::{after, cut_at};
use crate::number::read_decimal;
use base_types::{Text, both, is_visible_text};
use json_text::ReadFault;
use std::alloc::{AllocError, Global};

const TAIL_LIMIT: usize = 2047;

const LAST_PORT: u64 = 65535;

fn is_host_byte(byte: u8) -> bool
    ensures { result ≡ host_byte byte }
{
    (97 <= byte && byte <= 122) || (48 <= byte && byte <= 57) || byte == b'-' || byte == b'.'
}

fn are_host_bytes(text: &str) -> bool
    ensures { result ≡ list_all host_byte text.now }
{
    text.bytes().all(|byte| is_host_byte(byte))
}

fn is_host(text: &str) -> bool
    ensures { result ≡ host_form text.now }
{
    1 <= text.len() && are_host_bytes(text)
}

fn read_host(alloc: Global, text: &str) -> Result<Text, ReadFault>
    ensures { Reads result (passing host_form text.now) }
{
    if is_host(text) {
        Ok(Text::copy_of(alloc, text)?)
    } else {
        Err(ReadFault::Form)
    }
}

fn read_port(alloc: Global, text: &str) -> Result<u16, ReadFault>
    ensures { Reads result (urls.port_of text.now) }
{
    match read_decimal(alloc, text, LAST_PORT)? {
        Some(port) => {
            if port < 1 {
                return Err(ReadFault::Form);
            }
            Ok(port as u16)
        }
        None => Err(ReadFault::Form),
    }
}

// A host, and perhaps a colon and a port.
fn read_authority(alloc: Global, text: &str) -> Result<(Text, Option<u16>), ReadFault>
    ensures { Reads result (urls.authority_of text.now) }
{
    match cut_at(text, ':') {
        None => Ok((read_host(alloc, text)?, None)),
        Some((host, port)) => {
            let (host, port) = both(read_host(alloc, host), read_port(alloc, port))?;
            Ok((host, Some(port)))
        }
    }
}

// The path of what follows its slash.
fn read_path(alloc: Global, tail: &str) -> Result<Text, ReadFault>
    ensures { Reads result (passing urls.is_path (47 ∷ tail.now)) }
{
    if is_tail(tail) {
        Ok(slashed(alloc, tail)?)
    } else {
        Err(ReadFault::Form)
    }
}

fn is_tail(tail: &str) -> bool
    ensures { result ≡ urls.is_path (47 ∷ tail.now) }
{
    tail.len() <= TAIL_LIMIT && is_visible_text(tail)
}

fn slashed(alloc: Global, tail: &str) -> Result<Text, AllocError>
    ensures { IfOk result (λ path. path ≡ 47 ∷ tail.now) }
{
    Ok(Text::new(format!(in alloc; "/{tail}")?))
}

fn read_place(alloc: Global, text: &str) -> Result<Url, ReadFault>
    ensures { Reads result (urls.place_of text.now) }
{
    let Some((authority, tail)) = cut_at(text, '/') else {
        return Err(ReadFault::Form);
    };
    let authority = read_authority(alloc, authority);
    let path = read_path(alloc, tail);
    let ((host, port), path) = both(authority, path)?;
    Ok(Url { host, port, path })
}

/// The URL that a text is, `http://HOST[:PORT]PATH`.
#[tactic(auto, unfolding(crate::specs::Urls::url_of))]
pub(crate) fn read_url(alloc: Global, text: &str) -> Result<Url, ReadFault>
    ensures { Reads result (urls.url_of text.now) }
{
    match after(text, "http://") {
        Some(rest) => read_place(alloc, rest),
        None => Err(ReadFault::Form),
    }
}
