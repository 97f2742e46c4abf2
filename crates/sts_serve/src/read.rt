ghost use Rattle.std.specs.Prelude.{◌≡◌, IfOk, IfSome};
ghost use Rattle.std.specs.List.{AllByRecursion};
ghost use Rattle.sts_serve.specs.Found.{IsFound, IsUnended};
ghost use Rattle.sts_serve.specs.Frames.{IsVisible, IsWord, IsBearer, bearer_text};

use crate::cut::{Cut, cut_word};
use crate::number::read_number;
use crate::{Found, Frame};
use base_types::{Bytes, Text};
use std::alloc::{AllocError, Global};

const NO_BEARER: &[u8] = b"-";

const LAST_MOMENT: u64 = 200_000_000_000;

const LONGEST_BODY: u64 = 65536;

/// Reads the frame at the front of some bytes.
pub fn read_frame(alloc: Global, bytes: &[u8]) -> Result<Found, AllocError>
    ensures { IfOk result (IsFound bytes.now) }
{
    let (path, rest) = match cut_word(bytes, b' ', 2048) {
        Cut::Word(word, rest) => (word, rest),
        Cut::Part => return Ok(Found::Part),
        Cut::Never => return Ok(Found::Never),
    };
    let (bearer, rest) = match cut_word(rest, b' ', 8192) {
        Cut::Word(word, rest) => (word, rest),
        Cut::Part => return Ok(Found::Part),
        Cut::Never => return Ok(Found::Never),
    };
    let (moment, rest) = match cut_word(rest, b' ', 12) {
        Cut::Word(word, rest) => (word, rest),
        Cut::Part => return unended(alloc, rest, LAST_MOMENT),
        Cut::Never => return Ok(Found::Never),
    };
    let Some(moment) = read_number(alloc, moment, LAST_MOMENT)? else {
        return Ok(Found::Never);
    };
    let (size, rest) = match cut_word(rest, b'\n', 5) {
        Cut::Word(word, rest) => (word, rest),
        Cut::Part => return unended(alloc, rest, LONGEST_BODY),
        Cut::Never => return Ok(Found::Never),
    };
    let Some(size) = read_number(alloc, size, LONGEST_BODY)? else {
        return Ok(Found::Never);
    };
    let size = size as usize;
    if rest.len() <= size {
        return Ok(Found::Part);
    }
    let (body, end) = rest.split_at(size);
    if end[0] != b'\n' {
        return Ok(Found::Never);
    }
    let frame = frame_of(alloc, path, bearer, moment, body)?;
    Ok(Found::Whole(frame, bytes.len() - end.len() + 1))
}

// What digits at the end of the bytes are: each front of a number's digits is a number too.
fn unended(alloc: Global, digits: &[u8], most: u64) -> Result<Found, AllocError>
    ensures { IfOk result (IsUnended most digits.now) }
{
    if digits.is_empty() {
        return Ok(Found::Part);
    }
    match read_number(alloc, digits, most)? {
        Some(_) => Ok(Found::Part),
        None => Ok(Found::Never),
    }
}

fn frame_of(
    alloc: Global,
    path: &[u8],
    bearer: &[u8],
    moment: u64,
    body: &[u8],
) -> Result<Frame, AllocError>
    requires path { AllByRecursion IsVisible path.now }
    requires bearer { IsWord 8192 bearer.now }
    ensures path { IfOk result (λ frame. frame.path ≡ path.now) }
    ensures bearer { IfOk result (λ frame. bearer_text frame.bearer ≡ bearer.now) }
    ensures form { IfOk result (λ frame. IfSome frame.bearer IsBearer) }
    ensures moment { IfOk result (λ frame. frame.moment ≡ moment) }
    ensures body { IfOk result (λ frame. frame.body ≡ body.now) }
{
    Ok(Frame {
        path: text_of(alloc, path)?,
        bearer: bearer_of(alloc, bearer)?,
        moment,
        body: Bytes::copy_of(alloc, body)?,
    })
}

fn bearer_of(alloc: Global, word: &[u8]) -> Result<Option<Text>, AllocError>
    requires { IsWord 8192 word.now }
    ensures text { IfOk result (λ bearer. bearer_text bearer ≡ word.now) }
    ensures form { IfOk result (λ bearer. IfSome bearer IsBearer) }
{
    if word == NO_BEARER {
        return Ok(None);
    }
    Ok(Some(text_of(alloc, word)?))
}

fn text_of(alloc: Global, word: &[u8]) -> Result<Text, AllocError>
    requires { AllByRecursion IsVisible word.now }
    ensures { IfOk result (λ text. text ≡ word.now) }
{
    let text = std::str::from_utf8(word).unwrap();
    Text::copy_of(alloc, text)
}
