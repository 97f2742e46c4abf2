ghost use Rattle.std.specs.Prelude.{◌≡◌, ◌<◌, IfOk, OnOk, option_map, ◌++◌};
ghost use Rattle.cel_tokens.specs.Words.{next_move as move_of, escaped as escape_of, pointed as point_of, between, added, digit_moved, raw_move as raw_move_of, text_move as text_move_of};
ghost use Rattle.cel_tokens.specs.declared.quoted.Mode.{Mode};

use crate::runs::{hex_value, is_hex, is_line_end, is_quote};
use std::alloc::{AllocError, Global};

/// A form of text.
#[derive(Clone, Copy, Debug, PartialEq, Eq)]
pub enum TextKind {
    Escaped,
    /// Behind an `r`.
    Raw,
}

/// What a reader between quotes is in the middle of: nothing, an escape, or the digits of a code point, with those read so far.
#[derive(Clone, Copy, Debug, PartialEq, Eq)]
pub enum Mode {
    Plain,
    Escape,
    Point,
    Point1(u8),
    Point2(u8, u8),
    Point3(u8, u8, u8),
}

/// What a byte between quotes adds to the text.
#[derive(Clone, Copy, Debug, PartialEq, Eq)]
pub enum Added {
    Nothing,
    Byte(u8),
    Scalar(char),
}

/// What a byte between quotes does: no text has it there, it closes the text, or it goes on.
#[derive(Clone, Copy, Debug, PartialEq, Eq)]
pub enum Move {
    Stop,
    Done,
    On(Mode, Added),
}

// Behind a backslash.
fn escape(byte: u8) -> Move
    ensures { result ≡ escape_of byte }
{
    if byte == b'\\' || is_quote(byte) {
        return Move::On(Mode::Plain, Added::Byte(byte));
    }
    if byte == b'n' {
        return Move::On(Mode::Plain, Added::Byte(10));
    }
    if byte == b'r' {
        return Move::On(Mode::Plain, Added::Byte(13));
    }
    if byte == b't' {
        return Move::On(Mode::Plain, Added::Byte(9));
    }
    if byte == b'u' {
        return Move::On(Mode::Point, Added::Nothing);
    }
    Move::Stop
}

// A whole code point.
fn point(value: u32) -> Move
    requires { value < 0x110000 }
    ensures { result ≡ point_of value }
{
    if 0xd800 <= value && value <= 0xdfff {
        return Move::Stop;
    }
    match char::from_u32(value) {
        Some(scalar) => Move::On(Mode::Plain, Added::Scalar(scalar)),
        None => Move::Stop,
    }
}

fn next_move(kind: TextKind, quote: u8, mode: Mode, byte: u8) -> Move
    ensures { result ≡ move_of kind quote mode byte }
{
    match kind {
        TextKind::Escaped => text_move(quote, mode, byte),
        TextKind::Raw => raw_move(quote, byte),
    }
}

fn raw_move(quote: u8, byte: u8) -> Move
    ensures { result ≡ raw_move_of quote byte }
{
    if byte == quote {
        Move::Done
    } else if is_line_end(byte) {
        Move::Stop
    } else {
        Move::On(Mode::Plain, Added::Byte(byte))
    }
}

fn text_move(quote: u8, mode: Mode, byte: u8) -> Move
    ensures { result ≡ text_move_of quote mode byte }
{
    match mode {
        Mode::Plain => plain_move(quote, byte),
        Mode::Escape => escape(byte),
        _ => {
            if !is_hex(byte) {
                return Move::Stop;
            }
            digit_move(mode, hex_value(byte))
        }
    }
}

fn plain_move(quote: u8, byte: u8) -> Move
    ensures { result ≡ text_move_of quote Mode.Plain byte }
{
    if byte == quote {
        Move::Done
    } else if is_line_end(byte) {
        Move::Stop
    } else if byte == b'\\' {
        Move::On(Mode::Escape, Added::Nothing)
    } else {
        Move::On(Mode::Plain, Added::Byte(byte))
    }
}

// One more hexadecimal digit of a code point.
fn digit_move(mode: Mode, digit: u8) -> Move
    ensures { result ≡ digit_moved mode digit }
{
    match mode {
        Mode::Point => Move::On(Mode::Point1(digit), Added::Nothing),
        Mode::Point1(x) => Move::On(Mode::Point2(x, digit), Added::Nothing),
        Mode::Point2(x, y) => Move::On(Mode::Point3(x, y, digit), Added::Nothing),
        Mode::Point3(x, y, z) => point(
            ((x as u32 * 16 + y as u32) * 16 + z as u32) * 16 + digit as u32,
        ),
        Mode::Plain | Mode::Escape => Move::Stop,
    }
}

fn add(value: &mut Vec<u8>, more: Added) -> Result<(), AllocError>
    ensures { OnOk result (value.new.items ≡ value.old.items ++ added more) }
{
    match more {
        Added::Nothing => Ok(()),
        Added::Byte(byte) => {
            value.push(byte)?;
            Ok(())
        }
        Added::Scalar(scalar) => {
            let mut space = [0; 4];
            value.extend_from_slice(scalar.encode_utf8(&mut space).as_bytes())
        }
    }
}

/// The bytes of a text up to its closing quote, and what follows that.
pub fn read_between(
    alloc: Global,
    kind: TextKind,
    quote: u8,
    bytes: &[u8],
) -> Result<Option<(Vec<u8>, &[u8])>, AllocError>
    ensures { IfOk result (λ o. option_map (λ x. (x.0.items, x.1.now)) o ≡ between (move_of kind quote) Mode.Plain bytes.now) }
{
    let mut value = Vec::new(alloc);
    let mut mode = Mode::Plain;
    let mut at = 0;
    while at < bytes.len() {
        match next_move(kind, quote, mode, bytes[at]) {
            Move::Stop => return Ok(None),
            Move::Done => return Ok(Some((value, &bytes[at + 1..]))),
            Move::On(next, more) => {
                mode = next;
                add(&mut value, more)?;
            }
        }
        at += 1;
    }
    Ok(None)
}
