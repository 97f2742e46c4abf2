use std::alloc::{AllocError, Global};

/// The bytes that a text of a table stands for: `\n`, `\t`, `\\`, `\xHH` for a byte, and `\*COUNT*TEXT*` for the text so
/// many times.
pub(crate) fn unescaped(alloc: Global, text: &str) -> Result<Vec<u8>, AllocError> {
    let mut bytes = Vec::new(alloc);
    let mut is_plain = true;
    for piece in text.split('\\') {
        if is_plain {
            bytes.extend_from_slice(piece.as_bytes())?;
            is_plain = false;
        } else if piece.is_empty() {
            bytes.push(b'\\')?;
            is_plain = true;
        } else {
            put_escape(&mut bytes, piece)?;
        }
    }
    Ok(bytes)
}

// A piece behind a backslash.
fn put_escape(bytes: &mut Vec<u8>, piece: &str) -> Result<(), AllocError> {
    if let Some(rest) = piece.strip_prefix("*") {
        return put_repeated(bytes, rest);
    }
    match piece.as_bytes() {
        [b'n', rest @ ..] => put(bytes, b'\n', rest),
        [b't', rest @ ..] => put(bytes, b'\t', rest),
        [b'x', high, low, rest @ ..] => put(bytes, digit(*high) << 4 | digit(*low), rest),
        rest => bytes.extend_from_slice(rest),
    }
}

fn put(bytes: &mut Vec<u8>, byte: u8, rest: &[u8]) -> Result<(), AllocError> {
    bytes.push(byte)?;
    bytes.extend_from_slice(rest)
}

// Below 16 for each byte.
fn digit(byte: u8) -> u8 {
    match byte {
        b'0'..=b'9' => byte - b'0',
        b'a'..=b'f' => byte - b'a' + 10,
        _ => 0,
    }
}

fn put_repeated(bytes: &mut Vec<u8>, text: &str) -> Result<(), AllocError> {
    let (count, rest) = text.split_once('*').unwrap_or((text, ""));
    let (part, rest) = rest.split_once('*').unwrap_or((rest, ""));
    for _ in 0..count.parse::<u32>().unwrap_or(0) {
        bytes.extend_from_slice(part.as_bytes())?;
    }
    bytes.extend_from_slice(rest.as_bytes())
}

/// A text with each byte that isn't printable ASCII escaped.
pub fn escaped(alloc: Global, bytes: &[u8]) -> Result<String, AllocError> {
    let mut text = String::new(alloc);
    for byte in bytes {
        match *byte {
            b'\n' => text.push_str("\\n")?,
            b'\t' => text.push_str("\\t")?,
            b'\\' => text.push_str("\\\\")?,
            b' '..=b'~' => text.push(char::from(*byte))?,
            other => {
                text.push_str("\\x")?;
                text.push_str(hexadecimal(alloc, &[other])?.as_str())?;
            }
        }
    }
    Ok(text)
}

/// Two lower-case digits for each byte.
pub fn hexadecimal(alloc: Global, bytes: &[u8]) -> Result<String, AllocError> {
    let mut text = String::new(alloc);
    for byte in bytes {
        text.push_str(format!(in alloc; "{byte:02x}")?.as_str())?;
    }
    Ok(text)
}

/// `yes` or `no`.
pub fn yes_or_no(alloc: Global, holds: bool) -> Result<String, AllocError> {
    if holds { "yes" } else { "no" }.to_owned(alloc)
}
