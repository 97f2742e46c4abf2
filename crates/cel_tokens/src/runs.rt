ghost use Rattle.std.specs.Prelude.{◌≡◌, take, drop};
ghost use Rattle.cel_tokens.specs.Words.{is_digit as digit_test, is_letter as letter_test, is_name_byte as name_test, is_hex as hex_test, is_quote as quote_test, is_blank as blank_test, is_line_end as line_end_test, hex_value as value_of_hex};
ghost use Rattle.cel_tokens.specs.FirstWord.{is_of, while_front};

/// A kind of bytes that a word has in a run.
#[derive(Clone, Copy, Debug, PartialEq, Eq)]
pub enum ByteKind {
    NameByte,
    Digit,
    Hex,
    InLine,
}

pub fn is_digit(byte: u8) -> bool
    ensures { result ≡ digit_test byte }
{
    b'0' <= byte && byte <= b'9'
}

/// A letter or `_`.
pub fn is_letter(byte: u8) -> bool
    ensures { result ≡ letter_test byte }
{
    b'A' <= byte && byte <= b'Z' || b'a' <= byte && byte <= b'z' || byte == b'_'
}

pub fn is_hex(byte: u8) -> bool
    ensures { result ≡ hex_test byte }
{
    is_digit(byte) || b'A' <= byte && byte <= b'F' || b'a' <= byte && byte <= b'f'
}

pub fn is_quote(byte: u8) -> bool
    ensures { result ≡ quote_test byte }
{
    byte == b'"' || byte == b'\''
}

/// Space, tab, LF, FF or CR.
pub fn is_blank(byte: u8) -> bool
    ensures { result ≡ blank_test byte }
{
    byte == b' ' || byte == 9 || byte == 10 || byte == 12 || byte == 13
}

/// LF or CR.
pub fn is_line_end(byte: u8) -> bool
    ensures { result ≡ line_end_test byte }
{
    byte == 10 || byte == 13
}

pub fn is_kind(kind: ByteKind, byte: u8) -> bool
    ensures { result ≡ is_of kind byte }
{
    match kind {
        ByteKind::NameByte => is_letter(byte) || is_digit(byte),
        ByteKind::Digit => is_digit(byte),
        ByteKind::Hex => is_hex(byte),
        ByteKind::InLine => !is_line_end(byte),
    }
}

/// The value of a hexadecimal digit.
pub fn hex_value(byte: u8) -> u8
    ensures { result ≡ value_of_hex byte }
{
    if is_digit(byte) {
        byte - b'0'
    } else if byte >= b'a' {
        byte - 87
    } else {
        byte.saturating_sub(55)
    }
}

/// The longest front of bytes of a kind, and the rest.
pub fn split_run(bytes: &[u8], kind: ByteKind) -> (&[u8], &[u8])
    ensures { (result.0.now, result.1.now) ≡ while_front (is_of kind) bytes.now }
{
    let mut at = 0;
    while at < bytes.len() && is_kind(kind, bytes[at]) {
        at += 1;
    }
    bytes.split_at(at)
}
