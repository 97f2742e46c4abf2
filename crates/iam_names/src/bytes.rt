ghost use Rattle.std.specs.Prelude.{◌≡◌};
ghost use Rattle.std.specs.List.{list_all};
ghost use Rattle.iam_names.specs.Forms as form;

pub(crate) fn is_digit(byte: u8) -> bool
    ensures { result ≡ form.is_digit byte }
{
    48 <= byte && byte <= 57
}

pub(crate) fn is_lower(byte: u8) -> bool
    ensures { result ≡ form.is_lower byte }
{
    97 <= byte && byte <= 122
}

pub(crate) fn is_letter(byte: u8) -> bool
    ensures { result ≡ form.is_letter byte }
{
    (65 <= byte && byte <= 90) || is_lower(byte)
}

pub(crate) fn is_word_byte(byte: u8) -> bool
    ensures { result ≡ form.is_word_byte byte }
{
    is_letter(byte) || is_digit(byte)
}

pub(crate) fn is_id_byte(byte: u8) -> bool
    ensures { result ≡ form.is_id_byte byte }
{
    is_lower(byte) || is_digit(byte) || byte == b'-'
}

pub(crate) fn is_host_byte(byte: u8) -> bool
    ensures { result ≡ form.is_host_byte byte }
{
    is_id_byte(byte) || byte == b'.'
}

pub(crate) fn is_plain_byte(byte: u8) -> bool
    ensures { result ≡ form.is_plain_byte byte }
{
    33 <= byte && byte <= 126 && byte != b'"' && byte != b'\\'
}

pub(crate) fn is_role_byte(byte: u8) -> bool
    ensures { result ≡ form.is_role_byte byte }
{
    is_word_byte(byte) || byte == b'.' || byte == b'_'
}

pub(crate) fn is_attribute_byte(byte: u8) -> bool
    ensures { result ≡ form.is_attribute_byte byte }
{
    is_lower(byte) || is_digit(byte) || byte == b'_'
}

pub(crate) fn are_digits(text: &str) -> bool
    ensures { result ≡ list_all form.is_digit text.now }
{
    text.bytes().all(|byte| is_digit(byte))
}

pub(crate) fn are_word_bytes(text: &str) -> bool
    ensures { result ≡ list_all form.is_word_byte text.now }
{
    text.bytes().all(|byte| is_word_byte(byte))
}

pub(crate) fn are_id_bytes(text: &str) -> bool
    ensures { result ≡ list_all form.is_id_byte text.now }
{
    text.bytes().all(|byte| is_id_byte(byte))
}

pub(crate) fn are_host_bytes(text: &str) -> bool
    ensures { result ≡ list_all form.is_host_byte text.now }
{
    text.bytes().all(|byte| is_host_byte(byte))
}

pub(crate) fn are_plain_bytes(text: &str) -> bool
    ensures { result ≡ list_all form.is_plain_byte text.now }
{
    text.bytes().all(|byte| is_plain_byte(byte))
}

pub(crate) fn are_role_bytes(text: &str) -> bool
    ensures { result ≡ list_all form.is_role_byte text.now }
{
    text.bytes().all(|byte| is_role_byte(byte))
}

pub(crate) fn are_attribute_bytes(text: &str) -> bool
    ensures { result ≡ list_all form.is_attribute_byte text.now }
{
    text.bytes().all(|byte| is_attribute_byte(byte))
}

/// Whether the first byte is a `0`.
pub(crate) fn begins_with_zero(text: &str) -> bool
    ensures { result ≡ form.begins_with 48 text.now }
{
    match text.as_bytes() {
        [b'0', ..] => true,
        _ => false,
    }
}

/// Whether the first byte is a `/`.
pub(crate) fn begins_with_slash(text: &str) -> bool
    ensures { result ≡ form.begins_with 47 text.now }
{
    match text.as_bytes() {
        [b'/', ..] => true,
        _ => false,
    }
}
