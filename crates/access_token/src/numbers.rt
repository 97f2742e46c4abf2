ghost use Rattle.std.specs.Prelude.{◌≡◌, ◌^◌, codes, nat_lt};
ghost use Rattle.std.specs.Char.{digit_value as digit};
ghost use Rattle.std.specs.Str.Parse.{digits_value};
ghost use Rattle.serde_json.specs.View.{view};
ghost use Rattle.base_types.specs.Forms.{passing};
ghost use Rattle.json_text.specs.Reads.{Reads};
ghost use Rattle.access_token.specs.Parts.{date_in, number_in};

use json_text::{ReadFault, text_at, whole_number_at};
use serde_json::Value;

const DATE_LIMIT: u64 = 1 << 53;

const NUMBER_LIMIT: u64 = 1 << 32;

/// The seconds under a name, below 2^53.
pub(crate) fn date_at(json: &Value, name: &str) -> Result<u64, ReadFault>
    ensures { Reads result (date_in name.now (view json.now)) }
{
    match whole_number_at(json, name) {
        Some(seconds) if seconds < DATE_LIMIT => Ok(seconds),
        _ => Err(ReadFault::Form),
    }
}

/// The number that `jti` writes, below 2^32.
pub(crate) fn number_at(json: &Value) -> Result<u32, ReadFault>
    ensures { Reads result (number_in (view json.now)) }
{
    match text_at(json, "jti") {
        Some(text) => number_of(text.as_bytes()),
        None => Err(ReadFault::Form),
    }
}

// The value of a digit, of a letter as a digit behind 9, and 36 of another byte.
fn digit_value(byte: u8) -> u64
    ensures { result ≡ digit byte }
{
    match char::from(byte).to_digit(36) {
        Some(digit) => u64::from(digit),
        None => 36,
    }
}

// A text that isn't a number's decimal text gets a number whose text is another, so the comparison of
// the whole payload refuses it.
fn number_of(text: &[u8]) -> Result<u32, ReadFault>
    ensures { Reads result (passing (λ number. nat_lt number (2 ^ 32)) (digits_value 10 text.now)) }
{
    let mut number: u64 = 0;
    for &byte in text {
        number = number * 10 + digit_value(byte);
        if number >= NUMBER_LIMIT {
            return Err(ReadFault::Form);
        }
    }
    Ok(number as u32)
}
