ghost use Rattle.std.specs.Prelude.{◌≡◌, IfOk};
ghost use Rattle.client_proto.specs.Numbers.{decimal_up_to};

use std::alloc::{AllocError, Global};

/// The number that a decimal text is, up to so much: digits without a sign and without a leading zero.
pub fn read_decimal(alloc: Global, text: &str, most: u64) -> Result<Option<u64>, AllocError>
    ensures { IfOk result (λ number. number ≡ decimal_up_to most text.now) }
{
    let Ok(number) = text.parse::<u64>() else {
        return Ok(None);
    };
    let again = number.to_string(alloc)?;
    if number > most {
        return Ok(None);
    }
    if again.as_str() != text {
        return Ok(None);
    }
    Ok(Some(number))
}
