ghost use Rattle.std.specs.Prelude.{◌≡◌, ◌≤◌, IfOk};
ghost use Rattle.sts_serve.specs.Cut.{IsNumberOf};

use std::alloc::{AllocError, Global};

/// The number that a decimal text is.
pub fn read_number(alloc: Global, text: &[u8], most: u64) -> Result<Option<u64>, AllocError>
    ensures { IfOk result (IsNumberOf most text.now) }
{
    let Ok(digits) = std::str::from_utf8(text) else {
        return Ok(None);
    };
    let Ok(number) = digits.parse::<u64>() else {
        return Ok(None);
    };
    let again = number.to_string(alloc)?;
    if number > most {
        return Ok(None);
    }
    if again.as_str() != digits {
        return Ok(None);
    }
    Ok(Some(number))
}
