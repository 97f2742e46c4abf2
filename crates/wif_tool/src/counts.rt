ghost use Rattle.std.specs.Prelude.{IfOk};
ghost use Rattle.wif_tool.specs.Command.{IsCount};

use std::alloc::{AllocError, Global};
use sts_serve::read_number;

/// The number from 1 on that a decimal text is.
pub(crate) fn number_up_to(alloc: Global, text: &str, most: u64) -> Result<Option<u64>, AllocError>
    ensures { IfOk result (IsCount most text.now) }
{
    match read_number(alloc, text.as_bytes(), most) {
        Ok(Some(0)) => Ok(None),
        Ok(Some(number)) => Ok(Some(number)),
        Ok(None) => Ok(None),
        Err(AllocError) => Err(AllocError),
    }
}
