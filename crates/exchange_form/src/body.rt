ghost use Rattle.std.specs.Prelude.{◌≡◌, IfOk, option_map};
ghost use Rattle.serde_json.specs.View.{view};
ghost use Rattle.exchange_form.specs.Forms.{object_of};

use json_text::{DocumentFault, read_document};
use serde_json::Value;
use std::alloc::{AllocError, Global};

/// The JSON object that bytes are.
pub fn read_object(alloc: Global, bytes: &[u8]) -> Result<Option<Value>, AllocError>
    ensures { IfOk result (λ found. option_map (λ json. view json) found ≡ object_of bytes.now) }
{
    match read_document(alloc, bytes) {
        Ok(json) => {
            if json.as_object().is_some() {
                return Ok(Some(json));
            }
            Ok(None)
        }
        Err(DocumentFault::NoJson) => Ok(None),
        Err(DocumentFault::Memory) => Err(AllocError),
    }
}
