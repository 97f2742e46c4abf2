ghost use Rattle.std.specs.Prelude.{◌≡◌, Some, None, IfOk, IsErrOf};
ghost use Rattle.serde_json.specs.View.{view};
ghost use Rattle.json_text.specs.Document.{document};

use serde_json::Value;
use std::alloc::Global;

/// Why bytes gave no value.
#[derive(Clone, Copy, Debug, PartialEq, Eq)]
pub enum DocumentFault {
    NoJson,
    Memory,
}

/// Reads a JSON text (RFC 8259). Arrays and objects may nest 127 deep, and of a repeated member the
/// last counts.
pub fn read_document(alloc: Global, bytes: &[u8]) -> Result<Value, DocumentFault>
    ensures found { IfOk result (λ value. document bytes.now ≡ Some (view value)) }
    ensures no_json { IsErrOf result DocumentFault.NoJson → document bytes.now ≡ None }
{
    match Value::from_slice(alloc, bytes) {
        Ok(value) => Ok(value),
        Err(error) => {
            if error.is_memory() {
                return Err(DocumentFault::Memory);
            }
            Err(DocumentFault::NoJson)
        }
    }
}
