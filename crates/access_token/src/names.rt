ghost use Rattle.std.specs.Prelude.{◌≡◌, ◌⊎◌, Ok, Err, IfOk, IfErr};

use iam_names::NameError;
use json_text::ReadFault;

/// A name that was read, as a part of a tree.
pub(crate) fn named<T: Drop>(read: Result<T, NameError>) -> Result<T, ReadFault>
    ensures name { IfOk result (λ name. read ≡ Ok name) }
    ensures fault { IfErr result (λ fault. (fault ≡ ReadFault.Memory) ⊎ (read ≡ Err NameError.Form)) }
{
    match read {
        Ok(name) => Ok(name),
        Err(NameError::Form) => Err(ReadFault::Form),
        Err(NameError::Memory) => Err(ReadFault::Memory),
    }
}
