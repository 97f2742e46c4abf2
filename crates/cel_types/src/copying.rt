ghost use Rattle.std.specs.Prelude.{◌≡◌, IfOk};

use crate::CelType;
use base_types::Boxed;
use std::alloc::{AllocError, Global};

/// The same type once more.
pub fn copy_type(alloc: Global, t: &CelType) -> Result<CelType, AllocError>
    ensures { IfOk result (λ u. u ≡ t.now) }
{
    match t {
        CelType::Dyn => Ok(CelType::Dyn),
        CelType::Null => Ok(CelType::Null),
        CelType::Bool => Ok(CelType::Bool),
        CelType::Int => Ok(CelType::Int),
        CelType::Text => Ok(CelType::Text),
        CelType::Time => Ok(CelType::Time),
        CelType::Span => Ok(CelType::Span),
        CelType::List(t) => Ok(CelType::List(Boxed::new(alloc, copy_type(alloc, t.get())?)?)),
        CelType::Map(t) => Ok(CelType::Map(Boxed::new(alloc, copy_type(alloc, t.get())?)?)),
    }
}
