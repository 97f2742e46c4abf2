ghost use Rattle.std.specs.Prelude.{◌≡◌, IfOk};

use crate::{MapEntry, Value};
use base_types::Items;
use std::alloc::{AllocError, Global};

/// The same value once more.
#[cycle(copy)]
pub fn copy(alloc: Global, value: &Value) -> Result<Value, AllocError>
    ensures { IfOk result (λ v. v ≡ value.now) }
{
    match value {
        Value::Null => Ok(Value::Null),
        Value::Bool(test) => Ok(Value::Bool(*test)),
        Value::Int(n) => Ok(Value::Int(*n)),
        Value::Text(text) => Ok(Value::Text(text.copy(alloc)?)),
        Value::List(items) => Ok(Value::List(copy_items(alloc, items.as_slice())?)),
        Value::Map(entries) => Ok(Value::Map(copy_entries(alloc, entries.as_slice())?)),
        Value::Time(seconds) => Ok(Value::Time(*seconds)),
        Value::Span(seconds) => Ok(Value::Span(*seconds)),
        Value::Opaque => Ok(Value::Opaque),
    }
}

#[cycle(copy)]
fn copy_items(alloc: Global, items: &[Value]) -> Result<Items<Value>, AllocError>
    ensures { IfOk result (λ all. all ≡ items.now) }
{
    let mut all = Items::new(alloc);
    for item in items {
        all.push(copy(alloc, item)?)?;
    }
    Ok(all)
}

#[cycle(copy)]
fn copy_entries(alloc: Global, entries: &[MapEntry]) -> Result<Items<MapEntry>, AllocError>
    ensures { IfOk result (λ all. all ≡ entries.now) }
{
    let mut all = Items::new(alloc);
    for entry in entries {
        let key = entry.key.copy(alloc)?;
        let value = copy(alloc, &entry.value)?;
        all.push(MapEntry { key, value })?;
    }
    Ok(all)
}
