ghost use Rattle.std.specs.Prelude.{◌≡◌, map};
ghost use Rattle.cel_values.specs.Opacity.{holds_opaque as opaque_in, entry_holds_opaque, any_of};

use crate::{MapEntry, Value};

/// Whether the value is opaque or holds an opaque one.
#[cycle(opaque)]
pub fn holds_opaque(value: &Value) -> bool
    ensures { result ≡ opaque_in value.now }
{
    match value {
        Value::Opaque => true,
        Value::List(items) => any_opaque(items.as_slice()),
        Value::Map(entries) => any_entry_opaque(entries.as_slice()),
        _ => false,
    }
}

#[cycle(opaque)]
fn any_opaque(items: &[Value]) -> bool
    ensures { result ≡ any_of (map opaque_in items.now) }
{
    for item in items {
        if holds_opaque(item) {
            return true;
        }
    }
    false
}

#[cycle(opaque)]
fn any_entry_opaque(entries: &[MapEntry]) -> bool
    ensures { result ≡ any_of (map entry_holds_opaque entries.now) }
{
    for entry in entries {
        if holds_opaque(&entry.value) {
            return true;
        }
    }
    false
}
