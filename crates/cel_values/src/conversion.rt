ghost use Rattle.std.specs.Prelude.{◌≡◌, IfOk};
ghost use Rattle.serde_json.specs.View.{view, items_view, members_view};
ghost use Rattle.cel_values.specs.Values.{value_of, values_of, entries_of};

use crate::value::{MapEntry, Value};
use base_types::{Items, Text};
use serde_json::Map;
use std::alloc::{AllocError, Global};

/// The value that a JSON value gives: a number that `serde_json` reads as an `i64` is an `Int`, and any
/// other number is `Opaque`.
#[cycle(from_json)]
pub fn from_json(alloc: Global, json: &serde_json::Value) -> Result<Value, AllocError>
    ensures { IfOk result (λ value. value ≡ value_of (view json.now)) }
{
    match json {
        serde_json::Value::Null => Ok(Value::Null),
        serde_json::Value::Bool(test) => Ok(Value::Bool(*test)),
        serde_json::Value::Number(number) => match number.as_i64() {
            Some(integer) => Ok(Value::Int(integer)),
            None => Ok(Value::Opaque),
        },
        serde_json::Value::String(text) => Ok(Value::Text(Text::copy_of(alloc, text.as_str())?)),
        serde_json::Value::Array(items) => Ok(Value::List(from_items(alloc, items)?)),
        serde_json::Value::Object(members) => Ok(Value::Map(from_members(alloc, members)?)),
    }
}

#[cycle(from_json)]
fn from_items(alloc: Global, items: &Vec<serde_json::Value>) -> Result<Items<Value>, AllocError>
    ensures { IfOk result (λ list. list ≡ values_of (items_view items.now.items)) }
{
    let mut list = Items::new(alloc);
    for item in items {
        list.push(from_json(alloc, item)?)?;
    }
    Ok(list)
}

#[cycle(from_json)]
fn from_members(
    alloc: Global,
    members: &Map<String, serde_json::Value>,
) -> Result<Items<MapEntry>, AllocError>
    ensures { IfOk result (λ entries. entries ≡ entries_of (members_view members.now.entries)) }
{
    let mut entries = Items::new(alloc);
    for (name, member) in members.iter() {
        let key = Text::copy_of(alloc, name.as_str())?;
        let value = from_json(alloc, member)?;
        entries.push(MapEntry { key, value })?;
    }
    Ok(entries)
}
