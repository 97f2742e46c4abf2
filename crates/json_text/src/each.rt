ghost use Rattle.std.specs.Prelude.{◌≡◌, Ok, Err, IfOk, MatchOption, option_map};
ghost use Rattle.serde_json.specs.View.{view, items_view};
ghost use Rattle.json_text.specs.Arrays.{each, list_at as list_member, short_array as short_array_of, short_list as short_list_of};
ghost use Rattle.json_text.specs.Reads.{Reads};
ghost use Rattle.json_text.specs.declared.each.ReadFault.{ReadFault};

use base_types::Items;
use serde_json::Value;
use std::alloc::{AllocError, Global};

/// Why a value wasn't read.
#[derive(Clone, Copy, Debug, PartialEq, Eq)]
pub enum ReadFault {
    Form,
    Memory,
}

impl From<AllocError> for ReadFault {
    ghost use Rattle.std.specs.Prelude.{◌≡◌};
    ghost use Rattle.json_text.specs.declared.each.ReadFault.{ReadFault};

    ghost from_gives = { λ _ fault. fault ≡ ReadFault.Memory };

    fn from(_error: AllocError) -> Self {
        ReadFault::Memory
    }
}

/// A form of JSON values.
pub trait ReadsJson {
    ghost use Rattle.std.specs.Prelude.{Option};
    ghost use Rattle.serde_json.specs.Data.{Data};
    ghost use Rattle.serde_json.specs.View.{view};
    ghost use Rattle.json_text.specs.Reads.{Reads};

    type Item: Drop;

    /// What a value of the form says.
    ghost meaning: { Data → Option Self.Item };

    fn read_json(alloc: Global, json: &Value) -> Result<Self::Item, ReadFault>
        ensures { Reads result (meaning (view json.now)) };
}

/// What each item says. `Form` comes exactly where an item isn't of the form.
pub fn read_each<R: ReadsJson>(alloc: Global, items: &[Value]) -> Result<Items<R::Item>, ReadFault>
    ensures { Reads result (each R.meaning (items_view items.now)) }
{
    let mut found = Items::new(alloc);
    for item in items {
        found.push(R::read_json(alloc, item)?)?;
    }
    Ok(found)
}

/// What each item of the array under a name says.
pub fn list_at<R: ReadsJson>(
    alloc: Global,
    json: &Value,
    name: &str,
) -> Result<Items<R::Item>, ReadFault>
    ensures { Reads result (list_member R.meaning name.now (view json.now)) }
{
    match json.get(name).and_then(Value::as_array) {
        Some(items) => read_each::<R>(alloc, items.as_slice()),
        None => Err(ReadFault::Form),
    }
}

/// The items of an array of at most so many.
#[tactic(auto, using(crate::proofs::ShortArrays::count_view))]
pub fn short_array(json: &Value, most: usize) -> Option<&[Value]>
    ensures { option_map (λ items. items_view items.now) result ≡ short_array_of most (view json.now) }
{
    let items = json.as_array()?;
    if items.len() <= most {
        Some(items.as_slice())
    } else {
        None
    }
}

/// What each item of an array of at most so many says.
pub fn short_list<R: ReadsJson>(
    alloc: Global,
    json: &Value,
    most: usize,
) -> Result<Items<R::Item>, ReadFault>
    ensures { Reads result (short_list_of R.meaning most (view json.now)) }
{
    match short_array(json, most) {
        Some(items) => read_each::<R>(alloc, items),
        None => Err(ReadFault::Form),
    }
}

/// The value, or none where it isn't of its form.
pub fn where_formed<T: Drop>(read: Result<T, ReadFault>) -> Result<Option<T>, AllocError>
    ensures { IfOk result (λ found. MatchOption found (read ≡ Err ReadFault.Form) (λ value. read ≡ Ok value)) }
{
    match read {
        Ok(value) => Ok(Some(value)),
        Err(ReadFault::Form) => Ok(None),
        Err(ReadFault::Memory) => Err(AllocError),
    }
}
