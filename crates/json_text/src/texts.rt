ghost use Rattle.std.specs.Prelude.{◌≡◌, IfOk};
ghost use Rattle.serde_json.specs.View.{view, items_view};
ghost use Rattle.json_text.specs.Document.{item_texts, texts_at as texts_member, texts_data};

use crate::each::{ReadFault, ReadsJson, read_each, where_formed};
use base_types::{Items, Text};
use serde_json::Value;
use std::alloc::{AllocError, Global};

/// A JSON text.
#[derive(Clone, Copy, Debug)]
pub struct TextForm;

impl ReadsJson for TextForm {
    ghost use Rattle.serde_json.specs.Find.{as_str};

    type Item = Text;

    ghost meaning = { as_str };

    fn read_json(alloc: Global, json: &Value) -> Result<Text, ReadFault> {
        match json.as_str() {
            Some(text) => Ok(Text::copy_of(alloc, text)?),
            None => Err(ReadFault::Form),
        }
    }
}

/// The texts of a JSON array's items, or none where an item is no text.
pub fn texts_of_items(alloc: Global, items: &[Value]) -> Result<Option<Items<Text>>, AllocError>
    ensures { IfOk result (λ found. found ≡ item_texts (items_view items.now)) }
{
    where_formed(read_each::<TextForm>(alloc, items))
}

/// The list of texts under a name.
pub fn texts_at(alloc: Global, value: &Value, name: &str) -> Result<Option<Items<Text>>, AllocError>
    ensures { IfOk result (λ found. found ≡ texts_member name.now (view value.now)) }
{
    match value.get(name).and_then(Value::as_array) {
        None => Ok(None),
        Some(items) => texts_of_items(alloc, items.as_slice()),
    }
}

/// Texts as a JSON array.
pub fn texts_value(alloc: Global, texts: &[Text]) -> Result<Value, AllocError>
    ensures { IfOk result (λ value. view value ≡ texts_data texts.now) }
{
    let mut items = Vec::new(alloc);
    for text in texts {
        serde_json::push(&mut items, Value::try_from_str(alloc, text.as_str())?)?;
    }
    Ok(Value::Array(items))
}
