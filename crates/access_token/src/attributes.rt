ghost use Rattle.std.specs.Prelude.{◌≡◌};
ghost use Rattle.serde_json.specs.Find.{as_str as text_of};
ghost use Rattle.serde_json.specs.View.{view, members_view};
ghost use Rattle.json_text.specs.Reads.{Reads};
ghost use Rattle.access_token.specs.Forms.{is_attribute as attribute_form};
ghost use Rattle.access_token.specs.Parts.{formed, attributes_in, attributes_at as attributes_under};

use base_types::{Text, TextMap, has_size};
use iam_names::{AttributeForm, Form};
use json_text::ReadFault;
use serde_json::{Map, Value};
use std::alloc::Global;

/// The attributes of an outside identity.
pub(crate) fn attributes_at(alloc: Global, json: &Value) -> Result<TextMap<Text>, ReadFault>
    ensures { Reads result (attributes_under (view json.now)) }
{
    match json.get("attributes").and_then(Value::as_object) {
        Some(members) => attributes_of(alloc, members),
        None => Err(ReadFault::Form),
    }
}

fn attributes_of(alloc: Global, members: &Map<String, Value>) -> Result<TextMap<Text>, ReadFault>
    ensures { Reads result (attributes_in (members_view members.now.entries)) }
{
    let mut attributes = TextMap::new(alloc);
    for (name, json) in members.iter() {
        let value = value_of(alloc, name.as_str(), json)?;
        attributes.insert(name.as_str().to_owned(alloc)?, value)?;
    }
    Ok(attributes)
}

/// The value of the attribute of that name.
fn value_of(alloc: Global, name: &str, json: &Value) -> Result<Text, ReadFault>
    ensures { Reads result (formed (λ value. attribute_form (name.now, value)) (text_of (view json.now))) }
{
    match json.as_str() {
        Some(value) if is_attribute(name, value) => Ok(Text::copy_of(alloc, value)?),
        _ => Err(ReadFault::Form),
    }
}

fn is_attribute(name: &str, value: &str) -> bool
    ensures { result ≡ attribute_form (name.now, value.now) }
{
    AttributeForm::has_form(name) && has_size(value, 1, 256)
}
