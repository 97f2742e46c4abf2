use base_types::{has_size, is_visible_text};
use case_inputs::{Inputs, escaped, yes_or_no};
use cel_values::from_json;
use json_text::{DocumentFault, read_document, text_at, texts_at, texts_value, whole_number_at};
use serde_json::Value;
use std::alloc::{AllocError, Global};

// The JSON value of an input, or none.
fn document(alloc: Global, inputs: &Inputs, index: usize) -> Result<Option<Value>, AllocError> {
    match read_document(alloc, inputs.bytes(index)) {
        Ok(value) => Ok(Some(value)),
        Err(DocumentFault::NoJson) => Ok(None),
        Err(DocumentFault::Memory) => Err(AllocError),
    }
}

/// `number JSON NAME`: the whole number under the name.
pub(crate) fn number(alloc: Global, inputs: &Inputs) -> Result<String, AllocError> {
    let Some(value) = document(alloc, inputs, 0)? else {
        return "no JSON".to_owned(alloc);
    };
    match whole_number_at(&value, inputs.text(1)) {
        Some(number) => format!(in alloc; "number {number}"),
        None => "none".to_owned(alloc),
    }
}

/// `text JSON NAME`: the text under the name.
pub(crate) fn text(alloc: Global, inputs: &Inputs) -> Result<String, AllocError> {
    let Some(value) = document(alloc, inputs, 0)? else {
        return "no JSON".to_owned(alloc);
    };
    match text_at(&value, inputs.text(1)) {
        Some(text) => escaped(alloc, text.as_bytes()),
        None => "none".to_owned(alloc),
    }
}

/// `texts JSON NAME`: the texts of the array under the name, as compact JSON.
pub(crate) fn texts(alloc: Global, inputs: &Inputs) -> Result<String, AllocError> {
    let Some(value) = document(alloc, inputs, 0)? else {
        return "no JSON".to_owned(alloc);
    };
    match texts_at(alloc, &value, inputs.text(1))? {
        Some(texts) => {
            let written = texts_value(alloc, texts.as_slice())?.to_string(alloc)?;
            escaped(alloc, written.as_bytes())
        }
        None => "none".to_owned(alloc),
    }
}

/// `size TEXT`: whether it has 1 to 3 bytes.
pub(crate) fn size(alloc: Global, inputs: &Inputs) -> Result<String, AllocError> {
    yes_or_no(alloc, has_size(inputs.text(0), 1, 3))
}

/// `visible TEXT`: whether it is visible ASCII.
pub(crate) fn visible(alloc: Global, inputs: &Inputs) -> Result<String, AllocError> {
    yes_or_no(alloc, is_visible_text(inputs.text(0)))
}

/// `value JSON`: the value of the expression language that it gives.
pub(crate) fn value(alloc: Global, inputs: &Inputs) -> Result<String, AllocError> {
    let Some(json) = document(alloc, inputs, 0)? else {
        return "no JSON".to_owned(alloc);
    };
    let value = from_json(alloc, &json)?;
    format!(in alloc; "{value:?}")
}
