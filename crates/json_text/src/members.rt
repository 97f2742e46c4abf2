ghost use Rattle.std.specs.Prelude.{◌≡◌, option_map, OnOk};
ghost use Rattle.serde_json.specs.Data.{string, put};
ghost use Rattle.serde_json.specs.View.{view, members_view};
ghost use Rattle.json_text.specs.Document.{text_at as text_member, whole_number_at as whole_number_member};
ghost use Rattle.json_text.specs.Members as members;

use serde_json::{Map, Value};
use std::alloc::{AllocError, Global};

const DATE_LIMIT: u64 = 1 << 53;

/// The text under a name.
pub fn text_at<'a>(value: &'a Value, name: &str) -> Option<&'a str>
    ensures { option_map (λ text. text.now) result ≡ text_member name.now (view value.now) }
{
    value.get(name).and_then(Value::as_str)
}

/// The whole number under a name: digits alone, below 2^64.
pub fn whole_number_at(value: &Value, name: &str) -> Option<u64>
    ensures { result ≡ whole_number_member name.now (view value.now) }
{
    value.get(name).and_then(Value::as_u64)
}

/// A boolean, and false where the member isn't there.
pub fn switch(member: Option<&Value>) -> Option<bool>
    ensures { result ≡ members.switch (option_map (λ value. view value.now) member.entry) }
{
    match member {
        None => Some(false),
        Some(value) => value.as_bool(),
    }
}

/// A whole number of seconds below 2^53.
pub fn date_of(value: &Value) -> Option<u64>
    ensures { result ≡ members.date_of (view value.now) }
{
    let seconds = value.as_u64()?;
    if seconds < DATE_LIMIT {
        Some(seconds)
    } else {
        None
    }
}

/// Puts a text under a name. The name is written as it stands.
pub fn put_text(
    alloc: Global,
    members: &mut Map<String, Value>,
    name: &str,
    text: &str,
) -> Result<(), AllocError>
    ensures { OnOk result (members_view members.new.entries
        ≡ put name.now (string text.now) (members_view members.old.entries)) }
{
    let value = Value::try_from_str(alloc, text)?;
    serde_json::put(members, alloc, name, value)
}
