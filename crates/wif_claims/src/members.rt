ghost use Rattle.std.specs.Prelude.{◌≡◌, option_map, option_and_then, IfOk, IfSome, IsUtf8};
ghost use Rattle.std.specs.List.{AllByRecursion};
ghost use Rattle.serde_json.specs.View.{view};
ghost use Rattle.json_text.specs.Members.{date_of as date_member};
ghost use Rattle.wif_claims.specs.Payload.{optional_date as optional_date_member, audiences, actor_of, actors};

use base_types::{Items, Text, has_size};
use json_text::{date_of, text_at, texts_of_items};
use serde_json::Value;
use std::alloc::{AllocError, Global};

const MAX_ACTORS: usize = 8;

pub(crate) fn needed_date(member: Option<&Value>) -> Option<u64>
    ensures { result ≡ option_and_then date_member (option_map (λ v. view v.now) member.entry) }
{
    match member {
        None => None,
        Some(value) => date_of(value),
    }
}

pub(crate) fn optional_date(member: Option<&Value>) -> Option<Option<u64>>
    ensures { result ≡ optional_date_member (option_map (λ v. view v.now) member.entry) }
{
    match member {
        None => Some(None),
        Some(value) => match date_of(value) {
            None => None,
            Some(date) => Some(Some(date)),
        },
    }
}

pub(crate) fn audiences_of(
    alloc: Global,
    member: Option<&Value>,
) -> Result<Option<Items<Text>>, AllocError>
    ensures { IfOk result (λ found. found ≡ audiences (option_map (λ v. view v.now) member.entry)) }
{
    let mut texts = Items::new(alloc);
    match member {
        None => Ok(Some(texts)),
        Some(Value::String(text)) => {
            texts.push(Text::copy_of(alloc, text.as_str())?)?;
            Ok(Some(texts))
        }
        Some(Value::Array(items)) => texts_of_items(alloc, items.as_slice()),
        Some(_) => Ok(None),
    }
}

fn actor_of_object(object: &Value) -> Option<&str>
    ensures found { option_map (λ text. text.now) result ≡ actor_of (view object.now) }
    ensures utf8 { IfSome result (λ text. IsUtf8 text.now) }
{
    let sub = text_at(object, "sub")?;
    if has_size(sub, 1, 1024) {
        Some(sub)
    } else {
        None
    }
}

pub(crate) fn actors_of(
    alloc: Global,
    member: Option<&Value>,
) -> Result<Option<Items<Text>>, AllocError>
    ensures found { IfOk result (λ found. found ≡ actors 8 (option_map (λ v. view v.now) member.entry)) }
    ensures utf8 { IfOk result (λ found. IfSome found (λ texts. AllByRecursion IsUtf8 texts)) }
{
    let mut found = Items::new(alloc);
    let mut left = member;
    for _depth in 0..MAX_ACTORS {
        let Some(object) = left else {
            return Ok(Some(found));
        };
        let Some(actor) = actor_of_object(object) else {
            return Ok(None);
        };
        found.push(Text::copy_of(alloc, actor)?)?;
        left = object.get("may_act");
    }
    match left {
        None => Ok(Some(found)),
        Some(_) => Ok(None),
    }
}
