ghost use Rattle.std.specs.Prelude.{◌≡◌, IfOk, codes, option_map};
ghost use Rattle.std.specs.List.{list_all};
ghost use Rattle.serde_json.specs.View.{view};
ghost use Rattle.base_types.specs.Forms.{has_size as size_is};
ghost use Rattle.json_text.specs.Reads.{Reads};
ghost use Rattle.access_token.specs.Forms as form;
ghost use Rattle.access_token.specs.Parts.{names_in as names_under, act_in, may_act_in};

use base_types::{Items, Text, has_size};
use iam_names::{Member, NameError};
use json_text::{ReadFault, text_at};
use serde_json::Value;
use std::alloc::{AllocError, Global};

const MAX_ACTORS: usize = 8;

/// The actors' names, the newest first.
pub(crate) fn act_at(alloc: Global, json: &Value) -> Result<Items<Text>, ReadFault>
    ensures { Reads result (act_in (view json.now)) }
{
    let names = names_in(alloc, "act", json.get("act"))?;
    if are_names(alloc, names.as_slice())? {
        Ok(names)
    } else {
        Err(ReadFault::Form)
    }
}

/// Those who may act, the next one first.
pub(crate) fn may_act_at(alloc: Global, json: &Value) -> Result<Items<Text>, ReadFault>
    ensures { Reads result (may_act_in (view json.now)) }
{
    let names = names_in(alloc, "may_act", json.get("may_act"))?;
    if are_actors(names.as_slice()) {
        Ok(names)
    } else {
        Err(ReadFault::Form)
    }
}

/// At most 8 names inside one another, the outermost first.
fn names_in(alloc: Global, name: &str, outermost: Option<&Value>) -> Result<Items<Text>, ReadFault>
    ensures { Reads result (names_under name.now 8 (option_map (λ value. view value.now) outermost.entry)) }
{
    let mut names = Items::new(alloc);
    let mut left = outermost;
    for _depth in 0..MAX_ACTORS {
        let Some(object) = left else {
            return Ok(names);
        };
        let Some(text) = text_at(object, "sub") else {
            return Err(ReadFault::Form);
        };
        names.push(Text::copy_of(alloc, text)?)?;
        left = object.get(name);
    }
    match left {
        None => Ok(names),
        Some(_) => Err(ReadFault::Form),
    }
}

fn are_names(alloc: Global, names: &[Text]) -> Result<bool, AllocError>
    ensures { IfOk result (λ holds. holds ≡ list_all form.is_name names.now) }
{
    for name in names {
        if !is_name(alloc, name.as_str())? {
            return Ok(false);
        }
    }
    Ok(true)
}

/// Whether it names a principal or a service account.
pub(crate) fn is_name(alloc: Global, text: &str) -> Result<bool, AllocError>
    ensures { IfOk result (λ holds. holds ≡ form.is_name text.now) }
{
    match Member::read(alloc, text) {
        Ok(member) => Ok(is_single(&member)),
        Err(NameError::Form) => Ok(false),
        Err(NameError::Memory) => Err(AllocError),
    }
}

fn is_single(member: &Member) -> bool
    ensures { result ≡ form.is_single member.now }
{
    match member {
        Member::Principal { .. } | Member::Account(_) => true,
        Member::Group { .. } | Member::Attribute { .. } | Member::Pool(_) => false,
    }
}

fn are_actors(names: &[Text]) -> bool
    ensures { result ≡ list_all (size_is 1 1024) names.now }
{
    names.iter().all(|name| has_size(name.as_str(), 1, 1024))
}
