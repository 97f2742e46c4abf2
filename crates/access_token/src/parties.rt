ghost use Rattle.serde_json.specs.View.{view};
ghost use Rattle.json_text.specs.Reads.{Reads};
ghost use Rattle.access_token.specs.Parts.{parties_in, sub_in};

use crate::actors::{act_at, is_name, may_act_at};
use base_types::{Items, Text, both};
use json_text::{ReadFault, text_at};
use serde_json::Value;
use std::alloc::Global;

/// Whom a token names.
#[derive(Drop)]
pub(crate) struct Parties {
    pub(crate) sub: Text,
    pub(crate) act: Items<Text>,
    pub(crate) may_act: Items<Text>,
}

/// Whom a payload's tree names.
#[tactic(auto, unfolding(crate::specs::Parts::parties_in))]
pub(crate) fn parties_at(alloc: Global, json: &Value) -> Result<Parties, ReadFault>
    ensures { Reads result (parties_in (view json.now)) }
{
    let actors = both(act_at(alloc, json), may_act_at(alloc, json));
    let ((act, may_act), sub) = both(actors, sub_at(alloc, json))?;
    Ok(Parties { sub, act, may_act })
}

// The name of the subject.
fn sub_at(alloc: Global, json: &Value) -> Result<Text, ReadFault>
    ensures { Reads result (sub_in (view json.now)) }
{
    let Some(name) = text_at(json, "sub") else {
        return Err(ReadFault::Form);
    };
    if is_name(alloc, name)? {
        Ok(Text::copy_of(alloc, name)?)
    } else {
        Err(ReadFault::Form)
    }
}
