ghost use Rattle.std.specs.Prelude.{◌≡◌, codes, option_and_then};
ghost use Rattle.std.specs.List.{list_all};
ghost use Rattle.serde_json.specs.Find.{get as member};
ghost use Rattle.serde_json.specs.View.{view};
ghost use Rattle.base_types.specs.Forms.{has_size as size_is};
ghost use Rattle.json_text.specs.Reads.{Reads};
ghost use Rattle.access_token.specs.Parts.{who_in, outside_in, groups_at as groups_under, pool_at as pool_under, subject_at as subject_under};

use crate::attributes::attributes_at;
use crate::names::named;
use crate::wif::pool_of;
use base_types::{Items, Text, both, has_size};
use iam_names::{Account, Identity, PoolName, Who};
use json_text::{ReadFault, text_at, texts_at};
use serde_json::Value;
use std::alloc::Global;

/// Whom the token is of.
pub(crate) fn who_at(alloc: Global, wif: &Value) -> Result<Who, ReadFault>
    ensures { Reads result (option_and_then who_in (member (codes "who") (view wif.now))) }
{
    match wif.get("who") {
        Some(who) => who_of(alloc, who),
        None => Err(ReadFault::Form),
    }
}

fn who_of(alloc: Global, json: &Value) -> Result<Who, ReadFault>
    ensures { Reads result (who_in (view json.now)) }
{
    match text_at(json, "account") {
        Some(account) => Ok(Who::Account(named(Account::read(alloc, account))?)),
        None => outside_of(alloc, json),
    }
}

#[tactic(auto, unfolding(crate::specs::Parts::outside_in))]
fn outside_of(alloc: Global, json: &Value) -> Result<Who, ReadFault>
    ensures { Reads result (outside_in (view json.now)) }
{
    let mapped = both(attributes_at(alloc, json), groups_at(alloc, json));
    let placed = both(pool_at(alloc, json), subject_at(alloc, json));
    let ((attributes, groups), (pool, subject)) = both(mapped, placed)?;
    let identity = Identity {
        subject,
        groups,
        attributes,
    };
    Ok(Who::Outside { pool, identity })
}

fn groups_at(alloc: Global, json: &Value) -> Result<Items<Text>, ReadFault>
    ensures { Reads result (groups_under (view json.now)) }
{
    match texts_at(alloc, json, "groups")? {
        Some(groups) if are_groups(groups.as_slice()) => Ok(groups),
        _ => Err(ReadFault::Form),
    }
}

fn are_groups(groups: &[Text]) -> bool
    ensures { result ≡ list_all (size_is 1 256) groups.now }
{
    groups.iter().all(|group| has_size(group.as_str(), 1, 256))
}

fn pool_at(alloc: Global, json: &Value) -> Result<PoolName, ReadFault>
    ensures { Reads result (pool_under (view json.now)) }
{
    match json.get("pool") {
        Some(pool) => pool_of(alloc, pool),
        None => Err(ReadFault::Form),
    }
}

fn subject_at(alloc: Global, json: &Value) -> Result<Text, ReadFault>
    ensures { Reads result (subject_under (view json.now)) }
{
    match text_at(json, "subject") {
        Some(subject) if has_size(subject, 1, 127) => Ok(Text::copy_of(alloc, subject)?),
        _ => Err(ReadFault::Form),
    }
}
