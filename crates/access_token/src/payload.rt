ghost use Rattle.std.specs.Prelude.{◌≡◌, ◌∷◌, map, option_map, IfOk, OnOk, codes};
ghost use Rattle.std.specs.Cmp.Lexicographic.{slice_cmp};
ghost use Rattle.std.specs.Ordering.{nat_cmp};
ghost use Rattle.std.specs.String.{string_bytes};
ghost use Rattle.std.specs.declared.cmp.Ordering.TheVariants.{Less};
ghost use Rattle.serde_json.specs.Data.{string, array, object, member, no_members};
ghost use Rattle.serde_json.specs.View.{view, members_view};
ghost use Rattle.iam_names.specs.PoolName.{pool_text};
ghost use Rattle.iam_names.specs.declared.who.Who.{Who as Whom};
ghost use Rattle.access_token.specs.Facts.{name_of};
ghost use Rattle.boundary.specs.Written.{items, optional, boundary_data};
ghost use Rattle.access_token.specs.Payload.{texts, nested, words_text as joined, last_words as last_of};
ghost use Rattle.access_token.specs.Payload.{attributes_data, who_data, wif_data, payload_data, payload_text};

use crate::Facts;
use base_types::{Items, Text, TextMap};
use boundary::{Boundary, boundary_value};
use iam_names::{Account, Identity, PoolName, ScopeWord, Who};
use json_text::put_text;
use serde_json::{Map, Value};
use std::alloc::{AllocError, Global};

/// Words with one space between.
pub fn words_text(alloc: Global, words: &[ScopeWord]) -> Result<Text, AllocError>
    ensures { IfOk result (λ text. text ≡ joined words.now) }
{
    let mut text = String::new(alloc);
    let Some((first, rest)) = words.split_first() else {
        return Ok(Text::new(text));
    };
    text.push_str(first.as_str())?;
    for word in rest {
        text.push_str(" ")?;
        text.push_str(word.as_str())?;
    }
    Ok(Text::new(text))
}

fn name_value(
    alloc: Global,
    member_name: &str,
    name: &str,
    next: Option<Value>,
) -> Result<Value, AllocError>
    requires { slice_cmp nat_cmp member_name.now (codes "sub") ≡ Less }
    ensures { IfOk result (λ value. view value ≡ object (
        optional member_name.now (option_map view next) (member (codes "sub") (string name.now) no_members))) }
{
    let mut members = Map::new(alloc);
    put_text(alloc, &mut members, "sub", name)?;
    if let Some(value) = next {
        serde_json::put(&mut members, alloc, member_name, value)?;
    }
    Ok(Value::Object(members))
}

/// Names inside one another, the first one outside, each under a name before `sub`.
pub(crate) fn names_value(
    alloc: Global,
    member_name: &str,
    names: &[Text],
) -> Result<Option<Value>, AllocError>
    requires { slice_cmp nat_cmp member_name.now (codes "sub") ≡ Less }
    ensures { IfOk result (λ found. option_map view found ≡ nested member_name.now names.now) }
{
    let mut found = None;
    for at in (0..names.len()).rev() {
        found = Some(name_value(alloc, member_name, names[at].as_str(), found)?);
    }
    Ok(found)
}

fn attributes_value(alloc: Global, attributes: &TextMap<Text>) -> Result<Value, AllocError>
    ensures { IfOk result (λ value. view value ≡ object (attributes_data attributes.now)) }
{
    // Its contract says that the names rise.
    let _ = attributes.len();
    let mut members = Map::new(alloc);
    for (name, value) in attributes.iter() {
        put_text(alloc, &mut members, name.as_str(), value.as_str())?;
    }
    Ok(Value::Object(members))
}

fn texts_value(alloc: Global, list: &[Text]) -> Result<Value, AllocError>
    ensures { IfOk result (λ value. view value ≡ texts list.now) }
{
    json_text::texts_value(alloc, list)
}

fn accounts_value(alloc: Global, accounts: &[Account]) -> Result<Value, AllocError>
    ensures { IfOk result (λ value. view value ≡ texts accounts.now) }
{
    let mut list = Vec::new(alloc);
    for account in accounts {
        serde_json::push(&mut list, Value::try_from_str(alloc, account.as_str())?)?;
    }
    Ok(Value::Array(list))
}

fn pools_value(alloc: Global, pools: &[PoolName]) -> Result<Value, AllocError>
    ensures { IfOk result (λ value. view value ≡ array (items (λ pool. string (pool_text pool)) pools.now)) }
{
    let mut list = Vec::new(alloc);
    for pool in pools {
        let text = pool.print(alloc)?;
        serde_json::push(&mut list, Value::try_from_str(alloc, text.as_str())?)?;
    }
    Ok(Value::Array(list))
}

fn scopes_value(alloc: Global, scopes: &[Items<ScopeWord>]) -> Result<Value, AllocError>
    ensures { IfOk result (λ value. view value ≡ array (items (λ words. string (joined words)) scopes.now)) }
{
    let mut list = Vec::new(alloc);
    for words in scopes {
        let text = words_text(alloc, words.as_slice())?;
        serde_json::push(&mut list, Value::try_from_str(alloc, text.as_str())?)?;
    }
    Ok(Value::Array(list))
}

#[tactic(auto, unfolding(crate::specs::Payload::who_data))]
fn outside_value(alloc: Global, pool: &PoolName, identity: &Identity) -> Result<Value, AllocError>
    ensures { IfOk result (λ value. view value ≡ who_data (Whom.Outside pool.now identity.now)) }
{
    let mut members = Map::new(alloc);
    let attributes = attributes_value(alloc, &identity.attributes)?;
    serde_json::put(&mut members, alloc, "attributes", attributes)?;
    let groups = texts_value(alloc, identity.groups.as_slice())?;
    serde_json::put(&mut members, alloc, "groups", groups)?;
    put_text(alloc, &mut members, "pool", pool.print(alloc)?.as_str())?;
    put_text(alloc, &mut members, "subject", identity.subject.as_str())?;
    Ok(Value::Object(members))
}

#[tactic(auto, unfolding(crate::specs::Payload::who_data))]
fn account_value(alloc: Global, account: &Account) -> Result<Value, AllocError>
    ensures { IfOk result (λ value. view value ≡ who_data (Whom.Account account.now)) }
{
    let mut members = Map::new(alloc);
    put_text(alloc, &mut members, "account", account.as_str())?;
    Ok(Value::Object(members))
}

fn who_value(alloc: Global, who: &Who) -> Result<Value, AllocError>
    ensures { IfOk result (λ value. view value ≡ who_data who.now) }
{
    match who {
        Who::Outside { pool, identity } => outside_value(alloc, pool, identity),
        Who::Account(account) => account_value(alloc, account),
    }
}

fn bounds_value(alloc: Global, bounds: &[Boundary]) -> Result<Value, AllocError>
    ensures { IfOk result (λ value. view value ≡ array (items boundary_data bounds.now)) }
{
    let mut list = Vec::new(alloc);
    for boundary in bounds {
        serde_json::push(&mut list, boundary_value(alloc, boundary)?)?;
    }
    Ok(Value::Array(list))
}

#[tactic(auto, unfolding(crate::specs::Payload::wif_data))]
fn wif_value(alloc: Global, facts: &Facts) -> Result<Value, AllocError>
    ensures { IfOk result (λ value. view value ≡ wif_data facts.now) }
{
    let mut members = Map::new(alloc);
    let accounts = accounts_value(alloc, facts.accounts.as_slice())?;
    serde_json::put(&mut members, alloc, "accounts", accounts)?;
    let bounds = bounds_value(alloc, facts.bounds.as_slice())?;
    serde_json::put(&mut members, alloc, "bounds", bounds)?;
    let pools = pools_value(alloc, facts.pools.as_slice())?;
    serde_json::put(&mut members, alloc, "pools", pools)?;
    let scopes = scopes_value(alloc, facts.scopes.as_slice())?;
    serde_json::put(&mut members, alloc, "scopes", scopes)?;
    let who = who_value(alloc, &facts.who)?;
    serde_json::put(&mut members, alloc, "who", who)?;
    Ok(Value::Object(members))
}

fn outside_name(alloc: Global, pool: &PoolName, identity: &Identity) -> Result<Text, AllocError>
    ensures { IfOk result (λ text. text ≡ name_of (Whom.Outside pool.now identity.now)) }
{
    let path = pool.path(alloc)?;
    let path = path.as_str();
    let subject = identity.subject.as_str();
    Ok(Text::new(format!(in alloc; "principal://{path}/subject/{subject}")?))
}

fn account_name(alloc: Global, account: &Account) -> Result<Text, AllocError>
    ensures { IfOk result (λ text. text ≡ name_of (Whom.Account account.now)) }
{
    let account = account.as_str();
    Ok(Text::new(format!(in alloc; "serviceAccount:{account}")?))
}

/// The name that a token shows as its subject: a principal's, or a service account's.
pub fn subject_name(alloc: Global, who: &Who) -> Result<Text, AllocError>
    ensures { IfOk result (λ text. text ≡ name_of who.now) }
{
    match who {
        Who::Outside { pool, identity } => outside_name(alloc, pool, identity),
        Who::Account(account) => account_name(alloc, account),
    }
}

/// The words of the last exchange.
#[tactic(auto, using(crate::proofs::Writing::last_words_at))]
pub fn last_words(scopes: &[Items<ScopeWord>]) -> &[ScopeWord]
    ensures { result.now ≡ last_of scopes.now }
{
    match scopes.last() {
        None => &[],
        Some(words) => words.as_slice(),
    }
}

#[tactic(auto, unfolding(crate::specs::Payload::payload_data))]
fn put_claims(
    alloc: Global,
    members: &mut Map<String, Value>,
    issuer: &str,
    facts: &Facts,
) -> Result<(), AllocError>
    requires { members_view members.old.entries ≡ no_members }
    ensures { OnOk result (object (members_view members.new.entries) ≡ payload_data issuer.now facts.now) }
{
    if let Some(actors) = names_value(alloc, "act", facts.act.as_slice())? {
        serde_json::put(members, alloc, "act", actors)?;
    }
    serde_json::put(members, alloc, "exp", Value::from(facts.exp))?;
    serde_json::put(members, alloc, "iat", Value::from(facts.iat))?;
    put_text(alloc, members, "iss", issuer)?;
    let number = facts.number;
    put_text(
        alloc,
        members,
        "jti",
        format!(in alloc; "{number}")?.as_str(),
    )?;
    if let Some(actors) = names_value(alloc, "may_act", facts.may_act.as_slice())? {
        serde_json::put(members, alloc, "may_act", actors)?;
    }
    let scope = words_text(alloc, last_words(facts.scopes.as_slice()))?;
    put_text(alloc, members, "scope", scope.as_str())?;
    put_text(alloc, members, "sub", facts.sub.as_str())?;
    serde_json::put(members, alloc, "wif", wif_value(alloc, facts)?)
}

/// The payload of a token that says these facts, as a compact JSON text (RFC 7519; RFC 8693, section 4).
pub fn write_payload(alloc: Global, issuer: &str, facts: &Facts) -> Result<Text, AllocError>
    ensures { IfOk result (λ text. text ≡ payload_text issuer.now facts.now) }
{
    let mut members = Map::new(alloc);
    put_claims(alloc, &mut members, issuer, facts)?;
    Ok(Text::new(Value::Object(members).to_string(alloc)?))
}
