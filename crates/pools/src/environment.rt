ghost use Rattle.std.specs.Prelude.{◌≡◌, ◌++◌, ◌∷◌, [], IfOk, OnOk, codes, map};
ghost use Rattle.cel_values.specs.declared.value.Value.{Value as Datum};
ghost use Rattle.cel_values.specs.declared.value.Value.TheViews as made;
ghost use Rattle.pools.specs.Environments as seen;

use base_types::{Items, Text, TextMap, kept};
use cel_expression::{bind, put_entry};
use cel_values::{Env, MapEntry, Value, copy};
use iam_names::Identity;
use std::alloc::{AllocError, Global};
use wif_claims::Claims;

/// The environment of a mapping: the claims as `assertion`.
pub(crate) fn mapping_env(alloc: Global, claims: &Claims) -> Result<Env, AllocError>
    ensures { IfOk result (λ env. env ≡ seen.mapping_env claims.now) }
{
    let tree = copy(alloc, &claims.tree)?;
    let mut env = Items::new(alloc);
    let went = bind(alloc, &mut env, "assertion", tree);
    kept(env, went)
}

/// Binds the identity's names behind the claims.
pub(crate) fn bind_identity(
    alloc: Global,
    env: &mut Env,
    identity: &Identity,
) -> Result<(), AllocError>
    ensures { OnOk result (env.new ≡ env.old ++ seen.identity_env identity.now) }
{
    let google = google_of(alloc, identity)?;
    bind(alloc, env, "google", google)?;
    let attributes = attributes_of(alloc, &identity.attributes)?;
    bind(alloc, env, "attribute", attributes)
}

// The groups and the subject.
fn google_of(alloc: Global, identity: &Identity) -> Result<Value, AllocError>
    ensures { IfOk result (λ value. value ≡ seen.google_of identity.now) }
{
    let mut entries = Items::new(alloc);
    let went = put_google(alloc, &mut entries, identity);
    Ok(Value::Map(kept(entries, went)?))
}

fn put_google(
    alloc: Global,
    entries: &mut Items<MapEntry>,
    identity: &Identity,
) -> Result<(), AllocError>
    ensures { OnOk result (entries.new ≡ entries.old ++ seen.google_entries identity.now) }
{
    let groups = texts_of(alloc, identity.groups.as_slice())?;
    put_entry(alloc, entries, "groups", Value::List(groups))?;
    let subject = identity.subject.copy(alloc)?;
    put_entry(alloc, entries, "subject", Value::Text(subject))
}

fn texts_of(alloc: Global, texts: &[Text]) -> Result<Items<Value>, AllocError>
    ensures { IfOk result (λ values. values ≡ map Datum.Text texts.now) }
{
    let mut values = Items::new(alloc);
    for text in texts {
        values.push(Value::Text(text.copy(alloc)?))?;
    }
    Ok(values)
}

fn attributes_of(alloc: Global, attributes: &TextMap<Text>) -> Result<Value, AllocError>
    ensures { IfOk result (λ value. value ≡ made.Map (map seen.attribute_entry attributes.now)) }
{
    let mut entries = Items::new(alloc);
    let went = put_attributes(alloc, &mut entries, attributes);
    Ok(Value::Map(kept(entries, went)?))
}

fn put_attributes(
    alloc: Global,
    entries: &mut Items<MapEntry>,
    attributes: &TextMap<Text>,
) -> Result<(), AllocError>
    ensures { OnOk result (entries.new ≡ entries.old ++ map seen.attribute_entry attributes.now) }
{
    for (name, text) in attributes.iter() {
        let text = text.copy(alloc)?;
        put_entry(alloc, entries, name.as_str(), Value::Text(text))?;
    }
    Ok(())
}
