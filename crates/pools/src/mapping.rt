ghost use Rattle.std.specs.Prelude.{◌≡◌};
ghost use Rattle.cel_eval.specs.Denotation.{denotation};
ghost use Rattle.base_types.specs.Steps.{needed};
ghost use Rattle.std.specs.Option.{option_copied};
ghost use Rattle.pools.specs.Answers.{Answers};
ghost use Rattle.pools.specs.Mapped as meant;
ghost use Rattle.pools.specs.declared.fault.MapFault.TheVariants as fault;

use crate::MapFault;
use crate::texts::{text_of, texts_of};
use base_types::{Items, Text, TextMap, both};
use cel_expression::Expression;
use cel_values::Env;
use iam_names::Identity;
use std::alloc::Global;

/// How claims become an identity: each expression sees the claims as `assertion`.
#[derive(Debug, Drop)]
pub struct Mapping {
    /// `google.subject`
    pub subject: Expression,
    /// `google.groups`
    pub groups: Option<Expression>,
    /// `attribute.NAME`, by their names.
    pub attributes: TextMap<Expression>,
}

/// The identity that the mapping gives in an environment, whatever its lengths.
#[tactic(auto, unfolding(crate::specs::Mapped::mapped))]
pub(crate) fn mapped(alloc: Global, mapping: &Mapping, env: &Env) -> Result<Identity, MapFault>
    ensures { Answers result (meant.mapped mapping.now env.now) }
{
    let subject = subject_of(alloc, &mapping.subject, env)?;
    let (subject, groups) = both(Ok(subject), groups_of(alloc, mapping.groups.as_ref(), env))?;
    let ((subject, groups), attributes) = both(
        Ok((subject, groups)),
        attributes_of(alloc, &mapping.attributes, env),
    )?;
    Ok(Identity {
        subject,
        groups,
        attributes,
    })
}

fn subject_of(alloc: Global, subject: &Expression, env: &Env) -> Result<Text, MapFault>
    ensures { Answers result (needed fault.Subject (meant.text_of (denotation subject.now.tree env.now))) }
{
    match text_of(alloc, &subject.tree, env)? {
        Some(text) => Ok(text),
        None => Err(MapFault::Subject),
    }
}

fn groups_of(alloc: Global, groups: Option<&Expression>, env: &Env) -> Result<Items<Text>, MapFault>
    ensures { Answers result (needed fault.Groups (meant.groups_of (option_copied groups.entry) env.now)) }
{
    let Some(groups) = groups else {
        return Ok(Items::new(alloc));
    };
    match texts_of(alloc, &groups.tree, env)? {
        Some(texts) => Ok(texts),
        None => Err(MapFault::Groups),
    }
}

fn attributes_of(
    alloc: Global,
    attributes: &TextMap<Expression>,
    env: &Env,
) -> Result<TextMap<Text>, MapFault>
    ensures { Answers result (meant.attributes_of attributes.now env.now) }
{
    // Its contract says that the names rise.
    let _ = attributes.len();
    let mut texts = TextMap::new(alloc);
    for (name, attribute) in attributes.iter() {
        let text = attribute_of(alloc, name.as_str(), attribute, env)?;
        texts.insert(name.as_str().to_owned(alloc)?, text)?;
    }
    Ok(texts)
}

fn attribute_of(
    alloc: Global,
    name: &str,
    attribute: &Expression,
    env: &Env,
) -> Result<Text, MapFault>
    ensures { Answers result (meant.attribute_of name.now attribute.now env.now) }
{
    match text_of(alloc, &attribute.tree, env)? {
        Some(text) => Ok(text),
        None => Err(MapFault::Attribute {
            name: Text::copy_of(alloc, name)?,
        }),
    }
}
