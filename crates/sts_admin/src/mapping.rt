ghost use Rattle.std.specs.Prelude.{◌≡◌, true, Some, IfOk, option_map, option_and_then};
ghost use Rattle.std.specs.List.{list_all};
ghost use Rattle.serde_json.specs.Find.{as_str};
ghost use Rattle.serde_json.specs.View.{view, members_view};
ghost use Rattle.iam_names.specs.Forms.{is_attribute_name};
ghost use Rattle.base_types.specs.Reading.{ReadsOr};
ghost use Rattle.cel_types.specs.declared.cel_type.CelType.{CelType as Kind};
ghost use Rattle.json_text.specs.Reads.{Reads, Refuses};
ghost use Rattle.sts_admin.specs.Mappings as form;

use crate::expressions::expression;
use base_types::{Boxed, TextMap, both, kept};
use cel_expression::Expression;
use cel_types::CelType;
use iam_names::{AttributeForm, Form};
use json_text::{ReadFault, text_at};
use pools::{Mapping, mapping_names};
use serde_json::{Map, Value};
use std::alloc::{AllocError, Global};

const KEYS: usize = 50;

// The name behind `attribute.`.
fn attribute_name(key: &str) -> Option<&str>
    ensures { option_map (λ name. name.now) result ≡ form.attribute_name key.now }
{
    let name = key.strip_prefix("attribute.")?;
    if AttributeForm::has_form(name) {
        Some(name)
    } else {
        None
    }
}

fn is_mapping_key(key: &str) -> bool
    ensures { result ≡ form.is_mapping_key key.now }
{
    key == "google.subject" || key == "google.groups" || attribute_name(key).is_some()
}

fn are_mapped(members: &Map<String, Value>) -> bool
    ensures { result ≡ form.are_mapped (members_view members.now.entries) }
{
    for (key, member) in members.iter() {
        if !is_mapping_key(key.as_str()) || member.as_str().is_none() {
            return false;
        }
    }
    true
}

/// Whether the value is an object of at most 50 texts under keys of a mapping, `google.subject` among them.
#[tactic(auto, using(crate::proofs::CountedMembers::count_members, crate::proofs::CountedMembers::get_in))]
pub(crate) fn is_mapping(json: &Value) -> bool
    ensures { result ≡ form.is_mapping (view json.now) }
{
    match json.as_object() {
        Some(members) => {
            members.len() <= KEYS && are_mapped(members) && json.get("google.subject").is_some()
        }
        None => false,
    }
}

fn mapped_text(alloc: Global, wanted: CelType, text: &str) -> Result<Expression, ReadFault>
    ensures { Reads result (form.mapped_text wanted text.now) }
{
    match mapping_names(alloc) {
        Ok(names) => expression(alloc, text, names, wanted),
        Err(AllocError) => {
            drop(wanted);
            Err(ReadFault::Memory)
        }
    }
}

fn subject_of(alloc: Global, json: &Value) -> Result<Expression, ReadFault>
    ensures { Reads result (form.subject_of (view json.now)) }
{
    match text_at(json, "google.subject") {
        Some(text) => mapped_text(alloc, CelType::Text, text),
        None => Err(ReadFault::Form),
    }
}

fn groups_by(alloc: Global, text: Option<&str>) -> Result<Option<Expression>, ReadFault>
    ensures { Reads result (form.groups_by (option_map (λ t. t.now) text.entry)) }
{
    let Some(text) = text else {
        return Ok(None);
    };
    let texts = CelType::List(Boxed::new(alloc, CelType::Text)?);
    Ok(Some(mapped_text(alloc, texts, text)?))
}

fn attribute_of(alloc: Global, member: &Value) -> Result<Expression, ReadFault>
    ensures { Reads result (option_and_then (form.mapped_text Kind.Text) (as_str (view member.now))) }
{
    match member.as_str() {
        Some(text) => mapped_text(alloc, CelType::Text, text),
        None => Err(ReadFault::Form),
    }
}

fn put_attribute(
    alloc: Global,
    found: &mut TextMap<Expression>,
    name: &str,
    member: &Value,
) -> Result<(), ReadFault>
    ensures { ReadsOr Refuses (λ done. found.new) result (form.with_attribute (Some name.now) (view member.now) found.old) }
{
    let attribute = attribute_of(alloc, member)?;
    let (name, attribute) = both(name.to_owned(alloc), Ok(attribute))?;
    found.insert(name, attribute)?;
    Ok(())
}

fn put_attributes(
    alloc: Global,
    found: &mut TextMap<Expression>,
    members: &Map<String, Value>,
) -> Result<(), ReadFault>
    ensures { ReadsOr Refuses (λ done. found.new) result (form.attributes_in (members_view members.now.entries) found.old) }
{
    for (key, member) in members.iter() {
        if let Some(name) = attribute_name(key.as_str()) {
            put_attribute(alloc, found, name, member)?;
        }
    }
    Ok(())
}

fn attributes_of(alloc: Global, json: &Value) -> Result<TextMap<Expression>, ReadFault>
    ensures { Reads result (form.attributes_of (view json.now)) }
{
    let Some(members) = json.as_object() else {
        return Err(ReadFault::Form);
    };
    let mut found = TextMap::new(alloc);
    let went = put_attributes(alloc, &mut found, members);
    kept(found, went)
}

/// The mapping's expressions.
#[tactic(auto, unfolding(crate::specs::Mappings::mapping_of))]
pub(crate) fn mapping_of(alloc: Global, json: &Value) -> Result<Mapping, ReadFault>
    ensures read { Reads result (form.mapping_of (view json.now)) }
    ensures names { IfOk result (λ mapping. list_all (λ row. is_attribute_name row.0) mapping.attributes ≡ true) }
{
    let subject = subject_of(alloc, json)?;
    let (subject, groups) = both(
        Ok(subject),
        groups_by(alloc, text_at(json, "google.groups")),
    )?;
    let ((subject, groups), attributes) = both(Ok((subject, groups)), attributes_of(alloc, json))?;
    Ok(Mapping {
        subject,
        groups,
        attributes,
    })
}
