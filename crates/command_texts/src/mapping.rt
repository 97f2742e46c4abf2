ghost use Rattle.std.specs.Prelude.{◌≡◌, ◌++◌, IfOk, OnOk, codes};
ghost use Rattle.serde_json.specs.Data.{no_members, put};
ghost use Rattle.serde_json.specs.View.{view, members_view};
ghost use Rattle.command_texts.specs.Written as written;

use base_types::TextMap;
use cel_expression::Expression;
use json_text::put_text;
use pools::Mapping;
use serde_json::{Map, Value};
use std::alloc::{AllocError, Global};

fn put_attribute(
    alloc: Global,
    members: &mut Map<String, Value>,
    name: &str,
    attribute: &Expression,
) -> Result<(), AllocError>
    ensures { OnOk result (members_view members.new.entries
        ≡ put (codes "attribute." ++ name.now) (written.expression_data attribute.now)
        (members_view members.old.entries)) }
{
    let full_name = format!(in alloc; "attribute.{name}")?;
    put_text(alloc, members, full_name.as_str(), attribute.text.as_str())
}

fn put_attributes(
    alloc: Global,
    members: &mut Map<String, Value>,
    attributes: &TextMap<Expression>,
) -> Result<(), AllocError>
    requires { members_view members.old.entries ≡ no_members }
    ensures { OnOk result (members_view members.new.entries ≡ written.with_attributes attributes.now no_members) }
{
    // Its contract says that the names rise.
    let _ = attributes.len();
    for (name, attribute) in attributes.iter() {
        put_attribute(alloc, members, name.as_str(), attribute)?;
    }
    Ok(())
}

fn put_mapping(
    alloc: Global,
    members: &mut Map<String, Value>,
    mapping: &Mapping,
) -> Result<(), AllocError>
    requires { members_view members.old.entries ≡ no_members }
    ensures { OnOk result (members_view members.new.entries ≡ written.mapping_members mapping.now) }
{
    put_attributes(alloc, members, &mapping.attributes)?;
    if let Some(groups) = &mapping.groups {
        put_text(alloc, members, "google.groups", groups.text.as_str())?;
    }
    put_text(
        alloc,
        members,
        "google.subject",
        mapping.subject.text.as_str(),
    )
}

/// The object of a provider's mapping.
#[tactic(auto, unfolding(crate::specs::Written::mapping_data))]
pub(crate) fn mapping_value(alloc: Global, mapping: &Mapping) -> Result<Value, AllocError>
    ensures { IfOk result (λ value. view value ≡ written.mapping_data mapping.now) }
{
    let mut members = Map::new(alloc);
    put_mapping(alloc, &mut members, mapping)?;
    Ok(Value::Object(members))
}
