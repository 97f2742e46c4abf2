ghost use Rattle.std.specs.Prelude.{◌≡◌, IfOk, is_some, option_map, option_and_then};
ghost use Rattle.std.specs.Option.{option_copied};
ghost use Rattle.serde_json.specs.View.{view};
ghost use Rattle.json_text.specs.Reads.{Reads};
ghost use Rattle.sts_admin.specs.Bindings as form;

use crate::expressions::expression;
use crate::members::name_at;
use allow_policy::{Binding, condition_names};
use base_types::{Items, Text};
use cel_expression::Expression;
use cel_types::CelType;
use iam_names::{Member, NameError, Role, RoleForm};
use json_text::{ReadFault, ReadsJson, short_list, text_at, where_formed};
use serde_json::Value;
use std::alloc::{AllocError, Global};

const BINDINGS: usize = 64;

const MEMBERS: usize = 64;

/// The form of a member.
struct MemberItem;

impl ReadsJson for MemberItem {
    ghost use Rattle.sts_admin.specs.Bindings.{binding_member};

    type Item = Member;

    ghost meaning = { binding_member };

    #[tactic(auto, unfolding(crate::specs::Bindings::binding_member))]
    fn read_json(alloc: Global, json: &Value) -> Result<Member, ReadFault> {
        let Some(text) = json.as_str() else {
            return Err(ReadFault::Form);
        };
        match Member::read(alloc, text) {
            Ok(member) => Ok(member),
            Err(NameError::Form) => Err(ReadFault::Form),
            Err(NameError::Memory) => Err(ReadFault::Memory),
        }
    }
}

fn members_of(alloc: Global, json: &Value) -> Result<Option<Items<Member>>, AllocError>
    ensures { IfOk result (λ found. found ≡ form.members_of (view json.now)) }
{
    where_formed(short_list::<MemberItem>(alloc, json, MEMBERS))
}

fn members_at(alloc: Global, json: &Value) -> Result<Option<Items<Member>>, AllocError>
    ensures { IfOk result (λ found. found ≡ form.members_at (view json.now)) }
{
    match json.get("members") {
        None => Ok(None),
        Some(members) => members_of(alloc, members),
    }
}

/// A binding as it is written: its condition is a text.
#[derive(Debug, Drop)]
pub(crate) struct WrittenBinding {
    pub(crate) role: Role,
    pub(crate) members: Items<Member>,
    pub(crate) condition: Option<Text>,
}

fn condition_text(alloc: Global, condition: Option<&Value>) -> Result<Option<Text>, ReadFault>
    ensures { Reads result (form.condition_text (option_map (λ json. view json.now) condition.entry)) }
{
    let Some(condition) = condition else {
        return Ok(None);
    };
    match text_at(condition, "expression") {
        Some(text) => Ok(Some(Text::copy_of(alloc, text)?)),
        None => Err(ReadFault::Form),
    }
}

/// The form in which a binding is written.
struct WrittenItem;

impl ReadsJson for WrittenItem {
    ghost use Rattle.sts_admin.specs.Bindings.{written_binding};

    type Item = WrittenBinding;

    ghost meaning = { written_binding };

    #[tactic(auto, unfolding(crate::specs::Bindings::written_binding))]
    fn read_json(alloc: Global, json: &Value) -> Result<WrittenBinding, ReadFault> {
        let Some(role) = name_at::<RoleForm>(alloc, json, "role")? else {
            return Err(ReadFault::Form);
        };
        let Some(members) = members_at(alloc, json)? else {
            drop(role);
            return Err(ReadFault::Form);
        };
        match condition_text(alloc, json.get("condition")) {
            Ok(condition) => Ok(WrittenBinding {
                role,
                members,
                condition,
            }),
            Err(fault) => {
                drop(role);
                drop(members);
                Err(fault)
            }
        }
    }
}

fn condition_by(alloc: Global, text: Option<&Text>) -> Result<Option<Expression>, ReadFault>
    ensures { Reads result (form.condition_by (option_copied text.entry)) }
{
    let Some(text) = text else {
        return Ok(None);
    };
    let names = condition_names(alloc)?;
    let condition = expression(alloc, text.as_str(), names, CelType::Bool)?;
    Ok(Some(condition))
}

#[tactic(auto, unfolding(crate::specs::Bindings::binding_of))]
fn binding_of(alloc: Global, written: WrittenBinding) -> Result<Binding, ReadFault>
    ensures { Reads result (form.binding_of written) }
{
    match condition_by(alloc, written.condition.as_ref()) {
        Ok(condition) => Ok(Binding {
            role: written.role,
            members: written.members,
            condition,
        }),
        Err(fault) => {
            drop(written);
            Err(fault)
        }
    }
}

/// The form of a binding with its expression.
struct BindingItem;

impl ReadsJson for BindingItem {
    ghost use Rattle.sts_admin.specs.Bindings.{binding_in};

    type Item = Binding;

    ghost meaning = { binding_in };

    fn read_json(alloc: Global, json: &Value) -> Result<Binding, ReadFault> {
        let written = WrittenItem::read_json(alloc, json)?;
        binding_of(alloc, written)
    }
}

/// Whether the bindings under `bindings` have their form.
pub(crate) fn has_bindings(alloc: Global, json: &Value) -> Result<bool, AllocError>
    ensures { IfOk result (λ has. has ≡ is_some (form.written_at (view json.now))) }
{
    let Some(bindings) = json.get("bindings") else {
        return Ok(false);
    };
    match where_formed(short_list::<WrittenItem>(alloc, bindings, BINDINGS))? {
        Some(written) => {
            drop(written);
            Ok(true)
        }
        None => Ok(false),
    }
}

/// The bindings under `bindings`, where they have their form and each condition is an expression.
pub(crate) fn bindings_at(alloc: Global, json: &Value) -> Result<Option<Items<Binding>>, AllocError>
    ensures { IfOk result (λ found. found ≡ option_and_then form.bindings_of (form.written_at (view json.now))) }
{
    match json.get("bindings") {
        None => Ok(None),
        Some(bindings) => where_formed(short_list::<BindingItem>(alloc, bindings, BINDINGS)),
    }
}
