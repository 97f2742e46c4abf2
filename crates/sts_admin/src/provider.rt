ghost use Rattle.std.specs.Prelude.{◌≡◌, true, IfOk, option_map};
ghost use Rattle.std.specs.List.{list_all};
ghost use Rattle.serde_json.specs.View.{view};
ghost use Rattle.iam_names.specs.Forms.{is_attribute_name};
ghost use Rattle.json_text.specs.Reads.{Reads};
ghost use Rattle.sts_admin.specs.Answers.{Gives};
ghost use Rattle.sts_admin.specs.Providers as form;

use crate::command::{CommandFault, CommandMember};
use crate::expressions::expression;
use crate::mapping::{is_mapping, mapping_of};
use crate::members::{disabled_at, name_at};
use base_types::{Items, Text, both, has_size};
use cel_expression::Expression;
use cel_types::CelType;
use iam_names::{Audience, PoolIdForm, PoolName, ProjectForm};
use json_text::{ReadFault, ReadsJson, short_list, text_at, where_formed};
use pools::{Mapping, Provider, TokenIssuer, condition_names};
use serde_json::Value;
use service_config::{ConfigError, Key};
use service_view::Command;
use std::alloc::{AllocError, Global};

const AUDIENCES: usize = 10;

/// The form of an audience.
struct AudienceItem;

impl ReadsJson for AudienceItem {
    ghost use Rattle.sts_admin.specs.Providers.{audience_of};

    type Item = Text;

    ghost meaning = { audience_of };

    fn read_json(alloc: Global, json: &Value) -> Result<Text, ReadFault> {
        match json.as_str() {
            Some(text) if has_size(text, 1, 256) => Ok(Text::copy_of(alloc, text)?),
            _ => Err(ReadFault::Form),
        }
    }
}

fn audiences_at(alloc: Global, json: &Value) -> Result<Option<Items<Text>>, AllocError>
    ensures { IfOk result (λ found. found ≡ form.audiences_at (view json.now)) }
{
    match json.get("audiences") {
        None => Ok(Some(Items::new(alloc))),
        Some(audiences) => where_formed(short_list::<AudienceItem>(alloc, audiences, AUDIENCES)),
    }
}

fn issuer_at(alloc: Global, json: &Value) -> Result<Option<Text>, AllocError>
    ensures { IfOk result (λ found. found ≡ form.issuer_at (view json.now)) }
{
    match text_at(json, "issuer") {
        Some(text) if has_size(text, 1, 256) => Ok(Some(Text::copy_of(alloc, text)?)),
        _ => Ok(None),
    }
}

fn key_at(alloc: Global, json: &Value) -> Result<Option<Key>, AllocError>
    ensures { IfOk result (λ found. found ≡ form.key_at (view json.now)) }
{
    let Some(text) = text_at(json, "key") else {
        return Ok(None);
    };
    match Key::read(alloc, text) {
        Ok(key) => Ok(Some(key)),
        Err(ConfigError::Form) => Ok(None),
        Err(ConfigError::Memory) => Err(AllocError),
    }
}

#[tactic(auto, unfolding(crate::specs::Providers::name_of))]
fn name_of(alloc: Global, json: &Value) -> Result<Audience, CommandFault>
    ensures { Gives result (form.name_of (view json.now)) }
{
    let Some(project) = name_at::<ProjectForm>(alloc, json, "project")? else {
        return Err(CommandFault::Field(CommandMember::Project));
    };
    let Some(pool) = name_at::<PoolIdForm>(alloc, json, "pool")? else {
        return Err(CommandFault::Field(CommandMember::Pool));
    };
    let Some(provider) = name_at::<PoolIdForm>(alloc, json, "provider")? else {
        return Err(CommandFault::Field(CommandMember::Provider));
    };
    Ok(Audience {
        pool: PoolName { project, pool },
        provider,
    })
}

#[tactic(auto, unfolding(crate::specs::Providers::issuer_of))]
fn issuer_of(alloc: Global, json: &Value) -> Result<TokenIssuer, CommandFault>
    ensures { Gives result (form.issuer_of (view json.now)) }
{
    let Some(name) = issuer_at(alloc, json)? else {
        return Err(CommandFault::Field(CommandMember::Issuer));
    };
    let Some(key) = key_at(alloc, json)? else {
        return Err(CommandFault::Field(CommandMember::Key));
    };
    let Some(audiences) = audiences_at(alloc, json)? else {
        return Err(CommandFault::Field(CommandMember::Audiences));
    };
    Ok(TokenIssuer {
        name,
        key,
        audiences,
    })
}

fn has_mapping(json: &Value) -> bool
    ensures { result ≡ form.has_mapping (view json.now) }
{
    match json.get("mapping") {
        Some(mapping) => is_mapping(mapping),
        None => false,
    }
}

fn has_condition(json: &Value) -> bool
    ensures { result ≡ form.has_condition (view json.now) }
{
    match json.get("condition") {
        Some(condition) => condition.as_str().is_some(),
        None => true,
    }
}

// Whether the provider is disabled, where the mapping and the condition have their forms.
#[tactic(auto, unfolding(crate::specs::Providers::disabled_of))]
fn disabled_of(json: &Value) -> Result<bool, CommandFault>
    ensures { result ≡ form.disabled_of (view json.now) }
{
    if !has_mapping(json) {
        return Err(CommandFault::Field(CommandMember::Mapping));
    }
    if !has_condition(json) {
        return Err(CommandFault::Field(CommandMember::Condition));
    }
    match disabled_at(json) {
        Some(disabled) => Ok(disabled),
        None => Err(CommandFault::Field(CommandMember::Disabled)),
    }
}

fn mapping_at(alloc: Global, json: &Value) -> Result<Mapping, CommandFault>
    ensures read { Gives result (form.mapping_at (view json.now)) }
    ensures names { IfOk result (λ mapping. list_all (λ row. is_attribute_name row.0) mapping.attributes ≡ true) }
{
    let Some(mapping) = json.get("mapping") else {
        return Err(CommandFault::Expression(CommandMember::Mapping));
    };
    match mapping_of(alloc, mapping) {
        Ok(mapping) => Ok(mapping),
        Err(ReadFault::Form) => Err(CommandFault::Expression(CommandMember::Mapping)),
        Err(ReadFault::Memory) => Err(CommandFault::Memory),
    }
}

fn condition_by(alloc: Global, text: Option<&str>) -> Result<Option<Expression>, ReadFault>
    ensures { Reads result (form.condition_by (option_map (λ t. t.now) text.entry)) }
{
    let Some(text) = text else {
        return Ok(None);
    };
    let names = condition_names(alloc)?;
    Ok(Some(expression(alloc, text, names, CelType::Bool)?))
}

fn condition_at(alloc: Global, json: &Value) -> Result<Option<Expression>, CommandFault>
    ensures { Gives result (form.condition_at (view json.now)) }
{
    match condition_by(alloc, text_at(json, "condition")) {
        Ok(condition) => Ok(condition),
        Err(ReadFault::Form) => Err(CommandFault::Expression(CommandMember::Condition)),
        Err(ReadFault::Memory) => Err(CommandFault::Memory),
    }
}

/// What a provider does with the claims of its tokens.
#[derive(Debug, Drop)]
pub(crate) struct Treatment {
    pub(crate) mapping: Mapping,
    pub(crate) condition: Option<Expression>,
    pub(crate) disabled: bool,
}

#[tactic(auto, unfolding(crate::specs::Providers::treatment_of))]
fn treatment_of(alloc: Global, json: &Value) -> Result<Treatment, CommandFault>
    ensures read { Gives result (form.treatment_of (view json.now)) }
    ensures names { IfOk result (λ treatment. list_all (λ row. is_attribute_name row.0) treatment.mapping.attributes ≡ true) }
{
    let disabled = disabled_of(json)?;
    let mapping = mapping_at(alloc, json)?;
    let (mapping, condition) = both(Ok(mapping), condition_at(alloc, json))?;
    Ok(Treatment {
        mapping,
        condition,
        disabled,
    })
}

/// The provider that a command puts.
#[tactic(auto, unfolding(crate::specs::Providers::provider_command))]
pub(crate) fn provider_command(alloc: Global, json: &Value) -> Result<Command, CommandFault>
    ensures { Gives result (form.provider_command (view json.now)) }
{
    let name = name_of(alloc, json)?;
    let named = both(Ok(name), issuer_of(alloc, json))?;
    let ((name, issuer), treatment) = both(Ok(named), treatment_of(alloc, json))?;
    Ok(Command::Provider(Provider::new(
        name,
        issuer,
        treatment.mapping,
        treatment.condition,
        treatment.disabled,
    )))
}
