ghost use Rattle.std.specs.Prelude.{◌≡◌, ◌≢◌, Option, Some, Ok, Err, IfOk, IfErr, codes, is_some, option_and_then, option_map};
ghost use Rattle.base_types.specs.Steps.{needed as needed_at};
ghost use Rattle.iam_names.specs.Audience.{audience_of};
ghost use Rattle.json_text.specs.Document.{text_at as text_member};
ghost use Rattle.json_text.specs.Members.{name_at};
ghost use Rattle.json_text.specs.Reads.{Reads};
ghost use Rattle.serde_json.specs.Find.{get};
ghost use Rattle.serde_json.specs.View.{view};
ghost use Rattle.client_proto.specs.ClientFile as file;
ghost use Rattle.client_proto.specs.ClientFile.{Gives, client_of, config_of};
ghost use Rattle.client_proto.specs.declared.fault.ClientMember.TheVariants as member;
ghost use Rattle.client_proto.specs.declared.fault.ConfigFault.TheVariants.{Field};

use crate::config::{ClientConfig, Sources, Url};
use crate::fault::{ClientMember, ConfigFault};
use crate::url_text::read_url;
use base_types::{Text, both};
use iam_names::{Audience, NameError};
use json_text::{DocumentFault, ReadFault, read_document, text_at};
use serde_json::Value;
use std::alloc::Global;

/// What a client's file says, a JSON object, or the first member that isn't of its form:
///
/// - `type`, the text `external_account`,
/// - `audience`, a provider's full name,
/// - `subject_token_type`, the type of a JWT or of an ID token,
/// - `token_url`, a URL `http://HOST[:PORT]PATH`,
/// - `credential_source`, an object with a text `file` and perhaps a `format`, whose `type` is `text`, or `json` beside a text
///   `subject_token_field_name`,
/// - and perhaps `service_account_impersonation_url`, a URL as the other.
///
/// Other members don't count. A URL that begins with `https:` is told apart.
pub fn read_config(alloc: Global, bytes: &[u8]) -> Result<ClientConfig, ConfigFault>
    ensures exact { Gives result (client_of bytes.now) }
    ensures read { IfOk result (λ config. client_of bytes.now ≡ Ok config) }
    ensures refused { IfErr result (λ fault. fault ≢ ConfigFault.Memory → client_of bytes.now ≡ Err fault) }
{
    client_from(alloc, bytes)
}

#[tactic(auto, unfolding(crate::specs::ClientFile::client_of))]
fn client_from(alloc: Global, bytes: &[u8]) -> Result<ClientConfig, ConfigFault>
    ensures { Gives result (client_of bytes.now) }
{
    match read_document(alloc, bytes) {
        Ok(json) => config_from(alloc, &json),
        Err(DocumentFault::NoJson) => Err(ConfigFault::Json),
        Err(DocumentFault::Memory) => Err(ConfigFault::Memory),
    }
}

#[tactic(auto, unfolding(crate::specs::ClientFile::config_of))]
fn config_from(alloc: Global, json: &Value) -> Result<ClientConfig, ConfigFault>
    ensures { Gives result (config_of (view json.now)) }
{
    if !json.is_object() {
        return Err(ConfigFault::Json);
    }
    if !has_kind(json) {
        return Err(ConfigFault::Field(ClientMember::FileType));
    }
    let names = both(audience_at(alloc, json), token_type_at(alloc, json));
    let ((audience, token_type), at) = both(names, sources_from(alloc, json))?;
    Ok(ClientConfig {
        audience,
        token_type,
        token: at.token,
        file: at.file,
        field: at.field,
        account: at.account,
    })
}

// Where the tokens are asked for.
#[tactic(auto, unfolding(crate::specs::ClientFile::sources_of))]
fn sources_from(alloc: Global, json: &Value) -> Result<Sources, ConfigFault>
    ensures { Gives result (file.sources_of (view json.now)) }
{
    let token = needed_url(alloc, ClientMember::TokenUrl, json.get("token_url"));
    let source = source_at(alloc, json);
    let account = json.get("service_account_impersonation_url");
    let account = optional_url(alloc, ClientMember::ImpersonationUrl, account);
    let (token, ((file, field), account)) = both(token, both(source, account))?;
    Ok(Sources {
        token,
        file,
        field,
        account,
    })
}

fn has_kind(json: &Value) -> bool
    ensures { result ≡ is_some (name_at file.is_kind (codes "type") (view json.now)) }
{
    match text_at(json, "type") {
        Some(kind) => kind == "external_account",
        None => false,
    }
}

// What was read, or the fault of the member that isn't of its form.
fn formed<T: Drop>(read: Result<T, ReadFault>, member: ClientMember) -> Result<T, ConfigFault>
    ensures { (there : Option T) → Reads read there → Gives result (needed_at (Field member) there) }
{
    match read {
        Ok(value) => Ok(value),
        Err(ReadFault::Form) => Err(ConfigFault::Field(member)),
        Err(ReadFault::Memory) => Err(ConfigFault::Memory),
    }
}

fn audience_at(alloc: Global, json: &Value) -> Result<Audience, ConfigFault>
    ensures { Gives result (needed_at (Field member.Audience)
        (option_and_then audience_of (text_member (codes "audience") (view json.now)))) }
{
    let Some(text) = text_at(json, "audience") else {
        return Err(ConfigFault::Field(ClientMember::Audience));
    };
    match Audience::read(alloc, text) {
        Ok(audience) => Ok(audience),
        Err(NameError::Form) => Err(ConfigFault::Field(ClientMember::Audience)),
        Err(NameError::Memory) => Err(ConfigFault::Memory),
    }
}

fn is_token_type(text: &str) -> bool
    ensures { result ≡ file.is_token_type text.now }
{
    text == "urn:ietf:params:oauth:token-type:jwt"
        || text == "urn:ietf:params:oauth:token-type:id_token"
}

fn token_type_at(alloc: Global, json: &Value) -> Result<Text, ConfigFault>
    ensures { Gives result (needed_at (Field member.SubjectTokenType)
        (name_at file.is_token_type (codes "subject_token_type") (view json.now))) }
{
    let Some(text) = text_at(json, "subject_token_type") else {
        return Err(ConfigFault::Field(ClientMember::SubjectTokenType));
    };
    if is_token_type(text) {
        Ok(Text::copy_of(alloc, text)?)
    } else {
        Err(ConfigFault::Field(ClientMember::SubjectTokenType))
    }
}

fn url_in(alloc: Global, member: ClientMember, text: &str) -> Result<Url, ConfigFault>
    ensures { Gives result (file.url_in member text.now) }
{
    if text.starts_with("https:") {
        return Err(ConfigFault::Tls(member));
    }
    formed(read_url(alloc, text), member)
}

fn url_member(alloc: Global, member: ClientMember, json: &Value) -> Result<Url, ConfigFault>
    ensures { Gives result (file.url_member member (view json.now)) }
{
    match json.as_str() {
        Some(text) => url_in(alloc, member, text),
        None => Err(ConfigFault::Field(member)),
    }
}

fn needed_url(
    alloc: Global,
    member: ClientMember,
    found: Option<&Value>,
) -> Result<Url, ConfigFault>
    ensures { Gives result (file.needed_url member (option_map (λ json. view json.now) found.entry)) }
{
    match found {
        Some(json) => url_member(alloc, member, json),
        None => Err(ConfigFault::Field(member)),
    }
}

fn optional_url(
    alloc: Global,
    member: ClientMember,
    found: Option<&Value>,
) -> Result<Option<Url>, ConfigFault>
    ensures { Gives result (file.optional_url member (option_map (λ json. view json.now) found.entry)) }
{
    match found {
        Some(json) => Ok(Some(url_member(alloc, member, json)?)),
        None => Ok(None),
    }
}

fn source_at(alloc: Global, json: &Value) -> Result<(Text, Option<Text>), ConfigFault>
    ensures { Gives result (needed_at (Field member.CredentialSource)
        (option_and_then file.source_of (get (codes "credential_source") (view json.now)))) }
{
    match json.get("credential_source") {
        Some(source) => formed(source_from(alloc, source), ClientMember::CredentialSource),
        None => Err(ConfigFault::Field(ClientMember::CredentialSource)),
    }
}

fn copied(alloc: Global, text: &str) -> Result<Text, ReadFault>
    ensures { Reads result (Some text.now) }
{
    Ok(Text::copy_of(alloc, text)?)
}

fn source_from(alloc: Global, source: &Value) -> Result<(Text, Option<Text>), ReadFault>
    ensures { Reads result (file.source_of (view source.now)) }
{
    let Some(name) = text_at(source, "file") else {
        return Err(ReadFault::Form);
    };
    both(copied(alloc, name), field_from(alloc, source.get("format")))
}

fn field_from(alloc: Global, format: Option<&Value>) -> Result<Option<Text>, ReadFault>
    ensures { Reads result (file.field_of (option_map (λ json. view json.now) format.entry)) }
{
    let Some(format) = format else {
        return Ok(None);
    };
    match text_at(format, "type") {
        Some(kind) => field_as(alloc, kind, format),
        None => Err(ReadFault::Form),
    }
}

fn field_as(alloc: Global, kind: &str, format: &Value) -> Result<Option<Text>, ReadFault>
    ensures { Reads result (file.field_as kind.now (view format.now)) }
{
    match kind {
        "text" => Ok(None),
        "json" => match text_at(format, "subject_token_field_name") {
            Some(field) => Ok(Some(Text::copy_of(alloc, field)?)),
            None => Err(ReadFault::Form),
        },
        _ => Err(ReadFault::Form),
    }
}
