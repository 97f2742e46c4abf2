ghost use Rattle.std.specs.Prelude.{◌≡◌, true, IfOk, IfErr, IsErrOf, IsOkAnd, codes, option_and_then, option_map};
ghost use Rattle.serde_json.specs.View.{view};
ghost use Rattle.json_text.specs.Document.{text_at as text_member};
ghost use Rattle.service_config.specs.Configuration.{IsConfiguration, Reads, config_of, start_at, start_of, key_of, issuer_of, secret_of, is_secret as secret_form};
ghost use Rattle.service_config.specs.Formed.{IsFormedConfig, IsFormedIssuer, IsFormedProvider, IsFormedStart};
ghost use Rattle.iam_names.specs.PoolName.{pool_of, is_pool_name};
ghost use Rattle.iam_names.specs.Forms.{is_id};
ghost use Rattle.base_types.specs.Forms.{passing};

use crate::{Config, ConfigError, Key, StartProvider};
use base_types::{Text, has_size, is_visible_text};
use iam_names::{NameError, PoolName, ProviderId};
use json_text::{DocumentFault, read_document, text_at};
use serde_json::Value;
use std::alloc::{AllocError, Global};

const CONFIG_LIMIT: usize = 65536;

/// Reads the service's configuration, a JSON object of at most 65,536 bytes. `Form` comes exactly where
/// the bytes are none.
pub fn read_service_config(alloc: Global, bytes: &[u8]) -> Result<Config, ConfigError>
    ensures found { IfOk result (IsConfiguration bytes.now) }
    ensures formed { IfOk result IsFormedConfig }
    ensures form { IsErrOf result ConfigError.Form → (config : _) → IsConfiguration bytes.now config → ⊥ }
{
    if bytes.len() > CONFIG_LIMIT {
        return Err(ConfigError::Form);
    }
    match read_document(alloc, bytes) {
        Ok(json) => config_from(alloc, &json),
        Err(DocumentFault::NoJson) => Err(ConfigError::Form),
        Err(DocumentFault::Memory) => Err(ConfigError::Memory),
    }
}

#[tactic(auto, unfolding(crate::specs::Configuration::config_of))]
fn config_from(alloc: Global, json: &Value) -> Result<Config, ConfigError>
    ensures read { Reads (λ config. config) result (config_of (view json.now)) }
    ensures formed { IfOk result IsFormedConfig }
{
    let issuer = issuer_at(json)?;
    let admin = secret_at(json, "admin")?;
    let gate = secret_at(json, "gate")?;
    let key = key_at(alloc, json)?;
    match start_from(alloc, json) {
        Ok(start) => assembled(copy_texts(alloc, issuer, admin, gate), key, start),
        Err(fault) => {
            drop(key);
            Err(fault)
        }
    }
}

// The issuer and the secrets.
#[derive(Debug, Drop)]
struct Texts {
    issuer: Text,
    admin: Text,
    gate: Text,
}

fn copy_texts(alloc: Global, issuer: &str, admin: &str, gate: &str) -> Result<Texts, AllocError>
    ensures { IfOk result (λ texts. texts ≡ record { issuer = issuer.now; admin = admin.now; gate = gate.now }) }
{
    let issuer = Text::copy_of(alloc, issuer)?;
    let admin = Text::copy_of(alloc, admin)?;
    let gate = Text::copy_of(alloc, gate)?;
    Ok(Texts {
        issuer,
        admin,
        gate,
    })
}

fn assembled(
    texts: Result<Texts, AllocError>,
    key: Key,
    start: Option<StartProvider>,
) -> Result<Config, ConfigError>
    ensures config { IfOk result (λ config. IsOkAnd texts (λ found. config
        ≡ record { issuer = found.issuer; key = key; admin = found.admin; gate = found.gate; start = start })) }
    ensures memory { IfErr result (λ fault. fault ≡ ConfigError.Memory) }
{
    match texts {
        Ok(texts) => Ok(Config {
            issuer: texts.issuer,
            key,
            admin: texts.admin,
            gate: texts.gate,
            start,
        }),
        Err(AllocError) => {
            drop(key);
            drop(start);
            Err(ConfigError::Memory)
        }
    }
}

fn start_from(alloc: Global, json: &Value) -> Result<Option<StartProvider>, ConfigError>
    ensures read { Reads (λ start. start) result (start_at (view json.now)) }
    ensures formed { IfOk result IsFormedStart }
{
    match json.get("start") {
        Some(start) => Ok(Some(provider_from(alloc, start)?)),
        None => Ok(None),
    }
}

#[tactic(auto, unfolding(crate::specs::Configuration::start_of))]
fn provider_from(alloc: Global, json: &Value) -> Result<StartProvider, ConfigError>
    ensures read { Reads (λ provider. provider) result (start_of (view json.now)) }
    ensures formed { IfOk result IsFormedProvider }
{
    let project = member(json, "project")?;
    let pool = member(json, "pool")?;
    let id = member(json, "provider")?;
    let issuer = issuer_at(json)?;
    let pool = pool_from(alloc, project, pool)?;
    match provider_in(alloc, id, issuer, json) {
        Ok(own) => Ok(StartProvider {
            pool,
            id: own.id,
            issuer: own.issuer,
            key: own.key,
        }),
        Err(fault) => {
            drop(pool);
            Err(fault)
        }
    }
}

// A provider's own parts, beside its pool.
#[derive(Debug, Drop)]
struct Own {
    id: ProviderId,
    issuer: Text,
    key: Key,
}

fn provider_in(alloc: Global, id: &str, issuer: &str, json: &Value) -> Result<Own, ConfigError>
    ensures read { Reads (λ own. own) result (option_and_then (λ name. option_map (λ key. record { id = name; issuer = issuer.now; key = key })
        (option_and_then key_of (text_member (codes "key") (view json.now)))) (passing is_id id.now)) }
    ensures id { IfOk result (λ own. is_id own.id ≡ true) }
    ensures issuer { IfOk result (λ own. own.issuer ≡ issuer.now) }
{
    let id = provider_id(alloc, id)?;
    let key = key_at(alloc, json)?;
    let issuer = Text::copy_of(alloc, issuer)?;
    Ok(Own { id, issuer, key })
}

fn pool_from(alloc: Global, project: &str, pool: &str) -> Result<PoolName, ConfigError>
    ensures read { Reads (λ pool. pool) result (pool_of project.now pool.now) }
    ensures form { IfOk result (λ pool. is_pool_name pool ≡ true) }
{
    match PoolName::of_parts(alloc, project, pool) {
        Ok(pool) => Ok(pool),
        Err(NameError::Form) => Err(ConfigError::Form),
        Err(NameError::Memory) => Err(ConfigError::Memory),
    }
}

fn provider_id(alloc: Global, text: &str) -> Result<ProviderId, ConfigError>
    ensures read { Reads (λ id. id) result (passing is_id text.now) }
    ensures form { IfOk result (λ id. is_id id ≡ true) }
{
    match ProviderId::read(alloc, text) {
        Ok(id) => Ok(id),
        Err(NameError::Form) => Err(ConfigError::Form),
        Err(NameError::Memory) => Err(ConfigError::Memory),
    }
}

fn member<'a>(json: &'a Value, name: &str) -> Result<&'a str, ConfigError>
    ensures { Reads (λ text. text.now) result (text_member name.now (view json.now)) }
{
    match text_at(json, name) {
        Some(text) => Ok(text),
        None => Err(ConfigError::Form),
    }
}

fn issuer_at(json: &Value) -> Result<&str, ConfigError>
    ensures read { Reads (λ text. text.now) result (option_and_then issuer_of (text_member (codes "issuer") (view json.now))) }
    ensures form { IfOk result (λ text. IsFormedIssuer text.now) }
{
    let text = member(json, "issuer")?;
    if has_size(text, 1, 256) {
        Ok(text)
    } else {
        Err(ConfigError::Form)
    }
}

fn secret_at<'a>(json: &'a Value, name: &str) -> Result<&'a str, ConfigError>
    ensures read { Reads (λ text. text.now) result (option_and_then secret_of (text_member name.now (view json.now))) }
    ensures form { IfOk result (λ text. secret_form text.now ≡ true) }
{
    let text = member(json, name)?;
    if is_secret(text) {
        Ok(text)
    } else {
        Err(ConfigError::Form)
    }
}

fn is_secret(text: &str) -> bool
    ensures { result ≡ secret_form text.now }
{
    let fits = has_size(text, 16, 256);
    let visible = is_visible_text(text);
    fits && visible
}

fn key_at(alloc: Global, json: &Value) -> Result<Key, ConfigError>
    ensures { Reads (λ key. key) result (option_and_then key_of (text_member (codes "key") (view json.now))) }
{
    Key::read(alloc, member(json, "key")?)
}
