ghost use Rattle.std.specs.Prelude.{◌≡◌, IfOk, OnOk};
ghost use Rattle.std.specs.String.{string_bytes};
ghost use Rattle.serde_json.specs.Data.{object, no_members};
ghost use Rattle.serde_json.specs.View.{members_view};
ghost use Rattle.command_texts.specs.Written as written;

use crate::mapping::mapping_value;
use base64::engine::general_purpose::URL_SAFE_NO_PAD;
use json_text::{put_text, texts_value};
use pools::Provider;
use serde_json::{Map, Value};
use std::alloc::{AllocError, Global};

fn key_text(alloc: Global, key: &[u8]) -> Result<String, AllocError>
    ensures { IfOk result (λ text. string_bytes text ≡ written.key_text key.now) }
{
    URL_SAFE_NO_PAD.encode(alloc, key)
}

/// Puts the members of the command that puts a provider.
#[tactic(auto, unfolding(crate::specs::Written::provider_data))]
pub(crate) fn put_provider(
    alloc: Global,
    members: &mut Map<String, Value>,
    provider: &Provider,
) -> Result<(), AllocError>
    requires { members_view members.old.entries ≡ no_members }
    ensures { OnOk result (object (members_view members.new.entries) ≡ written.provider_data provider.now) }
{
    let audiences = texts_value(alloc, provider.audiences())?;
    serde_json::put(members, alloc, "audiences", audiences)?;
    if let Some(condition) = provider.condition() {
        put_text(alloc, members, "condition", condition.text.as_str())?;
    }
    let disabled = provider.is_disabled();
    serde_json::put(members, alloc, "disabled", Value::Bool(disabled))?;
    put_text(alloc, members, "issuer", provider.issuer())?;
    let key = key_text(alloc, provider.key())?;
    put_text(alloc, members, "key", key.as_str())?;
    put_text(alloc, members, "kind", "provider")?;
    let mapping = mapping_value(alloc, provider.mapping())?;
    serde_json::put(members, alloc, "mapping", mapping)?;
    let name = provider.name();
    put_text(alloc, members, "pool", name.pool.pool.as_str())?;
    put_text(alloc, members, "project", name.pool.project.as_str())?;
    put_text(alloc, members, "provider", name.provider.as_str())
}
