ghost use Rattle.std.specs.Prelude.{◌≡◌, IfOk, OnOk};
ghost use Rattle.serde_json.specs.Data.{object, no_members};
ghost use Rattle.serde_json.specs.View.{members_view};
ghost use Rattle.access_token.specs.Active.{active_data, active_text};

use crate::Facts;
use crate::payload::{last_words, names_value, words_text};
use base_types::Text;
use json_text::put_text;
use serde_json::{Map, Value};
use std::alloc::{AllocError, Global};

/// What an introspection tells of a live token that says these facts, as a compact JSON text (RFC 7662, section 2.2).
pub fn write_active(alloc: Global, issuer: &str, facts: &Facts) -> Result<Text, AllocError>
    ensures { IfOk result (λ text. text ≡ active_text issuer.now facts.now) }
{
    let mut members = Map::new(alloc);
    put_active(alloc, &mut members, issuer, facts)?;
    Ok(Text::new(Value::Object(members).to_string(alloc)?))
}

#[tactic(auto, unfolding(crate::specs::Active::active_data))]
fn put_active(
    alloc: Global,
    members: &mut Map<String, Value>,
    issuer: &str,
    facts: &Facts,
) -> Result<(), AllocError>
    requires { members_view members.old.entries ≡ no_members }
    ensures { OnOk result (object (members_view members.new.entries) ≡ active_data issuer.now facts.now) }
{
    if let Some(actors) = names_value(alloc, "act", facts.act.as_slice())? {
        serde_json::put(members, alloc, "act", actors)?;
    }
    serde_json::put(members, alloc, "active", Value::from(true))?;
    serde_json::put(members, alloc, "exp", Value::from(facts.exp))?;
    serde_json::put(members, alloc, "iat", Value::from(facts.iat))?;
    put_text(alloc, members, "iss", issuer)?;
    let number = facts.number;
    put_text(
        alloc,
        members,
        "jti",
        format!(in alloc; "{number}")?.as_str(),
    )?;
    let scope = words_text(alloc, last_words(facts.scopes.as_slice()))?;
    put_text(alloc, members, "scope", scope.as_str())?;
    put_text(alloc, members, "sub", facts.sub.as_str())?;
    put_text(alloc, members, "token_type", "Bearer")
}
