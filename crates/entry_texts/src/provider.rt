ghost use Rattle.std.specs.Prelude.{◌≡◌, IfOk, option_map};
ghost use Rattle.iam_names.specs.Cuts as cuts;
ghost use Rattle.json_text.specs.Reads.{Reads};
ghost use Rattle.entry_texts.specs.Parts.{provider_in, provider_of_text};
ghost use Rattle.entry_texts.specs.Written.{provider_text as joined};
ghost use Rattle.serde_json.specs.View.{view};

use crate::parts::named;
use base_types::{Text, both};
use iam_names::{Audience, PoolName, ProviderId};
use json_text::{ReadFault, text_at};
use serde_json::Value;
use std::alloc::{AllocError, Global};

/// The provider as `PROJECT/POOL/PROVIDER`.
pub(crate) fn provider_text(alloc: Global, name: &Audience) -> Result<Text, AllocError>
    ensures { IfOk result (λ text. text ≡ joined name.now) }
{
    let project = name.pool.project.as_str();
    let pool = name.pool.pool.as_str();
    let provider = name.provider.as_str();
    Ok(Text::new(format!(in alloc; "{project}/{pool}/{provider}")?))
}

/// The provider under `provider`.
pub(crate) fn provider_at(alloc: Global, json: &Value) -> Result<Audience, ReadFault>
    ensures { Reads result (provider_in (view json.now)) }
{
    match text_at(json, "provider") {
        Some(text) => read_provider(alloc, text),
        None => Err(ReadFault::Form),
    }
}

#[tactic(auto, unfolding(crate::specs::Parts::provider_of_text))]
fn read_provider(alloc: Global, text: &str) -> Result<Audience, ReadFault>
    ensures { Reads result (provider_of_text text.now) }
{
    let Some((project, rest)) = cut_at_slash(text) else {
        return Err(ReadFault::Form);
    };
    let Some((pool, provider)) = cut_at_slash(rest) else {
        return Err(ReadFault::Form);
    };
    let pool = named(PoolName::of_parts(alloc, project, pool));
    let provider = named(ProviderId::read(alloc, provider));
    let (pool, provider) = both(pool, provider)?;
    Ok(Audience { pool, provider })
}

fn cut_at_slash(text: &str) -> Option<(&str, &str)>
    ensures { option_map (λ parts. (parts.0.now, parts.1.now)) result ≡ cuts.cut_at 47 text.now }
{
    text.split_once('/')
}
