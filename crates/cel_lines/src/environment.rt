ghost use Rattle.std.specs.Prelude.{◌≡◌, IfOk};
ghost use Rattle.serde_json.specs.View.{members_view};
ghost use Rattle.cel_lines.specs.Environment.{bindings_of};

use base_types::{Items, Text};
use cel_values::{Binding, Env, from_json};
use serde_json::{Map, Value};
use std::alloc::{AllocError, Global};

/// The environment that the members of a JSON object give.
pub(crate) fn environment_of(alloc: Global, members: &Map<String, Value>) -> Result<Env, AllocError>
    ensures { IfOk result (λ env. env ≡ bindings_of (members_view members.now.entries)) }
{
    let mut env = Items::new(alloc);
    for (name, member) in members.iter() {
        let name = Text::copy_of(alloc, name.as_str())?;
        let value = from_json(alloc, member)?;
        env.push(Binding { name, value })?;
    }
    Ok(env)
}
