ghost use Rattle.std.specs.Prelude.{◌≡◌, ◌++◌, ◌∷◌, [], OnOk};
ghost use Rattle.cel_expression.specs.Environments as environments;

use base_types::{Boxed, Items, Text, both};
use cel_types::{CelType, Declaration};
use cel_values::{Binding, Env, MapEntry, Value};
use std::alloc::{AllocError, Global};

/// Binds a name to a value, behind the names that are bound.
pub fn bind(alloc: Global, env: &mut Env, name: &str, value: Value) -> Result<(), AllocError>
    ensures { OnOk result (env.new ≡ env.old ++ environments.bound name.now value ∷ []) }
{
    let (name, value) = both(Text::copy_of(alloc, name), Ok(value))?;
    env.push(Binding { name, value })
}

/// Puts an entry behind those of a map. Maps have their entries in byte order, each key once.
pub fn put_entry(
    alloc: Global,
    entries: &mut Items<MapEntry>,
    key: &str,
    value: Value,
) -> Result<(), AllocError>
    ensures { OnOk result (entries.new ≡ entries.old ++ environments.entry key.now value ∷ []) }
{
    let (key, value) = both(Text::copy_of(alloc, key), Ok(value))?;
    entries.push(MapEntry { key, value })
}

/// Declares a name as a map of values of a type, behind the names that are declared.
pub fn declare_map(
    alloc: Global,
    names: &mut Items<Declaration>,
    name: &str,
    values: CelType,
) -> Result<(), AllocError>
    ensures { OnOk result (names.new ≡ names.old ++ environments.declared_map name.now values ∷ []) }
{
    let values = Boxed::new(alloc, values)?;
    let (name, of) = both(Text::copy_of(alloc, name), Ok(CelType::Map(values)))?;
    names.push(Declaration { name, of })
}
