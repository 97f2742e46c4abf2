ghost use Rattle.std.specs.Prelude.{◌≡◌, ◌++◌, IfOk, OnOk};
ghost use Rattle.pools.specs.Environments as seen;

use base_types::{Items, kept};
use cel_expression::declare_map;
use cel_types::{CelType, Declaration};
use std::alloc::{AllocError, Global};

/// The name that the expressions of a mapping see, with its type.
pub fn mapping_names(alloc: Global) -> Result<Items<Declaration>, AllocError>
    ensures { IfOk result (λ names. names ≡ seen.mapping_names) }
{
    let mut names = Items::new(alloc);
    let went = declare_map(alloc, &mut names, "assertion", CelType::Dyn);
    kept(names, went)
}

/// The names that a condition sees, with their types.
pub fn condition_names(alloc: Global) -> Result<Items<Declaration>, AllocError>
    ensures { IfOk result (λ names. names ≡ seen.condition_names) }
{
    let mut names = Items::new(alloc);
    let went = declare_all(alloc, &mut names);
    kept(names, went)
}

fn declare_all(alloc: Global, names: &mut Items<Declaration>) -> Result<(), AllocError>
    ensures { OnOk result (names.new ≡ names.old ++ seen.condition_names) }
{
    declare_map(alloc, names, "assertion", CelType::Dyn)?;
    declare_identity(alloc, names)
}

fn declare_identity(alloc: Global, names: &mut Items<Declaration>) -> Result<(), AllocError>
    ensures { OnOk result (names.new ≡ names.old ++ seen.identity_names) }
{
    declare_map(alloc, names, "google", CelType::Dyn)?;
    declare_map(alloc, names, "attribute", CelType::Text)
}
