use base_types::Text;
use pools::Provider;
use std::alloc::{AllocError, Global};
use std::marker::Model;

/// A provider beside its full name, ready to be placed under it. Contracts see the provider.
#[derive(Debug, Drop)]
pub struct ProviderRow {
    name: Text,
    provider: Provider,
}

impl Model for ProviderRow {
    ghost use Rattle.std.specs.Prelude.{◌≡◌};
    ghost use Rattle.std.specs.Coded.{codes};
    ghost use Rattle.cel_values.specs.contracts.expr.Expr as tree;
    ghost use Rattle.iam_names.specs.Audience.{audience_text};
    ghost use Rattle.pools.specs.Providers.{ProviderView};

    ghost Value = { ProviderView };

    ghost coded = { Prim.hlevel (codes, tree.the_row.coded) };

    ghost view = { λ row. row.provider };

    ghost invariant = { λ row. row.name ≡ audience_text row.provider.name };
}

impl ProviderRow {
    ghost use Rattle.std.specs.Prelude.{◌≡◌, IfOk};
    ghost use Rattle.iam_names.specs.Audience.{audience_text};

    pub(crate) fn new(alloc: Global, provider: Provider) -> Result<Self, AllocError>
        ensures { IfOk result (λ row. row ≡ provider) }
    {
        match provider.name().print(alloc) {
            Ok(name) => Ok(ProviderRow { name, provider }),
            Err(AllocError) => {
                drop(provider);
                Err(AllocError)
            }
        }
    }

    pub(crate) fn into_parts(self) -> (Text, Provider)
        ensures name { result.0 ≡ audience_text self.name }
        ensures provider { result.1 ≡ self }
    {
        (self.name, self.provider)
    }
}
