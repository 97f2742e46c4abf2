use crate::binding::Binding;
use base_types::Items;
use std::marker::Model;

/// The bindings of a policy, ready to be placed.
#[derive(Debug, Drop)]
pub struct PolicyRow {
    bindings: Items<Binding>,
}

impl Model for PolicyRow {
    ghost use Rattle.std.specs.Coded.{codes};
    ghost use Rattle.std.specs.Prelude.{List};
    ghost use Rattle.cel_values.specs.contracts.expr.Expr as tree;
    ghost use Rattle.allow_policy.specs.declared.binding.Binding.{Binding};

    ghost Value = { List Binding };

    ghost coded = { Prim.hlevel (codes, tree.the_row.coded) };

    ghost view = { λ row. row.bindings };
}

impl PolicyRow {
    ghost use Rattle.std.specs.Prelude.{◌≡◌};

    pub(crate) fn new(bindings: Items<Binding>) -> Self
        ensures { result ≡ bindings }
    {
        PolicyRow { bindings }
    }

    pub(crate) fn into_bindings(self) -> Items<Binding>
        ensures { result ≡ self }
    {
        self.bindings
    }
}
