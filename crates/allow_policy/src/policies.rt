use crate::binding::Binding;
use crate::scope_set::ScopeSet;
use base_types::{Items, Register};
use iam_names::Roles;
use std::alloc::{AllocError, Global};
use std::marker::Model;

/// Roles, scope words and policies. Contracts see three lists, and beside them for how many more puts
/// there is memory.
#[derive(Debug, Drop)]
pub struct Policies {
    pub roles: Roles,
    pub(crate) scopes: Register<ScopeSet>,
    pub(crate) policies: Register<Items<Binding>>,
}

impl Model for Policies {
    ghost use Rattle.std.specs.Coded.{codes};
    ghost use Rattle.std.specs.Prelude.{min};
    ghost use Rattle.cel_values.specs.contracts.expr.Expr as tree;
    ghost use Rattle.allow_policy.specs.Lists.{Held};

    ghost Value = { Held };

    ghost coded = { Prim.hlevel (codes, tree.the_row.coded) };

    ghost view = { λ p. record {
      lists = record { roles = p.roles.rows; scopes = p.scopes.rows; policies = p.policies.rows };
      spare = min p.roles.spare (min p.scopes.spare p.policies.spare);
    } };
}

impl Policies {
    ghost use Rattle.std.specs.Prelude.{◌≡◌, ◌≤◌, OnOk};
    ghost use Rattle.allow_policy.specs.Lists.{no_lists};

    pub fn new(alloc: Global) -> Self
        ensures { result.lists ≡ no_lists }
    {
        Policies {
            roles: Roles::new(alloc),
            scopes: Register::new(alloc),
            policies: Register::new(alloc),
        }
    }

    /// Takes memory for a further put of each kind.
    pub fn make_room(&mut self) -> Result<(), AllocError>
        ensures lists { self.new.lists ≡ self.old.lists }
        ensures room { OnOk result (1 ≤ self.new.spare) }
    {
        self.roles.make_room()?;
        self.scopes.make_room()?;
        self.policies.make_room()
    }
}
