ghost use Rattle.std.specs.Prelude.{◌≡◌, ◌∷◌, ◌++◌, [], OnOk, OnErr, List};
ghost use Rattle.std.specs.Option.{option_copied};
ghost use Rattle.cel_types.specs.declared.cel_type.Declaration.{Declaration as Declared};
ghost use Rattle.cel_types.specs.Rules.{declared};
ghost use Rattle.cel_types.specs.Scopes.{declarations_of};

use crate::{CelType, Declaration};
use base_types::{Items, Text};
use std::alloc::AllocError;

/// The declarations that hold: of macros' variables, the last counting first, and then those that were given.
#[derive(Debug, Drop)]
pub struct Scope<'a> {
    pub given: &'a [Declaration],
    pub bound: Items<Declaration>,
}

/// The type that a name is declared with.
#[tactic(auto, using(crate::proofs::Declared::last_bound))]
pub fn find<'s>(name: &str, scope: &'s Scope<'_>) -> Option<&'s CelType>
    ensures { option_copied result ≡ declared name.now (declarations_of scope.now) }
{
    let bound = scope.bound.as_slice();
    let mut left = bound.len();
    while left > 0 {
        left -= 1;
        let declaration = &bound[left];
        if name == declaration.name.as_str() {
            return Some(&declaration.of);
        }
    }
    find_given(name, scope.given)
}

fn find_given<'s>(name: &str, given: &'s [Declaration]) -> Option<&'s CelType>
    ensures { option_copied result ≡ declared name.now given.now }
{
    for declaration in given {
        if name == declaration.name.as_str() {
            return Some(&declaration.of);
        }
    }
    None
}

/// Declares a name in front of all others.
pub fn enter(scope: &mut Scope<'_>, name: Text, of: CelType) -> Result<(), AllocError>
    ensures ok { OnOk result (scope.new.bound ≡ scope.old.bound ++ record { name = name; of = of } ∷ []) }
    ensures given { scope.new.given ≡ scope.old.given }
    ensures err { OnErr result (scope.new.bound ≡ scope.old.bound) }
{
    scope.bound.push(Declaration { name, of })
}

/// Forgets the name that was declared last.
pub fn leave(scope: &mut Scope<'_>)
    ensures bound { (before : List Declared) (last : Declared) → scope.old.bound ≡ before ++ last ∷ [] → scope.new.bound ≡ before }
    ensures given { scope.new.given ≡ scope.old.given }
{
    let _ = scope.bound.pop();
}
