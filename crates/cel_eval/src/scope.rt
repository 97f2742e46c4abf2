ghost use Rattle.std.specs.Prelude.{◌≡◌, ◌∷◌, ◌++◌, [], IfOk, IfErr, Ok, Err, OnOk, OnErr, List};
ghost use Rattle.std.specs.Option.{option_copied};
ghost use Rattle.cel_values.specs.declared.env.Binding.{Binding as Pair};
ghost use Rattle.cel_builtins.specs.Outcomes.{Gives};
ghost use Rattle.cel_eval.specs.Denotation.{lookup, named as named_in};
ghost use Rattle.cel_eval.specs.Scopes.{env_of};

use base_types::{Items, Text};
use cel_values::{Binding, EvalError, EvalStop, Value, copy};
use std::alloc::{AllocError, Global};

/// What names stand for: what macros bound, the last counting first, and then what was given.
#[derive(Debug, Drop)]
pub struct Scope<'a> {
    pub given: &'a [Binding],
    pub bound: Items<Binding>,
}

/// The value that a name stands for.
#[tactic(auto, using(crate::proofs::Lookups::last_bound))]
pub fn find<'s>(name: &str, scope: &'s Scope<'_>) -> Option<&'s Value>
    ensures { option_copied result ≡ lookup name.now (env_of scope.now) }
{
    let bound = scope.bound.as_slice();
    let mut left = bound.len();
    while left > 0 {
        left -= 1;
        let binding = &bound[left];
        if name == binding.name.as_str() {
            return Some(&binding.value);
        }
    }
    find_given(name, scope.given)
}

fn find_given<'s>(name: &str, given: &'s [Binding]) -> Option<&'s Value>
    ensures { option_copied result ≡ lookup name.now given.now }
{
    for binding in given {
        if name == binding.name.as_str() {
            return Some(&binding.value);
        }
    }
    None
}

/// The value of a name, or its error.
pub fn given<'s>(name: &str, scope: &'s Scope<'_>) -> Result<&'s Value, EvalError>
    ensures there { IfOk result (λ value. named_in name.now (env_of scope.now) ≡ Ok value.now) }
    ensures fails { IfErr result (λ error. named_in name.now (env_of scope.now) ≡ Err error) }
{
    find(name, scope).ok_or(EvalError::Unbound)
}

/// The value of a name, once more.
pub fn named(alloc: Global, name: &str, scope: &Scope<'_>) -> Result<Value, EvalStop>
    ensures { Gives result (named_in name.now (env_of scope.now)) }
{
    match find(name, scope) {
        Some(value) => Ok(copy(alloc, value)?),
        None => Err(EvalStop::Error(EvalError::Unbound)),
    }
}

/// Binds a name in front of all others.
pub fn enter(scope: &mut Scope<'_>, name: Text, value: Value) -> Result<(), AllocError>
    ensures ok { OnOk result (scope.new.bound ≡ scope.old.bound ++ record { name = name; value = value } ∷ []) }
    ensures given { scope.new.given ≡ scope.old.given }
    ensures err { OnErr result (scope.new.bound ≡ scope.old.bound) }
{
    scope.bound.push(Binding { name, value })
}

/// Forgets the name that was bound last.
pub fn leave(scope: &mut Scope<'_>)
    ensures bound { (before : List Pair) (last : Pair) → scope.old.bound ≡ before ++ last ∷ [] → scope.new.bound ≡ before }
    ensures given { scope.new.given ≡ scope.old.given }
{
    let _ = scope.bound.pop();
}
