ghost use Rattle.std.specs.Prelude.{◌≡◌, true};
ghost use Rattle.cel_values.specs.declared.expr.Expr.{Expr as Tree};
ghost use Rattle.cel_eval.specs.Denotation.{Env, denotation};
ghost use Rattle.cel_types.specs.declared.cel_type.CelType.{CelType as Kind};
ghost use Rattle.cel_types.specs.Types.{IsPlain};
ghost use Rattle.cel_types.specs.Rules.{Decls, Typed, HasType};
ghost use Rattle.cel_soundness.specs.WellTyped.{Suits, BindsAll, RunsWell, HasNoUnbound};

/// A law: where no node has a type with dyn in it and the environment has a value of its type for each declared name, a
/// well-typed expression answers a value of its type, or an error that is neither a missing overload nor an unbound name.
pub fn well_typed_runs_well()
    ensures { (decls : Decls) (e : Tree) (t : Kind) (env : Env) → Typed IsPlain decls e t → Suits decls env → RunsWell t (denotation e env) }
{}

/// A law: whatever the types, where each declared name has a value, no name is unbound in an expression that has a type.
pub fn well_typed_names_are_bound()
    ensures { (decls : Decls) (e : Tree) (t : Kind) (env : Env) → HasType decls e t → BindsAll decls env → HasNoUnbound (denotation e env) }
{}
