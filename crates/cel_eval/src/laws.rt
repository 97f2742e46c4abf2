ghost use Rattle.std.specs.Prelude.{◌≡◌, ℕ, Bool, true, false, List, ◌++◌, Ok, Err};
ghost use Rattle.std.specs.List.{AllByRecursion};
ghost use Rattle.std.specs.Option.{IsSome};
ghost use Rattle.cel_values.specs.declared.error.EvalError.{EvalError as Error};
ghost use Rattle.cel_values.specs.declared.expr.BinaryOp.{BinaryOp as Operator};
ghost use Rattle.cel_values.specs.declared.expr.Expr.{Expr as Tree};
ghost use Rattle.cel_values.specs.declared.expr.Expr.TheViews as expr;
ghost use Rattle.cel_values.specs.declared.value.Value.{Value as Datum};
ghost use Rattle.cel_values.specs.declared.value.Value.TheVariants as variant;
ghost use Rattle.cel_eval.specs.Denotation.{Env, denotation, lookup, tested};
ghost use Rattle.cel_eval.specs.FreeNames.{Agree, occurs_free};
ghost use Rattle.cel_eval.specs.Laws.{IsStrict};

/// A law: a false operand of `&&` and a true one of `||` decide, whatever the other is, and `?:` looks at one branch.
pub fn operands_decide()
    ensures false_left { (a b : Tree) (env : Env) → tested (denotation a env) ≡ Ok false → denotation (expr.Binary Operator.And a b) env ≡ Ok (variant.Bool false) }
    ensures false_right { (a b : Tree) (env : Env) → tested (denotation b env) ≡ Ok false → denotation (expr.Binary Operator.And a b) env ≡ Ok (variant.Bool false) }
    ensures true_left { (a b : Tree) (env : Env) → tested (denotation a env) ≡ Ok true → denotation (expr.Binary Operator.Or a b) env ≡ Ok (variant.Bool true) }
    ensures true_right { (a b : Tree) (env : Env) → tested (denotation b env) ≡ Ok true → denotation (expr.Binary Operator.Or a b) env ≡ Ok (variant.Bool true) }
    ensures first_branch { (c a b : Tree) (env : Env) → tested (denotation c env) ≡ Ok true → denotation (expr.Cond c a b) env ≡ denotation a env }
    ensures second_branch { (c a b : Tree) (env : Env) → tested (denotation c env) ≡ Ok false → denotation (expr.Cond c a b) env ≡ denotation b env }
{}

/// A law: of an operator that takes both operands the left one's error comes first, and then the right one's.
pub fn errors_in_order()
    ensures left { (op : Operator) (a b : Tree) (env : Env) (error : Error) → IsStrict op → denotation a env ≡ Err error → denotation (expr.Binary op a b) env ≡ Err error }
    ensures right { (op : Operator) (a b : Tree) (env : Env) (error : Error) (v : Datum) → IsStrict op → denotation a env ≡ Ok v → denotation b env ≡ Err error
        → denotation (expr.Binary op a b) env ≡ Err error }
{}

/// A law: the value depends on the names that occur free in the expression alone. Where these have a value, bindings behind change nothing, and bindings
/// of other names change nothing wherever they stand.
pub fn free_names_decide()
    ensures agreeing { (e : Tree) (env other : Env) → Agree e env other → denotation e env ≡ denotation e other }
    ensures behind { (e : Tree) (env more : Env) → ((name : List ℕ) → occurs_free name e ≡ true → IsSome (lookup name env))
        → denotation e (env ++ more) ≡ denotation e env }
    ensures unused { (e : Tree) (front more env : Env) → AllByRecursion (λ b. occurs_free b.name e ≡ false) more
        → denotation e (front ++ (more ++ env)) ≡ denotation e (front ++ env) }
{}
