ghost use Rattle.std.specs.Prelude.{◌≡◌, map, option_map, Option, Err, Ok, IfSome, IfOk, IfErr};
ghost use Rattle.cel_builtins.specs.Outcomes.{Gives, in_order, weighed as weighed_value};
ghost use Rattle.cel_eval.specs.Denotation.{tested, said, both as both_of, either as either_of, denotation, pair_denotation, with_item, each, call as call_of, binary as binary_of, chosen, over as over_of, test_of, tests, all_of, some_of, kept_of, taken_of, gathered, is_yes, passes as passes_test, one_of};
ghost use Rattle.cel_eval.specs.Scopes.{env_of};
ghost use Rattle.cel_eval.specs.Errors.{applied_to, selected_from, present_in, indexed_by, strict_on, member_on, called_on};

use crate::operators::{
    Logic, called, earlier, field_of, indexed, logic_of, member_called, presence, put_pairs,
    range_of, selected, strict, truth, without_error,
};
use crate::scope::{Scope, enter, given, leave, named};
use base_types::{Boxed, Items, Text};
use cel_builtins::{Function, apply_one, weighed};
use cel_values::{BinaryOp, Env, EvalError, EvalStop, Expr, MacroKind, MapPair, Value, copy};
use std::alloc::Global;

/// The value of an expression in an environment, or its error: from the left, and no further than needed.
pub fn eval(alloc: Global, expr: &Expr, env: &Env) -> Result<Value, EvalStop>
    ensures { Gives result (denotation expr.now env.now) }
{
    let mut scope = Scope {
        given: env.as_slice(),
        bound: Items::new(alloc),
    };
    eval_in(alloc, expr, &mut scope)
}

// The value of a name or of a path of selections from one, which isn't copied, or its error. None where the path begins
// with no name.
fn seen<'s>(expr: &Expr, scope: &'s Scope<'_>) -> Option<Result<&'s Value, EvalError>>
    ensures there { IfSome result (λ seen. IfOk seen (λ value. denotation expr.now (env_of scope.now) ≡ Ok value.now)) }
    ensures fails { IfSome result (λ seen. IfErr seen (λ error. denotation expr.now (env_of scope.now) ≡ Err error)) }
{
    match expr {
        Expr::Name(name) => Some(given(name.as_str(), scope)),
        Expr::Select(e, field) => match seen(e.get(), scope)? {
            Ok(value) => Some(field_of(value, field.as_str())),
            Err(error) => Some(Err(error)),
        },
        _ => None,
    }
}

#[cycle(eval)]
fn eval_in(alloc: Global, expr: &Expr, scope: &mut Scope<'_>) -> Result<Value, EvalStop>
    ensures value { Gives result (denotation expr.now (env_of scope.old)) }
    ensures scope { scope.new ≡ scope.old }
{
    match expr {
        Expr::Select(e, field) => eval_select(alloc, e.get(), scope, field.as_str()),
        Expr::Has(e, field) => eval_has(alloc, e.get(), scope, field.as_str()),
        Expr::Not(e) => eval_unary(alloc, Function::Not, e.get(), scope),
        Expr::Neg(e) => eval_unary(alloc, Function::Neg, e.get(), scope),
        Expr::Binary(_, _, _) => eval_binary(alloc, expr, scope),
        Expr::Macro(_, _, _, _, _) => eval_macro(alloc, expr, scope),
        _ => eval_compound(alloc, expr, scope),
    }
}

// Forms of several parts have a large frame, which chains of the others aren't to pay for. Each of these functions gets
// its own forms alone.
#[cycle(eval)]
#[tactic(auto, using(crate::proofs::Layers::denotation_map))]
fn eval_compound(alloc: Global, expr: &Expr, scope: &mut Scope<'_>) -> Result<Value, EvalStop>
    ensures value { Gives result (denotation expr.now (env_of scope.old)) }
    ensures scope { scope.new ≡ scope.old }
{
    match expr {
        Expr::Null => Ok(Value::Null),
        Expr::Bool(test) => Ok(Value::Bool(*test)),
        Expr::Int(n) => Ok(Value::Int(*n)),
        Expr::Text(text) => Ok(Value::Text(text.copy(alloc)?)),
        Expr::Name(name) => named(alloc, name.as_str(), scope),
        Expr::Index(e, at) => {
            let value = eval_in(alloc, e.get(), scope)?;
            let outcome = eval_index(alloc, at.get(), scope, &value);
            drop(value);
            outcome
        }
        Expr::Cond(condition, a, b) => {
            if test(alloc, condition.get(), scope)? {
                eval_in(alloc, a.get(), scope)
            } else {
                eval_in(alloc, b.get(), scope)
            }
        }
        Expr::List(items) => {
            let items = eval_items(alloc, items.as_slice(), scope)?;
            weighed(Value::List(items))
        }
        Expr::Map(pairs) => {
            let pairs = eval_pairs(alloc, pairs.as_slice(), scope)?;
            weighed(Value::Map(put_pairs(alloc, pairs)?))
        }
        Expr::Call(None, name, items) => eval_call(alloc, items.as_slice(), scope, name.as_str()),
        Expr::Call(Some(target), name, items) => {
            let target = eval_in(alloc, target.get(), scope)?;
            let outcome = eval_member(alloc, items.as_slice(), scope, &target, name.as_str());
            drop(target);
            outcome
        }
        _ => Err(EvalStop::Memory),
    }
}

#[cycle(eval)]
fn eval_binary(alloc: Global, expr: &Expr, scope: &mut Scope<'_>) -> Result<Value, EvalStop>
    ensures value { Gives result (denotation expr.now (env_of scope.old)) }
    ensures scope { scope.new ≡ scope.old }
{
    let Expr::Binary(op, a, b) = expr else {
        return Err(EvalStop::Memory);
    };
    match logic_of(*op) {
        // The right operand isn't looked at where the left one is false.
        Logic::And => match test(alloc, a.get(), scope) {
            Ok(false) => Ok(Value::Bool(false)),
            Ok(true) => Ok(Value::Bool(test(alloc, b.get(), scope)?)),
            Err(EvalStop::Memory) => Err(EvalStop::Memory),
            Err(EvalStop::Error(first)) => {
                Ok(Value::Bool(both_behind(alloc, first, b.get(), scope)?))
            }
        },
        // The right operand isn't looked at where the left one is true.
        Logic::Or => match test(alloc, a.get(), scope) {
            Ok(true) => Ok(Value::Bool(true)),
            Ok(false) => Ok(Value::Bool(test(alloc, b.get(), scope)?)),
            Err(EvalStop::Memory) => Err(EvalStop::Memory),
            Err(EvalStop::Error(first)) => {
                Ok(Value::Bool(either_behind(alloc, first, b.get(), scope)?))
            }
        },
        Logic::Neither => {
            let a = eval_in(alloc, a.get(), scope)?;
            let outcome = eval_strict(alloc, b.get(), scope, *op, &a);
            drop(a);
            outcome
        }
    }
}

#[cycle(eval)]
#[tactic(auto, using(crate::proofs::Folded::gathered_error))]
fn eval_macro(alloc: Global, expr: &Expr, scope: &mut Scope<'_>) -> Result<Value, EvalStop>
    ensures value { Gives result (denotation expr.now (env_of scope.old)) }
    ensures scope { scope.new ≡ scope.old }
{
    let Expr::Macro(kind, range, name, test, body) = expr else {
        return Err(EvalStop::Memory);
    };
    let range = eval_in(alloc, range.get(), scope)?;
    let items = range_of(alloc, range)?;
    let name = name.as_str();
    match kind {
        MacroKind::All => {
            let holds = holds_for_all(alloc, name, body.get(), scope, items.as_slice());
            drop(items);
            Ok(Value::Bool(holds?))
        }
        MacroKind::Exists => {
            let holds = holds_for_some(alloc, name, body.get(), scope, items.as_slice());
            drop(items);
            Ok(Value::Bool(holds?))
        }
        MacroKind::ExistsOne => {
            let holds = holds_for_one(alloc, name, body.get(), scope, items.as_slice());
            drop(items);
            Ok(Value::Bool(holds?))
        }
        MacroKind::Filter => {
            let kept = filtered(alloc, name, body.get(), scope, items.as_slice());
            drop(items);
            weighed(Value::List(kept?))
        }
        MacroKind::Map => {
            let mut taken = Items::new(alloc);
            for item in items.as_slice() {
                if passes(alloc, test, scope, name, item)? {
                    taken.push(eval_with(alloc, body.get(), scope, name, item)?)?;
                }
            }
            drop(items);
            weighed(Value::List(taken))
        }
    }
}

#[cycle(eval)]
fn eval_call(
    alloc: Global,
    items: &[Expr],
    scope: &mut Scope<'_>,
    name: &str,
) -> Result<Value, EvalStop>
    ensures value { Gives result (called_on name.now (in_order (each (map denotation items.now) (env_of scope.old)))) }
    ensures scope { scope.new ≡ scope.old }
{
    let values = eval_items(alloc, items, scope)?;
    let outcome = called(alloc, false, name, values.as_slice());
    drop(values);
    outcome
}

#[cycle(eval)]
fn eval_index(
    alloc: Global,
    at: &Expr,
    scope: &mut Scope<'_>,
    value: &Value,
) -> Result<Value, EvalStop>
    ensures value { Gives result (indexed_by value.now (denotation at.now (env_of scope.old))) }
    ensures scope { scope.new ≡ scope.old }
{
    let at = eval_in(alloc, at, scope)?;
    let outcome = indexed(alloc, value, &at);
    drop(at);
    outcome
}

#[cycle(eval)]
fn eval_strict(
    alloc: Global,
    b: &Expr,
    scope: &mut Scope<'_>,
    op: BinaryOp,
    a: &Value,
) -> Result<Value, EvalStop>
    ensures value { Gives result (strict_on op a.now (denotation b.now (env_of scope.old))) }
    ensures scope { scope.new ≡ scope.old }
{
    let b = eval_in(alloc, b, scope)?;
    let outcome = strict(alloc, op, a, &b);
    drop(b);
    outcome
}

#[cycle(eval)]
fn eval_member(
    alloc: Global,
    items: &[Expr],
    scope: &mut Scope<'_>,
    target: &Value,
    name: &str,
) -> Result<Value, EvalStop>
    ensures value { Gives result (member_on name.now target.now (in_order (each (map denotation items.now) (env_of scope.old)))) }
    ensures scope { scope.new ≡ scope.old }
{
    let values = eval_items(alloc, items, scope)?;
    let outcome = member_called(alloc, name, target, values.as_slice());
    drop(values);
    outcome
}

#[cycle(eval)]
fn eval_items(
    alloc: Global,
    items: &[Expr],
    scope: &mut Scope<'_>,
) -> Result<Items<Value>, EvalStop>
    ensures value { Gives result (in_order (each (map denotation items.now) (env_of scope.old))) }
    ensures scope { scope.new ≡ scope.old }
{
    let mut values = Items::new(alloc);
    for item in items {
        values.push(eval_in(alloc, item, scope)?)?;
    }
    Ok(values)
}

#[cycle(eval)]
fn eval_pairs(
    alloc: Global,
    pairs: &[MapPair],
    scope: &mut Scope<'_>,
) -> Result<Items<(Value, Value)>, EvalStop>
    ensures value { Gives result (in_order (each (map pair_denotation pairs.now) (env_of scope.old))) }
    ensures scope { scope.new ≡ scope.old }
{
    let mut all = Items::new(alloc);
    for pair in pairs {
        let key = eval_in(alloc, &pair.key, scope)?;
        let value = eval_in(alloc, &pair.value, scope)?;
        all.push((key, value))?;
    }
    Ok(all)
}

// The error of the left operand, unless the right one is false.
#[cycle(eval)]
fn both_behind(
    alloc: Global,
    first: EvalError,
    expr: &Expr,
    scope: &mut Scope<'_>,
) -> Result<bool, EvalStop>
    ensures value { Gives result (both_of (Err first) (tested (denotation expr.now (env_of scope.old)))) }
    ensures scope { scope.new ≡ scope.old }
{
    match test(alloc, expr, scope) {
        Ok(false) => Ok(false),
        Err(EvalStop::Memory) => Err(EvalStop::Memory),
        _ => Err(EvalStop::Error(first)),
    }
}

// The error of the left operand, unless the right one is true.
#[cycle(eval)]
fn either_behind(
    alloc: Global,
    first: EvalError,
    expr: &Expr,
    scope: &mut Scope<'_>,
) -> Result<bool, EvalStop>
    ensures value { Gives result (either_of (Err first) (tested (denotation expr.now (env_of scope.old)))) }
    ensures scope { scope.new ≡ scope.old }
{
    match test(alloc, expr, scope) {
        Ok(true) => Ok(true),
        Err(EvalStop::Memory) => Err(EvalStop::Memory),
        _ => Err(EvalStop::Error(first)),
    }
}

// The item is bound in front of all others while the expression is looked at.
#[cycle(eval)]
fn eval_with(
    alloc: Global,
    expr: &Expr,
    scope: &mut Scope<'_>,
    name: &str,
    item: &Value,
) -> Result<Value, EvalStop>
    ensures value { Gives result (denotation expr.now (with_item name.now item.now (env_of scope.old))) }
    ensures scope { scope.new ≡ scope.old }
{
    let name = Text::copy_of(alloc, name)?;
    let item = copy(alloc, item)?;
    enter(scope, name, item)?;
    let outcome = eval_in(alloc, expr, scope);
    leave(scope);
    outcome
}

#[cycle(eval)]
fn test_with(
    alloc: Global,
    expr: &Expr,
    scope: &mut Scope<'_>,
    name: &str,
    item: &Value,
) -> Result<bool, EvalStop>
    ensures value { Gives result (test_of name.now (denotation expr.now) (env_of scope.old) item.now) }
    ensures scope { scope.new ≡ scope.old }
{
    let value = eval_with(alloc, expr, scope, name, item)?;
    let test = truth(&value);
    drop(value);
    test
}

#[cycle(eval)]
#[tactic(auto, using(crate::proofs::Folded::both_kept, crate::proofs::Folded::both_false, crate::proofs::Folded::both_end))]
fn holds_for_all(
    alloc: Global,
    name: &str,
    body: &Expr,
    scope: &mut Scope<'_>,
    items: &[Value],
) -> Result<bool, EvalStop>
    ensures value { Gives result (all_of (tests name.now (denotation body.now) (env_of scope.old) items.now)) }
    ensures scope { scope.new ≡ scope.old }
{
    let mut first = None;
    for item in items {
        match test_with(alloc, body, scope, name, item) {
            Ok(false) => return Ok(false),
            Ok(true) => {}
            Err(EvalStop::Memory) => return Err(EvalStop::Memory),
            Err(EvalStop::Error(error)) => first = earlier(first, error),
        }
    }
    without_error(first, true)
}

#[cycle(eval)]
#[tactic(auto, using(crate::proofs::Folded::either_kept, crate::proofs::Folded::either_true, crate::proofs::Folded::either_end))]
fn holds_for_some(
    alloc: Global,
    name: &str,
    body: &Expr,
    scope: &mut Scope<'_>,
    items: &[Value],
) -> Result<bool, EvalStop>
    ensures value { Gives result (some_of (tests name.now (denotation body.now) (env_of scope.old) items.now)) }
    ensures scope { scope.new ≡ scope.old }
{
    let mut first = None;
    for item in items {
        match test_with(alloc, body, scope, name, item) {
            Ok(true) => return Ok(true),
            Ok(false) => {}
            Err(EvalStop::Memory) => return Err(EvalStop::Memory),
            Err(EvalStop::Error(error)) => first = earlier(first, error),
        }
    }
    without_error(first, false)
}

#[cycle(eval)]
fn holds_for_one(
    alloc: Global,
    name: &str,
    body: &Expr,
    scope: &mut Scope<'_>,
    items: &[Value],
) -> Result<bool, EvalStop>
    ensures value { Gives result (one_of (tests name.now (denotation body.now) (env_of scope.old) items.now)) }
    ensures scope { scope.new ≡ scope.old }
{
    let mut count = 0usize;
    for item in items {
        if test_with(alloc, body, scope, name, item)? {
            count += 1;
        }
    }
    Ok(count == 1)
}

#[cycle(eval)]
fn filtered(
    alloc: Global,
    name: &str,
    body: &Expr,
    scope: &mut Scope<'_>,
    items: &[Value],
) -> Result<Items<Value>, EvalStop>
    ensures value { Gives result (gathered (map (kept_of name.now (denotation body.now) (env_of scope.old)) items.now)) }
    ensures scope { scope.new ≡ scope.old }
{
    let mut kept = Items::new(alloc);
    for item in items {
        if test_with(alloc, body, scope, name, item)? {
            kept.push(copy(alloc, item)?)?;
        }
    }
    Ok(kept)
}

#[cycle(eval)]
fn passes(
    alloc: Global,
    test: &Option<Boxed<Expr>>,
    scope: &mut Scope<'_>,
    name: &str,
    item: &Value,
) -> Result<bool, EvalStop>
    ensures value { Gives result (tested (passes_test (option_map denotation test.now) (with_item name.now item.now (env_of scope.old)))) }
    ensures scope { scope.new ≡ scope.old }
{
    match test {
        None => Ok(true),
        Some(test) => test_with(alloc, test.get(), scope, name, item),
    }
}

// What an operand of `&&` and `||`, or a condition, says.
#[cycle(eval)]
fn test(alloc: Global, expr: &Expr, scope: &mut Scope<'_>) -> Result<bool, EvalStop>
    ensures value { Gives result (tested (denotation expr.now (env_of scope.old))) }
    ensures scope { scope.new ≡ scope.old }
{
    let value = eval_in(alloc, expr, scope)?;
    let test = truth(&value);
    drop(value);
    test
}

#[cycle(eval)]
fn eval_unary(
    alloc: Global,
    function: Function,
    e: &Expr,
    scope: &mut Scope<'_>,
) -> Result<Value, EvalStop>
    ensures value { Gives result (applied_to function (denotation e.now (env_of scope.old))) }
    ensures scope { scope.new ≡ scope.old }
{
    let value = eval_in(alloc, e, scope)?;
    let outcome = apply_one(alloc, function, &value);
    drop(value);
    outcome
}

#[cycle(eval)]
fn eval_select(
    alloc: Global,
    e: &Expr,
    scope: &mut Scope<'_>,
    field: &str,
) -> Result<Value, EvalStop>
    ensures value { Gives result (selected_from field.now (denotation e.now (env_of scope.old))) }
    ensures scope { scope.new ≡ scope.old }
{
    match seen(e, scope) {
        Some(Ok(value)) => selected(alloc, field, value),
        Some(Err(error)) => Err(EvalStop::Error(error)),
        None => {
            let value = eval_path(alloc, e, scope)?;
            let outcome = selected(alloc, field, &value);
            drop(value);
            outcome
        }
    }
}

#[cycle(eval)]
fn eval_has(alloc: Global, e: &Expr, scope: &mut Scope<'_>, field: &str) -> Result<Value, EvalStop>
    ensures value { Gives result (present_in field.now (denotation e.now (env_of scope.old))) }
    ensures scope { scope.new ≡ scope.old }
{
    match seen(e, scope) {
        Some(Ok(value)) => presence(field, value),
        Some(Err(error)) => Err(EvalStop::Error(error)),
        None => {
            let value = eval_path(alloc, e, scope)?;
            let outcome = presence(field, &value);
            drop(value);
            outcome
        }
    }
}

// The value of a path of selections that begins with no name: each part is made once.
#[cycle(eval)]
fn eval_path(alloc: Global, e: &Expr, scope: &mut Scope<'_>) -> Result<Value, EvalStop>
    ensures value { Gives result (denotation e.now (env_of scope.old)) }
    ensures scope { scope.new ≡ scope.old }
{
    match e {
        Expr::Select(whole, field) => {
            let value = eval_path(alloc, whole.get(), scope)?;
            let outcome = selected(alloc, field.as_str(), &value);
            drop(value);
            outcome
        }
        _ => eval_in(alloc, e, scope),
    }
}
