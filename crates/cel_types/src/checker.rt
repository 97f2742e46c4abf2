ghost use Rattle.std.specs.Prelude.{◌≡◌, ◌+◌, OnOk, IfOk, Ok, Err, map};
ghost use Rattle.cel_types.specs.declared.fault.TypeFault.{TypeFault as TheFault};
ghost use Rattle.cel_types.specs.declared.fault.CheckError.TheVariants.{Fault};
ghost use Rattle.cel_builtins.specs.declared.function.Function.{Function as Operation};
ghost use Rattle.cel_types.specs.declared.cel_type.CelType.{CelType as Kind, out-CelType};
ghost use Rattle.base_types.specs.Steps.{needed as needed_or};
ghost use Rattle.cel_types.specs.declared.fault.TypeRule.{TypeRule as Rule};
ghost use Rattle.cel_types.specs.Rules.{HasType, declared, with_variable};
ghost use Rattle.cel_types.specs.Rows.{one_type};
ghost use Rattle.cel_types.specs.Scopes.{declarations_of};
ghost use Rattle.cel_types.specs.Typing.{Gives, checked, typing, one, all_of, broken as broken_at, nodes_of, pair_step, selected_type as type_selected, presence_type as type_of_presence};

use crate::rules::{
    broken, call_type, choice_type, gathered_type, index_type, list_type, literal_map_type,
    operator_type, presence_type, selected_type, unary_type, variable_type, where_fits,
};
use crate::scope::{Scope, enter, find, leave};
use crate::{CelType, CheckError, Declaration, TypeRule, copy_type};
use base_types::{Items, Text};
use cel_builtins::Function;
use cel_values::{Expr, MapPair};
use std::alloc::Global;

/// The type of an expression under these declarations, or its first fault: parts before the whole, from the left.
pub fn check(
    alloc: Global,
    expr: &Expr,
    declarations: &[Declaration],
) -> Result<CelType, CheckError>
    ensures checked { Gives result (checked declarations.now expr.now) }
    ensures typed { IfOk result (λ t. HasType declarations.now expr.now t) }
    ensures untyped { (f : TheFault) (t : Kind) → result ≡ Err (Fault f) → HasType declarations.now expr.now t → ⊥ }
{
    let mut scope = Scope {
        given: declarations,
        bound: Items::new(alloc),
    };
    let mut next = 0;
    check_in(alloc, expr, &mut scope, &mut next)
}

// The next node's number. No memory holds more nodes than a number tells.
fn number(next: &mut usize) -> Result<usize, CheckError>
    ensures at { Gives result (Ok next.old) }
    ensures next { OnOk result (next.new ≡ next.old + 1) }
{
    let node = *next;
    let Some(after) = node.checked_add(1) else {
        return Err(CheckError::Memory);
    };
    *next = after;
    Ok(node)
}

// The type that a name is declared with, once more.
fn name_type(
    alloc: Global,
    node: usize,
    name: &str,
    scope: &Scope<'_>,
) -> Result<CelType, CheckError>
    ensures { Gives result (needed_or (broken_at node Rule.T1) (declared name.now (declarations_of scope.now))) }
{
    match find(name, scope) {
        Some(t) => Ok(copy_type(alloc, t)?),
        None => Err(broken(node, TypeRule::T1)),
    }
}

#[cycle(check)]
fn check_in(
    alloc: Global,
    expr: &Expr,
    scope: &mut Scope<'_>,
    next: &mut usize,
) -> Result<CelType, CheckError>
    ensures type_of { Gives result ((typing expr.now).of (declarations_of scope.old) next.old) }
    ensures next { OnOk result (next.new ≡ next.old + (typing expr.now).nodes) }
    ensures scope { scope.new ≡ scope.old }
{
    match expr {
        Expr::Select(e, _) => check_select(alloc, e.get(), scope, next),
        Expr::Has(e, _) => check_has(alloc, e.get(), scope, next),
        Expr::Not(e) => check_unary(alloc, Function::Not, e.get(), scope, next),
        Expr::Neg(e) => check_unary(alloc, Function::Neg, e.get(), scope, next),
        Expr::Index(_, _) => check_index(alloc, expr, scope, next),
        Expr::Call(_, _, _) => check_call(alloc, expr, scope, next),
        Expr::Binary(_, _, _) => check_binary(alloc, expr, scope, next),
        Expr::Cond(_, _, _) => check_choice(alloc, expr, scope, next),
        Expr::Macro(_, _, _, _, _) => check_macro(alloc, expr, scope, next),
        _ => check_plain(alloc, expr, scope, next),
    }
}

// Each form of several parts has a function of its own, so that a level's frame holds what that form needs and no more.
// Each of these functions gets its own forms alone.
#[cycle(check)]
#[tactic(auto, using(crate::proofs::Pairs::typing_map))]
fn check_plain(
    alloc: Global,
    expr: &Expr,
    scope: &mut Scope<'_>,
    next: &mut usize,
) -> Result<CelType, CheckError>
    ensures type_of { Gives result ((typing expr.now).of (declarations_of scope.old) next.old) }
    ensures next { OnOk result (next.new ≡ next.old + (typing expr.now).nodes) }
    ensures scope { scope.new ≡ scope.old }
{
    let node = number(next)?;
    match expr {
        Expr::Null => Ok(CelType::Null),
        Expr::Bool(_) => Ok(CelType::Bool),
        Expr::Int(_) => Ok(CelType::Int),
        Expr::Text(_) => Ok(CelType::Text),
        Expr::Name(name) => name_type(alloc, node, name.as_str(), scope),
        Expr::List(items) => {
            let types = check_items(alloc, items.as_slice(), scope, next)?;
            Ok(list_type(alloc, types)?)
        }
        Expr::Map(pairs) => {
            let types = check_pairs(alloc, pairs.as_slice(), scope, next)?;
            literal_map_type(alloc, node, types)
        }
        _ => Err(CheckError::Memory),
    }
}

#[cycle(check)]
fn check_items(
    alloc: Global,
    items: &[Expr],
    scope: &mut Scope<'_>,
    next: &mut usize,
) -> Result<Items<CelType>, CheckError>
    ensures types { Gives result (all_of (map typing items.now) (declarations_of scope.old) next.old) }
    ensures next { OnOk result (next.new ≡ next.old + nodes_of (map typing items.now)) }
    ensures scope { scope.new ≡ scope.old }
{
    let mut types = Items::new(alloc);
    for item in items {
        types.push(check_in(alloc, item, scope, next)?)?;
    }
    Ok(types)
}

#[cycle(check)]
fn check_pairs(
    alloc: Global,
    pairs: &[MapPair],
    scope: &mut Scope<'_>,
    next: &mut usize,
) -> Result<Items<(CelType, CelType)>, CheckError>
    ensures types { Gives result (all_of (map (λ p. pair_step (record { key = typing p.key; value = typing p.value })) pairs.now) (declarations_of scope.old) next.old) }
    ensures next { OnOk result (next.new ≡ next.old + nodes_of (map (λ p. pair_step (record { key = typing p.key; value = typing p.value })) pairs.now)) }
    ensures scope { scope.new ≡ scope.old }
{
    let mut types = Items::new(alloc);
    for pair in pairs {
        let key = check_in(alloc, &pair.key, scope, next)?;
        let value = check_in(alloc, &pair.value, scope, next)?;
        types.push((key, value))?;
    }
    Ok(types)
}

#[cycle(check)]
fn check_select(
    alloc: Global,
    e: &Expr,
    scope: &mut Scope<'_>,
    next: &mut usize,
) -> Result<CelType, CheckError>
    ensures type_of { Gives result ((one (λ at r. type_selected at (out-CelType r)) (typing e.now)).of (declarations_of scope.old) next.old) }
    ensures next { OnOk result (next.new ≡ next.old + (1 + (typing e.now).nodes)) }
    ensures scope { scope.new ≡ scope.old }
{
    let node = number(next)?;
    let r = check_in(alloc, e, scope, next)?;
    selected_type(node, r)
}

#[cycle(check)]
fn check_has(
    alloc: Global,
    e: &Expr,
    scope: &mut Scope<'_>,
    next: &mut usize,
) -> Result<CelType, CheckError>
    ensures type_of { Gives result ((one (λ at r. type_of_presence at (out-CelType r)) (typing e.now)).of (declarations_of scope.old) next.old) }
    ensures next { OnOk result (next.new ≡ next.old + (1 + (typing e.now).nodes)) }
    ensures scope { scope.new ≡ scope.old }
{
    let node = number(next)?;
    let r = check_in(alloc, e, scope, next)?;
    presence_type(node, &r)
}

#[cycle(check)]
fn check_unary(
    alloc: Global,
    function: Function,
    e: &Expr,
    scope: &mut Scope<'_>,
    next: &mut usize,
) -> Result<CelType, CheckError>
    ensures type_of { Gives result ((one (λ at t. needed_or (broken_at at Rule.T3) (one_type function t)) (typing e.now)).of (declarations_of scope.old) next.old) }
    ensures next { OnOk result (next.new ≡ next.old + (1 + (typing e.now).nodes)) }
    ensures scope { scope.new ≡ scope.old }
{
    let node = number(next)?;
    let t = check_in(alloc, e, scope, next)?;
    unary_type(alloc, function, node, &t)
}

#[cycle(check)]
fn check_index(
    alloc: Global,
    expr: &Expr,
    scope: &mut Scope<'_>,
    next: &mut usize,
) -> Result<CelType, CheckError>
    ensures type_of { Gives result ((typing expr.now).of (declarations_of scope.old) next.old) }
    ensures next { OnOk result (next.new ≡ next.old + (typing expr.now).nodes) }
    ensures scope { scope.new ≡ scope.old }
{
    let Expr::Index(e, i) = expr else {
        return Err(CheckError::Memory);
    };
    let node = number(next)?;
    let r = check_in(alloc, e.get(), scope, next)?;
    let u = check_in(alloc, i.get(), scope, next)?;
    index_type(node, r, &u)
}

#[cycle(check)]
fn check_call(
    alloc: Global,
    expr: &Expr,
    scope: &mut Scope<'_>,
    next: &mut usize,
) -> Result<CelType, CheckError>
    ensures type_of { Gives result ((typing expr.now).of (declarations_of scope.old) next.old) }
    ensures next { OnOk result (next.new ≡ next.old + (typing expr.now).nodes) }
    ensures scope { scope.new ≡ scope.old }
{
    let Expr::Call(target, name, items) = expr else {
        return Err(CheckError::Memory);
    };
    let node = number(next)?;
    match target {
        None => {
            let types = check_items(alloc, items.as_slice(), scope, next)?;
            call_type(alloc, node, None, name.as_str(), types.as_slice())
        }
        Some(target) => {
            let target = check_in(alloc, target.get(), scope, next)?;
            let types = check_items(alloc, items.as_slice(), scope, next)?;
            call_type(alloc, node, Some(&target), name.as_str(), types.as_slice())
        }
    }
}

#[cycle(check)]
fn check_binary(
    alloc: Global,
    expr: &Expr,
    scope: &mut Scope<'_>,
    next: &mut usize,
) -> Result<CelType, CheckError>
    ensures type_of { Gives result ((typing expr.now).of (declarations_of scope.old) next.old) }
    ensures next { OnOk result (next.new ≡ next.old + (typing expr.now).nodes) }
    ensures scope { scope.new ≡ scope.old }
{
    let Expr::Binary(op, a, b) = expr else {
        return Err(CheckError::Memory);
    };
    let node = number(next)?;
    let t = check_in(alloc, a.get(), scope, next)?;
    let u = check_in(alloc, b.get(), scope, next)?;
    operator_type(alloc, *op, node, &t, &u)
}

#[cycle(check)]
fn check_choice(
    alloc: Global,
    expr: &Expr,
    scope: &mut Scope<'_>,
    next: &mut usize,
) -> Result<CelType, CheckError>
    ensures type_of { Gives result ((typing expr.now).of (declarations_of scope.old) next.old) }
    ensures next { OnOk result (next.new ≡ next.old + (typing expr.now).nodes) }
    ensures scope { scope.new ≡ scope.old }
{
    let Expr::Cond(condition, a, b) = expr else {
        return Err(CheckError::Memory);
    };
    let node = number(next)?;
    let r = check_in(alloc, condition.get(), scope, next)?;
    let t = check_in(alloc, a.get(), scope, next)?;
    let u = check_in(alloc, b.get(), scope, next)?;
    choice_type(node, &r, t, &u)
}

#[cycle(check)]
fn check_macro(
    alloc: Global,
    expr: &Expr,
    scope: &mut Scope<'_>,
    next: &mut usize,
) -> Result<CelType, CheckError>
    ensures type_of { Gives result ((typing expr.now).of (declarations_of scope.old) next.old) }
    ensures next { OnOk result (next.new ≡ next.old + (typing expr.now).nodes) }
    ensures scope { scope.new ≡ scope.old }
{
    let Expr::Macro(kind, range, name, test, body) = expr else {
        return Err(CheckError::Memory);
    };
    let node = number(next)?;
    let name = name.as_str();
    let range = check_in(alloc, range.get(), scope, next)?;
    let variable = variable_type(node, range)?;
    match test {
        None => {
            let body = check_with(alloc, body.get(), scope, next, name, &variable)?;
            gathered_type(alloc, *kind, node, variable, body)
        }
        Some(test) => {
            let test = check_with(alloc, test.get(), scope, next, name, &variable)?;
            let body = check_with(alloc, body.get(), scope, next, name, &variable)?;
            let _bool = where_fits(node, &test, &CelType::Bool, CelType::Bool)?;
            gathered_type(alloc, *kind, node, variable, body)
        }
    }
}

// The variable is declared in front of all others while the expression is looked at.
#[cycle(check)]
fn check_with(
    alloc: Global,
    expr: &Expr,
    scope: &mut Scope<'_>,
    next: &mut usize,
    name: &str,
    variable: &CelType,
) -> Result<CelType, CheckError>
    ensures type_of { Gives result ((typing expr.now).of (with_variable name.now variable.now (declarations_of scope.old)) next.old) }
    ensures next { OnOk result (next.new ≡ next.old + (typing expr.now).nodes) }
    ensures scope { scope.new ≡ scope.old }
{
    let name = Text::copy_of(alloc, name)?;
    let variable = copy_type(alloc, variable)?;
    enter(scope, name, variable)?;
    let outcome = check_in(alloc, expr, scope, next);
    leave(scope);
    outcome
}
