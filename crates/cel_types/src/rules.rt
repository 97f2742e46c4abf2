//! The rule of each form of expression, its parts having types.
ghost use Rattle.std.specs.Prelude.{◌≡◌, ◌∷◌, map, IfOk};
ghost use Rattle.std.specs.Option.{option_copied};
ghost use Rattle.base_types.specs.Steps.{needed as needed_or};
ghost use Rattle.cel_builtins.specs.declared.function.Function.{Function as Operation};
ghost use Rattle.cel_types.specs.declared.cel_type.CelType.{CelType as Kind, out-CelType};
ghost use Rattle.cel_types.specs.declared.cel_type.CelType.TheViews as types;
ghost use Rattle.cel_types.specs.declared.fault.TypeRule.{TypeRule as Rule};
ghost use Rattle.cel_types.specs.declared.fault.CheckError.TheVariants.{Fault};
ghost use Rattle.cel_types.specs.Types.{join_all as join_of};
ghost use Rattle.cel_types.specs.Rows.{one_type};
ghost use Rattle.cel_types.specs.Rules.{arguments, is_member};
ghost use Rattle.cel_types.specs.Typing.{Gives, broken as broken_at, where_fits as where_it_fits, selected_type as type_selected, presence_type as type_of_presence, index_type as type_at_index, within_type as type_of_within, truth_type as type_of_truth, table_type as type_by_table, operator_type as type_by_operator, choice_type as type_of_choice, call_type as type_of_call, literal_map_type as type_of_literal_map, variable_type as type_of_variable, gathered_type as type_gathered};

use crate::fitting::{fits, join, join_all, join_values, keys_fit};
use crate::rows::{by_rows, function_type, two_type};
use crate::{CelType, CheckError, TypeFault, TypeRule};
use base_types::{Boxed, Items};
use cel_builtins::{Function, function_of};
use cel_values::{BinaryOp, MacroKind};
use std::alloc::{AllocError, Global};

/// This rule is broken at this node.
pub fn broken(node: usize, rule: TypeRule) -> CheckError
    ensures { result ≡ Fault (broken_at node rule) }
{
    CheckError::Fault(TypeFault { node, rule })
}

// The type, or a fault where there is none.
fn needed(node: usize, rule: TypeRule, found: Option<CelType>) -> Result<CelType, CheckError>
    ensures { Gives result (needed_or (broken_at node rule) found) }
{
    match found {
        Some(t) => Ok(t),
        None => Err(broken(node, rule)),
    }
}

/// This type, where the other fits what is wanted.
pub fn where_fits(
    node: usize,
    u: &CelType,
    wanted: &CelType,
    t: CelType,
) -> Result<CelType, CheckError>
    ensures { Gives result (where_it_fits node u.now wanted.now t) }
{
    if !fits(u, wanted) {
        return Err(broken(node, TypeRule::T3));
    }
    Ok(t)
}

/// The type of a list literal, from those of its items.
pub fn list_type(alloc: Global, items: Items<CelType>) -> Result<CelType, AllocError>
    ensures { IfOk result (λ t. t ≡ types.List (join_of items)) }
{
    Ok(CelType::List(Boxed::new(alloc, join_all(items))?))
}

/// The type of a map literal, from those of its keys and its values.
pub fn literal_map_type(
    alloc: Global,
    node: usize,
    pairs: Items<(CelType, CelType)>,
) -> Result<CelType, CheckError>
    ensures { Gives result (type_of_literal_map node pairs) }
{
    if !keys_fit(&CelType::Text, pairs.as_slice()) {
        return Err(broken(node, TypeRule::T3));
    }
    Ok(CelType::Map(Boxed::new(alloc, join_values(pairs))?))
}

/// The type of `e.field`.
pub fn selected_type(node: usize, r: CelType) -> Result<CelType, CheckError>
    ensures { Gives result (type_selected node (out-CelType r)) }
{
    match r {
        CelType::Map(t) => Ok(t.into_inner()),
        CelType::Dyn => Ok(CelType::Dyn),
        _ => Err(broken(node, TypeRule::T3)),
    }
}

/// The type of `has(e.field)`.
pub fn presence_type(node: usize, r: &CelType) -> Result<CelType, CheckError>
    ensures { Gives result (type_of_presence node (out-CelType r.now)) }
{
    match r {
        CelType::Map(_) => Ok(CelType::Bool),
        CelType::Dyn => Ok(CelType::Bool),
        _ => Err(broken(node, TypeRule::T3)),
    }
}

/// The type of `e[i]`.
pub fn index_type(node: usize, r: CelType, u: &CelType) -> Result<CelType, CheckError>
    ensures { Gives result (type_at_index node (out-CelType r) u.now) }
{
    match r {
        CelType::List(t) => where_fits(node, u, &CelType::Int, t.into_inner()),
        CelType::Map(t) => where_fits(node, u, &CelType::Text, t.into_inner()),
        CelType::Dyn if fits(u, &CelType::Int) => Ok(CelType::Dyn),
        CelType::Dyn => where_fits(node, u, &CelType::Text, CelType::Dyn),
        _ => Err(broken(node, TypeRule::T3)),
    }
}

fn within_type(node: usize, u: &CelType, r: &CelType) -> Result<CelType, CheckError>
    ensures { Gives result (type_of_within node u.now (out-CelType r.now)) }
{
    match r {
        CelType::List(_) => Ok(CelType::Bool),
        CelType::Map(_) => where_fits(node, u, &CelType::Text, CelType::Bool),
        CelType::Dyn => Ok(CelType::Bool),
        _ => Err(broken(node, TypeRule::T3)),
    }
}

fn truth_type(node: usize, t: &CelType, u: &CelType) -> Result<CelType, CheckError>
    ensures { Gives result (type_of_truth node t.now u.now) }
{
    if fits(t, &CelType::Bool) && fits(u, &CelType::Bool) {
        return Ok(CelType::Bool);
    }
    Err(broken(node, TypeRule::T3))
}

/// The type of a function of one argument.
pub fn unary_type(
    alloc: Global,
    function: Function,
    node: usize,
    t: &CelType,
) -> Result<CelType, CheckError>
    ensures { Gives result (needed_or (broken_at node Rule.T3) (one_type function t.now)) }
{
    needed(node, TypeRule::T3, by_rows(alloc, function, t, None)?)
}

fn table_type(
    alloc: Global,
    function: Function,
    node: usize,
    t: &CelType,
    u: &CelType,
) -> Result<CelType, CheckError>
    ensures { Gives result (type_by_table function node t.now u.now) }
{
    needed(node, TypeRule::T3, two_type(alloc, function, t, u)?)
}

/// The type of an operator of two operands.
pub fn operator_type(
    alloc: Global,
    op: BinaryOp,
    node: usize,
    t: &CelType,
    u: &CelType,
) -> Result<CelType, CheckError>
    ensures { Gives result (type_by_operator op node t.now u.now) }
{
    match op {
        BinaryOp::And => truth_type(node, t, u),
        BinaryOp::Or => truth_type(node, t, u),
        BinaryOp::Eq => where_fits(node, t, u, CelType::Bool),
        BinaryOp::Ne => where_fits(node, t, u, CelType::Bool),
        BinaryOp::Within => within_type(node, t, u),
        BinaryOp::Lt => table_type(alloc, Function::Lt, node, t, u),
        BinaryOp::Le => table_type(alloc, Function::Le, node, t, u),
        BinaryOp::Gt => table_type(alloc, Function::Gt, node, t, u),
        BinaryOp::Ge => table_type(alloc, Function::Ge, node, t, u),
        BinaryOp::Add => table_type(alloc, Function::Add, node, t, u),
        BinaryOp::Sub => table_type(alloc, Function::Sub, node, t, u),
        BinaryOp::Mul => table_type(alloc, Function::Mul, node, t, u),
        BinaryOp::Div => table_type(alloc, Function::Div, node, t, u),
        BinaryOp::Rem => table_type(alloc, Function::Rem, node, t, u),
    }
}

/// The type of `?:`.
pub fn choice_type(node: usize, r: &CelType, t: CelType, u: &CelType) -> Result<CelType, CheckError>
    ensures { Gives result (type_of_choice node r.now t u.now) }
{
    if !fits(r, &CelType::Bool) || !fits(&t, u) {
        return Err(broken(node, TypeRule::T3));
    }
    Ok(join(t, u))
}

/// The type of a call, of a method where it has a target.
pub fn call_type(
    alloc: Global,
    node: usize,
    target: Option<&CelType>,
    name: &str,
    others: &[CelType],
) -> Result<CelType, CheckError>
    ensures { Gives result (type_of_call node (is_member (option_copied target.entry)) name.now (arguments (option_copied target.entry) others.now)) }
{
    let Some(function) = function_of(target.is_some(), name) else {
        return Err(broken(node, TypeRule::T2));
    };
    let found = function_type(alloc, function, target, others)?;
    needed(node, TypeRule::T3, found)
}

/// The type of a macro's variable, over a range of this type.
pub fn variable_type(node: usize, range: CelType) -> Result<CelType, CheckError>
    ensures { Gives result (type_of_variable node (out-CelType range)) }
{
    match range {
        CelType::List(t) => Ok(t.into_inner()),
        CelType::Map(_) => Ok(CelType::Text),
        CelType::Dyn => Ok(CelType::Dyn),
        _ => Err(broken(node, TypeRule::T3)),
    }
}

/// The type of a macro, from those of its variable and of its last argument.
pub fn gathered_type(
    alloc: Global,
    kind: MacroKind,
    node: usize,
    t: CelType,
    u: CelType,
) -> Result<CelType, CheckError>
    ensures { Gives result (type_gathered kind node t u) }
{
    match kind {
        MacroKind::All => where_fits(node, &u, &CelType::Bool, CelType::Bool),
        MacroKind::Exists => where_fits(node, &u, &CelType::Bool, CelType::Bool),
        MacroKind::ExistsOne => where_fits(node, &u, &CelType::Bool, CelType::Bool),
        MacroKind::Filter => {
            let all = CelType::List(Boxed::new(alloc, t)?);
            where_fits(node, &u, &CelType::Bool, all)
        }
        MacroKind::Map => Ok(CelType::List(Boxed::new(alloc, u)?)),
    }
}
