ghost use Rattle.std.specs.Prelude.{◌≡◌, IfOk, Some};
ghost use Rattle.std.specs.Option.{option_copied};
ghost use Rattle.cel_types.specs.Rules.{arguments};
ghost use Rattle.cel_types.specs.Types.{fits as fits_type};
ghost use Rattle.cel_types.specs.declared.cel_type.CelType.{CelType as Kind, out-CelType};
ghost use Rattle.cel_types.specs.declared.cel_type.CelType.TheViews as types;
ghost use Rattle.cel_builtins.specs.declared.function.Function.{Function as Operation};
ghost use Rattle.cel_types.specs.Rows.{fits_kind as is_kind, sum_type as sum_type_of, second_fits_kind as second_is_kind, type_of_result as result_type, common as common_of, results_of, by_rows as by_rows_of, two_type as two_type_of, function_type as function_type_of};

use crate::CelType;
use crate::copying::copy_type;
use crate::fitting::{fits, join};
use base_types::Boxed;
use cel_builtins::{Function, OVERLOADS, number_of};
use std::alloc::{AllocError, Global};

// What the rows that fit give together.
#[derive(Clone, Copy)]
enum Results {
    Nothing,
    One(u32),
    Several,
}

fn fits_kind(t: &CelType, kind: u32) -> bool
    ensures { result ≡ is_kind t.now kind }
{
    match t {
        CelType::Dyn => kind != 0,
        CelType::Null => kind == 1,
        CelType::Bool => kind == 2,
        CelType::Int => kind == 3,
        CelType::Text => kind == 4,
        CelType::List(_) => kind == 5,
        CelType::Map(_) => kind == 6,
        CelType::Time => kind == 7,
        CelType::Span => kind == 8,
    }
}

fn second_fits_kind(second: Option<&CelType>, kind: u32) -> bool
    ensures { result ≡ second_is_kind (option_copied second.entry) kind }
{
    match second {
        None => kind == 0,
        Some(t) => fits_kind(t, kind),
    }
}

fn type_of_result(alloc: Global, function: Function, kind: u32) -> Result<CelType, AllocError>
    ensures { IfOk result (λ t. t ≡ result_type function kind) }
{
    match (function, kind) {
        (Function::Split, _) => Ok(CelType::List(Boxed::new(alloc, CelType::Text)?)),
        (_, 1) => Ok(CelType::Null),
        (_, 2) => Ok(CelType::Bool),
        (_, 3) => Ok(CelType::Int),
        (_, 4) => Ok(CelType::Text),
        (_, 5) => Ok(CelType::List(Boxed::new(alloc, CelType::Dyn)?)),
        (_, 6) => Ok(CelType::Map(Boxed::new(alloc, CelType::Dyn)?)),
        (_, 7) => Ok(CelType::Time),
        (_, 8) => Ok(CelType::Span),
        _ => Ok(CelType::Dyn),
    }
}

// The type of the results of the rows that fit, or none where no row does.
#[tactic(auto, using(crate::proofs::Gathered::gathered_common))]
fn common(
    alloc: Global,
    function: Function,
    first: &CelType,
    second: Option<&CelType>,
    rows: &[(u32, u32)],
) -> Result<Option<CelType>, AllocError>
    ensures { IfOk result (λ found. found ≡ common_of function (results_of function first.now (option_copied second.entry) rows.now)) }
{
    let number = number_of(function);
    let mut results = Results::Nothing;
    for row in rows {
        if row.0 / 100 == number
            && fits_kind(first, row.0 / 10 % 10)
            && second_fits_kind(second, row.0 % 10)
        {
            results = match results {
                Results::Nothing => Results::One(row.1),
                Results::One(kind) if kind == row.1 => Results::One(kind),
                _ => Results::Several,
            };
        }
    }
    match results {
        Results::Nothing => Ok(None),
        Results::One(kind) => Ok(Some(type_of_result(alloc, function, kind)?)),
        Results::Several => Ok(Some(CelType::Dyn)),
    }
}

/// The type that the overload table gives for these arguments.
#[tactic(auto, unfolding(crate::specs::Rows::by_rows))]
pub fn by_rows(
    alloc: Global,
    function: Function,
    first: &CelType,
    second: Option<&CelType>,
) -> Result<Option<CelType>, AllocError>
    ensures { IfOk result (λ found. found ≡ by_rows_of function first.now (option_copied second.entry)) }
{
    common(alloc, function, first, second, &OVERLOADS)
}

// `+` of two lists joins the types of their items.
fn sum_type(alloc: Global, first: &CelType, second: &CelType) -> Result<Option<CelType>, AllocError>
    ensures { IfOk result (λ found. found ≡ sum_type_of (out-CelType first.now) (out-CelType second.now) (by_rows_of Operation.Add first.now (Some second.now))) }
{
    match (first, second) {
        (CelType::List(t), CelType::List(u)) => {
            let item = join(copy_type(alloc, t.get())?, u.get());
            Ok(Some(CelType::List(Boxed::new(alloc, item)?)))
        }
        _ => by_rows(alloc, Function::Add, first, Some(second)),
    }
}

fn may_hold_texts(t: &CelType) -> bool
    ensures { result ≡ fits_type t.now (types.List Kind.Text) }
{
    match t {
        CelType::Dyn => true,
        CelType::List(item) => fits(item.get(), &CelType::Text),
        _ => false,
    }
}

/// The type of a function of two arguments.
pub fn two_type(
    alloc: Global,
    function: Function,
    first: &CelType,
    second: &CelType,
) -> Result<Option<CelType>, AllocError>
    ensures { IfOk result (λ found. found ≡ two_type_of function first.now second.now) }
{
    match function {
        Function::Add => sum_type(alloc, first, second),
        Function::Join if !may_hold_texts(first) => Ok(None),
        _ => by_rows(alloc, function, first, Some(second)),
    }
}

/// The type of a function of these arguments.
pub fn function_type(
    alloc: Global,
    function: Function,
    target: Option<&CelType>,
    others: &[CelType],
) -> Result<Option<CelType>, AllocError>
    ensures { IfOk result (λ found. found ≡ function_type_of function (arguments (option_copied target.entry) others.now)) }
{
    match (target, others) {
        (None, [t]) => by_rows(alloc, function, t, None),
        (Some(t), []) => by_rows(alloc, function, t, None),
        (None, [t, u]) => two_type(alloc, function, t, u),
        (Some(t), [u]) => two_type(alloc, function, t, u),
        _ => Ok(None),
    }
}
