ghost use Rattle.std.specs.Prelude.{◌≡◌, [], ◌∷◌};
ghost use Rattle.cel_values.specs.declared.value.Value.{out-Value};
ghost use Rattle.cel_builtins.specs.Outcomes.{Gives};
ghost use Rattle.cel_builtins.specs.Functions.{applied, of_one as computed_one, of_two as computed_two, takes as taken_by};

use crate::calendar::{
    date, day_of_month, day_of_week, day_of_year, full_year, hours, minutes, month, seconds,
};
use crate::conversions::{as_integer, as_moment, as_span, as_text};
use crate::numbers::{add, divided, inverse, multiply, opposite, rest, subtract};
use crate::pieces::{join, split};
use crate::refusals::no_overload;
use crate::relations::{at_least, at_most, greater, less};
use crate::templates::extract;
use crate::texts::{contains, ends, lower, size, starts};
use crate::{Function, kind_of, row};
use cel_values::{EvalStop, Value, holds_opaque};
use std::alloc::Global;

fn takes(function: Function, a: &Value) -> bool
    ensures { result ≡ taken_by function a.now }
{
    match function {
        Function::Size => true,
        _ => !holds_opaque(a),
    }
}

fn of_one(alloc: Global, function: Function, a: &Value) -> Result<Value, EvalStop>
    ensures { Gives result (computed_one function (out-Value a.now)) }
{
    match function {
        Function::Not => inverse(a),
        Function::Neg => opposite(a),
        Function::Size => size(a),
        Function::LowerAscii => lower(alloc, a),
        Function::Int => as_integer(a),
        Function::String => as_text(alloc, a),
        Function::Timestamp => as_moment(a),
        Function::Duration => as_span(a),
        Function::GetFullYear => full_year(a),
        Function::GetMonth => month(a),
        Function::GetDayOfMonth => day_of_month(a),
        Function::GetDayOfYear => day_of_year(a),
        Function::GetDate => date(a),
        Function::GetDayOfWeek => day_of_week(a),
        Function::GetHours => hours(a),
        Function::GetMinutes => minutes(a),
        Function::GetSeconds => seconds(a),
        _ => no_overload(),
    }
}

fn of_two(alloc: Global, function: Function, a: &Value, b: &Value) -> Result<Value, EvalStop>
    ensures { Gives result (computed_two function (out-Value a.now) (out-Value b.now)) }
{
    match function {
        Function::Add => add(alloc, a, b),
        Function::Sub => subtract(a, b),
        Function::Mul => multiply(a, b),
        Function::Div => divided(a, b),
        Function::Rem => rest(a, b),
        Function::Lt => less(a, b),
        Function::Le => at_most(a, b),
        Function::Gt => greater(a, b),
        Function::Ge => at_least(a, b),
        Function::Contains => contains(a, b),
        Function::StartsWith => starts(a, b),
        Function::EndsWith => ends(a, b),
        Function::Extract => extract(alloc, a, b),
        Function::Split => split(alloc, a, b),
        Function::Join => join(alloc, a, b),
        _ => no_overload(),
    }
}

/// The function of one argument.
pub fn apply_one(alloc: Global, function: Function, a: &Value) -> Result<Value, EvalStop>
    ensures { Gives result (applied function (a.now ∷ [])) }
{
    if !takes(function, a) || row(function, kind_of(a), 0).is_none() {
        return no_overload();
    }
    of_one(alloc, function, a)
}

/// The function of two arguments.
pub fn apply_two(alloc: Global, function: Function, a: &Value, b: &Value) -> Result<Value, EvalStop>
    ensures { Gives result (applied function (a.now ∷ b.now ∷ [])) }
{
    if !takes(function, a)
        || !takes(function, b)
        || row(function, kind_of(a), kind_of(b)).is_none()
    {
        return no_overload();
    }
    of_two(alloc, function, a, b)
}
