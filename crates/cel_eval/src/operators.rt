//! What operators do with values that are there.
ghost use Rattle.std.specs.Prelude.{◌≡◌, ◌≤◌, length, ◌∷◌, [], IfOk, IfErr, Ok, Err, map, true};
ghost use Rattle.std.specs.List.{insert};
ghost use Rattle.std.specs.Option.{option_copied};
ghost use Rattle.cel_values.specs.declared.value.Value.{out-Value, Value as Datum};
ghost use Rattle.cel_values.specs.declared.expr.BinaryOp.{BinaryOp as Operator};
ghost use Rattle.cel_builtins.specs.Outcomes.{Gives};
ghost use Rattle.cel_eval.specs.Errors.{earlier as earlier_of, unless_error};
ghost use Rattle.cel_eval.specs.Denotation.{truth as truth_in, entry_at as entry_in, item_at as item_in, has_key as key_in, or_no_key, selected as selected_in, presence as presence_in, indexed as indexed_in, any_equal as equal_in, lies_in as lies_within, strict as strict_of, range_of as range_in, limited as limited_to, key_of, put_entry as entry_put, put_pairs as pairs_put, called as called_of, logic};

use base_types::{Items, Text};
use cel_builtins::{Function, apply_one, apply_two, function_of, no_overload};
use cel_values::{BinaryOp, EvalError, EvalStop, MapEntry, Value, copy, equal, holds_opaque};
use std::alloc::{AllocError, Global};

/// How an operator looks at its operands.
#[derive(Clone, Copy, Debug, PartialEq, Eq)]
pub enum Logic {
    /// `&&`
    And,
    /// `||`
    Or,
    /// It takes both.
    Neither,
}

/// How an operator looks at its operands.
pub fn logic_of(op: BinaryOp) -> Logic
    ensures { result ≡ logic op }
{
    match op {
        BinaryOp::And => Logic::And,
        BinaryOp::Or => Logic::Or,
        _ => Logic::Neither,
    }
}

/// An operand that is no bool counts as an error.
pub fn truth(value: &Value) -> Result<bool, EvalStop>
    ensures { Gives result (truth_in value.now) }
{
    match value {
        Value::Bool(test) => Ok(*test),
        _ => Err(EvalStop::Error(EvalError::NoOverload)),
    }
}

/// The value of a key.
fn entry_at<'s>(key: &str, entries: &'s [MapEntry]) -> Option<&'s Value>
    ensures { option_copied result ≡ entry_in key.now entries.now }
{
    for entry in entries {
        if key == entry.key.as_str() {
            return Some(&entry.value);
        }
    }
    None
}

fn key_value(alloc: Global, key: &str, entries: &[MapEntry]) -> Result<Value, EvalStop>
    ensures { Gives result (or_no_key (entry_in key.now entries.now)) }
{
    match entry_at(key, entries) {
        Some(value) => Ok(copy(alloc, value)?),
        None => Err(EvalStop::Error(EvalError::NoKey)),
    }
}

/// The value that a selection takes.
pub fn field_of<'s>(value: &'s Value, field: &str) -> Result<&'s Value, EvalError>
    ensures there { IfOk result (λ found. selected_in field.now (out-Value value.now) ≡ Ok found.now) }
    ensures fails { IfErr result (λ error. selected_in field.now (out-Value value.now) ≡ Err error) }
{
    match value {
        Value::Map(entries) => entry_at(field, entries.as_slice()).ok_or(EvalError::NoKey),
        _ => Err(EvalError::NoOverload),
    }
}

fn has_key(key: &str, entries: &[MapEntry]) -> bool
    ensures { result ≡ key_in key.now entries.now }
{
    for entry in entries {
        if key == entry.key.as_str() {
            return true;
        }
    }
    false
}

pub fn selected(alloc: Global, field: &str, value: &Value) -> Result<Value, EvalStop>
    ensures { Gives result (selected_in field.now (out-Value value.now)) }
{
    match value {
        Value::Map(entries) => key_value(alloc, field, entries.as_slice()),
        _ => no_overload(),
    }
}

pub fn presence(field: &str, value: &Value) -> Result<Value, EvalStop>
    ensures { Gives result (presence_in field.now (out-Value value.now)) }
{
    match value {
        Value::Map(entries) => Ok(Value::Bool(has_key(field, entries.as_slice()))),
        _ => no_overload(),
    }
}

fn item_at(alloc: Global, items: &[Value], at: i64) -> Result<Value, EvalStop>
    ensures { Gives result (item_in items.now at) }
{
    match usize::try_from(at) {
        Ok(at) if at < items.len() => Ok(copy(alloc, &items[at])?),
        _ => Err(EvalStop::Error(EvalError::Index)),
    }
}

pub fn indexed(alloc: Global, value: &Value, at: &Value) -> Result<Value, EvalStop>
    ensures { Gives result (indexed_in (out-Value value.now) (out-Value at.now)) }
{
    match (value, at) {
        (Value::List(items), Value::Int(at)) => item_at(alloc, items.as_slice(), *at),
        (Value::Map(entries), Value::Text(key)) => key_value(
            alloc,
            key.as_str(),
            entries.as_slice(),
        ),
        _ => no_overload(),
    }
}

fn any_equal(value: &Value, items: &[Value]) -> bool
    ensures { result ≡ equal_in value.now items.now }
{
    for item in items {
        if equal(value, item) {
            return true;
        }
    }
    false
}

fn lies_in(value: &Value, whole: &Value) -> Result<Value, EvalStop>
    ensures { Gives result (lies_within value.now (out-Value value.now) (out-Value whole.now)) }
{
    match (value, whole) {
        (_, Value::List(items)) => Ok(Value::Bool(any_equal(value, items.as_slice()))),
        (Value::Text(key), Value::Map(entries)) => {
            Ok(Value::Bool(has_key(key.as_str(), entries.as_slice())))
        }
        _ => no_overload(),
    }
}

/// An operator that takes both operands.
pub fn strict(alloc: Global, op: BinaryOp, a: &Value, b: &Value) -> Result<Value, EvalStop>
    ensures { Gives result (strict_of op a.now b.now) }
{
    match op {
        BinaryOp::Lt => apply_two(alloc, Function::Lt, a, b),
        BinaryOp::Le => apply_two(alloc, Function::Le, a, b),
        BinaryOp::Gt => apply_two(alloc, Function::Gt, a, b),
        BinaryOp::Ge => apply_two(alloc, Function::Ge, a, b),
        BinaryOp::Add => apply_two(alloc, Function::Add, a, b),
        BinaryOp::Sub => apply_two(alloc, Function::Sub, a, b),
        BinaryOp::Mul => apply_two(alloc, Function::Mul, a, b),
        BinaryOp::Div => apply_two(alloc, Function::Div, a, b),
        BinaryOp::Rem => apply_two(alloc, Function::Rem, a, b),
        BinaryOp::Eq => are_equal(a, b),
        BinaryOp::Ne => are_unequal(a, b),
        BinaryOp::Within => is_within(a, b),
        BinaryOp::Or | BinaryOp::And => no_overload(),
    }
}

fn are_equal(a: &Value, b: &Value) -> Result<Value, EvalStop>
    ensures { Gives result (strict_of Operator.Eq a.now b.now) }
{
    if holds_opaque(a) || holds_opaque(b) {
        return no_overload();
    }
    Ok(Value::Bool(equal(a, b)))
}

fn are_unequal(a: &Value, b: &Value) -> Result<Value, EvalStop>
    ensures { Gives result (strict_of Operator.Ne a.now b.now) }
{
    if holds_opaque(a) || holds_opaque(b) {
        return no_overload();
    }
    Ok(Value::Bool(!equal(a, b)))
}

fn is_within(a: &Value, b: &Value) -> Result<Value, EvalStop>
    ensures { Gives result (strict_of Operator.Within a.now b.now) }
{
    if holds_opaque(a) || holds_opaque(b) {
        return no_overload();
    }
    lies_in(a, b)
}

fn keys(alloc: Global, entries: &[MapEntry]) -> Result<Items<Value>, AllocError>
    ensures { IfOk result (λ all. all ≡ map key_of entries.now) }
{
    let mut all = Items::new(alloc);
    for entry in entries {
        all.push(Value::Text(entry.key.copy(alloc)?))?;
    }
    Ok(all)
}

/// How many items a macro goes over at most.
const RANGE: usize = 256;

/// The items of a list, or the keys of a map.
pub fn range_of(alloc: Global, value: Value) -> Result<Items<Value>, EvalStop>
    ensures { Gives result (range_in (out-Value value)) }
{
    match value {
        Value::List(items) => limited(items),
        Value::Map(entries) => {
            let all = keys(alloc, entries.as_slice());
            drop(entries);
            limited(all?)
        }
        other => {
            drop(other);
            Err(EvalStop::Error(EvalError::NoOverload))
        }
    }
}

fn limited(items: Items<Value>) -> Result<Items<Value>, EvalStop>
    ensures { Gives result (limited_to items) }
{
    if items.len() > RANGE {
        drop(items);
        return Err(EvalStop::Error(EvalError::TooLong));
    }
    Ok(items)
}

/// A function of these arguments, by its name and style.
pub fn called(
    alloc: Global,
    is_member: bool,
    name: &str,
    values: &[Value],
) -> Result<Value, EvalStop>
    ensures { Gives result (called_of is_member name.now values.now) }
{
    match (function_of(is_member, name), values) {
        (Some(function), [a]) => apply_one(alloc, function, a),
        (Some(function), [a, b]) => apply_two(alloc, function, a, b),
        _ => no_overload(),
    }
}

/// A member of the target with these arguments.
pub fn member_called(
    alloc: Global,
    name: &str,
    target: &Value,
    values: &[Value],
) -> Result<Value, EvalStop>
    ensures { Gives result (called_of true name.now (target.now ∷ values.now)) }
{
    match (function_of(true, name), values) {
        (Some(function), []) => apply_one(alloc, function, target),
        (Some(function), [a]) => apply_two(alloc, function, target, a),
        _ => no_overload(),
    }
}

/// The error that came first.
pub fn earlier(first: Option<EvalError>, error: EvalError) -> Option<EvalError>
    ensures { result ≡ earlier_of first error }
{
    match first {
        None => Some(error),
        Some(first) => Some(first),
    }
}

/// The answer, where there was no error.
pub fn without_error(first: Option<EvalError>, answer: bool) -> Result<bool, EvalStop>
    ensures { Gives result (unless_error first answer) }
{
    match first {
        None => Ok(answer),
        Some(first) => Err(EvalStop::Error(first)),
    }
}

fn place_of(key: &str, entries: &[MapEntry]) -> usize
    ensures within { result ≤ length entries.now }
    ensures place { (value : Datum) → insert entries.now result (record { key = key.now; value = value }) ≡ entry_put key.now value entries.now }
{
    for (index, entry) in entries.iter().enumerate() {
        if key < entry.key.as_str() {
            return index;
        }
    }
    entries.len()
}

/// The entries of a map literal: the first wrong pair counts.
pub fn put_pairs(
    alloc: Global,
    mut pairs: Items<(Value, Value)>,
) -> Result<Items<MapEntry>, EvalStop>
    ensures { Gives result (pairs_put [] pairs) }
{
    let mut entries = Vec::new(alloc);
    while !pairs.is_empty() {
        let (key, value) = pairs.remove(0);
        let Value::Text(key) = key else {
            return Err(EvalStop::Error(EvalError::NoOverload));
        };
        if has_key(key.as_str(), entries.as_slice()) {
            return Err(EvalStop::Error(EvalError::BadText));
        }
        let place = place_of(key.as_str(), entries.as_slice());
        if entries.insert(place, MapEntry { key, value }).is_err() {
            return Err(EvalStop::Memory);
        }
    }
    Ok(Items::from_vec(entries))
}
