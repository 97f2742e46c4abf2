ghost use Rattle.std.specs.Prelude.{◌≡◌, [], ◌∷◌, Some, None, List, IfOk, map, length};
ghost use Rattle.cel_values.specs.declared.expr.Expr.{out-Expr};
ghost use Rattle.cel_syntax.specs.Macros.{kind_of as kind_named, variable, literal_tree, has_tree, two_tree, three_tree, call_tree, method_tree, expanded, pair_expanded};

use base_types::{Boxed, Items, Text};
use cel_grammar::{Draft, DraftPair};
use cel_tokens::Literal;
use cel_values::{Expr, MacroKind, MapPair};
use std::alloc::{AllocError, Global};

/// The macro of a name with a variable and one argument more.
pub fn kind_of(name: &str) -> Option<MacroKind>
    ensures { result ≡ kind_named name.now }
{
    if name == "all" {
        return Some(MacroKind::All);
    }
    if name == "exists" {
        return Some(MacroKind::Exists);
    }
    if name == "exists_one" {
        return Some(MacroKind::ExistsOne);
    }
    if name == "filter" {
        return Some(MacroKind::Filter);
    }
    if name == "map" {
        return Some(MacroKind::Map);
    }
    None
}

fn literal(alloc: Global, literal: &Literal) -> Result<Expr, AllocError>
    ensures { IfOk result (λ x. x ≡ literal_tree literal.now) }
{
    match literal {
        Literal::Null => Ok(Expr::Null),
        Literal::Bool(flag) => Ok(Expr::Bool(*flag)),
        Literal::Text(text) => Ok(Expr::Text(text.copy(alloc)?)),
    }
}

// The presence test of a selection.
fn has_form(alloc: Global, argument: Expr) -> Result<Expr, AllocError>
    ensures { IfOk result (λ x. x ≡ has_tree (argument ∷ [])) }
{
    match argument {
        Expr::Select(e, field) => Ok(Expr::Has(e, field)),
        other => Ok(Expr::Has(Boxed::new(alloc, other)?, Text::new(String::new(alloc)))),
    }
}

// The name that a macro's variable has.
fn into_variable(alloc: Global, e: Expr) -> Text
    ensures { result ≡ variable (out-Expr e) }
{
    match e {
        Expr::Name(name) => name,
        _ => Text::new(String::new(alloc)),
    }
}

fn two_form(
    alloc: Global,
    kind: MacroKind,
    range: Boxed<Expr>,
    mut items: Items<Expr>,
) -> Result<Expr, AllocError>
    requires { length items ≡ 2 }
    ensures { IfOk result (λ x. x ≡ two_tree kind range items) }
{
    let Some(value) = items.pop() else {
        return Ok(Expr::Null);
    };
    let Some(name) = items.pop() else {
        return Ok(Expr::Null);
    };
    Ok(Expr::Macro(
        kind,
        range,
        into_variable(alloc, name),
        None,
        Boxed::new(alloc, value)?,
    ))
}

fn three_form(alloc: Global, range: Boxed<Expr>, mut items: Items<Expr>) -> Result<Expr, AllocError>
    requires { length items ≡ 3 }
    ensures { IfOk result (λ x. x ≡ three_tree range items) }
{
    let Some(value) = items.pop() else {
        return Ok(Expr::Null);
    };
    let Some(test) = items.pop() else {
        return Ok(Expr::Null);
    };
    let Some(name) = items.pop() else {
        return Ok(Expr::Null);
    };
    let name = into_variable(alloc, name);
    let test = Boxed::new(alloc, test)?;
    Ok(Expr::Macro(
        MacroKind::Map,
        range,
        name,
        Some(test),
        Boxed::new(alloc, value)?,
    ))
}

// A call of a function.
fn call_form(alloc: Global, name: Text, mut items: Items<Expr>) -> Result<Expr, AllocError>
    ensures { IfOk result (λ x. x ≡ call_tree name items) }
{
    if items.len() == 1 && name.as_str() == "has" {
        if let Some(argument) = items.pop() {
            return has_form(alloc, argument);
        }
    }
    Ok(Expr::Call(None, name, items))
}

// A call of a method.
fn method_form(
    alloc: Global,
    range: Boxed<Expr>,
    name: Text,
    items: Items<Expr>,
) -> Result<Expr, AllocError>
    ensures { IfOk result (λ x. x ≡ method_tree range name items) }
{
    if items.len() == 2 {
        if let Some(kind) = kind_of(name.as_str()) {
            return two_form(alloc, kind, range, items);
        }
    } else if items.len() == 3 && name.as_str() == "map" {
        return three_form(alloc, range, items);
    }
    Ok(Expr::Call(Some(range), name, items))
}

/// The expression of a tree of ordinary calls, its macros told apart: a call is one that has a macro's
/// name, style and number of arguments. Of a macro that isn't of its form a part is left empty.
#[cycle(expand)]
pub fn expand(alloc: Global, draft: &Draft) -> Result<Expr, AllocError>
    ensures { IfOk result (λ x. x ≡ expanded draft.now) }
{
    match draft {
        Draft::Literal(value) => literal(alloc, value),
        Draft::Int(n) => Ok(Expr::Int(*n)),
        Draft::Name(name) => Ok(Expr::Name(name.text.copy(alloc)?)),
        Draft::List(items) => Ok(Expr::List(expand_all(alloc, items.as_slice())?)),
        Draft::Map(pairs) => Ok(Expr::Map(expand_pairs(alloc, pairs.as_slice())?)),
        Draft::Select(e, name) => Ok(Expr::Select(
            expand_part(alloc, e.get())?,
            name.text.copy(alloc)?,
        )),
        Draft::Index(a, b) => Ok(Expr::Index(
            expand_part(alloc, a.get())?,
            expand_part(alloc, b.get())?,
        )),
        Draft::Not(e) => Ok(Expr::Not(expand_part(alloc, e.get())?)),
        Draft::Neg(e) => Ok(Expr::Neg(expand_part(alloc, e.get())?)),
        Draft::Binary(op, a, b) => Ok(Expr::Binary(
            *op,
            expand_part(alloc, a.get())?,
            expand_part(alloc, b.get())?,
        )),
        Draft::Cond(c, a, b) => Ok(Expr::Cond(
            expand_part(alloc, c.get())?,
            expand_part(alloc, a.get())?,
            expand_part(alloc, b.get())?,
        )),
        Draft::Call(name, items) => {
            let name = name.text.copy(alloc)?;
            call_form(alloc, name, expand_all(alloc, items.as_slice())?)
        }
        Draft::Method(e, name, items) => {
            let range = expand_part(alloc, e.get())?;
            let name = name.text.copy(alloc)?;
            method_form(alloc, range, name, expand_all(alloc, items.as_slice())?)
        }
    }
}

#[cycle(expand)]
fn expand_part(alloc: Global, draft: &Draft) -> Result<Boxed<Expr>, AllocError>
    ensures { IfOk result (λ x. x ≡ expanded draft.now) }
{
    Boxed::new(alloc, expand(alloc, draft)?)
}

#[cycle(expand)]
fn expand_all(alloc: Global, drafts: &[Draft]) -> Result<Items<Expr>, AllocError>
    ensures { IfOk result (λ xs. xs ≡ map expanded drafts.now) }
{
    let mut all = Items::new(alloc);
    for draft in drafts {
        all.push(expand(alloc, draft)?)?;
    }
    Ok(all)
}

#[cycle(expand)]
fn expand_pairs(alloc: Global, pairs: &[DraftPair]) -> Result<Items<MapPair>, AllocError>
    ensures { IfOk result (λ xs. xs ≡ map pair_expanded pairs.now) }
{
    let mut all = Items::new(alloc);
    for pair in pairs {
        let key = expand(alloc, &pair.key)?;
        let value = expand(alloc, &pair.value)?;
        all.push(MapPair { key, value })?;
    }
    Ok(all)
}
