ghost use Rattle.std.specs.Prelude.{◌≡◌, IfOk};
ghost use Rattle.cel_reader.specs.Expressions.{expression_of, is_fitting};
ghost use Rattle.cel_reader.specs.Trees.{tree_of};
ghost use Rattle.cel_types.specs.Typing.{checked};

use base_types::{Text, both};
use cel_expression::Expression;
use cel_syntax::{ParseError, parse};
use cel_types::{CelType, CheckError, Declaration, check, fits};
use cel_values::Expr;
use std::alloc::{AllocError, Global};

// The tree of a text without a fault.
fn tree_in(alloc: Global, text: &str) -> Result<Option<Expr>, AllocError>
    ensures { IfOk result (λ found. found ≡ tree_of text.now) }
{
    match parse(alloc, text) {
        Ok(tree) => Ok(Some(tree)),
        Err(ParseError::Fault { at: _, rule: _ }) => Ok(None),
        Err(ParseError::Memory) => Err(AllocError),
    }
}

// Whether a tree has a type that fits the wanted one.
fn is_fitting_tree(
    alloc: Global,
    tree: &Expr,
    declarations: &[Declaration],
    wanted: &CelType,
) -> Result<bool, AllocError>
    ensures { IfOk result (λ fitting. fitting ≡ is_fitting wanted.now (checked declarations.now tree.now)) }
{
    match check(alloc, tree, declarations) {
        Ok(of) => {
            let fitting = fits(&of, wanted);
            drop(of);
            Ok(fitting)
        }
        Err(CheckError::Fault(_)) => Ok(false),
        Err(CheckError::Memory) => Err(AllocError),
    }
}

/// The expression that a text spells, where it spells one without a fault and its type under these declarations fits the wanted one.
pub fn read_expression(
    alloc: Global,
    text: &str,
    declarations: &[Declaration],
    wanted: &CelType,
) -> Result<Option<Expression>, AllocError>
    ensures { IfOk result (λ found. found ≡ expression_of declarations.now wanted.now text.now) }
{
    let Some(tree) = tree_in(alloc, text)? else {
        return Ok(None);
    };
    match is_fitting_tree(alloc, &tree, declarations, wanted) {
        Ok(true) => {
            let (text, tree) = both(Text::copy_of(alloc, text), Ok(tree))?;
            Ok(Some(Expression { text, tree }))
        }
        Ok(false) => {
            drop(tree);
            Ok(None)
        }
        Err(AllocError) => {
            drop(tree);
            Err(AllocError)
        }
    }
}
