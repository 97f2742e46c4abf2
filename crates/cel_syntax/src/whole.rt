ghost use Rattle.std.specs.Prelude.{◌≡◌, ℕ, List, IfOk, IfErr};
ghost use Rattle.cel_values.specs.declared.expr.Expr.{Expr as Tree};
ghost use Rattle.cel_syntax.specs.Parse.{Spells, HasNoSyntaxFault, IsSyntaxError, IsExprOf, Finishes};

use crate::macro_faults::first_fault;
use crate::macros::expand;
use cel_grammar::{Draft, ParseError, parse_draft};
use cel_values::Expr;
use std::alloc::Global;

// The expression of a tree of ordinary calls, where each macro has its form.
fn with_macros(alloc: Global, draft: &Draft) -> Result<Expr, ParseError>
    ensures { Finishes result draft.now }
{
    if let Some(fault) = first_fault(alloc, draft)? {
        return Err(ParseError::Fault {
            at: fault.at,
            rule: fault.rule,
        });
    }
    Ok(expand(alloc, draft)?)
}

/// The expression that a text spells. An error is the first fault of the text; the faults of macros
/// are looked at where there is no other.
pub fn parse(alloc: Global, text: &str) -> Result<Expr, ParseError>
    // What is read is spelled so, and the text has no fault.
    ensures found { IfOk result (λ x. Spells text.now x × HasNoSyntaxFault text.now) }
    // What a text without fault spells is read, unless memory runs out.
    ensures only { (x : Tree) → Spells text.now x → HasNoSyntaxFault text.now → IsExprOf x result }
    // The fault is the first of the text.
    ensures fault { IfErr result (IsSyntaxError text.now) }
{
    match parse_draft(alloc, text) {
        Ok(draft) => with_macros(alloc, &draft),
        Err(error) => Err(error),
    }
}

/// A law: a text spells at most one expression.
pub fn one_tree()
    ensures { (text : List ℕ) (a b : Tree) → Spells text a → Spells text b → a ≡ b }
{}
