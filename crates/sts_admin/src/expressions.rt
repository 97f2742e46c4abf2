ghost use Rattle.json_text.specs.Reads.{Reads};
ghost use Rattle.cel_reader.specs.Expressions.{expression_of};

use base_types::Items;
use cel_expression::Expression;
use cel_reader::read_expression;
use cel_types::{CelType, Declaration};
use json_text::ReadFault;
use std::alloc::Global;

/// The expression of a text, where it is one of the type under these names.
pub(crate) fn expression(
    alloc: Global,
    text: &str,
    names: Items<Declaration>,
    wanted: CelType,
) -> Result<Expression, ReadFault>
    ensures { Reads result (expression_of names wanted text.now) }
{
    let read = read_expression(alloc, text, names.as_slice(), &wanted);
    drop(names);
    drop(wanted);
    match read? {
        Some(expression) => Ok(expression),
        None => Err(ReadFault::Form),
    }
}
