//! Types as texts.
ghost use Rattle.std.specs.Prelude.{◌≡◌, ◌++◌, codes, string_bytes, IfOk, OnOk};
ghost use Rattle.cel_lines.specs.TypeText.{declarations_of as declarations_in, type_line, type_rule_name as name_of, type_text};
ghost use Rattle.cel_types.specs.Typing.{checked};
ghost use Rattle.std.specs.Prelude.{Ok, Err};

use base_types::Items;
use cel_types::{CelType, CheckError, Declaration, TypeFault, TypeRule, check};
use cel_values::{Binding, Expr};
use std::alloc::{AllocError, Global};

/// Puts the line of an expression's type behind another text: each name that is bound may be of any type.
pub(crate) fn put_type_line(
    alloc: Global,
    out: &mut String,
    tree: &Expr,
    env: &[Binding],
) -> Result<(), AllocError>
    ensures { OnOk result (string_bytes out.new ≡ string_bytes out.old ++ type_line (checked (declarations_in env.now) tree.now)) }
{
    let declarations = declarations_of(alloc, env)?;
    let found = check(alloc, tree, declarations.as_slice());
    drop(declarations);
    match found {
        Ok(found) => {
            let put = put_type_found(out, &found);
            drop(found);
            put
        }
        Err(CheckError::Fault(fault)) => put_type_fault(out, fault),
        Err(CheckError::Memory) => Err(AllocError),
    }
}

fn declarations_of(alloc: Global, env: &[Binding]) -> Result<Items<Declaration>, AllocError>
    ensures { IfOk result (λ declarations. declarations ≡ declarations_in env.now) }
{
    let mut declarations = Items::new(alloc);
    for binding in env {
        let name = binding.name.copy(alloc)?;
        declarations.push(Declaration {
            name,
            of: CelType::Dyn,
        })?;
    }
    Ok(declarations)
}

fn put_type_found(out: &mut String, found: &CelType) -> Result<(), AllocError>
    ensures { OnOk result (string_bytes out.new ≡ string_bytes out.old ++ (codes "type " ++ type_text found.now)) }
{
    out.push_str("type ")?;
    put_type(out, found)
}

fn put_type(out: &mut String, found: &CelType) -> Result<(), AllocError>
    ensures { OnOk result (string_bytes out.new ≡ string_bytes out.old ++ type_text found.now) }
{
    match found {
        CelType::Dyn => out.push_str("dyn"),
        CelType::Null => out.push_str("null"),
        CelType::Bool => out.push_str("bool"),
        CelType::Int => out.push_str("int"),
        CelType::Text => out.push_str("string"),
        CelType::Time => out.push_str("timestamp"),
        CelType::Span => out.push_str("duration"),
        CelType::List(item) => {
            out.push_str("list(")?;
            put_type(out, item.get())?;
            out.push_str(")")
        }
        CelType::Map(value) => {
            out.push_str("map(")?;
            put_type(out, value.get())?;
            out.push_str(")")
        }
    }
}

fn put_type_fault(out: &mut String, fault: TypeFault) -> Result<(), AllocError>
    ensures { OnOk result (string_bytes out.new ≡ string_bytes out.old ++ type_line (Err fault)) }
{
    let node = fault.node;
    write!(out, "type fault {node} ")?;
    out.push_str(rule_name(fault.rule))
}

fn rule_name(rule: TypeRule) -> &'static str
    ensures { result.now ≡ name_of rule }
{
    match rule {
        TypeRule::T1 => "T1",
        TypeRule::T2 => "T2",
        TypeRule::T3 => "T3",
    }
}
