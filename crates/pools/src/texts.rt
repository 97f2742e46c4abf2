ghost use Rattle.std.specs.Prelude.{◌≡◌, IfOk, map, option_map};
ghost use Rattle.base_types.specs.Forms.{passing};
ghost use Rattle.cel_values.specs.declared.value.Value.{out-Value};
ghost use Rattle.cel_eval.specs.Denotation.{denotation};
ghost use Rattle.pools.specs.Mapped as meant;

use base_types::{Items, Text};
use cel_eval::eval;
use cel_values::{Env, EvalStop, Expr, Value};
use std::alloc::{AllocError, Global};

/// The text that the expression means, unless it is an error, no text or empty.
pub(crate) fn text_of(alloc: Global, tree: &Expr, env: &Env) -> Result<Option<Text>, AllocError>
    ensures { IfOk result (λ text. text ≡ meant.text_of (denotation tree.now env.now)) }
{
    match eval(alloc, tree, env) {
        Ok(value) => {
            let text = text_copied(alloc, &value);
            drop(value);
            text
        }
        Err(EvalStop::Error(_)) => Ok(None),
        Err(EvalStop::Memory) => Err(AllocError),
    }
}

/// The texts of the list that the expression means, unless it is an error, no list of texts or one of them is empty.
pub(crate) fn texts_of(
    alloc: Global,
    tree: &Expr,
    env: &Env,
) -> Result<Option<Items<Text>>, AllocError>
    ensures { IfOk result (λ texts. texts ≡ meant.texts_of (denotation tree.now env.now)) }
{
    match eval(alloc, tree, env) {
        Ok(value) => {
            let texts = texts_copied(alloc, &value);
            drop(value);
            texts
        }
        Err(EvalStop::Error(_)) => Ok(None),
        Err(EvalStop::Memory) => Err(AllocError),
    }
}

fn text_copied(alloc: Global, value: &Value) -> Result<Option<Text>, AllocError>
    ensures { IfOk result (λ text. text ≡ meant.text_of_value value.now) }
{
    match text_in(value) {
        None => Ok(None),
        Some(text) => Ok(Some(Text::copy_of(alloc, text)?)),
    }
}

fn texts_copied(alloc: Global, value: &Value) -> Result<Option<Items<Text>>, AllocError>
    ensures { IfOk result (λ texts. texts ≡ meant.texts_of_shape (out-Value value.now)) }
{
    match value {
        Value::List(values) => texts_in(alloc, values.as_slice()),
        _ => Ok(None),
    }
}

fn texts_in(alloc: Global, values: &[Value]) -> Result<Option<Items<Text>>, AllocError>
    ensures { IfOk result (λ texts. texts ≡ meant.all_there (map meant.text_of_value values.now)) }
{
    let mut texts = Items::new(alloc);
    for value in values {
        let Some(text) = text_in(value) else {
            return Ok(None);
        };
        texts.push(Text::copy_of(alloc, text)?)?;
    }
    Ok(Some(texts))
}

fn text_in(value: &Value) -> Option<&str>
    ensures { option_map (λ text. text.now) result ≡ meant.text_of_value value.now }
{
    match value {
        Value::Text(text) => filled(text.as_str()),
        _ => None,
    }
}

// A text that isn't empty.
fn filled(text: &str) -> Option<&str>
    ensures { option_map (λ text. text.now) result ≡ passing meant.is_text text.now }
{
    if text.is_empty() { None } else { Some(text) }
}
