ghost use Rattle.std.specs.Prelude.{◌≡◌, ◌++◌, codes, string_bytes, IfOk, OnOk};
ghost use Rattle.serde_json.specs.View.{view};
ghost use Rattle.serde_json.specs.Find.{get};
ghost use Rattle.cel_lines.specs.Answers.{Answers, AnswersAsked, AnswersExpression, AppendsAnswer, asked_of, environment_in as environment_of_member, rule_name as name_of, error_name as name_of_error, outcome_line, syntax_line as syntax_text, tree_lines as tree_text};
ghost use Rattle.cel_lines.specs.ValueText.{value_text};
ghost use Rattle.cel_eval.specs.Denotation.{denotation};

use crate::environment::environment_of;
use crate::type_text::put_type_line;
use crate::value_text::put_value;
use base_types::Items;
use cel_eval::eval;
use cel_syntax::{ParseError, SyntaxRule, parse, print};
use cel_values::{Env, EvalError, EvalStop, Expr, Value as CelValue};
use json_text::{DocumentFault, read_document, text_at};
use serde_json::Value;
use std::alloc::{AllocError, Global};

/// Puts the answer to a line behind the others, with a line feed.
pub(crate) fn push_answer(
    alloc: Global,
    line: &[u8],
    answers: &mut Vec<u8>,
) -> Result<(), AllocError>
    ensures { OnOk result (AppendsAnswer line.now answers.old.items answers.new.items) }
{
    let answer = answer_of(alloc, line)?;
    answers.extend_from_slice(answer.as_bytes())?;
    answers.push(b'\n')?;
    Ok(())
}

fn answer_of(alloc: Global, line: &[u8]) -> Result<String, AllocError>
    ensures { IfOk result (λ text. Answers line.now (string_bytes text)) }
{
    let asked = match read_document(alloc, line) {
        Ok(value) => value,
        Err(DocumentFault::NoJson) => return bad_line(alloc),
        Err(DocumentFault::Memory) => return Err(AllocError),
    };
    let answer = answer_asked(alloc, &asked);
    drop(asked);
    answer
}

fn answer_asked(alloc: Global, asked: &Value) -> Result<String, AllocError>
    ensures { IfOk result (λ text. AnswersAsked (asked_of (view asked.now)) (string_bytes text)) }
{
    let Some(expression) = text_at(asked, "expr") else {
        return bad_line(alloc);
    };
    match environment_in(alloc, asked)? {
        Some(env) => {
            let answer = answer_to(alloc, expression, &env);
            drop(env);
            answer
        }
        None => bad_line(alloc),
    }
}

// The environment that is asked for: none is an empty one.
fn environment_in(alloc: Global, asked: &Value) -> Result<Option<Env>, AllocError>
    ensures { IfOk result (λ env. env ≡ environment_of_member (get (codes "env") (view asked.now))) }
{
    let Some(member) = asked.get("env") else {
        return Ok(Some(Items::new(alloc)));
    };
    match member.as_object() {
        Some(members) => Ok(Some(environment_of(alloc, members)?)),
        None => Ok(None),
    }
}

fn bad_line(alloc: Global) -> Result<String, AllocError>
    ensures { IfOk result (λ text. string_bytes text ≡ codes "bad line") }
{
    "bad line".to_owned(alloc)
}

fn answer_to(alloc: Global, expression: &str, env: &Env) -> Result<String, AllocError>
    ensures { IfOk result (λ text. AnswersExpression expression.now env.now (string_bytes text)) }
{
    match parse(alloc, expression) {
        Ok(tree) => {
            let lines = tree_lines(alloc, &tree, env);
            drop(tree);
            lines
        }
        Err(ParseError::Fault { at, rule }) => syntax_line(alloc, at, rule),
        Err(ParseError::Memory) => Err(AllocError),
    }
}

fn tree_lines(alloc: Global, tree: &Expr, env: &Env) -> Result<String, AllocError>
    ensures { IfOk result (λ text. string_bytes text ≡ tree_text tree.now env.now) }
{
    let printed = print(alloc, tree)?;
    let mut lines = "tree ".to_owned(alloc)?;
    lines.push_str(printed.as_str())?;
    lines.push_str("\n")?;
    put_type_line(alloc, &mut lines, tree, env.as_slice())?;
    lines.push_str("\n")?;
    put_outcome(alloc, &mut lines, tree, env)?;
    Ok(lines)
}

fn put_outcome(alloc: Global, lines: &mut String, tree: &Expr, env: &Env) -> Result<(), AllocError>
    ensures { OnOk result (string_bytes lines.new ≡ string_bytes lines.old ++ outcome_line (denotation tree.now env.now)) }
{
    match eval(alloc, tree, env) {
        Ok(value) => {
            let put = put_value_line(alloc, lines, &value);
            drop(value);
            put
        }
        Err(EvalStop::Error(error)) => put_error_line(lines, error),
        Err(EvalStop::Memory) => Err(AllocError),
    }
}

fn put_value_line(alloc: Global, lines: &mut String, value: &CelValue) -> Result<(), AllocError>
    ensures { OnOk result (string_bytes lines.new ≡ string_bytes lines.old ++ (codes "value " ++ value_text value.now)) }
{
    lines.push_str("value ")?;
    put_value(alloc, lines, value)
}

fn put_error_line(lines: &mut String, error: EvalError) -> Result<(), AllocError>
    ensures { OnOk result (string_bytes lines.new ≡ string_bytes lines.old ++ (codes "error " ++ name_of_error error)) }
{
    lines.push_str("error ")?;
    lines.push_str(error_name(error))
}

fn error_name(error: EvalError) -> &'static str
    ensures { result.now ≡ name_of_error error }
{
    match error {
        EvalError::NoOverload => "NoOverload",
        EvalError::NoKey => "NoKey",
        EvalError::Index => "Index",
        EvalError::Overflow => "Overflow",
        EvalError::Divide => "Divide",
        EvalError::BadText => "BadText",
        EvalError::TooLong => "TooLong",
        EvalError::Unbound => "Unbound",
    }
}

fn syntax_line(alloc: Global, at: usize, rule: SyntaxRule) -> Result<String, AllocError>
    ensures { IfOk result (λ text. string_bytes text ≡ syntax_text at rule) }
{
    let name = rule_name(rule);
    format!(in alloc; "syntax {at} {name}")
}

fn rule_name(rule: SyntaxRule) -> &'static str
    ensures { result.now ≡ name_of rule }
{
    match rule {
        SyntaxRule::S1 => "S1",
        SyntaxRule::S2 => "S2",
        SyntaxRule::S3 => "S3",
        SyntaxRule::S4 => "S4",
        SyntaxRule::S5 => "S5",
        SyntaxRule::S6 => "S6",
        SyntaxRule::L1 => "L1",
        SyntaxRule::L2 => "L2",
    }
}
