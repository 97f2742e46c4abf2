ghost use Rattle.std.specs.Prelude.{◌≡◌, ◌+◌, ◌++◌, IfOk, [], OnOk, option_map, codes, map, if◌then◌else◌, string_bytes};
ghost use Rattle.cel_grammar.specs.Grammar.{strength};
ghost use Rattle.cel_tokens.specs.Spelling.{operator as operator_word};
ghost use Rattle.cel_syntax.specs.Print.{macro_name as macro_word, boolean, level, may_be_inverted as stands_behind_bang, may_be_negated as stands_behind_minus, grouped_unless, at_level, listed, texts_listed, called, method, tested, printed, pair_printed, printed_text};

use base_types::{Boxed, Text};
use cel_grammar::strength_of;
use cel_tokens::put_quoted;
use cel_values::{BinaryOp, Expr, MacroKind, MapPair};
use std::alloc::{AllocError, Global};

fn operator(op: BinaryOp) -> &'static str
    ensures { result.now ≡ operator_word op }
{
    match op {
        BinaryOp::Or => "||",
        BinaryOp::And => "&&",
        BinaryOp::Lt => "<",
        BinaryOp::Le => "<=",
        BinaryOp::Gt => ">",
        BinaryOp::Ge => ">=",
        BinaryOp::Eq => "==",
        BinaryOp::Ne => "!=",
        BinaryOp::Within => "in",
        BinaryOp::Add => "+",
        BinaryOp::Sub => "-",
        BinaryOp::Mul => "*",
        BinaryOp::Div => "/",
        BinaryOp::Rem => "%",
    }
}

fn macro_name(kind: MacroKind) -> &'static str
    ensures { result.now ≡ macro_word kind }
{
    match kind {
        MacroKind::All => "all",
        MacroKind::Exists => "exists",
        MacroKind::ExistsOne => "exists_one",
        MacroKind::Filter => "filter",
        MacroKind::Map => "map",
    }
}

fn literal(flag: bool) -> &'static str
    ensures { result.now ≡ boolean flag }
{
    if flag { "true" } else { "false" }
}

// The grammar's level of the form in which a tree is printed, which its outermost part tells.
fn level_of(e: &Expr) -> u8
    ensures { result ≡ level (printed e.now).form }
{
    match e {
        Expr::Cond(_, _, _) => 0,
        Expr::Binary(op, _, _) => strength_of(*op),
        Expr::Not(_) | Expr::Neg(_) => 6,
        Expr::Int(n) if *n < 0 => 6,
        _ => 7,
    }
}

fn may_be_inverted(e: &Expr) -> bool
    ensures { result ≡ stands_behind_bang (printed e.now).form }
{
    match e {
        Expr::Not(_) => true,
        _ => level_of(e) >= 7,
    }
}

fn may_be_negated(e: &Expr) -> bool
    ensures { result ≡ stands_behind_minus (printed e.now).form }
{
    match e {
        Expr::Neg(_) => true,
        Expr::Int(_) => false,
        _ => level_of(e) >= 7,
    }
}

#[cycle(print)]
fn put(out: &mut String, e: &Expr) -> Result<(), AllocError>
    ensures { OnOk result (string_bytes out.new ≡ string_bytes out.old ++ (printed e.now).text) }
{
    match e {
        Expr::Null => out.push_str("null"),
        Expr::Bool(flag) => out.push_str(literal(*flag)),
        Expr::Int(n) => write!(out, "{n}"),
        Expr::Text(text) => put_quoted(out, text.as_str()),
        Expr::Name(name) => out.push_str(name.as_str()),
        Expr::List(items) => put_list(out, items.as_slice()),
        Expr::Map(pairs) => put_map(out, pairs.as_slice()),
        Expr::Select(e, field) => put_selection(out, e.get(), field.as_str()),
        Expr::Has(e, field) => put_has(out, e.get(), field.as_str()),
        Expr::Not(e) => put_inverse(out, e.get()),
        Expr::Neg(e) => put_negative(out, e.get()),
        Expr::Index(e, index) => {
            put_at_level(out, 7, e.get())?;
            put_index(out, index.get())
        }
        Expr::Call(None, name, items) => put_call(out, name.as_str(), items.as_slice()),
        Expr::Call(Some(target), name, items) => {
            put_at_level(out, 7, target.get())?;
            put_method(out, name.as_str(), items.as_slice())
        }
        Expr::Binary(op, a, b) => {
            put_at_level(out, strength_of(*op), a.get())?;
            put_right(out, *op, b.get())
        }
        Expr::Cond(condition, a, b) => {
            put_at_level(out, 1, condition.get())?;
            put_first_branch(out, a.get())?;
            put_second_branch(out, b.get())
        }
        Expr::Macro(kind, range, variable, test, value) => {
            put_at_level(out, 7, range.get())?;
            put_variable(out, *kind, variable.as_str())?;
            put_test(out, test)?;
            put_value(out, value.get())
        }
    }
}

#[cycle(print)]
fn put_grouped_unless(out: &mut String, plain: bool, e: &Expr) -> Result<(), AllocError>
    ensures { OnOk result (string_bytes out.new ≡ string_bytes out.old ++ grouped_unless plain (printed e.now).text) }
{
    if plain {
        return put(out, e);
    }
    out.push_str("(")?;
    put(out, e)?;
    out.push_str(")")
}

// Where a form of this level or a stronger one may stand.
#[cycle(print)]
fn put_at_level(out: &mut String, least: u8, e: &Expr) -> Result<(), AllocError>
    ensures { OnOk result (string_bytes out.new ≡ string_bytes out.old ++ at_level least (printed e.now)) }
{
    put_grouped_unless(out, least <= level_of(e), e)
}

#[cycle(print)]
fn put_inverse(out: &mut String, e: &Expr) -> Result<(), AllocError>
    ensures { OnOk result (string_bytes out.new ≡ string_bytes out.old ++ (codes "!" ++ grouped_unless (stands_behind_bang (printed e.now).form) (printed e.now).text)) }
{
    out.push_str("!")?;
    put_grouped_unless(out, may_be_inverted(e), e)
}

#[cycle(print)]
fn put_negative(out: &mut String, e: &Expr) -> Result<(), AllocError>
    ensures { OnOk result (string_bytes out.new ≡ string_bytes out.old ++ (codes "-" ++ grouped_unless (stands_behind_minus (printed e.now).form) (printed e.now).text)) }
{
    out.push_str("-")?;
    put_grouped_unless(out, may_be_negated(e), e)
}

// An operator with its right operand.
#[cycle(print)]
fn put_right(out: &mut String, op: BinaryOp, e: &Expr) -> Result<(), AllocError>
    ensures { OnOk result (string_bytes out.new ≡ string_bytes out.old ++ (codes " " ++ (operator_word op ++ (codes " " ++ at_level (strength op + 1) (printed e.now))))) }
{
    out.push_str(" ")?;
    out.push_str(operator(op))?;
    out.push_str(" ")?;
    put_at_level(out, strength_of(op) + 1, e)
}

#[cycle(print)]
fn put_first_branch(out: &mut String, e: &Expr) -> Result<(), AllocError>
    ensures { OnOk result (string_bytes out.new ≡ string_bytes out.old ++ (codes " ? " ++ at_level 1 (printed e.now))) }
{
    out.push_str(" ? ")?;
    put_at_level(out, 1, e)
}

#[cycle(print)]
fn put_second_branch(out: &mut String, e: &Expr) -> Result<(), AllocError>
    ensures { OnOk result (string_bytes out.new ≡ string_bytes out.old ++ (codes " : " ++ (printed e.now).text)) }
{
    out.push_str(" : ")?;
    put(out, e)
}

#[cycle(print)]
fn put_selection(out: &mut String, e: &Expr, field: &str) -> Result<(), AllocError>
    ensures { OnOk result (string_bytes out.new ≡ string_bytes out.old ++ method (printed e.now) field.now) }
{
    put_at_level(out, 7, e)?;
    out.push_str(".")?;
    out.push_str(field)
}

#[cycle(print)]
fn put_has(out: &mut String, e: &Expr, field: &str) -> Result<(), AllocError>
    ensures { OnOk result (string_bytes out.new ≡ string_bytes out.old ++ (codes "has(" ++ (method (printed e.now) field.now ++ codes ")"))) }
{
    out.push_str("has(")?;
    put_selection(out, e, field)?;
    out.push_str(")")
}

#[cycle(print)]
fn put_index(out: &mut String, e: &Expr) -> Result<(), AllocError>
    ensures { OnOk result (string_bytes out.new ≡ string_bytes out.old ++ (codes "[" ++ ((printed e.now).text ++ codes "]"))) }
{
    out.push_str("[")?;
    put(out, e)?;
    out.push_str("]")
}

#[cycle(print)]
fn put_call(out: &mut String, name: &str, items: &[Expr]) -> Result<(), AllocError>
    ensures { OnOk result (string_bytes out.new ≡ string_bytes out.old ++ called name.now (map printed items.now)) }
{
    out.push_str(name)?;
    out.push_str("(")?;
    put_items(out, items)?;
    out.push_str(")")
}

#[cycle(print)]
fn put_method(out: &mut String, name: &str, items: &[Expr]) -> Result<(), AllocError>
    ensures { OnOk result (string_bytes out.new ≡ string_bytes out.old ++ (codes "." ++ called name.now (map printed items.now))) }
{
    out.push_str(".")?;
    put_call(out, name, items)
}

// A macro's name and variable.
fn put_variable(out: &mut String, kind: MacroKind, variable: &str) -> Result<(), AllocError>
    ensures { OnOk result (string_bytes out.new ≡ string_bytes out.old ++ (codes "." ++ (macro_word kind ++ (codes "(" ++ variable.now)))) }
{
    out.push_str(".")?;
    out.push_str(macro_name(kind))?;
    out.push_str("(")?;
    out.push_str(variable)
}

#[cycle(print)]
fn put_test(out: &mut String, test: &Option<Boxed<Expr>>) -> Result<(), AllocError>
    ensures { OnOk result (string_bytes out.new ≡ string_bytes out.old ++ tested (option_map printed test.now)) }
{
    if let Some(test) = test {
        out.push_str(", ")?;
        return put(out, test.get());
    }
    Ok(())
}

// A macro's last argument.
#[cycle(print)]
fn put_value(out: &mut String, e: &Expr) -> Result<(), AllocError>
    ensures { OnOk result (string_bytes out.new ≡ string_bytes out.old ++ (codes ", " ++ ((printed e.now).text ++ codes ")"))) }
{
    out.push_str(", ")?;
    put(out, e)?;
    out.push_str(")")
}

#[cycle(print)]
fn put_list(out: &mut String, items: &[Expr]) -> Result<(), AllocError>
    ensures { OnOk result (string_bytes out.new ≡ string_bytes out.old ++ (codes "[" ++ (listed (map printed items.now) ++ codes "]"))) }
{
    out.push_str("[")?;
    put_items(out, items)?;
    out.push_str("]")
}

#[cycle(print)]
fn put_map(out: &mut String, pairs: &[MapPair]) -> Result<(), AllocError>
    ensures { OnOk result (string_bytes out.new ≡ string_bytes out.old ++ (codes "{" ++ (texts_listed (map pair_printed pairs.now) ++ codes "}"))) }
{
    out.push_str("{")?;
    put_pairs(out, pairs)?;
    out.push_str("}")
}

fn put_separator(out: &mut String, behind_another: bool) -> Result<(), AllocError>
    ensures { OnOk result (string_bytes out.new ≡ string_bytes out.old ++ (if behind_another then codes ", " else [])) }
{
    if behind_another {
        return out.push_str(", ");
    }
    Ok(())
}

#[cycle(print)]
fn put_items(out: &mut String, items: &[Expr]) -> Result<(), AllocError>
    ensures { OnOk result (string_bytes out.new ≡ string_bytes out.old ++ listed (map printed items.now)) }
{
    let mut behind_another = false;
    for item in items {
        put_separator(out, behind_another)?;
        put(out, item)?;
        behind_another = true;
    }
    Ok(())
}

#[cycle(print)]
fn put_pairs(out: &mut String, pairs: &[MapPair]) -> Result<(), AllocError>
    ensures { OnOk result (string_bytes out.new ≡ string_bytes out.old ++ texts_listed (map pair_printed pairs.now)) }
{
    let mut behind_another = false;
    for pair in pairs {
        put_separator(out, behind_another)?;
        put(out, &pair.key)?;
        out.push_str(": ")?;
        put(out, &pair.value)?;
        behind_another = true;
    }
    Ok(())
}

/// The text of an expression, with brackets where the grammar needs them and around an integer behind a
/// sign. Each part is written once, straight into the text.
#[tactic(auto, unfolding(crate::specs::Print::printed_text))]
pub fn print(alloc: Global, expr: &Expr) -> Result<Text, AllocError>
    ensures text { IfOk result (λ text. text ≡ printed_text expr.now) }
{
    let mut out = String::new(alloc);
    put(&mut out, expr)?;
    Ok(Text::new(out))
}
