ghost use Rattle.std.specs.Prelude.{◌≡◌, ◌++◌, map, length, OnOk, IfOk};
ghost use Rattle.cel_syntax.specs.MacroFaults.{is_has as has_test, is_macro as macro_test, deeper as deeper_than, unless as fault_unless, is_shallow as shallow_test, call_faults as faults_of_call, method_faults as faults_of_method, inside as inside_of, first_selects as selects_first, first_names as names_first, all_faults, pair_faults, seen, pair_seen, faults_of, is_before as before_test, least as least_of, first_macro_fault};
ghost use Rattle.cel_grammar.specs.Faults.{rank as rank_of};

use crate::macros::kind_of;
use base_types::Items;
use cel_grammar::{Draft, DraftPair, SyntaxRule};
use cel_tokens::Name;
use std::alloc::{AllocError, Global};

/// How many macros' arguments a place is inside of, counted up to two.
#[derive(Clone, Copy, Debug, PartialEq, Eq)]
pub enum Nesting {
    Outside,
    Inside,
    Deep,
}

/// A fault of a macro: the byte offset of its name, and the rule that is broken.
#[derive(Clone, Copy, Debug, PartialEq, Eq)]
pub struct MacroFault {
    pub at: usize,
    pub rule: SyntaxRule,
}

fn deeper(nesting: Nesting) -> Nesting
    ensures { result ≡ deeper_than nesting }
{
    match nesting {
        Nesting::Outside => Nesting::Inside,
        Nesting::Inside | Nesting::Deep => Nesting::Deep,
    }
}

fn is_shallow(nesting: Nesting) -> bool
    ensures { result ≡ shallow_test nesting }
{
    match nesting {
        Nesting::Outside | Nesting::Inside => true,
        Nesting::Deep => false,
    }
}

fn is_has(name: &str, count: usize) -> bool
    ensures { result ≡ has_test name.now count }
{
    count == 1 && name == "has"
}

fn is_macro(name: &str, count: usize) -> bool
    ensures { result ≡ macro_test name.now count }
{
    count == 2 && kind_of(name).is_some() || count == 3 && name == "map"
}

fn inside(name: &Name, count: usize, nesting: Nesting) -> Nesting
    ensures { result ≡ inside_of name.now count nesting }
{
    if is_macro(name.text.as_str(), count) {
        deeper(nesting)
    } else {
        nesting
    }
}

fn first_selects(items: &[Draft]) -> bool
    ensures { result ≡ selects_first (map seen items.now) }
{
    match items.split_first() {
        Some((Draft::Select(_, _), _)) => true,
        _ => false,
    }
}

fn first_names(items: &[Draft]) -> bool
    ensures { result ≡ names_first (map seen items.now) }
{
    match items.split_first() {
        Some((Draft::Name(_), _)) => true,
        _ => false,
    }
}

fn push_unless(
    out: &mut Items<MacroFault>,
    good: bool,
    at: usize,
    rule: SyntaxRule,
) -> Result<(), AllocError>
    ensures { OnOk result (out.new ≡ out.old ++ fault_unless good at rule) }
{
    if good {
        return Ok(());
    }
    out.push(MacroFault { at, rule })
}

fn push_call(out: &mut Items<MacroFault>, name: &Name, items: &[Draft]) -> Result<(), AllocError>
    ensures { OnOk result (out.new ≡ out.old ++ faults_of_call name.now (length items.now) (selects_first (map seen items.now))) }
{
    if is_has(name.text.as_str(), items.len()) {
        return push_unless(out, first_selects(items), name.at, SyntaxRule::S4);
    }
    Ok(())
}

fn push_method(
    out: &mut Items<MacroFault>,
    name: &Name,
    items: &[Draft],
    nesting: Nesting,
) -> Result<(), AllocError>
    ensures { OnOk result (out.new ≡ out.old ++ faults_of_method name.now (length items.now) (names_first (map seen items.now)) nesting) }
{
    if is_macro(name.text.as_str(), items.len()) {
        push_unless(out, first_names(items), name.at, SyntaxRule::S4)?;
        return push_unless(out, is_shallow(nesting), name.at, SyntaxRule::S5);
    }
    Ok(())
}

#[cycle(push_faults)]
fn push_faults(
    out: &mut Items<MacroFault>,
    draft: &Draft,
    nesting: Nesting,
) -> Result<(), AllocError>
    ensures { OnOk result (out.new ≡ out.old ++ (seen draft.now).faults nesting) }
{
    match draft {
        Draft::Literal(_) | Draft::Int(_) | Draft::Name(_) => Ok(()),
        Draft::List(items) => push_all(out, items.as_slice(), nesting),
        Draft::Map(pairs) => push_pairs(out, pairs.as_slice(), nesting),
        Draft::Select(e, _) => push_faults(out, e.get(), nesting),
        Draft::Not(e) => push_faults(out, e.get(), nesting),
        Draft::Neg(e) => push_faults(out, e.get(), nesting),
        Draft::Index(a, b) => {
            push_faults(out, a.get(), nesting)?;
            push_faults(out, b.get(), nesting)?;
            Ok(())
        }
        Draft::Binary(_, a, b) => {
            push_faults(out, a.get(), nesting)?;
            push_faults(out, b.get(), nesting)?;
            Ok(())
        }
        Draft::Cond(c, a, b) => {
            push_faults(out, c.get(), nesting)?;
            push_faults(out, a.get(), nesting)?;
            push_faults(out, b.get(), nesting)?;
            Ok(())
        }
        Draft::Call(name, items) => {
            push_call(out, name, items.as_slice())?;
            push_all(out, items.as_slice(), nesting)?;
            Ok(())
        }
        Draft::Method(e, name, items) => {
            push_faults(out, e.get(), nesting)?;
            push_method(out, name, items.as_slice(), nesting)?;
            let within = inside(name, items.len(), nesting);
            push_all(out, items.as_slice(), within)?;
            Ok(())
        }
    }
}

#[cycle(push_faults)]
fn push_all(
    out: &mut Items<MacroFault>,
    items: &[Draft],
    nesting: Nesting,
) -> Result<(), AllocError>
    ensures { OnOk result (out.new ≡ out.old ++ all_faults (map seen items.now) nesting) }
{
    for item in items {
        push_faults(out, item, nesting)?;
    }
    Ok(())
}

#[cycle(push_faults)]
fn push_pairs(
    out: &mut Items<MacroFault>,
    pairs: &[DraftPair],
    nesting: Nesting,
) -> Result<(), AllocError>
    ensures { OnOk result (out.new ≡ out.old ++ pair_faults (map pair_seen pairs.now) nesting) }
{
    for pair in pairs {
        push_faults(out, &pair.key, nesting)?;
        push_faults(out, &pair.value, nesting)?;
    }
    Ok(())
}

fn rank(rule: SyntaxRule) -> u8
    ensures { result ≡ rank_of rule }
{
    match rule {
        SyntaxRule::S6 => 0,
        SyntaxRule::L1 => 1,
        SyntaxRule::L2 => 2,
        SyntaxRule::S2 => 3,
        SyntaxRule::S3 => 4,
        SyntaxRule::S1 => 5,
        SyntaxRule::S4 => 6,
        SyntaxRule::S5 => 7,
    }
}

fn is_before(first: MacroFault, second: MacroFault) -> bool
    ensures { result ≡ before_test first second }
{
    first.at < second.at || first.at == second.at && rank(first.rule) < rank(second.rule)
}

fn least(first: MacroFault, faults: &[MacroFault]) -> MacroFault
    ensures { result ≡ least_of first faults.now }
{
    let mut best = first;
    for fault in faults {
        if is_before(*fault, best) {
            best = *fault;
        }
    }
    best
}

/// The first fault of the macros of a tree.
pub fn first_fault(alloc: Global, draft: &Draft) -> Result<Option<MacroFault>, AllocError>
    ensures { IfOk result (λ found. found ≡ first_macro_fault (faults_of draft.now)) }
{
    let mut faults = Items::new(alloc);
    push_faults(&mut faults, draft, Nesting::Outside)?;
    match faults.as_slice().split_first() {
        Some((first, rest)) => Ok(Some(least(*first, rest))),
        None => Ok(None),
    }
}
