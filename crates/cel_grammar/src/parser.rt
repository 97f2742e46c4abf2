ghost use Rattle.std.specs.Prelude.{◌≡◌, ◌<◌, ◌^◌, [], ◌∷◌, ◌++◌, Some, None, drop, ℕ, List, IfOk, IfErr, false, nat_le, if◌then◌else◌};
ghost use Rattle.cel_tokens.specs.declared.token.Token.{Token as Symbol};
ghost use Rattle.cel_grammar.specs.declared.draft.Draft.{Draft as Tree};
ghost use Rattle.cel_grammar.specs.declared.error.SyntaxRule.TheVariants as RuleName;
ghost use Rattle.cel_grammar.specs.declared.frames.Frame.{Frame as Opened};
ghost use Rattle.cel_grammar.specs.Answer.{Gives, answer, closing, Advances};
ghost use Rattle.cel_grammar.specs.Faults.{kinds, head, open_after, SpellsDraft, HasNoFault, IsErrorOf, IsDraftOf};
ghost use Rattle.cel_grammar.specs.Grammar.{CanBegin};
ghost use Rattle.cel_grammar.specs.Machine.{start, run, State, step, ended};
ghost use Rattle.cel_grammar.specs.Places.{state_of};
ghost use Rattle.cel_grammar.specs.Ready.{IsReadyFor};
ghost use Rattle.cel_grammar.specs.Walk.{walk, extends, limit_by, is_out, is_sign};

use crate::draft::Draft;
use crate::error::{ParseError, SyntaxRule};
use crate::frames::{Frame, Place};
use crate::reader::{end, take};
use base_types::Items;
use cel_tokens::{Bracket, Lexeme, Token, lex};
use std::alloc::Global;

const MOST_BYTES: usize = 4_096;

const MOST_TOKENS: usize = 512;

const MOST_OPEN: usize = 32;

/// The expression that a text spells, with every call as an ordinary call. An error is the first
/// fault of the text, the faults of macros aside.
pub fn parse_draft(alloc: Global, text: &str) -> Result<Draft, ParseError>
    // What is read is spelled so, and the text has no fault.
    ensures found { IfOk result (λ e. SpellsDraft text.now e × HasNoFault text.now) }
    // What a text without fault spells is read, unless memory runs out.
    ensures only { (e : Tree) → SpellsDraft text.now e → HasNoFault text.now → IsDraftOf e result }
    // The fault is the first of the text.
    ensures fault { IfErr result (IsErrorOf text.now) }
{
    if text.len() > MOST_BYTES {
        return Err(ParseError::Fault {
            at: 0,
            rule: SyntaxRule::S6,
        });
    }
    let lexing = lex(alloc, text)?;
    read(alloc, lexing.tokens.as_slice(), lexing.stop, text.len())
}

// Reads tokens, which stop at a place or end with the text.
fn read(
    alloc: Global,
    lexemes: &[Lexeme],
    stop: Option<usize>,
    size: usize,
) -> Result<Draft, ParseError>
    ensures { Gives result (answer lexemes.now stop size (walk (kinds lexemes.now) start false 0 0)) }
{
    let mut frames = Items::new(alloc);
    let mut place = Place::Operand;
    let mut signed = false;
    let mut deep = 0;
    'tokens: for (at, lexeme) in lexemes.iter().enumerate() {
        let extended = follower_extends(lexemes, at + 1);
        let limit = broken(&lexeme.token, extended, signed, at, deep);
        signed = is_sign_at(&place, &lexeme.token);
        deep = deeper(deep, &lexeme.token);
        match advance(alloc, &mut frames, place, lexeme, limit) {
            Ok(next) => place = next,
            Err(error) => return Err(error),
        }
    }
    finish(alloc, frames, place, stop, size)
}

// Takes a token that breaks no limit, where it can follow.
fn advance(
    alloc: Global,
    frames: &mut Items<Frame>,
    place: Place,
    lexeme: &Lexeme,
    limit: Option<SyntaxRule>,
) -> Result<Place, ParseError>
    requires { IsReadyFor (state_of place frames.old) (Some lexeme.now.token) }
    ensures { Advances lexeme.now limit (step (state_of place frames.old) lexeme.now.token) frames.new result }
{
    let at = lexeme.at;
    if let Some(rule) = limit {
        drop(place);
        return Err(ParseError::Fault { at, rule });
    }
    match take(alloc, frames, place, &lexeme.token)? {
        Some(next) => Ok(next),
        None => Err(ParseError::Fault {
            at,
            rule: SyntaxRule::S1,
        }),
    }
}

// Behind the last token.
fn finish(
    alloc: Global,
    frames: Items<Frame>,
    place: Place,
    stop: Option<usize>,
    size: usize,
) -> Result<Draft, ParseError>
    requires { IsReadyFor (state_of place frames) None }
    ensures { Gives result (closing stop size (ended (state_of place frames))) }
{
    let found = end(alloc, frames, place)?;
    if let Some(at) = stop {
        drop(found);
        return Err(ParseError::Fault {
            at,
            rule: SyntaxRule::L1,
        });
    }
    match found {
        Some(e) => Ok(e),
        None => Err(ParseError::Fault {
            at: size,
            rule: SyntaxRule::S1,
        }),
    }
}

// Whether the token of a number extends an integer before it.
fn follower_extends(lexemes: &[Lexeme], at: usize) -> bool
    ensures { result ≡ extends (head (kinds (drop at lexemes.now))) }
{
    if at < lexemes.len() {
        does_extend(&lexemes[at].token)
    } else {
        false
    }
}

fn does_extend(token: &Token) -> bool
    ensures { result ≡ extends (Some token.now) }
{
    match token {
        Token::Dot | Token::Open(Bracket::Square) => true,
        _ => false,
    }
}

// The limit that a token breaks.
fn broken(
    token: &Token,
    extended: bool,
    signed: bool,
    count: usize,
    deep: usize,
) -> Option<SyntaxRule>
    ensures { result ≡ limit_by token.now extended signed count deep }
{
    match token {
        Token::Integer(n) => {
            if out_of_range(*n, extended, signed) {
                return Some(SyntaxRule::L2);
            }
            crowded(count)
        }
        Token::Open(_) => {
            let limit = crowded(count);
            if limit.is_none() && deep >= MOST_OPEN {
                return Some(SyntaxRule::S3);
            }
            limit
        }
        _ => crowded(count),
    }
}

// The limit on how many tokens stand before one.
fn crowded(count: usize) -> Option<SyntaxRule>
    ensures { result ≡ (if nat_le 512 count then Some RuleName.S2 else None) }
{
    if count >= MOST_TOKENS {
        Some(SyntaxRule::S2)
    } else {
        None
    }
}

fn out_of_range(n: u64, extended: bool, signed: bool) -> bool
    ensures { result ≡ is_out signed n extended }
{
    const EDGE: u64 = 9_223_372_036_854_775_808;
    if signed {
        n > EDGE || n == EDGE && extended
    } else {
        n >= EDGE
    }
}

fn is_sign_at(place: &Place, token: &Token) -> bool
    ensures { (fs : List Opened) → result ≡ is_sign (state_of place.now fs) token.now }
{
    match (place, token) {
        (Place::Operand, Token::Minus) => true,
        _ => false,
    }
}

fn deeper(deep: usize, token: &Token) -> usize
    requires { deep < 2 ^ 63 }
    ensures { result ≡ open_after deep (token.now ∷ []) }
{
    match token {
        Token::Open(_) => deep + 1,
        Token::Close(_) => deep.saturating_sub(1),
        _ => deep,
    }
}

/// A law: a text spells at most one expression.
pub fn one_draft()
    ensures { (text : List ℕ) (a b : Tree) → SpellsDraft text a → SpellsDraft text b → a ≡ b }
{}

/// A law: the tokens that the parser takes begin an expression, and those that it doesn't take begin none.
pub fn viable_prefix()
    ensures taken { (tokens : List Symbol) (s : State) → run start tokens ≡ Some s → CanBegin tokens }
    ensures refused { (tokens : List Symbol) → run start tokens ≡ None → CanBegin tokens → ⊥ }
{}
