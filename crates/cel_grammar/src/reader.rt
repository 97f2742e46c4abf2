// Reads the tokens of an expression one at a time.

ghost use Rattle.std.specs.Prelude.{◌≡◌, ◌<◌, ◌≤◌, ◌^◌, ℕ, List, [], ◌∷◌, ◌++◌, pos, neg_ℤ, Option, Some, None, Ok, IfOk, OnOk};
ghost use Rattle.cel_tokens.specs.declared.token.Bracket.TheVariants.{Square, Curly};
ghost use Rattle.cel_grammar.specs.declared.draft.Draft.TheViews as draft;
ghost use Rattle.cel_grammar.specs.declared.frames.Frame.{Frame as Opened};
ghost use Rattle.cel_grammar.specs.declared.frames.Last.{Last};
ghost use Rattle.cel_grammar.specs.Machine.{level_of, join, one, all, one_closer, all_closer, tree_of, reduce, resolved, settle, at_operator, at_dotted, ended, after, step, at_operand, at_after, same, closed_by, closed_empty, can_close, at_colon, at_comma, at_question, at_bang, at_minus, opened, opened_after, called};
ghost use Rattle.cel_grammar.specs.Grammar.{strength, field_of, pair_of};
ghost use Rattle.cel_grammar.specs.Ready.{IsSmall, IsReady, IsReadyFor};
ghost use Rattle.cel_grammar.specs.Due.{IsTop, IsTaken};
ghost use Rattle.cel_grammar.specs.Places.{stack_of, state_of, next_of};

use crate::draft::{Draft, DraftPair};
use crate::frames::{Frame, Last, Many, Pending, Place, Single};
use base_types::{Boxed, Items};
use cel_tokens::{Bracket, Token};
use cel_values::BinaryOp;
use std::alloc::{AllocError, Global};

/// How strongly an operator binds: the more, the greater.
pub fn strength_of(op: BinaryOp) -> u8
    ensures { result ≡ strength op }
{
    match op {
        BinaryOp::Or => 1,
        BinaryOp::And => 2,
        BinaryOp::Lt
        | BinaryOp::Le
        | BinaryOp::Gt
        | BinaryOp::Ge
        | BinaryOp::Eq
        | BinaryOp::Ne
        | BinaryOp::Within => 3,
        BinaryOp::Add | BinaryOp::Sub => 4,
        BinaryOp::Mul | BinaryOp::Div | BinaryOp::Rem => 5,
    }
}

// The level of what is pending.
fn level(pending: &Pending) -> u8
    ensures { result ≡ level_of pending.now }
{
    match pending {
        Pending::Left(_, op) => strength_of(*op),
        Pending::Bang | Pending::Minus => 6,
        Pending::Otherwise(_, _) => 0,
    }
}

// The operator with its last operand.
fn joined(alloc: Global, pending: Pending, e: Draft) -> Result<Draft, AllocError>
    ensures { IfOk result (λ x. x ≡ join pending e) }
{
    let e = Boxed::new(alloc, e)?;
    match pending {
        Pending::Left(a, op) => Ok(Draft::Binary(op, Boxed::new(alloc, a)?, e)),
        Pending::Bang => Ok(Draft::Not(e)),
        Pending::Minus => Ok(Draft::Neg(e)),
        Pending::Otherwise(c, a) => Ok(Draft::Cond(
            Boxed::new(alloc, c)?,
            Boxed::new(alloc, a)?,
            e,
        )),
    }
}

// The expression in a bracket.
fn enclosed(alloc: Global, single: Single, e: Draft) -> Result<Draft, AllocError>
    ensures { IfOk result (λ x. x ≡ one single e) }
{
    match single {
        Single::Group => Ok(e),
        Single::At(a) => Ok(Draft::Index(Boxed::new(alloc, a)?, Boxed::new(alloc, e)?)),
    }
}

// The expressions in a bracket.
fn listed(alloc: Global, many: Many, es: Items<Draft>) -> Result<Draft, AllocError>
    ensures { IfOk result (λ x. x ≡ all many (es)) }
{
    match many {
        Many::List => Ok(Draft::List(es)),
        Many::Call(name) => Ok(Draft::Call(name, es)),
        Many::Method(e, name) => Ok(Draft::Method(Boxed::new(alloc, e)?, name, es)),
    }
}

// The last operand, extended no more.
fn whole_of(alloc: Global, last: Last) -> Result<Draft, AllocError>
    requires { IsSmall last }
    ensures { IfOk result (λ x. x ≡ tree_of last) }
{
    match last {
        Last::Integer(n) => Ok(Draft::Int(positive(n))),
        Last::Name(name) => Ok(Draft::Name(name)),
        Last::Field(e, name) => Ok(Draft::Select(Boxed::new(alloc, e)?, name)),
        Last::Whole(e) => Ok(e),
    }
}

// An integer behind its sign.
fn negated(n: u64) -> i64
    requires { n ≤ 2 ^ 63 }
    ensures { result ≡ neg_ℤ (pos n) }
{
    if n == 9_223_372_036_854_775_808 {
        i64::MIN
    } else {
        -positive(n)
    }
}

// An integer with no sign.
fn positive(n: u64) -> i64
    requires { n < 2 ^ 63 }
    ensures { result ≡ pos n }
{
    n as i64
}

// Takes the innermost frame off.
fn top(frames: &mut Items<Frame>) -> Option<Frame>
    ensures { IsTop frames.old frames.new result }
{
    frames.pop()
}

// Puts a frame on.
fn put(frames: &mut Items<Frame>, frame: Frame) -> Result<(), AllocError>
    ensures { OnOk result (stack_of frames.new ≡ frame ∷ stack_of frames.old) }
{
    frames.push(frame)?;
    Ok(())
}

// Puts a frame on, and another inside it.
fn put_before(frames: &mut Items<Frame>, outer: Frame, inner: Frame) -> Result<(), AllocError>
    ensures { OnOk result (stack_of frames.new ≡ inner ∷ outer ∷ stack_of frames.old) }
{
    match put(frames, outer) {
        Ok(()) => put(frames, inner),
        Err(error) => {
            drop(inner);
            Err(error)
        }
    }
}

// A value and one that was made beside it, or neither.
fn with_kept<A: Drop, B: Drop>(value: A, made: Result<B, AllocError>) -> Result<(A, B), AllocError>
    ensures { IfOk result (λ both. (both.0 ≡ value) × (made ≡ Ok both.1)) }
{
    match made {
        Ok(more) => Ok((value, more)),
        Err(error) => {
            drop(value);
            Err(error)
        }
    }
}

// Takes off what is pending at a level or a stronger one, if that is next.
fn due(frames: &mut Items<Frame>, weakest: u8) -> Result<Option<Pending>, AllocError>
    ensures { IfOk result (IsTaken weakest frames.old frames.new) }
{
    match top(frames) {
        None => Ok(None),
        Some(Frame::Waiting(pending)) => {
            if weakest <= level(&pending) {
                Ok(Some(pending))
            } else {
                put(frames, Frame::Waiting(pending))?;
                Ok(None)
            }
        }
        Some(frame) => {
            put(frames, frame)?;
            Ok(None)
        }
    }
}

// What is pending at a level or a stronger one gets its operand.
fn reduced(
    alloc: Global,
    frames: &mut Items<Frame>,
    weakest: u8,
    operand: Draft,
) -> Result<Draft, AllocError>
    ensures { IfOk result (λ x. (x, stack_of frames.new) ≡ reduce weakest operand (stack_of frames.old)) }
{
    let mut e = operand;
    while let Some(pending) = due(frames, weakest)? {
        e = joined(alloc, pending, e)?;
    }
    Ok(e)
}

// The last operand, when nothing extends it at this level.
fn settled(
    alloc: Global,
    frames: &mut Items<Frame>,
    weakest: u8,
    last: Last,
) -> Result<Draft, AllocError>
    requires { IsReady last (stack_of frames.old) }
    ensures { IfOk result (λ x. (x, stack_of frames.new) ≡ settle weakest last (stack_of frames.old)) }
{
    let e = resolved_last(alloc, frames, last)?;
    reduced(alloc, frames, weakest, e)
}

// The last operand, where a sign belongs to an integer.
fn resolved_last(alloc: Global, frames: &mut Items<Frame>, last: Last) -> Result<Draft, AllocError>
    requires { IsReady last (stack_of frames.old) }
    ensures { IfOk result (λ x. (x, stack_of frames.new) ≡ resolved last (stack_of frames.old)) }
{
    match last {
        Last::Integer(n) => match top(frames) {
            None => Ok(Draft::Int(positive(n))),
            Some(Frame::Waiting(Pending::Minus)) => Ok(Draft::Int(negated(n))),
            Some(frame) => {
                put(frames, frame)?;
                Ok(Draft::Int(positive(n)))
            }
        },
        other => whole_of(alloc, other),
    }
}

// Behind an operand: an operator.
fn after_operator(
    alloc: Global,
    frames: &mut Items<Frame>,
    op: BinaryOp,
    last: Last,
) -> Result<Option<Place>, AllocError>
    requires { IsReady last (stack_of frames.old) }
    ensures { IfOk result (λ o. next_of o frames.new ≡ at_operator op last (stack_of frames.old)) }
{
    let e = settled(alloc, frames, strength_of(op), last)?;
    put(frames, Frame::Waiting(Pending::Left(e, op)))?;
    Ok(Some(Place::Operand))
}

// Behind an operand: `?`.
fn after_question(frames: &mut Items<Frame>, e: Draft) -> Result<Option<Place>, AllocError>
    ensures { IfOk result (λ o. next_of o frames.new ≡ at_question e (stack_of frames.old)) }
{
    match top(frames) {
        Some(Frame::Chosen(c)) => {
            drop(c);
            drop(e);
            Ok(None)
        }
        Some(frame) => {
            put_before(frames, frame, Frame::Chosen(e))?;
            Ok(Some(Place::Operand))
        }
        None => {
            put(frames, Frame::Chosen(e))?;
            Ok(Some(Place::Operand))
        }
    }
}

// Behind an operand: `:`.
fn after_colon(frames: &mut Items<Frame>, e: Draft) -> Result<Option<Place>, AllocError>
    ensures { IfOk result (λ o. next_of o frames.new ≡ at_colon e (stack_of frames.old)) }
{
    match top(frames) {
        Some(Frame::Chosen(c)) => {
            put(frames, Frame::Waiting(Pending::Otherwise(c, e)))?;
            Ok(Some(Place::Operand))
        }
        Some(Frame::Key(pairs)) => {
            put(frames, Frame::Value(pairs, e))?;
            Ok(Some(Place::Operand))
        }
        Some(frame) => {
            drop(frame);
            drop(e);
            Ok(None)
        }
        None => {
            drop(e);
            Ok(None)
        }
    }
}

// One expression more.
fn with_item(mut items: Items<Draft>, e: Draft) -> Result<Items<Draft>, AllocError>
    ensures { IfOk result (λ v. v ≡ items ++ e ∷ []) }
{
    items.push(e)?;
    Ok(items)
}

// One pair more.
fn with_pair(
    mut pairs: Items<DraftPair>,
    key: Draft,
    value: Draft,
) -> Result<Items<DraftPair>, AllocError>
    ensures { IfOk result (λ v. v ≡ pairs ++ pair_of key value ∷ []) }
{
    pairs.push(DraftPair { key, value })?;
    Ok(pairs)
}

// Behind an operand: `,`.
fn after_comma(frames: &mut Items<Frame>, e: Draft) -> Result<Option<Place>, AllocError>
    ensures { IfOk result (λ o. next_of o frames.new ≡ at_comma e (stack_of frames.old)) }
{
    match top(frames) {
        Some(Frame::Several(many, items)) => {
            let (many, items) = with_kept(many, with_item(items, e))?;
            put(frames, Frame::Several(many, items))?;
            Ok(Some(Place::Operand))
        }
        Some(Frame::Value(pairs, key)) => {
            put(frames, Frame::Key(with_pair(pairs, key, e)?))?;
            Ok(Some(Place::Operand))
        }
        Some(frame) => {
            drop(frame);
            drop(e);
            Ok(None)
        }
        None => {
            drop(e);
            Ok(None)
        }
    }
}

// A bracket closes one expression.
fn close_single(
    alloc: Global,
    single: Single,
    bracket: Bracket,
    e: Draft,
) -> Result<Option<Place>, AllocError>
    ensures { (fs : List Opened) → IfOk result (λ o. next_of o fs ≡ same bracket (one_closer single) (Some (after (Last.Whole (one single e)) (stack_of fs)))) }
{
    if bracket == single_closer(&single) {
        Ok(Some(Place::After(Last::Whole(enclosed(alloc, single, e)?))))
    } else {
        drop(single);
        drop(e);
        Ok(None)
    }
}

// A bracket closes expressions.
fn close_many(
    alloc: Global,
    many: Many,
    items: Items<Draft>,
    bracket: Bracket,
) -> Result<Option<Place>, AllocError>
    ensures { (fs : List Opened) → IfOk result (λ o. next_of o fs ≡ same bracket (all_closer many) (Some (after (Last.Whole (all many items)) (stack_of fs)))) }
{
    if bracket == many_closer(&many) {
        Ok(Some(Place::After(Last::Whole(listed(alloc, many, items)?))))
    } else {
        drop(many);
        drop(items);
        Ok(None)
    }
}

// A bracket closes expressions, of which this is the last.
fn close_several(
    alloc: Global,
    many: Many,
    items: Items<Draft>,
    last: Draft,
    bracket: Bracket,
) -> Result<Option<Place>, AllocError>
    ensures { (fs : List Opened) → IfOk result (λ o. next_of o fs ≡ same bracket (all_closer many) (Some (after (Last.Whole (all many (items ++ last ∷ []))) (stack_of fs)))) }
{
    match with_item(items, last) {
        Ok(items) => close_many(alloc, many, items, bracket),
        Err(error) => {
            drop(many);
            Err(error)
        }
    }
}

// A bracket closes a map literal.
fn close_map(pairs: Items<DraftPair>, bracket: Bracket) -> Option<Place>
    ensures { (fs : List Opened) → next_of result fs ≡ same bracket Curly (Some (after (Last.Whole (draft.Map pairs)) (stack_of fs))) }
{
    if bracket == Bracket::Curly {
        Some(Place::After(Last::Whole(Draft::Map(pairs))))
    } else {
        drop(pairs);
        None
    }
}

// Behind an operand: a bracket closes.
fn after_closer(
    alloc: Global,
    frames: &mut Items<Frame>,
    bracket: Bracket,
    e: Draft,
) -> Result<Option<Place>, AllocError>
    ensures { IfOk result (λ o. next_of o frames.new ≡ closed_by bracket e (stack_of frames.old)) }
{
    match top(frames) {
        Some(Frame::One(single)) => close_single(alloc, single, bracket, e),
        Some(Frame::Several(many, items)) => close_several(alloc, many, items, e, bracket),
        Some(Frame::Value(pairs, key)) => Ok(close_map(with_pair(pairs, key, e)?, bracket)),
        Some(frame) => {
            drop(frame);
            drop(e);
            Ok(None)
        }
        None => {
            drop(e);
            Ok(None)
        }
    }
}

// The bracket that closes one expression.
fn single_closer(single: &Single) -> Bracket
    ensures { result ≡ one_closer single.now }
{
    match single {
        Single::Group => Bracket::Round,
        Single::At(_) => Bracket::Square,
    }
}

// The bracket that closes expressions.
fn many_closer(many: &Many) -> Bracket
    ensures { result ≡ all_closer many.now }
{
    match many {
        Many::List => Bracket::Square,
        Many::Call(_) | Many::Method(_, _) => Bracket::Round,
    }
}

// In an operand's place: a bracket closes that has nothing in it, or a comma before it.
fn close_empty(
    alloc: Global,
    frames: &mut Items<Frame>,
    bracket: Bracket,
) -> Result<Option<Place>, AllocError>
    ensures { IfOk result (λ o. next_of o frames.new ≡ closed_empty bracket (stack_of frames.old)) }
{
    match top(frames) {
        Some(Frame::Several(many, items)) => {
            if may_close(&many, &items) {
                close_many(alloc, many, items, bracket)
            } else {
                drop(many);
                drop(items);
                Ok(None)
            }
        }
        Some(Frame::Key(pairs)) => Ok(close_map(pairs, bracket)),
        Some(frame) => {
            drop(frame);
            Ok(None)
        }
        None => Ok(None),
    }
}

// A call's arguments end with no comma.
fn may_close(many: &Many, items: &Items<Draft>) -> bool
    ensures { result ≡ can_close many.now (items.now) }
{
    match many {
        Many::List => true,
        Many::Call(_) | Many::Method(_, _) => items.is_empty(),
    }
}

// In an operand's place: `!`.
fn bang(frames: &mut Items<Frame>) -> Result<Option<Place>, AllocError>
    ensures { IfOk result (λ o. next_of o frames.new ≡ at_bang (stack_of frames.old)) }
{
    match top(frames) {
        Some(Frame::Waiting(Pending::Minus)) => Ok(None),
        Some(frame) => {
            put_before(frames, frame, Frame::Waiting(Pending::Bang))?;
            Ok(Some(Place::Operand))
        }
        None => {
            put(frames, Frame::Waiting(Pending::Bang))?;
            Ok(Some(Place::Operand))
        }
    }
}

// In an operand's place: `-`.
fn minus(frames: &mut Items<Frame>) -> Result<Option<Place>, AllocError>
    ensures { IfOk result (λ o. next_of o frames.new ≡ at_minus (stack_of frames.old)) }
{
    match top(frames) {
        Some(Frame::Waiting(Pending::Bang)) => Ok(None),
        Some(frame) => {
            put_before(frames, frame, Frame::Waiting(Pending::Minus))?;
            Ok(Some(Place::Operand))
        }
        None => {
            put(frames, Frame::Waiting(Pending::Minus))?;
            Ok(Some(Place::Operand))
        }
    }
}

// In an operand's place: a bracket opens.
fn open(
    alloc: Global,
    frames: &mut Items<Frame>,
    bracket: Bracket,
) -> Result<Option<Place>, AllocError>
    ensures { IfOk result (λ o. next_of o frames.new ≡ Some (opened bracket (stack_of frames.old))) }
{
    let frame = match bracket {
        Bracket::Round => Frame::One(Single::Group),
        Bracket::Square => Frame::Several(Many::List, Items::new(alloc)),
        Bracket::Curly => Frame::Key(Items::new(alloc)),
    };
    put(frames, frame)?;
    Ok(Some(Place::Operand))
}

// In an operand's place.
fn take_operand(
    alloc: Global,
    frames: &mut Items<Frame>,
    token: &Token,
) -> Result<Option<Place>, AllocError>
    ensures { IfOk result (λ o. next_of o frames.new ≡ at_operand token.now (stack_of frames.old)) }
{
    match token {
        Token::Name(name) => Ok(Some(Place::After(Last::Name(name.copy(alloc)?)))),
        Token::Integer(n) => Ok(Some(Place::After(Last::Integer(*n)))),
        Token::Literal(literal) => Ok(Some(Place::After(Last::Whole(Draft::Literal(literal.copy(
            alloc,
        )?))))),
        Token::Bang => bang(frames),
        Token::Minus => minus(frames),
        Token::Open(bracket) => open(alloc, frames, *bracket),
        Token::Close(bracket) => close_empty(alloc, frames, *bracket),
        Token::Reserved(_)
        | Token::Sign(_)
        | Token::Question
        | Token::Colon
        | Token::Dot
        | Token::Comma => Ok(None),
    }
}

// Behind a dot.
fn take_field(alloc: Global, e: Draft, token: &Token) -> Result<Option<Place>, AllocError>
    ensures { (fs : List Opened) → IfOk result (λ o. next_of o fs ≡ at_dotted (field_of token.now) e (stack_of fs)) }
{
    match token {
        Token::Name(name) | Token::Reserved(name) => {
            let (e, field) = with_kept(e, name.copy(alloc))?;
            Ok(Some(Place::After(Last::Field(e, field))))
        }
        _ => {
            drop(e);
            Ok(None)
        }
    }
}

// Behind an operand: a bracket opens.
fn after_opener(
    alloc: Global,
    frames: &mut Items<Frame>,
    bracket: Bracket,
    last: Last,
) -> Result<Option<Place>, AllocError>
    requires { bracket ≡ Square → IsSmall last }
    ensures { IfOk result (λ o. next_of o frames.new ≡ opened_after bracket last (stack_of frames.old)) }
{
    match bracket {
        Bracket::Round => call(alloc, frames, last),
        Bracket::Square => {
            put(frames, Frame::One(Single::At(whole_of(alloc, last)?)))?;
            Ok(Some(Place::Operand))
        }
        Bracket::Curly => {
            drop(last);
            Ok(None)
        }
    }
}

// Behind a name: the bracket of a call.
fn call(alloc: Global, frames: &mut Items<Frame>, last: Last) -> Result<Option<Place>, AllocError>
    ensures { IfOk result (λ o. next_of o frames.new ≡ called last (stack_of frames.old)) }
{
    let many = match last {
        Last::Name(name) => Many::Call(name),
        Last::Field(e, name) => Many::Method(e, name),
        Last::Integer(_) => return Ok(None),
        Last::Whole(e) => {
            drop(e);
            return Ok(None);
        }
    };
    put(frames, Frame::Several(many, Items::new(alloc)))?;
    Ok(Some(Place::Operand))
}

// Behind an operand.
fn take_after(
    alloc: Global,
    frames: &mut Items<Frame>,
    last: Last,
    token: &Token,
) -> Result<Option<Place>, AllocError>
    requires { IsReadyFor (after last (stack_of frames.old)) (Some token.now) }
    ensures { IfOk result (λ o. next_of o frames.new ≡ at_after token.now last (stack_of frames.old)) }
{
    match token {
        Token::Sign(op) => after_operator(alloc, frames, *op, last),
        Token::Minus => after_operator(alloc, frames, BinaryOp::Sub, last),
        Token::Dot => Ok(Some(Place::Dotted(whole_of(alloc, last)?))),
        Token::Open(bracket) => after_opener(alloc, frames, *bracket, last),
        Token::Question => {
            let e = settled(alloc, frames, 1, last)?;
            after_question(frames, e)
        }
        Token::Colon => {
            let e = settled(alloc, frames, 0, last)?;
            after_colon(frames, e)
        }
        Token::Comma => {
            let e = settled(alloc, frames, 0, last)?;
            after_comma(frames, e)
        }
        Token::Close(bracket) => {
            let e = settled(alloc, frames, 0, last)?;
            after_closer(alloc, frames, *bracket, e)
        }
        Token::Name(_) | Token::Reserved(_) | Token::Integer(_) | Token::Literal(_) | Token::Bang =>
            {
                drop(last);
                Ok(None)
            }
    }
}

/// Takes one token more, where it can follow.
pub fn take(
    alloc: Global,
    frames: &mut Items<Frame>,
    place: Place,
    token: &Token,
) -> Result<Option<Place>, AllocError>
    requires { IsReadyFor (state_of place frames.old) (Some token.now) }
    ensures { IfOk result (λ o. next_of o frames.new ≡ step (state_of place frames.old) token.now) }
{
    match place {
        Place::Operand => take_operand(alloc, frames, token),
        Place::Dotted(e) => take_field(alloc, e, token),
        Place::After(last) => take_after(alloc, frames, last, token),
    }
}

/// The expression, where the tokens may end.
pub fn end(
    alloc: Global,
    mut frames: Items<Frame>,
    place: Place,
) -> Result<Option<Draft>, AllocError>
    requires { IsReadyFor (state_of place frames) None }
    ensures { IfOk result (λ o. o ≡ ended (state_of place frames)) }
{
    match place {
        Place::After(last) => {
            let e = settled(alloc, &mut frames, 0, last)?;
            match top(&mut frames) {
                None => Ok(Some(e)),
                Some(frame) => {
                    drop(frame);
                    drop(e);
                    Ok(None)
                }
            }
        }
        Place::Dotted(e) => {
            drop(e);
            Ok(None)
        }
        Place::Operand => Ok(None),
    }
}
