ghost use Rattle.std.specs.Prelude.{◌≡◌, ◌∷◌, true, IfOk, option_map};
ghost use Rattle.cel_tokens.specs.Words.{all_bytes, is_name_byte, is_hex as hex_test, is_digit as digit_test, is_letter as is_letter_test, one_sign as one_sign_of, is_reserved as reserved_of, is_control_word as control_word, is_declaring_word as declaring_word, word_token as word_token_of, text_token as text_token_of, decimal_number, hex_number, saturated};
ghost use Rattle.cel_tokens.specs.FirstWord.{raw_at, hex_at, name_at, number_at, letter_at, digit_at, quote_at, sign_at, slash_at, word_at, before, piece_of};

use crate::quoted::{TextKind, read_between};
use crate::runs::{
    ByteKind, hex_value, is_blank, is_digit, is_hex, is_letter, is_quote, split_run,
};
use crate::signs::{one_sign, two_sign};
use crate::token::{Literal, Name, Piece, Token};
use base_types::Text;
use cel_values::BinaryOp;
use std::alloc::{AllocError, Global};

#[tactic(auto, unfolding(crate::specs::Words::is_control_word))]
fn is_control_word(word: &str) -> bool
    ensures { result ≡ control_word word.now }
{
    word == "break"
        || word == "continue"
        || word == "else"
        || word == "for"
        || word == "if"
        || word == "loop"
        || word == "return"
        || word == "while"
}

#[tactic(auto, unfolding(crate::specs::Words::is_declaring_word))]
fn is_declaring_word(word: &str) -> bool
    ensures { result ≡ declaring_word word.now }
{
    word == "as"
        || word == "const"
        || word == "function"
        || word == "import"
        || word == "let"
        || word == "namespace"
        || word == "package"
        || word == "var"
        || word == "void"
}

fn is_reserved(word: &str) -> bool
    ensures { result ≡ reserved_of word.now }
{
    is_control_word(word) || is_declaring_word(word)
}

// A keyword, a reserved word or a name.
fn word_token(alloc: Global, at: usize, word: &str) -> Result<Token, AllocError>
    ensures { IfOk result (λ t. t ≡ word_token_of at word.now) }
{
    if word == "true" {
        return Ok(Token::Literal(Literal::Bool(true)));
    }
    if word == "false" {
        return Ok(Token::Literal(Literal::Bool(false)));
    }
    if word == "null" {
        return Ok(Token::Literal(Literal::Null));
    }
    if word == "in" {
        return Ok(Token::Sign(BinaryOp::Within));
    }
    let text = Text::copy_of(alloc, word)?;
    if is_reserved(word) {
        return Ok(Token::Reserved(Name { at, text }));
    }
    Ok(Token::Name(Name { at, text }))
}

fn text_token(alloc: Global, bytes: &[u8]) -> Result<Token, AllocError>
    ensures { IfOk result (λ t. t ≡ text_token_of bytes.now) }
{
    let text = String::from_utf8_lossy(alloc, bytes)?;
    Ok(Token::Literal(Literal::Text(Text::new(text))))
}

fn decimal_value(digits: &[u8]) -> u64
    ensures { result ≡ saturated (decimal_number 0 digits.now) }
{
    let mut value: u64 = 0;
    for digit in digits {
        value = value
            .saturating_mul(10)
            .saturating_add(digit.saturating_sub(b'0') as u64);
    }
    value
}

fn hex_digits_value(digits: &[u8]) -> u64
    ensures { result ≡ saturated (hex_number 0 digits.now) }
{
    let mut value: u64 = 0;
    for digit in digits {
        value = value
            .saturating_mul(16)
            .saturating_add(hex_value(*digit) as u64);
    }
    value
}

// A run of letters and digits as text.
fn as_text(word: &[u8]) -> &str
    requires { all_bytes is_name_byte word.now ≡ true }
    ensures { result.now ≡ word.now }
{
    match str::from_utf8(word) {
        Ok(text) => text,
        Err(_) => unreachable!(),
    }
}

// A word of letters and digits.
fn name_word<'a>(
    alloc: Global,
    at: usize,
    first: u8,
    rest: &'a [u8],
    text: &'a [u8],
) -> Result<Option<(Token, &'a [u8])>, AllocError>
    requires whole { text.now ≡ first ∷ rest.now }
    requires letter { is_letter_test first ≡ true }
    ensures { IfOk result (λ o. option_map (λ x. (x.0, x.1.now)) o ≡ name_at at first rest.now) }
{
    let (word, more) = split_run(text, ByteKind::NameByte);
    Ok(Some((word_token(alloc, at, as_text(word))?, more)))
}

// The bytes of a raw text behind its `r`.
fn raw_text(alloc: Global, rest: &[u8]) -> Result<Option<(Vec<u8>, &[u8])>, AllocError>
    ensures { IfOk result (λ o. option_map (λ x. (x.0.items, x.1.now)) o ≡ raw_at rest.now) }
{
    let Some((quote, inner)) = rest.split_first() else {
        return Ok(None);
    };
    if !is_quote(*quote) {
        return Ok(None);
    }
    read_between(alloc, TextKind::Raw, *quote, inner)
}

fn letter_word<'a>(
    alloc: Global,
    at: usize,
    first: u8,
    rest: &'a [u8],
    text: &'a [u8],
) -> Result<Option<(Token, &'a [u8])>, AllocError>
    requires whole { text.now ≡ first ∷ rest.now }
    requires letter { is_letter_test first ≡ true }
    ensures { IfOk result (λ o. option_map (λ x. (x.0, x.1.now)) o ≡ letter_at at first rest.now) }
{
    if first == b'r' {
        if let Some((value, more)) = raw_text(alloc, rest)? {
            return Ok(Some((text_token(alloc, value.as_slice())?, more)));
        }
    }
    name_word(alloc, at, first, rest, text)
}

// The hexadecimal digits behind `0`, and what follows them.
fn hex_digits(rest: &[u8]) -> Option<(&[u8], &[u8])>
    ensures { option_map (λ x. (x.0.now, x.1.now)) result ≡ hex_at rest.now }
{
    let Some((mark, digits)) = rest.split_first() else {
        return None;
    };
    let Some((first, _)) = digits.split_first() else {
        return None;
    };
    if *mark != b'x' || !is_hex(*first) {
        return None;
    }
    Some(split_run(digits, ByteKind::Hex))
}

fn digit_word<'a>(first: u8, rest: &'a [u8], text: &'a [u8]) -> Option<(Token, &'a [u8])>
    requires whole { text.now ≡ first ∷ rest.now }
    requires digit { digit_test first ≡ true }
    ensures { option_map (λ x. (x.0, x.1.now)) result ≡ digit_at first rest.now }
{
    if first == b'0' {
        if let Some((digits, more)) = hex_digits(rest) {
            return Some((Token::Integer(hex_digits_value(digits)), more));
        }
    }
    let (digits, more) = split_run(text, ByteKind::Digit);
    Some((Token::Integer(decimal_value(digits)), more))
}

fn quote_word(alloc: Global, first: u8, rest: &[u8]) -> Result<Option<(Token, &[u8])>, AllocError>
    ensures { IfOk result (λ o. option_map (λ x. (x.0, x.1.now)) o ≡ quote_at first rest.now) }
{
    match read_between(alloc, TextKind::Escaped, first, rest)? {
        Some((value, more)) => Ok(Some((text_token(alloc, value.as_slice())?, more))),
        None => Ok(None),
    }
}

fn one_sign_word(first: u8, rest: &[u8]) -> Option<(Token, &[u8])>
    ensures { option_map (λ x. (x.0, x.1.now)) result ≡ before rest.now (one_sign_of first) }
{
    match one_sign(first) {
        Some(token) => Some((token, rest)),
        None => None,
    }
}

fn sign_word(first: u8, rest: &[u8]) -> Option<(Token, &[u8])>
    ensures { option_map (λ x. (x.0, x.1.now)) result ≡ sign_at first rest.now }
{
    if let Some((second, more)) = rest.split_first() {
        if let Some(token) = two_sign(first, *second) {
            return Some((token, more));
        }
    }
    one_sign_word(first, rest)
}

// `/`, or a comment.
fn slash_word(rest: &[u8]) -> Option<(Piece, &[u8])>
    ensures { option_map (λ x. (x.0, x.1.now)) result ≡ slash_at rest.now }
{
    if let Some((second, more)) = rest.split_first() {
        if *second == b'/' {
            let (_, next_line) = split_run(more, ByteKind::InLine);
            return Some((Piece::Blank, next_line));
        }
    }
    Some((Piece::Token(Token::Sign(BinaryOp::Div)), rest))
}

fn as_piece(found: Option<(Token, &[u8])>) -> Option<(Piece, &[u8])>
    ensures { option_map (λ x. (x.0, x.1.now)) result ≡ piece_of (option_map (λ x. (x.0, x.1.now)) found.entry) }
{
    match found {
        Some((token, more)) => Some((Piece::Token(token), more)),
        None => None,
    }
}

/// The first word of a text that begins at a place, and what follows it.
pub fn first_word(
    alloc: Global,
    at: usize,
    text: &[u8],
) -> Result<Option<(Piece, &[u8])>, AllocError>
    ensures { IfOk result (λ o. option_map (λ x. (x.0, x.1.now)) o ≡ word_at at text.now) }
{
    let Some((first, rest)) = text.split_first() else {
        return Ok(None);
    };
    if is_letter(*first) {
        return Ok(as_piece(letter_word(alloc, at, *first, rest, text)?));
    }
    if is_digit(*first) {
        return Ok(as_piece(digit_word(*first, rest, text)));
    }
    if is_quote(*first) {
        return Ok(as_piece(quote_word(alloc, *first, rest)?));
    }
    if is_blank(*first) {
        return Ok(Some((Piece::Blank, rest)));
    }
    if *first == b'/' {
        return Ok(slash_word(rest));
    }
    Ok(as_piece(sign_word(*first, rest)))
}
