ghost use Rattle.std.specs.Prelude.{◌≡◌, ℕ, List, Option, IfOk};
ghost use Rattle.cel_tokens.specs.declared.token.Lexeme.{Lexeme as Placed};
ghost use Rattle.cel_tokens.specs.FirstWord.{IsFirst, word_at};
ghost use Rattle.cel_tokens.specs.Lexing.{Lexes};

use crate::token::{Lexeme, Piece};
use crate::words::first_word;
use base_types::Items;
use std::alloc::{AllocError, Global};

/// The tokens of a text, and the byte offset where they stop, if bytes there form no token.
#[derive(Debug, Drop)]
pub struct Lexing {
    pub tokens: Items<Lexeme>,
    pub stop: Option<usize>,
}

/// Cuts a text into its tokens.
pub fn lex(alloc: Global, text: &str) -> Result<Lexing, AllocError>
    ensures { IfOk result (λ lexing. Lexes 0 text.now lexing.tokens lexing.stop) }
{
    let mut tokens = Items::new(alloc);
    let mut rest = text.as_bytes();
    while !rest.is_empty() {
        let at = text.len() - rest.len();
        let Some((piece, more)) = first_word(alloc, at, rest)? else {
            return Ok(Lexing {
                tokens,
                stop: Some(at),
            });
        };
        rest = more;
        match piece {
            Piece::Blank => {}
            Piece::Token(token) => tokens.push(Lexeme { at, token })?,
        }
    }
    Ok(Lexing { tokens, stop: None })
}

/// A law: the first word of a text is the longest that fits, and there is none only where none fits.
pub fn longest_word()
    ensures { (at : ℕ) (text : List ℕ) → IsFirst at text (word_at at text) }
{}

/// A law: a text has one list of tokens.
pub fn one_lexing()
    ensures { (text : List ℕ) (a b : List Placed) (s t : Option ℕ) → Lexes 0 text a s → Lexes 0 text b t → (a ≡ b) × (s ≡ t) }
{}
