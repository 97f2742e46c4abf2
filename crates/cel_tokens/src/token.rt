ghost use Rattle.std.specs.Prelude.{◌≡◌, IfOk};

use base_types::Text;
use cel_values::BinaryOp;
use std::alloc::{AllocError, Global};

/// A form of bracket.
#[derive(Clone, Copy, Debug, PartialEq, Eq)]
pub enum Bracket {
    Round,
    Square,
    Curly,
}

/// A name and the byte offset where it stands.
#[derive(Debug, Drop)]
pub struct Name {
    pub at: usize,
    pub text: Text,
}

impl Name {
    pub fn copy(&self, alloc: Global) -> Result<Self, AllocError>
        ensures { IfOk result (λ name. name ≡ self.now) }
    {
        Ok(Name {
            at: self.at,
            text: self.text.copy(alloc)?,
        })
    }
}

/// A literal other than an integer.
#[derive(Debug, Drop)]
pub enum Literal {
    Null,
    Bool(bool),
    Text(Text),
}

impl Literal {
    pub fn copy(&self, alloc: Global) -> Result<Self, AllocError>
        ensures { IfOk result (λ literal. literal ≡ self.now) }
    {
        match self {
            Literal::Null => Ok(Literal::Null),
            Literal::Bool(flag) => Ok(Literal::Bool(*flag)),
            Literal::Text(text) => Ok(Literal::Text(text.copy(alloc)?)),
        }
    }
}

/// A token of an expression.
#[derive(Debug, Drop)]
pub enum Token {
    /// A name that is neither a keyword nor reserved.
    Name(Name),
    Reserved(Name),
    /// An integer without its sign. From 2^64 on it counts as 2^64 - 1, which is out of range too.
    Integer(u64),
    Literal(Literal),
    /// An operator of two operands, other than `-`.
    Sign(BinaryOp),
    Minus,
    Bang,
    Question,
    Colon,
    Dot,
    Comma,
    Open(Bracket),
    Close(Bracket),
}

/// A token and the byte offset where it starts.
#[derive(Debug, Drop)]
pub struct Lexeme {
    pub at: usize,
    pub token: Token,
}

/// What a word of a text is: a blank byte or a comment, or a token.
#[derive(Drop)]
pub enum Piece {
    Blank,
    Token(Token),
}
