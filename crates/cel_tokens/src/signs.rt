ghost use Rattle.std.specs.Prelude.{◌≡◌};
ghost use Rattle.cel_tokens.specs.Words.{bracket_sign as bracket_of, mark_sign as mark_of, one_sign as one_of, two_sign as two_of};

use crate::token::{Bracket, Token};
use cel_values::BinaryOp;

fn bracket_sign(byte: u8) -> Option<Token>
    ensures { result ≡ bracket_of byte }
{
    match byte {
        b'(' => Some(Token::Open(Bracket::Round)),
        b')' => Some(Token::Close(Bracket::Round)),
        b'[' => Some(Token::Open(Bracket::Square)),
        b']' => Some(Token::Close(Bracket::Square)),
        b'{' => Some(Token::Open(Bracket::Curly)),
        b'}' => Some(Token::Close(Bracket::Curly)),
        _ => None,
    }
}

fn mark_sign(byte: u8) -> Option<Token>
    ensures { result ≡ mark_of byte }
{
    match byte {
        b'?' => Some(Token::Question),
        b':' => Some(Token::Colon),
        b'!' => Some(Token::Bang),
        b'.' => Some(Token::Dot),
        b',' => Some(Token::Comma),
        _ => bracket_sign(byte),
    }
}

/// The token of one byte, but for `/`.
pub fn one_sign(byte: u8) -> Option<Token>
    ensures { result ≡ one_of byte }
{
    match byte {
        b'<' => Some(Token::Sign(BinaryOp::Lt)),
        b'>' => Some(Token::Sign(BinaryOp::Gt)),
        b'+' => Some(Token::Sign(BinaryOp::Add)),
        b'-' => Some(Token::Minus),
        b'*' => Some(Token::Sign(BinaryOp::Mul)),
        b'%' => Some(Token::Sign(BinaryOp::Rem)),
        _ => mark_sign(byte),
    }
}

/// The token of two bytes.
pub fn two_sign(first: u8, second: u8) -> Option<Token>
    ensures { result ≡ two_of first second }
{
    match (first, second) {
        (b'|', b'|') => Some(Token::Sign(BinaryOp::Or)),
        (b'&', b'&') => Some(Token::Sign(BinaryOp::And)),
        (b'=', b'=') => Some(Token::Sign(BinaryOp::Eq)),
        (b'!', b'=') => Some(Token::Sign(BinaryOp::Ne)),
        (b'<', b'=') => Some(Token::Sign(BinaryOp::Le)),
        (b'>', b'=') => Some(Token::Sign(BinaryOp::Ge)),
        _ => None,
    }
}
