//! The tokens of the expression language: the longest that fit, with their places in the text.
#![tactic(auto)]

mod laws;
mod lexer;
mod quoted;
mod runs;
mod signs;
mod spelling;
mod token;
mod words;

pub use laws::texts_are_as_written;
pub use lexer::{Lexing, lex, longest_word, one_lexing};
pub use spelling::put_quoted;
pub use token::{Bracket, Lexeme, Literal, Name, Token};
