ghost use Rattle.std.specs.Prelude.{◌≡◌};

use std::alloc::AllocError;

/// A rule of the syntax.
#[derive(Clone, Copy, Debug, PartialEq, Eq)]
pub enum SyntaxRule {
    /// A token stands that can't follow those before it in any expression, or the text ends too early.
    S1,
    /// A token stands behind the 512th.
    S2,
    /// A bracket opens where 32 are open.
    S3,
    /// A call has a macro's name, style and number of arguments, but not its form.
    S4,
    /// A macro stands inside the argument of a macro that is itself inside one.
    S5,
    /// The text has more than 4,096 bytes.
    S6,
    /// Bytes form no token.
    L1,
    /// An integer is out of range.
    L2,
}

/// Why a text gave no expression.
#[derive(Debug, Drop)]
pub enum ParseError {
    /// The first fault: the byte offset where it stands, and the rule that is broken.
    Fault { at: usize, rule: SyntaxRule },
    Memory,
}

impl From<AllocError> for ParseError {
    ghost use Rattle.cel_grammar.specs.declared.error.ParseError.TheVariants.{Memory};

    ghost from_gives = { λ _ e. e ≡ Memory };

    fn from(_error: AllocError) -> Self {
        ParseError::Memory
    }
}
