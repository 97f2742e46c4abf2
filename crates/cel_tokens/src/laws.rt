ghost use Rattle.std.specs.Prelude.{◌≡◌, ℕ, List, Option, Some, IsUtf8};
ghost use Rattle.std.specs.List.{AllByRecursion};
ghost use Rattle.std.specs.Str.Lossy.{utf8_lossy};
ghost use Rattle.cel_tokens.specs.declared.token.Lexeme.{Lexeme as Placed};
ghost use Rattle.cel_tokens.specs.declared.token.Literal.{Literal as Constant};
ghost use Rattle.cel_tokens.specs.declared.token.Piece.{Piece as Word};
ghost use Rattle.cel_tokens.specs.declared.token.Token.{Token as Symbol};
ghost use Rattle.cel_tokens.specs.Words.{form};
ghost use Rattle.cel_tokens.specs.Lexing.{Lexes};
ghost use Rattle.cel_tokens.specs.QuotedText.{IsTextWord, IsAsWritten};

/// A law: a word is a text exactly where it is written as one, in quotes or raw, and of a text in UTF-8 nothing is lost.
pub fn texts_are_as_written()
    // Each word that is read as a text is written as one.
    ensures only { (at : ℕ) (word text : List ℕ) → form at word ≡ Some (Word.Token (Symbol.Literal (Constant.Text text))) →
        (value : List ℕ) × IsTextWord word value × (text ≡ utf8_lossy value) }
    // Each word that is written as a text is read as one.
    ensures each { (at : ℕ) (word value : List ℕ) → IsTextWord word value → form at word ≡ Some (Word.Token (Symbol.Literal (Constant.Text (utf8_lossy value)))) }
    // The text tokens of UTF-8 are just what is written.
    ensures exact { (text : List ℕ) (tokens : List Placed) (stop : Option ℕ) → IsUtf8 text → Lexes 0 text tokens stop → AllByRecursion (IsAsWritten text) tokens }
{}
