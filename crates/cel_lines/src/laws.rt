ghost use Rattle.std.specs.Prelude.{◌≡◌, ℕ, List};
ghost use Rattle.cel_lines.specs.Lines.{AreLines, IsRest, LinesBegin};
ghost use Rattle.cel_lines.specs.Answers.{AreAnswers, Answers};

use cel_grammar::one_draft;
use cel_syntax::one_tree;

/// A law: bytes are cut into lines in one way, and each line has at most one answer, so an input has at most one output.
pub fn one_output()
    ensures one_cut { (bytes : List ℕ) (lines others : List (List ℕ)) (rest other : List ℕ) → LinesBegin bytes lines rest → IsRest rest
        → LinesBegin bytes others other → IsRest other → (lines ≡ others) × (rest ≡ other) }
    ensures one_list { (bytes : List ℕ) (lines others : List (List ℕ)) → AreLines bytes lines → AreLines bytes others → lines ≡ others }
    ensures one_answer { (line text other : List ℕ) → Answers line text → Answers line other → text ≡ other }
    ensures answers { (lines texts others : List (List ℕ)) → AreAnswers lines texts → AreAnswers lines others → texts ≡ others }
{
    one_draft();
    one_tree();
}
