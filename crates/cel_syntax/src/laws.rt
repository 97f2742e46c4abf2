ghost use Rattle.std.specs.Prelude.{◌≡◌, ◌+◌, ◌≤◌, ◌∷◌, ◌++◌, ℕ, List, None};
ghost use Rattle.cel_values.specs.declared.expr.Expr.{Expr as Tree};
ghost use Rattle.cel_tokens.specs.declared.token.Bracket.TheVariants.{Round};
ghost use Rattle.cel_tokens.specs.declared.token.Lexeme.{Lexeme as Placed};
ghost use Rattle.cel_tokens.specs.declared.token.Token.{Token as Symbol};
ghost use Rattle.cel_tokens.specs.Lexing.{Lexes};
ghost use Rattle.cel_grammar.specs.declared.draft.Draft.{Draft as Plain};
ghost use Rattle.cel_grammar.specs.Faults.{kinds};
ghost use Rattle.cel_grammar.specs.Grammar.{TokensSpell};
ghost use Rattle.cel_syntax.specs.Macros.{expanded};
ghost use Rattle.cel_syntax.specs.MacroFaults.{NoFormFault, faults_of};
ghost use Rattle.cel_syntax.specs.Parentheses.{openings, negated_integers};
ghost use Rattle.cel_syntax.specs.Parse.{Spells};
ghost use Rattle.cel_syntax.specs.Print.{printed_text};

/// A law: a tree that some text spells is spelled by its printed text.
pub fn print_spells()
    ensures { (text : List ℕ) (x : Tree) → Spells text x → Spells (printed_text x) x }
{}

/// A law: parentheses stand in a printed text only where the tree needs them, but for those around an integer
/// that is the operand of unary `-`.
pub fn parentheses_are_needed()
    // No text that spells the tree has fewer, but for those around such integers.
    ensures fewest { (text : List ℕ) (tokens printed : List Placed) (d : Plain) → Lexes 0 text tokens None → TokensSpell (kinds tokens) d → NoFormFault (faults_of d) →
        Lexes 0 (printed_text (expanded d)) printed None → openings (kinds printed) ≤ openings (kinds tokens) + negated_integers d }
    // The tokens without a pair of them spell another tree or none, where no tree has such integers.
    ensures needed { (x : Tree) (printed : List Placed) (front mid back : List Symbol) (d : Plain) → Lexes 0 (printed_text x) printed None →
        kinds printed ≡ front ++ (Symbol.Open Round ∷ (mid ++ (Symbol.Close Round ∷ back))) → TokensSpell (front ++ (mid ++ back)) d →
        NoFormFault (faults_of d) → expanded d ≡ x → negated_integers d ≡ 0 → ⊥ }
{}
