ghost use Rattle.std.specs.Prelude.{◌≡◌, ◌↔◌, ℕ, List, Some};
ghost use Rattle.cel_expression.specs.declared.expression.Expression.{Expression as Formula};
ghost use Rattle.cel_reader.specs.Expressions.{expression_of, IsExpression};
ghost use Rattle.cel_types.specs.Rules.{Decls};
ghost use Rattle.cel_types.specs.declared.cel_type.CelType.{CelType as Kind};

/// A law: an expression is read exactly where the text spells it without a fault and its type by the rules fits the wanted one.
pub fn expressions_are_spelled_and_typed()
    ensures { (declarations : Decls) (wanted : Kind) (text : List ℕ) (e : Formula) →
        (expression_of declarations wanted text ≡ Some e) ↔ IsExpression declarations wanted text e }
{}
