use base_types::Text;
use cel_values::Expr;

/// An expression and its text as it was given.
#[derive(Debug, Drop)]
pub struct Expression {
    pub text: Text,
    pub tree: Expr,
}
