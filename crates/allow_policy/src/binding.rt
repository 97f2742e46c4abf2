use base_types::Items;
use cel_expression::Expression;
use iam_names::{Member, Role};

/// A role for members, where the condition holds.
#[derive(Debug, Drop)]
pub struct Binding {
    pub role: Role,
    pub members: Items<Member>,
    /// It sees `resource` and `request`. None always holds.
    pub condition: Option<Expression>,
}
