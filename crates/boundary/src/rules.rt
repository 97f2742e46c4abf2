use base_types::Items;
use cel_expression::Expression;
use iam_names::{Resource, Role};

/// A rule of a boundary: at the resource and below, what its roles hold, where the condition holds.
#[derive(Debug, Drop)]
pub struct Rule {
    pub resource: Resource,
    pub roles: Items<Role>,
    /// It sees `resource` and `request`. None always holds.
    pub condition: Option<Expression>,
}

/// A credential access boundary: 1 to 10 rules.
#[derive(Debug, Drop)]
pub struct Boundary {
    pub rules: Items<Rule>,
}
