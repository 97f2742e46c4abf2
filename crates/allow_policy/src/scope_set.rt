use base_types::Items;
use iam_names::Permission;

/// What a scope word stands for: all permissions, or a list of them.
#[derive(Debug, Drop)]
pub enum ScopeSet {
    All,
    List(Items<Permission>),
}
