ghost use Rattle.std.specs.Prelude.{◌≡◌, IfOk, IfSome, option_map};
ghost use Rattle.std.specs.List.{AllByRecursion};
ghost use Rattle.boundary.specs.Exact.{AreSaid, IsExactBoundary, IsSaid};

use crate::parts::condition_in;
use crate::rules::{Boundary, Rule};
use base_types::{Items, both};
use cel_expression::Expression;
use iam_names::Role;
use std::alloc::{AllocError, Global};

// A condition is the one that its text says, so the text is read again.
fn copy_condition(alloc: Global, condition: &Expression) -> Result<Expression, AllocError>
    requires { IsSaid condition.now }
    ensures { IfOk result (λ same. same ≡ condition.now) }
{
    let text = condition.text.as_str();
    Ok(condition_in(alloc, text)?.unwrap())
}

fn copy_where_there(
    alloc: Global,
    condition: Option<&Expression>,
) -> Result<Option<Expression>, AllocError>
    requires { IfSome condition (λ e. IsSaid e.now) }
    ensures { IfOk result (λ same. same ≡ option_map (λ e. e.now) condition.entry) }
{
    match condition {
        None => Ok(None),
        Some(condition) => Ok(Some(copy_condition(alloc, condition)?)),
    }
}

fn copy_roles(alloc: Global, roles: &[Role]) -> Result<Items<Role>, AllocError>
    ensures { IfOk result (λ same. same ≡ roles.now) }
{
    let mut same = Items::new(alloc);
    for role in roles {
        same.push(role.copy(alloc)?)?;
    }
    Ok(same)
}

fn copy_rule(alloc: Global, rule: &Rule) -> Result<Rule, AllocError>
    requires { AreSaid rule.now }
    ensures { IfOk result (λ same. same ≡ rule.now) }
{
    let names = both(
        rule.resource.copy(alloc),
        copy_roles(alloc, rule.roles.as_slice()),
    );
    let condition = copy_where_there(alloc, rule.condition.as_ref());
    let ((resource, roles), condition) = both(names, condition)?;
    Ok(Rule {
        resource,
        roles,
        condition,
    })
}

fn copy_rules(alloc: Global, rules: &[Rule]) -> Result<Items<Rule>, AllocError>
    requires { AllByRecursion AreSaid rules.now }
    ensures { IfOk result (λ same. same ≡ rules.now) }
{
    let mut same = Items::new(alloc);
    for rule in rules {
        same.push(copy_rule(alloc, rule)?)?;
    }
    Ok(same)
}

/// The same boundary once more.
pub fn copy(alloc: Global, boundary: &Boundary) -> Result<Boundary, AllocError>
    requires { IsExactBoundary boundary.now }
    ensures { IfOk result (λ same. same ≡ boundary.now) }
{
    let rules = copy_rules(alloc, boundary.rules.as_slice())?;
    Ok(Boundary { rules })
}
