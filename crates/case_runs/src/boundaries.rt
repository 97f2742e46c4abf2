use base_types::{Items, both, kept};
use boundary::{Boundary, BoundaryError, Rule, allows, read_boundary};
use case_inputs::{Inputs, escaped, yes_or_no};
use iam_names::{NameError, Permission, Resource, Role, Roles};
use json_text::{DocumentFault, read_document};
use std::alloc::{AllocError, Global};

fn put_role_names(shown: &mut String, roles: &[Role]) -> Result<(), AllocError> {
    for role in roles {
        shown.push_str(" ")?;
        shown.push_str(role.as_str())?;
    }
    Ok(())
}

fn put_rule(shown: &mut String, rule: &Rule) -> Result<(), AllocError> {
    shown.push_str(" [")?;
    shown.push_str(rule.resource.as_str())?;
    put_role_names(shown, rule.roles.as_slice())?;
    if let Some(condition) = &rule.condition {
        shown.push_str(" if ")?;
        shown.push_str(condition.text.as_str())?;
    }
    shown.push_str("]")
}

fn shown(alloc: Global, boundary: &Boundary) -> Result<String, AllocError> {
    let mut shown = "rules".to_owned(alloc)?;
    for rule in boundary.rules.as_slice() {
        put_rule(&mut shown, rule)?;
    }
    escaped(alloc, shown.as_bytes())
}

fn told(alloc: Global, read: Result<Boundary, BoundaryError>) -> Result<String, AllocError> {
    match read {
        Ok(boundary) => {
            let text = shown(alloc, &boundary);
            drop(boundary);
            text
        }
        Err(BoundaryError::Fault { rule, cause }) => format!(in alloc; "{cause:?} {rule}"),
        Err(BoundaryError::Memory) => Err(AllocError),
    }
}

/// `boundary JSON`: the rules of the boundary, each its resource, its roles and its condition, or why the first that is refused is.
pub(crate) fn rules(alloc: Global, inputs: &Inputs) -> Result<String, AllocError> {
    match read_document(alloc, inputs.bytes(0)) {
        Ok(json) => told(alloc, read_boundary(alloc, &json)),
        Err(DocumentFault::NoJson) => "no JSON".to_owned(alloc),
        Err(DocumentFault::Memory) => Err(AllocError),
    }
}

// Why there is no decision: a name has no form, or there is no boundary.
#[derive(Drop)]
enum Stopped {
    NoName,
    NoBoundary,
    Memory,
}

impl From<NameError> for Stopped {
    fn from(error: NameError) -> Self {
        match error {
            NameError::Form => Stopped::NoName,
            NameError::Memory => Stopped::Memory,
        }
    }
}

impl From<BoundaryError> for Stopped {
    fn from(error: BoundaryError) -> Self {
        match error {
            BoundaryError::Fault { .. } => Stopped::NoBoundary,
            BoundaryError::Memory => Stopped::Memory,
        }
    }
}

impl From<AllocError> for Stopped {
    fn from(_: AllocError) -> Self {
        Stopped::Memory
    }
}

fn role_of(alloc: Global, text: &str) -> Result<Role, Stopped> {
    Ok(Role::read(alloc, text)?)
}

fn permission_of(alloc: Global, text: &str) -> Result<Permission, Stopped> {
    Ok(Permission::read(alloc, text)?)
}

fn resource_of(alloc: Global, text: &str) -> Result<Resource, Stopped> {
    Ok(Resource::read(alloc, text)?)
}

fn put_permissions(
    alloc: Global,
    permissions: &mut Items<Permission>,
    texts: &str,
) -> Result<(), Stopped> {
    for text in texts.split(',') {
        if !text.is_empty() {
            permissions.push(permission_of(alloc, text)?)?;
        }
    }
    Ok(())
}

fn permissions_of(alloc: Global, texts: &str) -> Result<Items<Permission>, Stopped> {
    let mut permissions = Items::new(alloc);
    let went = put_permissions(alloc, &mut permissions, texts);
    kept(permissions, went)
}

// A role and its permissions: `ROLE=PERMISSION,PERMISSION`.
fn put_role(alloc: Global, roles: &mut Roles, text: &str) -> Result<(), Stopped> {
    let (role, permissions) = text.split_once('=').unwrap_or((text, ""));
    let permissions = permissions_of(alloc, permissions);
    let (role, permissions) = both(role_of(alloc, role), permissions)?;
    roles.make_room()?;
    roles.place(role, permissions);
    Ok(())
}

fn put_roles(alloc: Global, roles: &mut Roles, texts: &str) -> Result<(), Stopped> {
    for text in texts.split(' ') {
        if !text.is_empty() {
            put_role(alloc, roles, text)?;
        }
    }
    Ok(())
}

// The roles of a text, put one after another.
fn roles_of(alloc: Global, texts: &str) -> Result<Roles, Stopped> {
    let mut roles = Roles::new(alloc);
    let went = put_roles(alloc, &mut roles, texts);
    kept(roles, went)
}

fn boundary_of(alloc: Global, json: &[u8]) -> Result<Boundary, Stopped> {
    match read_document(alloc, json) {
        Ok(json) => Ok(read_boundary(alloc, &json)?),
        Err(DocumentFault::NoJson) => Err(Stopped::NoBoundary),
        Err(DocumentFault::Memory) => Err(Stopped::Memory),
    }
}

fn asked_of(alloc: Global, inputs: &Inputs) -> Result<(Permission, Resource), Stopped> {
    both(
        permission_of(alloc, inputs.text(2)),
        resource_of(alloc, inputs.text(3)),
    )
}

fn allows_asked(
    alloc: Global,
    roles: &Roles,
    boundary: &Boundary,
    asked: &(Permission, Resource),
    now: u64,
) -> Result<bool, Stopped> {
    Ok(allows(alloc, roles, boundary, &asked.0, &asked.1, now)?)
}

fn allows_by(
    alloc: Global,
    roles: &Roles,
    boundary: &Boundary,
    inputs: &Inputs,
) -> Result<bool, Stopped> {
    let asked = asked_of(alloc, inputs)?;
    let holds = allows_asked(alloc, roles, boundary, &asked, inputs.number(4));
    drop(asked);
    holds
}

fn decided(alloc: Global, inputs: &Inputs) -> Result<bool, Stopped> {
    let boundary = boundary_of(alloc, inputs.bytes(1));
    let (roles, boundary) = both(roles_of(alloc, inputs.text(0)), boundary)?;
    let holds = allows_by(alloc, &roles, &boundary, inputs);
    drop(roles);
    drop(boundary);
    holds
}

/// `bound ROLES BOUNDARY PERMISSION RESOURCE MOMENT`: whether the boundary allows the permission on the resource, where the
/// roles were put one after another, each as `ROLE=PERMISSION,PERMISSION` with a blank between two.
pub(crate) fn bound(alloc: Global, inputs: &Inputs) -> Result<String, AllocError> {
    match decided(alloc, inputs) {
        Ok(holds) => yes_or_no(alloc, holds),
        Err(Stopped::NoName) => "no name".to_owned(alloc),
        Err(Stopped::NoBoundary) => "no boundary".to_owned(alloc),
        Err(Stopped::Memory) => Err(AllocError),
    }
}
