ghost use Rattle.std.specs.Prelude.{◌≡◌};
ghost use Rattle.std.specs.List.{list_any};
ghost use Rattle.std.specs.Str.{bytes_eq};

use crate::forms::{Permission, Role};
use base_types::{Items, Register};
use std::alloc::{AllocError, Global};
use std::marker::Model;

/// Roles with their permissions, each role once. Contracts see the pairs, and beside them for how many
/// more roles there is memory.
#[derive(Debug, Drop)]
pub struct Roles {
    inner: Register<Items<Permission>>,
}

impl Model for Roles {
    ghost use Rattle.std.specs.Prelude.{ℕ, List};
    ghost use Rattle.base_types.specs.Named.{Rows};

    ghost Value = { Rows (List (List ℕ)) };

    ghost view = { λ r. r.inner };
}

impl Roles {
    ghost use Rattle.std.specs.Prelude.{◌≡◌, ◌≤◌, ◌+◌, [], length, OnOk};
    ghost use Rattle.base_types.specs.Named.{put};
    ghost use Rattle.iam_names.specs.Roles as roles;

    pub fn new(alloc: Global) -> Self
        ensures { result.rows ≡ [] }
    {
        Roles {
            inner: Register::new(alloc),
        }
    }

    pub fn len(&self) -> usize
        ensures { result ≡ length self.now.rows }
    {
        self.inner.len()
    }

    /// Whether the role is there.
    pub fn knows(&self, role: &Role) -> bool
        ensures { result ≡ roles.knows self.now.rows role.now }
    {
        self.inner.contains(role.as_str())
    }

    /// Whether the role is there with that permission.
    pub fn holds(&self, role: &Role, permission: &Permission) -> bool
        ensures { result ≡ roles.holds self.now.rows role.now permission.now }
    {
        match self.inner.get(role.as_str()) {
            None => false,
            Some(permissions) => has_permission(permissions.as_slice(), permission),
        }
    }

    /// Takes memory for a further role.
    pub fn make_room(&mut self) -> Result<(), AllocError>
        ensures rows { self.new.rows ≡ self.old.rows }
        ensures room { OnOk result (1 ≤ self.new.spare) }
        ensures kept { self.old.spare ≤ self.new.spare }
    {
        self.inner.make_room()
    }

    /// Puts the role with its permissions, in place of what stands under its name. It takes no memory.
    pub fn place(&mut self, role: Role, permissions: Items<Permission>)
        requires { 1 ≤ self.old.spare }
        ensures rows { self.new.rows ≡ put role permissions self.old.rows }
        ensures spare { self.old.spare ≤ self.new.spare + 1 }
    {
        self.inner.place(role.into_text(), permissions);
    }
}

/// Whether the permission is among them.
pub fn has_permission(permissions: &[Permission], permission: &Permission) -> bool
    ensures { result ≡ list_any (bytes_eq permission.now) permissions.now }
{
    permissions
        .iter()
        .any(|other| permission.as_str() == other.as_str())
}
