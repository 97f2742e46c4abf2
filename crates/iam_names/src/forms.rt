ghost use Rattle.std.specs.Prelude.{◌≡◌};
ghost use Rattle.iam_names.specs.Forms as form;

use crate::bytes::{
    are_attribute_bytes, are_digits, are_host_bytes, are_id_bytes, are_plain_bytes, are_role_bytes,
    are_word_bytes, begins_with_zero,
};
use crate::cut::{after, cut_at};
use crate::name::{Form, Name};
use base_types::has_size;

/// The form of a project's number.
#[derive(Clone, Copy, Debug)]
pub struct ProjectForm;

impl Form for ProjectForm {
    ghost use Rattle.iam_names.specs.Forms.{is_project};

    ghost is_of_form = { is_project };

    fn has_form(text: &str) -> bool {
        has_size(text, 1, 19) && are_digits(text) && !begins_with_zero(text)
    }
}

/// A project's number: decimal, 1 to 19 digits, not 0.
pub type Project = Name<ProjectForm>;

/// The form of a pool's or a provider's own name.
#[derive(Clone, Copy, Debug)]
pub struct PoolIdForm;

impl Form for PoolIdForm {
    ghost use Rattle.iam_names.specs.Forms.{is_id};

    ghost is_of_form = { is_id };

    fn has_form(text: &str) -> bool {
        has_size(text, 4, 32) && are_id_bytes(text)
    }
}

/// A pool's or a provider's own name: 4 to 32 of `a` to `z`, digits and `-`.
pub type PoolId = Name<PoolIdForm>;

/// A provider's own name, of the same form.
pub type ProviderId = Name<PoolIdForm>;

/// The form of a service account.
#[derive(Clone, Copy, Debug)]
pub struct AccountForm;

impl Form for AccountForm {
    ghost use Rattle.iam_names.specs.Forms.{is_account};

    ghost is_of_form = { is_account };

    fn has_form(text: &str) -> bool {
        match cut_at(text, '@') {
            None => false,
            Some((name, home)) => is_label(name) && is_account_home(home),
        }
    }
}

/// A service account: `NAME@PROJECT.iam.gserviceaccount.com`, both parts 1 to 63 of `a` to `z`, digits and `-`.
pub type Account = Name<AccountForm>;

/// The form of a resource.
#[derive(Clone, Copy, Debug)]
pub struct ResourceForm;

impl Form for ResourceForm {
    ghost use Rattle.iam_names.specs.Forms.{is_resource};

    ghost is_of_form = { is_resource };

    fn has_form(text: &str) -> bool {
        text.len() <= 1024 && is_slashed_path(text)
    }
}

/// A resource: `//HOST` and any number of `/SEGMENT`, at most 1,024 bytes. A host has `a` to `z`, digits, `.` and `-`; a segment has
/// visible ASCII without `/`, `"` and `\\`; none is empty.
pub type Resource = Name<ResourceForm>;

/// The form of a permission.
#[derive(Clone, Copy, Debug)]
pub struct PermissionForm;

impl Form for PermissionForm {
    ghost use Rattle.iam_names.specs.Forms.{is_permission};

    ghost is_of_form = { is_permission };

    fn has_form(text: &str) -> bool {
        text.len() <= 128 && are_three_words(text)
    }
}

/// A permission: three parts of letters and digits joined by dots, at most 128 bytes.
pub type Permission = Name<PermissionForm>;

/// The form of a role.
#[derive(Clone, Copy, Debug)]
pub struct RoleForm;

impl Form for RoleForm {
    ghost use Rattle.iam_names.specs.Forms.{is_role};

    ghost is_of_form = { is_role };

    fn has_form(text: &str) -> bool {
        match after(text, "roles/") {
            None => false,
            Some(id) => is_role_id(id),
        }
    }
}

/// A role: `roles/` and 1 to 64 of letters, digits, `.` and `_`.
pub type Role = Name<RoleForm>;

/// The form of a scope word.
#[derive(Clone, Copy, Debug)]
pub struct ScopeWordForm;

impl Form for ScopeWordForm {
    ghost use Rattle.iam_names.specs.Forms.{is_scope_word};

    ghost is_of_form = { is_scope_word };

    fn has_form(text: &str) -> bool {
        has_size(text, 1, 128) && are_plain_bytes(text)
    }
}

/// A scope word: 1 to 128 visible ASCII without `"` and `\\`.
pub type ScopeWord = Name<ScopeWordForm>;

/// The form of an attribute's name.
#[derive(Clone, Copy, Debug)]
pub struct AttributeForm;

impl Form for AttributeForm {
    ghost use Rattle.iam_names.specs.Forms.{is_attribute_name};

    ghost is_of_form = { is_attribute_name };

    fn has_form(text: &str) -> bool {
        has_size(text, 1, 100) && are_attribute_bytes(text)
    }
}

/// An attribute's name: 1 to 100 of `a` to `z`, digits and `_`.
pub type AttributeName = Name<AttributeForm>;

fn is_label(text: &str) -> bool
    ensures { result ≡ form.is_label text.now }
{
    has_size(text, 1, 63) && are_id_bytes(text)
}

fn is_account_home(text: &str) -> bool
    ensures { result ≡ form.is_account_home text.now }
{
    match cut_at(text, '.') {
        None => false,
        Some((project, domain)) => is_label(project) && domain == "iam.gserviceaccount.com",
    }
}

fn is_word(text: &str) -> bool
    ensures { result ≡ form.is_word text.now }
{
    1 <= text.len() && are_word_bytes(text)
}

fn are_two_words(text: &str) -> bool
    ensures { result ≡ form.are_two_words text.now }
{
    match cut_at(text, '.') {
        None => false,
        Some((first, second)) => is_word(first) && is_word(second),
    }
}

fn are_three_words(text: &str) -> bool
    ensures { result ≡ form.are_three_words text.now }
{
    match cut_at(text, '.') {
        None => false,
        Some((first, rest)) => is_word(first) && are_two_words(rest),
    }
}

fn is_host(text: &str) -> bool
    ensures { result ≡ form.is_host text.now }
{
    1 <= text.len() && are_host_bytes(text)
}

fn is_segment(text: &str) -> bool
    ensures { result ≡ form.is_segment text.now }
{
    1 <= text.len() && are_plain_bytes(text)
}

fn are_segments(text: &str) -> bool
    ensures { result ≡ form.are_segments text.now }
{
    text.split('/').all(|segment| is_segment(segment))
}

fn is_path(text: &str) -> bool
    ensures { result ≡ form.is_path text.now }
{
    match cut_at(text, '/') {
        None => is_host(text),
        Some((host, segments)) => is_host(host) && are_segments(segments),
    }
}

fn is_slashed_path(text: &str) -> bool
    ensures { result ≡ form.is_slashed_path text.now }
{
    match after(text, "//") {
        None => false,
        Some(path) => is_path(path),
    }
}

fn is_role_id(text: &str) -> bool
    ensures { result ≡ form.is_role_id text.now }
{
    has_size(text, 1, 64) && are_role_bytes(text)
}
