use base_types::{Items, Text, TextMap};
use case_inputs::{Inputs, yes_or_no};
use iam_names::{
    Account, AccountForm, AttributeForm, Audience, Form, Identity, Member, Name, NameError,
    PermissionForm, PoolIdForm, PoolName, ProjectForm, Resource, ResourceForm, RoleForm,
    ScopeWordForm, Who, account_resource, covers, names_who,
};
use std::alloc::{AllocError, Global};

// Whether a text was read, and prints as the text that was read.
fn reads<F: Form + Drop>(alloc: Global, text: &str) -> Result<bool, AllocError> {
    match Name::<F>::read(alloc, text) {
        Ok(name) => Ok(name.print(alloc)?.as_str() == text),
        Err(_) => Ok(false),
    }
}

fn reads_pool_name(alloc: Global, text: &str) -> Result<bool, AllocError> {
    match PoolName::read(alloc, text) {
        Ok(name) => Ok(name.print(alloc)?.as_str() == text),
        Err(_) => Ok(false),
    }
}

fn reads_audience(alloc: Global, text: &str) -> Result<bool, AllocError> {
    match Audience::read(alloc, text) {
        Ok(name) => Ok(name.print(alloc)?.as_str() == text),
        Err(_) => Ok(false),
    }
}

fn reads_member(alloc: Global, text: &str) -> Result<bool, AllocError> {
    match Member::read(alloc, text) {
        Ok(member) => Ok(member.print(alloc)?.as_str() == text),
        Err(_) => Ok(false),
    }
}

/// `name FORM TEXT`: whether the text is a name of the form, and prints as it was read.
pub(crate) fn name(alloc: Global, inputs: &Inputs) -> Result<String, AllocError> {
    let text = inputs.text(1);
    let is_read = match inputs.text(0) {
        "project" => reads::<ProjectForm>(alloc, text)?,
        "pool" => reads::<PoolIdForm>(alloc, text)?,
        "account" => reads::<AccountForm>(alloc, text)?,
        "permission" => reads::<PermissionForm>(alloc, text)?,
        "role" => reads::<RoleForm>(alloc, text)?,
        "attribute" => reads::<AttributeForm>(alloc, text)?,
        "scope" => reads::<ScopeWordForm>(alloc, text)?,
        "resource" => reads::<ResourceForm>(alloc, text)?,
        "pool_name" => reads_pool_name(alloc, text)?,
        "audience" => reads_audience(alloc, text)?,
        "member" => reads_member(alloc, text)?,
        _ => return "no such form".to_owned(alloc),
    };
    yes_or_no(alloc, is_read)
}

fn is_covered(alloc: Global, upper: &str, lower: &str) -> Result<bool, NameError> {
    let upper = Resource::read(alloc, upper)?;
    let lower = Resource::read(alloc, lower)?;
    Ok(covers(&upper, &lower))
}

/// `covers UPPER LOWER`: whether the first resource covers the second.
pub(crate) fn covering(alloc: Global, inputs: &Inputs) -> Result<String, AllocError> {
    match is_covered(alloc, inputs.text(0), inputs.text(1)) {
        Ok(holds) => yes_or_no(alloc, holds),
        Err(_) => "no resource".to_owned(alloc),
    }
}

/// `account_resource ACCOUNT`: the resource that an account is.
pub(crate) fn resource_of_account(alloc: Global, inputs: &Inputs) -> Result<String, AllocError> {
    match Account::read(alloc, inputs.text(0)) {
        Ok(account) => account_resource(alloc, &account)?.as_str().to_owned(alloc),
        Err(_) => "no account".to_owned(alloc),
    }
}

// An outside identity with a subject, a group, and an attribute `repo`.
fn outside(alloc: Global, inputs: &Inputs) -> Result<Who, NameError> {
    let pool = PoolName::read(alloc, inputs.text(1))?;
    let subject = Text::copy_of(alloc, inputs.text(2))?;
    let mut groups = Items::new(alloc);
    groups.push(Text::copy_of(alloc, inputs.text(3))?)?;
    let mut attributes = TextMap::new(alloc);
    attributes.insert(
        "repo".to_owned(alloc)?,
        Text::copy_of(alloc, inputs.text(4))?,
    )?;
    Ok(Who::Outside {
        pool,
        identity: Identity {
            subject,
            groups,
            attributes,
        },
    })
}

fn is_named(alloc: Global, member: &str, who: &Who) -> Result<bool, NameError> {
    let member = Member::read(alloc, member)?;
    Ok(names_who(&member, who))
}

/// `names_outside MEMBER POOL SUBJECT GROUP REPO`: whether the member names the identity.
pub(crate) fn names_outside(alloc: Global, inputs: &Inputs) -> Result<String, AllocError> {
    let Ok(who) = outside(alloc, inputs) else {
        return "nobody".to_owned(alloc);
    };
    match is_named(alloc, inputs.text(0), &who) {
        Ok(holds) => yes_or_no(alloc, holds),
        Err(_) => "no member".to_owned(alloc),
    }
}

/// `names_account MEMBER ACCOUNT`: whether the member names the account.
pub(crate) fn names_account(alloc: Global, inputs: &Inputs) -> Result<String, AllocError> {
    let Ok(account) = Account::read(alloc, inputs.text(1)) else {
        return "nobody".to_owned(alloc);
    };
    let who = Who::Account(account);
    match is_named(alloc, inputs.text(0), &who) {
        Ok(holds) => yes_or_no(alloc, holds),
        Err(_) => "no member".to_owned(alloc),
    }
}
