use allow_policy::{
    Binding, Policies, PutFault, ScopeSet, granted, knows_scope, put_policy, put_role, put_scope,
    scope_allows,
};
use base_types::{Items, both, kept};
use case_inputs::{Inputs, yes_or_no};
use iam_names::{Account, Member, NameError, Permission, Resource, Role, ScopeWord, Who};
use std::alloc::{AllocError, Global};

// Why there is no answer: a name has no form, or a put is refused.
#[derive(Drop)]
enum Stopped {
    Name,
    Put,
}

impl From<NameError> for Stopped {
    fn from(_: NameError) -> Self {
        Stopped::Name
    }
}

impl From<PutFault> for Stopped {
    fn from(_: PutFault) -> Self {
        Stopped::Put
    }
}

impl From<AllocError> for Stopped {
    fn from(_: AllocError) -> Self {
        Stopped::Name
    }
}

fn role_of(alloc: Global, text: &str) -> Result<Role, Stopped> {
    Ok(Role::read(alloc, text)?)
}

fn permission_of(alloc: Global, text: &str) -> Result<Permission, Stopped> {
    Ok(Permission::read(alloc, text)?)
}

fn resource_of(alloc: Global, text: &str) -> Result<Resource, Stopped> {
    Ok(Resource::read(alloc, text)?)
}

fn word_of(alloc: Global, text: &str) -> Result<ScopeWord, Stopped> {
    Ok(ScopeWord::read(alloc, text)?)
}

fn member_of(alloc: Global, text: &str) -> Result<Member, Stopped> {
    Ok(Member::read(alloc, text)?)
}

fn account_of(alloc: Global, text: &str) -> Result<Who, Stopped> {
    Ok(Who::Account(Account::read(alloc, text)?))
}

fn list_of<T: Drop>(alloc: Global, item: T) -> Result<Items<T>, Stopped> {
    let mut items = Items::new(alloc);
    match items.push(item) {
        Ok(()) => Ok(items),
        Err(AllocError) => Err(Stopped::Name),
    }
}

// A list of the permission, which has to have its form.
fn one_permission(alloc: Global, text: &str) -> Result<Items<Permission>, Stopped> {
    list_of(alloc, permission_of(alloc, text)?)
}

fn one_member(alloc: Global, text: &str) -> Result<Items<Member>, Stopped> {
    list_of(alloc, member_of(alloc, text)?)
}

fn one_word(alloc: Global, text: &str) -> Result<Items<ScopeWord>, Stopped> {
    list_of(alloc, word_of(alloc, text)?)
}

fn one_binding(alloc: Global, role: &str, member: &str) -> Result<Items<Binding>, Stopped> {
    let (role, members) = both(role_of(alloc, role), one_member(alloc, member))?;
    list_of(
        alloc,
        Binding {
            role,
            members,
            condition: None,
        },
    )
}

fn put_one_role(
    alloc: Global,
    policies: &mut Policies,
    role: &str,
    permission: &str,
) -> Result<(), Stopped> {
    let (role, permissions) = both(role_of(alloc, role), one_permission(alloc, permission))?;
    Ok(put_role(policies, role, permissions)?)
}

fn put_one_policy(alloc: Global, policies: &mut Policies, inputs: &Inputs) -> Result<(), Stopped> {
    let binding = one_binding(alloc, inputs.text(2), inputs.text(3));
    let (resource, bindings) = both(resource_of(alloc, inputs.text(4)), binding)?;
    Ok(put_policy(policies, resource, bindings)?)
}

fn put_both(alloc: Global, policies: &mut Policies, inputs: &Inputs) -> Result<(), Stopped> {
    put_one_role(alloc, policies, inputs.text(0), inputs.text(1))?;
    put_one_policy(alloc, policies, inputs)
}

// A role with one permission, and a policy that binds it to one member.
fn policies_of(alloc: Global, inputs: &Inputs) -> Result<Policies, Stopped> {
    let mut policies = Policies::new(alloc);
    let went = put_both(alloc, &mut policies, inputs);
    kept(policies, went)
}

fn asked_of(alloc: Global, inputs: &Inputs) -> Result<(Permission, Resource), Stopped> {
    both(
        permission_of(alloc, inputs.text(6)),
        resource_of(alloc, inputs.text(7)),
    )
}

fn holds_for(
    alloc: Global,
    policies: &Policies,
    who: &Who,
    asked: &(Permission, Resource),
) -> Result<bool, Stopped> {
    Ok(granted(alloc, policies, who, &asked.0, &asked.1, 0)?)
}

fn is_granted_by(alloc: Global, policies: &Policies, inputs: &Inputs) -> Result<bool, Stopped> {
    let (who, asked) = both(account_of(alloc, inputs.text(5)), asked_of(alloc, inputs))?;
    let holds = holds_for(alloc, policies, &who, &asked);
    drop(who);
    drop(asked);
    holds
}

fn is_granted(alloc: Global, inputs: &Inputs) -> Result<bool, Stopped> {
    let policies = policies_of(alloc, inputs)?;
    let holds = is_granted_by(alloc, &policies, inputs);
    drop(policies);
    holds
}

fn told(alloc: Global, holds: Result<bool, Stopped>) -> Result<String, AllocError> {
    match holds {
        Ok(holds) => yes_or_no(alloc, holds),
        Err(Stopped::Name) => "no name".to_owned(alloc),
        Err(Stopped::Put) => "refused".to_owned(alloc),
    }
}

/// `granted ROLE PERMISSION BOUND-ROLE MEMBER AT ACCOUNT PERMISSION RESOURCE`: whether the account is granted the
/// permission on the resource, where one role with one permission was put, and one policy with one binding.
pub(crate) fn grants(alloc: Global, inputs: &Inputs) -> Result<String, AllocError> {
    told(alloc, is_granted(alloc, inputs))
}

fn set_of(alloc: Global, what: &str) -> Result<ScopeSet, Stopped> {
    match what {
        "*" => Ok(ScopeSet::All),
        "" => Ok(ScopeSet::List(Items::new(alloc))),
        one => Ok(ScopeSet::List(one_permission(alloc, one)?)),
    }
}

fn put_one_scope(alloc: Global, policies: &mut Policies, inputs: &Inputs) -> Result<(), Stopped> {
    let what = set_of(alloc, inputs.text(1));
    let (word, what) = both(word_of(alloc, inputs.text(0)), what)?;
    Ok(put_scope(policies, word, what)?)
}

fn scoped(alloc: Global, inputs: &Inputs) -> Result<Policies, Stopped> {
    let mut policies = Policies::new(alloc);
    let went = put_one_scope(alloc, &mut policies, inputs);
    kept(policies, went)
}

fn is_allowed_by(alloc: Global, policies: &Policies, inputs: &Inputs) -> Result<bool, Stopped> {
    let (words, permission) = both(
        one_word(alloc, inputs.text(2)),
        permission_of(alloc, inputs.text(3)),
    )?;
    let allows = scope_allows(policies, words.as_slice(), &permission);
    drop(words);
    drop(permission);
    Ok(knows_scope(policies, inputs.text(2)) && allows)
}

fn is_allowed(alloc: Global, inputs: &Inputs) -> Result<bool, Stopped> {
    let policies = scoped(alloc, inputs)?;
    let holds = is_allowed_by(alloc, &policies, inputs);
    drop(policies);
    holds
}

/// `scope WORD WHAT ASKED PERMISSION`: whether the word that is asked for allows the permission, where the first word
/// was put for WHAT: a permission, none, or `*`.
pub(crate) fn scope(alloc: Global, inputs: &Inputs) -> Result<String, AllocError> {
    told(alloc, is_allowed(alloc, inputs))
}
