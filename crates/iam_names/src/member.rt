ghost use Rattle.std.specs.Prelude.{◌≡◌, IfOk, option_map};
ghost use Rattle.std.specs.List.{list_any};
ghost use Rattle.std.specs.Str.{bytes_eq};
ghost use Rattle.base_types.specs.Named.{value_at};
ghost use Rattle.base_types.specs.Forms.{passing, has_size as size_is};
ghost use Rattle.iam_names.specs.Forms.{passes};
ghost use Rattle.iam_names.specs.Member as members;
ghost use Rattle.iam_names.specs.Parts.{subject_at};
ghost use Rattle.iam_names.specs.Reads.{ReadsName};

use crate::NameError;
use crate::cut::{after, cut_at};
use crate::forms::{Account, AttributeName};
use crate::identity::Identity;
use crate::pool_name::{PoolName, path_of};
use crate::who::Who;
use base_types::{Text, has_size};
use std::alloc::{AllocError, Global};

/// A member of a binding.
#[derive(Debug, Drop)]
pub enum Member {
    /// The principal of that subject.
    Principal {
        pool: PoolName,
        subject: Text,
    },
    /// The principals of that group.
    Group {
        pool: PoolName,
        group: Text,
    },
    /// The principals with exactly that value of the attribute.
    Attribute {
        pool: PoolName,
        name: AttributeName,
        value: Text,
    },
    /// All principals of the pool.
    Pool(PoolName),
    /// The service account.
    Account(Account),
}

impl Member {
    ghost use Rattle.std.specs.Prelude.{◌≡◌, IfOk};
    ghost use Rattle.iam_names.specs.Member.{member_of, member_text};
    ghost use Rattle.iam_names.specs.Reads.{ReadsName};

    /// Reads `principal://POOLPATH/subject/S`, `principalSet://POOLPATH/group/G`,
    /// `principalSet://POOLPATH/attribute.NAME/V`, `principalSet://POOLPATH/*` or
    /// `serviceAccount:ACCOUNT`, where POOLPATH is
    /// `iam.googleapis.com/projects/PROJECT/locations/global/workloadIdentityPools/POOL`. S, G and V are
    /// the rest of the text as it stands.
    pub fn read(alloc: Global, text: &str) -> Result<Self, NameError>
        ensures read { ReadsName result (member_of text.now) }
        ensures text { IfOk result (λ found. member_text found ≡ text.now) }
    {
        read_member(alloc, text)
    }

    pub fn print(&self, alloc: Global) -> Result<Text, AllocError>
        ensures { IfOk result (λ text. text ≡ member_text self.now) }
    {
        match self {
            Member::Principal { pool, subject } => principal_text(alloc, pool, subject),
            Member::Group { pool, group } => group_text(alloc, pool, group),
            Member::Attribute { pool, name, value } => attribute_text(alloc, pool, name, value),
            Member::Pool(pool) => pool_set_text(alloc, pool),
            Member::Account(account) => account_text(alloc, account),
        }
    }
}

/// Who asks, where that is an outside identity of the pool.
fn identity_in<'a>(pool: &PoolName, who: &'a Who) -> Option<&'a Identity>
    ensures { option_map (λ identity. identity.now) result ≡ members.identity_in pool.now who.now }
{
    match who {
        Who::Account(_) => None,
        Who::Outside {
            pool: other,
            identity,
        } => if pool == other { Some(identity) } else { None },
    }
}

/// Who asks, where that is an account.
fn account_in(who: &Who) -> Option<&Account>
    ensures { option_map (λ account. account.now) result ≡ members.account_in who.now }
{
    match who {
        Who::Account(account) => Some(account),
        Who::Outside { .. } => None,
    }
}

fn has_subject(identity: &Identity, subject: &Text) -> bool
    ensures { result ≡ bytes_eq subject.now identity.now.subject }
{
    subject.as_str() == identity.subject.as_str()
}

fn has_group(identity: &Identity, group: &Text) -> bool
    ensures { result ≡ list_any (bytes_eq group.now) identity.now.groups }
{
    identity
        .groups
        .as_slice()
        .iter()
        .any(|other| group.as_str() == other.as_str())
}

fn has_value(identity: &Identity, name: &AttributeName, value: &Text) -> bool
    ensures { result ≡ passes (bytes_eq value.now) (value_at name.now identity.now.attributes) }
{
    match identity.attributes.get(name.as_str()) {
        None => false,
        Some(other) => value.as_str() == other.as_str(),
    }
}

/// Whether the member names who asks.
pub fn names_who(member: &Member, who: &Who) -> bool
    ensures { result ≡ members.names_who member.now who.now }
{
    match member {
        Member::Principal { pool, subject } => {
            identity_in(pool, who).is_some_and(|identity| has_subject(identity, subject))
        }
        Member::Group { pool, group } => {
            identity_in(pool, who).is_some_and(|identity| has_group(identity, group))
        }
        Member::Attribute { pool, name, value } => {
            identity_in(pool, who).is_some_and(|identity| has_value(identity, name, value))
        }
        Member::Pool(pool) => identity_in(pool, who).is_some(),
        Member::Account(account) => account_in(who).is_some_and(|other| account == other),
    }
}

fn read_member(alloc: Global, text: &str) -> Result<Member, NameError>
    ensures { ReadsName result (members.member_of text.now) }
{
    if let Some(rest) = after(text, "principal://") {
        return read_principal(alloc, rest);
    }
    if let Some(rest) = after(text, "principalSet://") {
        return read_set(alloc, rest);
    }
    match after(text, "serviceAccount:") {
        None => Err(NameError::Form),
        Some(account) => Ok(Member::Account(Account::read(alloc, account)?)),
    }
}

/// A member whose text begins with `principal://`, of what follows.
fn read_principal(alloc: Global, text: &str) -> Result<Member, NameError>
    ensures { ReadsName result (members.principal_of text.now) }
{
    let Some(path) = path_of(text) else {
        return Err(NameError::Form);
    };
    let pool = PoolName::of_parts(alloc, path.project, path.pool)?;
    let subject = read_subject(alloc, path.rest)?;
    Ok(Member::Principal { pool, subject })
}

/// The subject of a text `subject/S`.
fn read_subject(alloc: Global, text: &str) -> Result<Text, NameError>
    ensures { ReadsName result (subject_at text.now) }
{
    match after(text, "subject/") {
        None => Err(NameError::Form),
        Some(subject) => read_sized(alloc, subject, 127),
    }
}

/// A text of 1 to so many bytes.
fn read_sized(alloc: Global, text: &str, most: usize) -> Result<Text, NameError>
    ensures { ReadsName result (passing (size_is 1 most) text.now) }
{
    if !has_size(text, 1, most) {
        return Err(NameError::Form);
    }
    Ok(Text::copy_of(alloc, text)?)
}

/// A member whose text begins with `principalSet://`, of what follows.
fn read_set(alloc: Global, text: &str) -> Result<Member, NameError>
    ensures { ReadsName result (members.set_of text.now) }
{
    let Some(path) = path_of(text) else {
        return Err(NameError::Form);
    };
    let pool = PoolName::of_parts(alloc, path.project, path.pool)?;
    read_set_in(alloc, pool, path.rest)
}

/// The set of a pool's principals that a text says.
fn read_set_in(alloc: Global, pool: PoolName, text: &str) -> Result<Member, NameError>
    ensures { ReadsName result (members.set_in pool text.now) }
{
    if let Some(group) = after(text, "group/") {
        let group = read_sized(alloc, group, 256)?;
        return Ok(Member::Group { pool, group });
    }
    if let Some(attribute) = after(text, "attribute.") {
        return read_attribute(alloc, pool, attribute);
    }
    if text == "*" {
        return Ok(Member::Pool(pool));
    }
    Err(NameError::Form)
}

/// The attribute set of a text `NAME/V`.
fn read_attribute(alloc: Global, pool: PoolName, text: &str) -> Result<Member, NameError>
    ensures { ReadsName result (members.attribute_of pool text.now) }
{
    let Some((name, value)) = cut_at(text, '/') else {
        return Err(NameError::Form);
    };
    let name = AttributeName::read(alloc, name)?;
    let value = read_sized(alloc, value, 256)?;
    Ok(Member::Attribute { pool, name, value })
}

fn principal_text(alloc: Global, pool: &PoolName, subject: &Text) -> Result<Text, AllocError>
    ensures { IfOk result (λ text. text ≡ members.member_text (Member.Principal pool.now subject.now)) }
{
    let path = pool.path(alloc)?;
    let path = path.as_str();
    let subject = subject.as_str();
    Ok(Text::new(format!(in alloc; "principal://{path}/subject/{subject}")?))
}

fn group_text(alloc: Global, pool: &PoolName, group: &Text) -> Result<Text, AllocError>
    ensures { IfOk result (λ text. text ≡ members.member_text (Member.Group pool.now group.now)) }
{
    let path = pool.path(alloc)?;
    let path = path.as_str();
    let group = group.as_str();
    Ok(Text::new(format!(in alloc; "principalSet://{path}/group/{group}")?))
}

fn attribute_text(
    alloc: Global,
    pool: &PoolName,
    name: &AttributeName,
    value: &Text,
) -> Result<Text, AllocError>
    ensures { IfOk result (λ text. text ≡ members.member_text (Member.Attribute pool.now name.now value.now)) }
{
    let path = pool.path(alloc)?;
    let path = path.as_str();
    let name = name.as_str();
    let value = value.as_str();
    Ok(Text::new(format!(in alloc; "principalSet://{path}/attribute.{name}/{value}")?))
}

fn pool_set_text(alloc: Global, pool: &PoolName) -> Result<Text, AllocError>
    ensures { IfOk result (λ text. text ≡ members.member_text (Member.Pool pool.now)) }
{
    let path = pool.path(alloc)?;
    let path = path.as_str();
    Ok(Text::new(format!(in alloc; "principalSet://{path}/*")?))
}

fn account_text(alloc: Global, account: &Account) -> Result<Text, AllocError>
    ensures { IfOk result (λ text. text ≡ members.member_text (Member.Account account.now)) }
{
    let account = account.as_str();
    Ok(Text::new(format!(in alloc; "serviceAccount:{account}")?))
}
