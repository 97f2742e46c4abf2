ghost use Rattle.std.specs.Prelude.{◌≡◌, [], IfOk};
ghost use Rattle.std.specs.List.{AllByRecursion};
ghost use Rattle.boundary.specs.Exact.{IsExactBoundary};

use base_types::{Items, Text, TextMap, both};
use boundary::Boundary;
use iam_names::{Account, Identity, PoolName, ScopeWord, Who};
use std::alloc::{AllocError, Global};

/// An empty list with room for so many, and no more.
pub fn with_room<T>(alloc: Global, count: usize) -> Result<Items<T>, AllocError>
    ensures { IfOk result (λ items. items ≡ []) }
{
    Ok(Items::from_vec(Vec::with_capacity(alloc, count)?))
}

pub(crate) fn copy_texts(alloc: Global, texts: &[Text]) -> Result<Items<Text>, AllocError>
    ensures { IfOk result (λ copy. copy ≡ texts.now) }
{
    let mut copy = with_room(alloc, texts.len())?;
    for text in texts {
        copy.push(text.copy(alloc)?)?;
    }
    Ok(copy)
}

/// A copy of scope words.
pub fn copy_words(alloc: Global, words: &[ScopeWord]) -> Result<Items<ScopeWord>, AllocError>
    ensures { IfOk result (λ copy. copy ≡ words.now) }
{
    let mut copy = with_room(alloc, words.len())?;
    for word in words {
        copy.push(word.copy(alloc)?)?;
    }
    Ok(copy)
}

pub(crate) fn copy_scopes(
    alloc: Global,
    scopes: &[Items<ScopeWord>],
) -> Result<Items<Items<ScopeWord>>, AllocError>
    ensures { IfOk result (λ copy. copy ≡ scopes.now) }
{
    let mut copy = with_room(alloc, scopes.len())?;
    for words in scopes {
        copy.push(copy_words(alloc, words.as_slice())?)?;
    }
    Ok(copy)
}

pub(crate) fn copy_pools(alloc: Global, pools: &[PoolName]) -> Result<Items<PoolName>, AllocError>
    ensures { IfOk result (λ copy. copy ≡ pools.now) }
{
    let mut copy = with_room(alloc, pools.len())?;
    for pool in pools {
        copy.push(pool.copy(alloc)?)?;
    }
    Ok(copy)
}

pub(crate) fn copy_accounts(
    alloc: Global,
    accounts: &[Account],
) -> Result<Items<Account>, AllocError>
    ensures { IfOk result (λ copy. copy ≡ accounts.now) }
{
    let mut copy = with_room(alloc, accounts.len())?;
    for account in accounts {
        copy.push(account.copy(alloc)?)?;
    }
    Ok(copy)
}

pub(crate) fn copy_bounds(alloc: Global, bounds: &[Boundary]) -> Result<Items<Boundary>, AllocError>
    requires { AllByRecursion IsExactBoundary bounds.now }
    ensures { IfOk result (λ copy. copy ≡ bounds.now) }
{
    let mut copy = with_room(alloc, bounds.len())?;
    for boundary in bounds {
        copy.push(boundary::copy(alloc, boundary)?)?;
    }
    Ok(copy)
}

pub(crate) fn copy_who(alloc: Global, who: &Who) -> Result<Who, AllocError>
    ensures { IfOk result (λ copy. copy ≡ who.now) }
{
    match who {
        Who::Outside { pool, identity } => {
            let (pool, identity) = both(pool.copy(alloc), copy_identity(alloc, identity))?;
            Ok(Who::Outside { pool, identity })
        }
        Who::Account(account) => Ok(Who::Account(account.copy(alloc)?)),
    }
}

fn copy_identity(alloc: Global, identity: &Identity) -> Result<Identity, AllocError>
    ensures { IfOk result (λ copy. copy ≡ identity.now) }
{
    let groups = copy_texts(alloc, identity.groups.as_slice());
    let texts = both(identity.subject.copy(alloc), groups);
    let ((subject, groups), attributes) = both(
        texts,
        copy_attributes(alloc, &identity.attributes),
    )?;
    Ok(Identity {
        subject,
        groups,
        attributes,
    })
}

fn copy_attributes(alloc: Global, attributes: &TextMap<Text>) -> Result<TextMap<Text>, AllocError>
    ensures { IfOk result (λ copy. copy ≡ attributes.now) }
{
    // Its contract says that the names rise.
    let _ = attributes.len();
    let mut copy = TextMap::new(alloc);
    for (name, value) in attributes.iter() {
        copy.insert(name.as_str().to_owned(alloc)?, value.copy(alloc)?)?;
    }
    Ok(copy)
}
