ghost use Rattle.std.specs.Prelude.{◌≡◌, ◌++◌, codes, IfOk, MatchResult};
ghost use Rattle.pools.specs.Answers.{Answers, passed};
ghost use Rattle.pools.specs.Lengths.{first_long, first_long_attribute, are_long_groups};
ghost use Rattle.pools.specs.declared.fault.MapFault.TheVariants as fault;

use crate::MapFault;
use base_types::{Text, TextMap};
use iam_names::Identity;
use std::alloc::{AllocError, Global};

const MAX_SUBJECT: usize = 127;

const MAX_GROUPS: usize = 64;

const MAX_GROUP: usize = 256;

const MAX_ATTRIBUTE: usize = 256;

/// The first of subject, groups and attributes that is too long fails.
pub(crate) fn check_lengths(alloc: Global, identity: &Identity) -> Result<(), MapFault>
    ensures { Answers result (passed (first_long identity.now)) }
{
    if MAX_SUBJECT < identity.subject.as_str().len() {
        return Err(too_long(Text::copy_of(alloc, "google.subject")));
    }
    if are_long(identity.groups.as_slice()) {
        return Err(too_long(Text::copy_of(alloc, "google.groups")));
    }
    check_attributes(alloc, &identity.attributes)
}

fn are_long(groups: &[Text]) -> bool
    ensures { result ≡ are_long_groups groups.now }
{
    if MAX_GROUPS < groups.len() {
        return true;
    }
    for group in groups {
        if MAX_GROUP < group.as_str().len() {
            return true;
        }
    }
    false
}

fn check_attributes(alloc: Global, attributes: &TextMap<Text>) -> Result<(), MapFault>
    ensures { Answers result (passed (first_long_attribute attributes.now)) }
{
    for (name, text) in attributes.iter() {
        if MAX_ATTRIBUTE < text.as_str().len() {
            return Err(too_long(attribute_key(alloc, name.as_str())));
        }
    }
    Ok(())
}

fn attribute_key(alloc: Global, name: &str) -> Result<Text, AllocError>
    ensures { IfOk result (λ key. key ≡ codes "attribute." ++ name.now) }
{
    Ok(Text::new(format!(in alloc; "attribute.{name}")?))
}

fn too_long(key: Result<Text, AllocError>) -> MapFault
    ensures { MatchResult key (λ text. result ≡ fault.TooLong text) (λ _. result ≡ fault.Memory) }
{
    match key {
        Ok(key) => MapFault::TooLong { key },
        Err(AllocError) => MapFault::Memory,
    }
}
