ghost use Rattle.std.specs.Prelude.{◌≡◌, ◌++◌, IfOk, codes};
ghost use Rattle.std.specs.List.{list_any};
ghost use Rattle.iam_names.specs.Audience.{audience_text};
ghost use Rattle.pools.specs.Providers as providers;

use crate::Provider;
use base_types::Text;
use iam_names::Audience;
use std::alloc::{AllocError, Global};

/// Whether the provider accepts one of the audiences.
#[tactic(auto, using(crate::proofs::AcceptedAudiences::accepts_named))]
pub(crate) fn accepts(
    alloc: Global,
    provider: &Provider,
    audiences: &[Text],
) -> Result<bool, AllocError>
    ensures { IfOk result (λ accepted. accepted ≡ providers.accepts provider.now audiences.now) }
{
    let listed = provider.audiences();
    if listed.is_empty() {
        names_any(alloc, provider.name(), audiences)
    } else {
        Ok(is_any_listed(listed, audiences))
    }
}

fn names_any(alloc: Global, name: &Audience, audiences: &[Text]) -> Result<bool, AllocError>
    ensures { IfOk result (λ named. named ≡ list_any (providers.is_named (audience_text name.now)) audiences.now) }
{
    let name = name.print(alloc)?;
    let named = is_any_named(alloc, name.as_str(), audiences);
    drop(name);
    named
}

fn is_any_listed(listed: &[Text], audiences: &[Text]) -> bool
    ensures { result ≡ list_any (providers.is_listed listed.now) audiences.now }
{
    for audience in audiences {
        if is_listed(listed, audience.as_str()) {
            return true;
        }
    }
    false
}

fn is_listed(listed: &[Text], audience: &str) -> bool
    ensures { result ≡ providers.is_listed listed.now audience.now }
{
    for text in listed {
        if audience == text.as_str() {
            return true;
        }
    }
    false
}

fn is_any_named(alloc: Global, name: &str, audiences: &[Text]) -> Result<bool, AllocError>
    ensures { IfOk result (λ named. named ≡ list_any (providers.is_named name.now) audiences.now) }
{
    let secure = secure_name(alloc, name)?;
    let named = is_any_of(name, secure.as_str(), audiences);
    drop(secure);
    Ok(named)
}

fn is_any_of(one: &str, other: &str, audiences: &[Text]) -> bool
    ensures { result ≡ list_any (providers.is_one_of one.now other.now) audiences.now }
{
    for audience in audiences {
        if is_one_of(audience.as_str(), one, other) {
            return true;
        }
    }
    false
}

fn is_one_of(audience: &str, one: &str, other: &str) -> bool
    ensures { result ≡ providers.is_one_of one.now other.now audience.now }
{
    audience == one || audience == other
}

fn secure_name(alloc: Global, name: &str) -> Result<Text, AllocError>
    ensures { IfOk result (λ secure. secure ≡ codes "https:" ++ name.now) }
{
    Ok(Text::new(format!(in alloc; "https:{name}")?))
}
