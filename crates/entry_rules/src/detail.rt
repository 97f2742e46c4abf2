ghost use Rattle.std.specs.Prelude.{◌≡◌, ◌++◌, IfOk};
ghost use Rattle.entry_rules.specs.Refusals.{jws_text, claim_text, map_text};

use base_types::Text;
use hmac_jws::JwsFault;
use pools::MapFault;
use std::alloc::{AllocError, Global};
use wif_claims::ClaimFault;

/// A code and its detail.
pub(crate) fn coded(alloc: Global, code: &str, detail: Text) -> Result<Text, AllocError>
    ensures { IfOk result (λ text. text ≡ code.now ++ detail) }
{
    let detail = detail.as_str();
    Ok(Text::new(format!(in alloc; "{code}{detail}")?))
}

pub(crate) fn jws_fault(alloc: Global, fault: JwsFault) -> Result<Text, AllocError>
    ensures { IfOk result (λ text. text ≡ jws_text fault) }
{
    match fault {
        JwsFault::Parts => Text::copy_of(alloc, "Parts"),
        JwsFault::Base64 { part } => Ok(Text::new(format!(in alloc; "Base64 {part}")?)),
        JwsFault::Header => Text::copy_of(alloc, "Header"),
        JwsFault::Alg => Text::copy_of(alloc, "Alg"),
        JwsFault::Crit => Text::copy_of(alloc, "Crit"),
        JwsFault::Mac => Text::copy_of(alloc, "Mac"),
        JwsFault::Memory => Text::copy_of(alloc, "Memory"),
    }
}

pub(crate) fn claim_fault(alloc: Global, fault: ClaimFault) -> Result<Text, AllocError>
    ensures { IfOk result (λ text. text ≡ claim_text fault) }
{
    match fault {
        ClaimFault::Json => Text::copy_of(alloc, "Json"),
        ClaimFault::NotObject => Text::copy_of(alloc, "NotObject"),
        ClaimFault::Iss => Text::copy_of(alloc, "Iss"),
        ClaimFault::Aud => Text::copy_of(alloc, "Aud"),
        ClaimFault::Exp => Text::copy_of(alloc, "Exp"),
        ClaimFault::Nbf => Text::copy_of(alloc, "Nbf"),
        ClaimFault::Iat => Text::copy_of(alloc, "Iat"),
        ClaimFault::MayAct => Text::copy_of(alloc, "MayAct"),
        ClaimFault::Memory => Text::copy_of(alloc, "Memory"),
    }
}

pub(crate) fn map_fault(alloc: Global, fault: &MapFault) -> Result<Text, AllocError>
    ensures { IfOk result (λ text. text ≡ map_text fault.now) }
{
    match fault {
        MapFault::Issuer => Text::copy_of(alloc, "Issuer"),
        MapFault::Audience => Text::copy_of(alloc, "Audience"),
        MapFault::Expired => Text::copy_of(alloc, "Expired"),
        MapFault::NotYet => Text::copy_of(alloc, "NotYet"),
        MapFault::Subject => Text::copy_of(alloc, "Subject"),
        MapFault::Groups => Text::copy_of(alloc, "Groups"),
        MapFault::Attribute { name } => coded(alloc, "Attribute ", name.copy(alloc)?),
        MapFault::TooLong { key } => coded(alloc, "TooLong ", key.copy(alloc)?),
        MapFault::ConditionError => Text::copy_of(alloc, "ConditionError"),
        MapFault::ConditionFalse => Text::copy_of(alloc, "ConditionFalse"),
        MapFault::Memory => Text::copy_of(alloc, "Memory"),
    }
}
