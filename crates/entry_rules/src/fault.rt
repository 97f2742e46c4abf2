ghost use Rattle.std.specs.Prelude.{◌≡◌};

use crate::detail::{claim_fault, coded, jws_fault, map_fault};
use base_types::Text;
use hmac_jws::JwsFault;
use pools::MapFault;
use std::alloc::{AllocError, Global};
use wif_claims::ClaimFault;

/// The first rule that forbids an entry. No fault in it is want of memory.
#[derive(Debug, Drop)]
pub enum RuleCode {
    /// A scope word is unknown.
    E11,
    /// The rule of this number in the access boundary names an unknown role.
    E12 { rule: usize },
    /// The provider is unknown.
    E14,
    /// The provider or its pool is disabled.
    E15,
    /// The subject token isn't signed under the provider's key.
    E16(JwsFault),
    /// The subject token's payload has no claims.
    E17(ClaimFault),
    /// The subject token isn't meant for the provider at this moment.
    E18(MapFault),
    /// The subject token's claims give no identity.
    E19(MapFault),
    /// The provider's condition isn't true of the subject token.
    E20(MapFault),
    /// The subject token isn't that of a live link.
    E21,
    /// The actor token isn't that of a live link.
    E22,
    /// The subject doesn't name the actor as the next who may act.
    E23,
    /// The chain would be over 8 links long.
    E24,
    /// The access token would have over 8,192 bytes.
    E25,
    /// A scope word of an impersonation is unknown.
    I5,
    /// The service account of this number, the first from 0, is unknown or disabled.
    I8 { hop: usize },
    /// The impersonation of the service account of this number isn't allowed.
    I9 { hop: usize },
    /// The chain of an impersonation would be over 8 links long.
    I10,
    /// The access token of an impersonation would have over 8,192 bytes.
    I11,
    /// A provider's pool or a binding's role is unknown.
    A4,
    /// A new name would pass its limit.
    A6,
}

impl RuleCode {
    ghost use Rattle.std.specs.Prelude.{◌≡◌, IfOk};
    ghost use Rattle.entry_rules.specs.Refusals.{rule_text, word_of};

    /// The error's word (RFC 6749, section 5.2; RFC 8693, section 2.2.2), and that of an impersonation or a command.
    pub fn word(&self) -> &'static str
        ensures { result.now ≡ word_of self.now }
    {
        match self {
            RuleCode::E11 => "invalid_scope",
            RuleCode::E14 | RuleCode::E15 => "invalid_target",
            RuleCode::I8 { .. } | RuleCode::I9 { .. } => "permission_denied",
            RuleCode::I5 | RuleCode::I10 | RuleCode::I11 => "invalid_argument",
            RuleCode::A4 | RuleCode::A6 => "invalid_argument",
            RuleCode::E12 { .. }
            | RuleCode::E16(_)
            | RuleCode::E17(_)
            | RuleCode::E18(_)
            | RuleCode::E19(_)
            | RuleCode::E20(_)
            | RuleCode::E21
            | RuleCode::E22
            | RuleCode::E23
            | RuleCode::E24
            | RuleCode::E25 => "invalid_request",
        }
    }

    /// The code, and its detail behind a space.
    pub fn text(&self, alloc: Global) -> Result<Text, AllocError>
        ensures { IfOk result (λ text. text ≡ rule_text self.now) }
    {
        match self {
            RuleCode::E11 => Text::copy_of(alloc, "E11"),
            RuleCode::E12 { rule } => Ok(Text::new(format!(in alloc; "E12 Role {rule}")?)),
            RuleCode::E14 => Text::copy_of(alloc, "E14"),
            RuleCode::E15 => Text::copy_of(alloc, "E15"),
            RuleCode::E16(fault) => coded(alloc, "E16 ", jws_fault(alloc, *fault)?),
            RuleCode::E17(fault) => coded(alloc, "E17 ", claim_fault(alloc, *fault)?),
            RuleCode::E18(fault) => coded(alloc, "E18 ", map_fault(alloc, fault)?),
            RuleCode::E19(fault) => coded(alloc, "E19 ", map_fault(alloc, fault)?),
            RuleCode::E20(fault) => coded(alloc, "E20 ", map_fault(alloc, fault)?),
            RuleCode::E21 => Text::copy_of(alloc, "E21"),
            RuleCode::E22 => Text::copy_of(alloc, "E22"),
            RuleCode::E23 => Text::copy_of(alloc, "E23"),
            RuleCode::E24 => Text::copy_of(alloc, "E24"),
            RuleCode::E25 => Text::copy_of(alloc, "E25"),
            RuleCode::I5 => Text::copy_of(alloc, "I5"),
            RuleCode::I8 { hop } => Ok(Text::new(format!(in alloc; "I8 {hop}")?)),
            RuleCode::I9 { hop } => Ok(Text::new(format!(in alloc; "I9 {hop}")?)),
            RuleCode::I10 => Text::copy_of(alloc, "I10"),
            RuleCode::I11 => Text::copy_of(alloc, "I11"),
            RuleCode::A4 => Text::copy_of(alloc, "A4"),
            RuleCode::A6 => Text::copy_of(alloc, "A6"),
        }
    }
}

/// Why an entry wasn't applied.
#[derive(Debug, Drop)]
pub enum ApplyFault {
    Unlicensed { rule: RuleCode },
    Memory,
}

/// The fault of an entry that a rule forbids.
pub fn unlicensed(rule: RuleCode) -> ApplyFault
    ensures { result ≡ ApplyFault.Unlicensed rule }
{
    ApplyFault::Unlicensed { rule }
}

impl From<AllocError> for ApplyFault {
    ghost use Rattle.std.specs.Prelude.{◌≡◌};
    ghost use Rattle.entry_rules.specs.declared.fault.ApplyFault.TheVariants.{Memory};

    ghost from_gives = { λ _ e. e ≡ Memory };

    fn from(_: AllocError) -> Self {
        ApplyFault::Memory
    }
}
