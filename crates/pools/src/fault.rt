use base_types::Text;
use std::alloc::AllocError;

/// The first rule of a provider that claims fail, in the order of the variants.
#[derive(Debug, Drop)]
pub enum MapFault {
    /// `iss` isn't the provider's issuer.
    Issuer,
    /// No `aud` is one that the provider accepts.
    Audience,
    Expired,
    NotYet,
    /// The subject is an error, no text, or empty.
    Subject,
    /// The groups are an error, no list of texts, or one of them is empty.
    Groups,
    /// The attribute is an error, no text, or empty; of several the first in byte order of the names.
    Attribute { name: Text },
    /// What stands under the mapping's key is too long: a subject over 127 bytes, over 64 groups or a group over 256 bytes, an attribute
    /// over 256 bytes.
    TooLong { key: Text },
    /// The condition is an error or no bool.
    ConditionError,
    ConditionFalse,
    Memory,
}

impl From<AllocError> for MapFault {
    ghost use Rattle.std.specs.Prelude.{◌≡◌};
    ghost use Rattle.pools.specs.declared.fault.MapFault.TheVariants.{Memory};

    ghost from_gives = { λ _ e. e ≡ Memory };

    fn from(_: AllocError) -> Self {
        MapFault::Memory
    }
}
