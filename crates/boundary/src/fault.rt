use std::alloc::AllocError;

/// Why a rule, or the whole, is refused, in the order in which they are looked at.
#[derive(Clone, Copy, Debug, PartialEq, Eq)]
pub enum BoundaryCause {
    /// `accessBoundaryRules` isn't there, is no array, or is empty.
    Shape,
    /// There are more than 10 rules.
    TooMany,
    /// `availableResource` isn't there or is no resource.
    Resource,
    /// `availablePermissions` isn't there or is no array of 1 to 10 texts `inRole:ROLE`.
    Permission,
    /// `availabilityCondition` is there without a text `expression` that is a boolean expression.
    Condition,
}

/// Why a boundary wasn't read: the rule that is refused, from 0 on, and why.
#[derive(Clone, Copy, Debug, PartialEq, Eq)]
pub enum BoundaryError {
    /// At `Shape` the rule is 0, at `TooMany` 10.
    Fault { rule: usize, cause: BoundaryCause },
    Memory,
}

impl From<AllocError> for BoundaryError {
    ghost use Rattle.std.specs.Prelude.{◌≡◌};
    ghost use Rattle.boundary.specs.declared.fault.BoundaryError.TheVariants.{Memory};

    ghost from_gives = { λ _ error. error ≡ Memory };

    fn from(_error: AllocError) -> Self {
        BoundaryError::Memory
    }
}
