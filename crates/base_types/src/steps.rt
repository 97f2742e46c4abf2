ghost use Rattle.std.specs.Prelude.{◌≡◌, ◌⊎◌, Ok, Err, IfOk, IfErr};
ghost use Rattle.std.specs.Result.{IsOk};

/// The value, or the error of the step that it waited for. A large value that goes through here is let go of in one place.
pub fn kept<T: Drop, E: Drop>(value: T, went: Result<(), E>) -> Result<T, E>
    ensures kept { IfOk result (λ t. (t ≡ value) × (went ≡ Ok tt)) }
    ensures refused { IfErr result (λ error. went ≡ Err error) }
{
    match went {
        Ok(()) => Ok(value),
        Err(error) => Err(error),
    }
}

/// Both values, or the first error.
pub fn both<A: Drop, B: Drop, E: Drop>(
    first: Result<A, E>,
    second: Result<B, E>,
) -> Result<(A, B), E>
    ensures both { IfOk result (λ values. (first ≡ Ok values.0) × (second ≡ Ok values.1)) }
    ensures refused { IfErr result (λ error. (first ≡ Err error) ⊎ (IsOk first × (second ≡ Err error))) }
{
    match first {
        Err(error) => Err(error),
        Ok(first) => match second {
            Err(error) => Err(error),
            Ok(second) => Ok((first, second)),
        },
    }
}
