ghost use Rattle.std.specs.Prelude.{◌≡◌, map};
ghost use Rattle.cel_types.specs.Types.{same as same_type, fits as fits_type, join as join_type, join_all as join_of, all_fit as all_of_them_fit};
ghost use Rattle.cel_types.specs.declared.cel_type.CelType.{CelType as Kind};

use crate::CelType;
use base_types::Items;

/// Whether two types are equal.
pub fn same(t: &CelType, u: &CelType) -> bool
    ensures { result ≡ same_type t.now u.now }
{
    match (t, u) {
        (CelType::Dyn, CelType::Dyn) => true,
        (CelType::Null, CelType::Null) => true,
        (CelType::Bool, CelType::Bool) => true,
        (CelType::Int, CelType::Int) => true,
        (CelType::Text, CelType::Text) => true,
        (CelType::Time, CelType::Time) => true,
        (CelType::Span, CelType::Span) => true,
        (CelType::List(t), CelType::List(u)) => same(t.get(), u.get()),
        (CelType::Map(t), CelType::Map(u)) => same(t.get(), u.get()),
        _ => false,
    }
}

/// Whether two types may be types of one value.
pub fn fits(t: &CelType, u: &CelType) -> bool
    ensures { result ≡ fits_type t.now u.now }
{
    match (t, u) {
        (CelType::Dyn, _) => true,
        (_, CelType::Dyn) => true,
        (CelType::Null, CelType::Null) => true,
        (CelType::Bool, CelType::Bool) => true,
        (CelType::Int, CelType::Int) => true,
        (CelType::Text, CelType::Text) => true,
        (CelType::Time, CelType::Time) => true,
        (CelType::Span, CelType::Span) => true,
        (CelType::List(t), CelType::List(u)) => fits(t.get(), u.get()),
        (CelType::Map(t), CelType::Map(u)) => fits(t.get(), u.get()),
        _ => false,
    }
}

/// The type itself where both are equal, else dyn.
pub fn join(t: CelType, u: &CelType) -> CelType
    ensures { result ≡ join_type t u.now }
{
    if same(&t, u) { t } else { CelType::Dyn }
}

/// The join of all of them.
#[tactic(auto, using(crate::proofs::Joined::join_last))]
pub fn join_all(mut types: Items<CelType>) -> CelType
    ensures { result ≡ join_of types }
{
    let Some(mut joined) = types.pop() else {
        return CelType::Dyn;
    };
    while let Some(t) = types.pop() {
        let more = join(t, &joined);
        drop(joined);
        joined = more;
    }
    joined
}

/// The join of the types of a map literal's values.
#[tactic(auto, using(crate::proofs::Joined::values_end))]
pub fn join_values(mut pairs: Items<(CelType, CelType)>) -> CelType
    ensures { result ≡ join_of (map (λ p. p.1) pairs) }
{
    let Some((key, mut joined)) = pairs.pop() else {
        return CelType::Dyn;
    };
    drop(key);
    while let Some((key, t)) = pairs.pop() {
        let more = join(t, &joined);
        drop(key);
        drop(joined);
        joined = more;
    }
    joined
}

/// Whether the type of each key of a map literal fits this one.
pub fn keys_fit(wanted: &CelType, pairs: &[(CelType, CelType)]) -> bool
    ensures { result ≡ all_of_them_fit wanted.now (map (λ p. p.0) pairs.now) }
{
    for pair in pairs {
        if !fits(&pair.0, wanted) {
            return false;
        }
    }
    true
}
