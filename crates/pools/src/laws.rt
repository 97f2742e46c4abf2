ghost use Rattle.std.specs.Prelude.{◌≡◌, ◌↔◌, ℕ, Ok};
ghost use Rattle.iam_names.specs.declared.identity.Identity.{Identity};
ghost use Rattle.wif_claims.specs.declared.claims.Claims.{Claims};
ghost use Rattle.pools.specs.Providers.{ProviderView};
ghost use Rattle.pools.specs.Admission.{identity_of};
ghost use Rattle.pools.specs.Admitted.{IsAdmitted};

/// A law: a provider admits claims as an identity exactly where they are for it and hold at the moment, its mapping makes them this identity,
/// each part of which has its size, and its condition, where it has one, is true.
pub fn admitted_claims_pass_each_rule()
    ensures { (provider : ProviderView) (claims : Claims) (now : ℕ) (who : Identity)
        → (identity_of provider claims now ≡ Ok who) ↔ IsAdmitted provider claims now who }
{}
