ghost use Rattle.std.specs.Prelude.{◌≡◌};
ghost use Rattle.generated_work.specs.Setting.{policy_command, pool_command, provider_command, role_command};

/// The pool of the outside tokens' provider.
#[tactic(auto, unfolding(crate::specs::Setting::pool_command))]
pub(crate) fn pool_text() -> &'static str
    ensures { result.now ≡ pool_command }
{
    r#"{"kind":"pool","pool":"gen-pool","project":"1"}"#
}

/// The provider of the outside tokens.
#[tactic(auto, unfolding(crate::specs::Setting::provider_command))]
pub(crate) fn provider_text() -> &'static str
    ensures { result.now ≡ provider_command }
{
    "{\"issuer\":\"https://out.example\",\"key\":\"UFBQUFBQUFBQUFBQUFBQUFBQUFBQUFBQUFBQUFBQUFA\",\"kind\":\"provider\",\
        \"mapping\":{\"attribute.team\":\"assertion.team\",\"google.subject\":\"assertion.sub\"},\
        \"pool\":\"gen-pool\",\"project\":\"1\",\"provider\":\"gen-prov\"}"
}

/// The role of those who read items.
#[tactic(auto, unfolding(crate::specs::Setting::role_command))]
pub(crate) fn role_text() -> &'static str
    ensures { result.now ≡ role_command }
{
    r#"{"kind":"role","permissions":["gen.items.get"],"role":"roles/gen.reader"}"#
}

/// The policy by which two teams of four are readers.
#[tactic(auto, unfolding(crate::specs::Setting::policy_command))]
pub(crate) fn policy_text() -> &'static str
    ensures { result.now ≡ policy_command }
{
    "{\"bindings\":[{\"members\":[\
        \"principalSet://iam.googleapis.com/projects/1/locations/global/workloadIdentityPools/gen-pool/attribute.team/t0\",\
        \"principalSet://iam.googleapis.com/projects/1/locations/global/workloadIdentityPools/gen-pool/attribute.team/t1\"],\
        \"role\":\"roles/gen.reader\"}],\"kind\":\"policy\",\"resource\":\"//gen.example/items\"}"
}
