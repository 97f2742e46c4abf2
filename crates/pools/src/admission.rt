ghost use Rattle.std.specs.Prelude.{◌≡◌, ◌++◌};
ghost use Rattle.std.specs.Option.{option_copied};
ghost use Rattle.wif_claims.specs.declared.claims.Claims.{Claims as Claimed};
ghost use Rattle.cel_values.specs.declared.value.Value.{out-Value};
ghost use Rattle.cel_eval.specs.Denotation.{denotation};
ghost use Rattle.pools.specs.Answers.{Answers, passed};
ghost use Rattle.pools.specs.Admission.{identity_of, identity_in, first_claims_fault, condition_fault, truth_fault, unless_true};
ghost use Rattle.pools.specs.Environments as seen;

use crate::audiences::accepts;
use crate::environment::{bind_identity, mapping_env};
use crate::lengths::check_lengths;
use crate::mapping::mapped;
use crate::{MapFault, Provider};
use base_types::kept;
use cel_eval::eval;
use cel_expression::Expression;
use cel_values::{Env, EvalStop, Expr, Value};
use iam_names::Identity;
use std::alloc::Global;
use wif_claims::{Claims, When, timing};

/// The identity that the provider maps the claims to at a moment, in seconds since 1970-01-01T00:00:00Z, or the first rule that they
/// fail. Whether the provider or its pool is disabled is the caller's matter.
#[tactic(auto, unfolding(crate::specs::Admission::identity_of))]
pub fn admit(
    alloc: Global,
    provider: &Provider,
    claims: &Claims,
    now: u64,
) -> Result<Identity, MapFault>
    ensures { Answers result (identity_of provider.now claims.now now) }
{
    check_claims(alloc, provider, claims, now)?;
    let mut env = mapping_env(alloc, claims)?;
    let identity = identity_seen(alloc, provider, &mut env);
    drop(env);
    identity
}

// The rules that come before the identity.
fn check_claims(
    alloc: Global,
    provider: &Provider,
    claims: &Claims,
    now: u64,
) -> Result<(), MapFault>
    ensures { Answers result (passed (first_claims_fault provider.now claims.now now)) }
{
    if claims.iss.as_str() != provider.issuer() {
        return Err(MapFault::Issuer);
    }
    if !accepts(alloc, provider, claims.aud.as_slice())? {
        return Err(MapFault::Audience);
    }
    match timing(claims, now) {
        When::Live => Ok(()),
        When::Expired => Err(MapFault::Expired),
        When::NotYet => Err(MapFault::NotYet),
    }
}

// The identity of claims that are for the provider now. It binds the identity's names behind the claims.
#[tactic(auto, unfolding(crate::specs::Admission::identity_in))]
fn identity_seen(alloc: Global, provider: &Provider, env: &mut Env) -> Result<Identity, MapFault>
    ensures { (claims : Claimed) → env.old ≡ seen.mapping_env claims → Answers result (identity_in provider.now claims) }
{
    let identity = mapped(alloc, provider.mapping(), env)?;
    let sized = check_lengths(alloc, &identity);
    let identity = kept(identity, sized)?;
    let went = check_condition(alloc, provider.condition(), env, &identity);
    kept(identity, went)
}

fn check_condition(
    alloc: Global,
    condition: Option<&Expression>,
    env: &mut Env,
    identity: &Identity,
) -> Result<(), MapFault>
    ensures { Answers result (passed (condition_fault (option_copied condition.entry) (env.old ++ seen.identity_env identity.now))) }
{
    let Some(condition) = condition else {
        return Ok(());
    };
    bind_identity(alloc, env, identity)?;
    check_truth(alloc, &condition.tree, env)
}

fn check_truth(alloc: Global, condition: &Expr, env: &Env) -> Result<(), MapFault>
    ensures { Answers result (passed (truth_fault (denotation condition.now env.now))) }
{
    match eval(alloc, condition, env) {
        Ok(value) => {
            let went = check_bool(&value);
            drop(value);
            went
        }
        Err(EvalStop::Error(_)) => Err(MapFault::ConditionError),
        Err(EvalStop::Memory) => Err(MapFault::Memory),
    }
}

fn check_bool(value: &Value) -> Result<(), MapFault>
    ensures { result ≡ passed (unless_true (out-Value value.now)) }
{
    match value {
        Value::Bool(true) => Ok(()),
        Value::Bool(false) => Err(MapFault::ConditionFalse),
        _ => Err(MapFault::ConditionError),
    }
}
