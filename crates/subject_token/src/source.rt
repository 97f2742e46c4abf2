ghost use Rattle.std.specs.Prelude.{◌≡◌, Ok, IfOk, IfErr};
ghost use Rattle.iam_names.specs.declared.who.Who.TheVariants as principals;
ghost use Rattle.wif_claims.specs.Payload.{claims_of};
ghost use Rattle.entry_rules.specs.Passing.{Passes, fault_of};
ghost use Rattle.subject_token.specs.Sources.{source_of, source_of_claims, who_of_claims, map_rule, opened, claimed_by};

use base_types::{Items, Text};
use entry_rules::{ApplyFault, RuleCode, unlicensed};
use hmac_jws::{JwsFault, Verified, verify};
use iam_names::{Identity, PoolName, Who};
use pools::{MapFault, Provider, admit};
use std::alloc::{AllocError, Global};
use wif_claims::{ClaimFault, Claims, read_claims};

/// What a subject token gives, read with the provider as it stood then.
#[derive(Debug, Drop)]
pub struct Source {
    pub who: Who,
    /// Seconds since 1970-01-01T00:00:00Z.
    pub exp: u64,
    /// Who may act for the subject, the next one first.
    pub may_act: Items<Text>,
}

/// What a subject token gives under the provider at a moment.
#[tactic(auto, unfolding(crate::specs::Sources::source_of))]
pub fn read_source(
    alloc: Global,
    provider: &Provider,
    token: &str,
    now: u64,
) -> Result<Source, ApplyFault>
    ensures source { IfOk result (λ source. source_of provider.now token.now now ≡ Ok source) }
    ensures passes { Passes result (fault_of (source_of provider.now token.now now)) }
{
    let verified = open(alloc, provider, token)?;
    let claims = claims_from(alloc, verified)?;
    source_from(alloc, provider, claims, now)
}

fn open(alloc: Global, provider: &Provider, token: &str) -> Result<Verified, ApplyFault>
    ensures verified { IfOk result (λ verified. opened provider.now.key token.now ≡ Ok verified.payload) }
    ensures passes { Passes result (fault_of (opened provider.now.key token.now)) }
{
    match verify(alloc, provider.key(), token) {
        Ok(verified) => Ok(verified),
        Err(JwsFault::Memory) => Err(ApplyFault::Memory),
        Err(fault) => Err(unlicensed(RuleCode::E16(fault))),
    }
}

fn claims_from(alloc: Global, verified: Verified) -> Result<Claims, ApplyFault>
    ensures claims { IfOk result (λ claims. claimed_by (claims_of verified.payload) ≡ Ok claims) }
    ensures passes { Passes result (fault_of (claimed_by (claims_of verified.payload))) }
{
    let read = read_claims(alloc, verified.payload.as_slice());
    drop(verified);
    match read {
        Ok(claims) => Ok(claims),
        Err(ClaimFault::Memory) => Err(ApplyFault::Memory),
        Err(fault) => Err(unlicensed(RuleCode::E17(fault))),
    }
}

#[tactic(auto, unfolding(crate::specs::Sources::source_of_claims))]
fn source_from(
    alloc: Global,
    provider: &Provider,
    claims: Claims,
    now: u64,
) -> Result<Source, ApplyFault>
    ensures source { IfOk result (λ source. source_of_claims provider.now claims now ≡ Ok source) }
    ensures passes { Passes result (fault_of (source_of_claims provider.now claims now)) }
{
    match who_from(alloc, provider, &claims, now) {
        Ok(who) => Ok(source_by(who, claims)),
        Err(fault) => {
            drop(claims);
            Err(fault)
        }
    }
}

fn source_by(who: Who, claims: Claims) -> Source
    ensures { result ≡ record { who = who; exp = claims.exp; may_act = claims.may_act } }
{
    Source {
        who,
        exp: claims.exp,
        may_act: claims.may_act,
    }
}

// The principal, where the claims fail no rule.
fn who_from(
    alloc: Global,
    provider: &Provider,
    claims: &Claims,
    now: u64,
) -> Result<Who, ApplyFault>
    ensures who { IfOk result (λ who. who_of_claims provider.now claims.now now ≡ Ok who) }
    ensures passes { Passes result (fault_of (who_of_claims provider.now claims.now now)) }
{
    match admit(alloc, provider, claims, now) {
        Ok(identity) => outside(alloc, &provider.name().pool, identity),
        Err(MapFault::Memory) => Err(ApplyFault::Memory),
        Err(fault) => Err(unlicensed(rule_by(fault))),
    }
}

fn outside(alloc: Global, pool: &PoolName, identity: Identity) -> Result<Who, ApplyFault>
    ensures who { IfOk result (λ who. who ≡ principals.Outside pool.now identity) }
    ensures memory { IfErr result (λ fault. fault ≡ ApplyFault.Memory) }
{
    match pool.copy(alloc) {
        Ok(pool) => Ok(Who::Outside { pool, identity }),
        Err(AllocError) => {
            drop(identity);
            Err(ApplyFault::Memory)
        }
    }
}

fn rule_by(fault: MapFault) -> RuleCode
    ensures { result ≡ map_rule fault }
{
    match fault {
        MapFault::Issuer | MapFault::Audience | MapFault::Expired | MapFault::NotYet => {
            RuleCode::E18(fault)
        }
        MapFault::Subject
        | MapFault::Groups
        | MapFault::Attribute { .. }
        | MapFault::TooLong { .. } => RuleCode::E19(fault),
        MapFault::ConditionError | MapFault::ConditionFalse | MapFault::Memory => {
            RuleCode::E20(fault)
        }
    }
}
