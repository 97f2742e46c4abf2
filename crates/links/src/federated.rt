ghost use Rattle.std.specs.Prelude.{◌≡◌, ◌≤◌, ◌∷◌, [], ℕ, List, IfOk, IfErr, Ok, Some, length, not, option_map};
ghost use Rattle.base_types.specs.Rules.{fails_if, first_of};
ghost use Rattle.access_token.specs.Facts.{name_of};
ghost use Rattle.service_view.specs.View.{cloud_platform as word_from_start};
ghost use Rattle.links.specs.declared.entry.Entry.TheVariants as entries;
ghost use Rattle.entry_rules.specs.declared.fault.RuleCode.TheVariants.{E15};
ghost use Rattle.links.specs.Chain.{Root};
ghost use Rattle.links.specs.Entries.{IsExchange};
ghost use Rattle.links.specs.Facts.{pools_in};
ghost use Rattle.entry_rules.specs.Passing.{Passes, fault_of};
ghost use Rattle.links.specs.Licence.{exchange_rules, first_unlicensed, planned_of};
ghost use Rattle.links.specs.Prepared.{with_link};
ghost use Rattle.links.specs.Recorded.{recorded};
ghost use Rattle.links.specs.State.{made, named, provider_enabled, source_at};

use crate::checks::{check, knows_words};
use crate::tokens::{Issued, with_payload};
use crate::{Exchange, RecordedKind, RecordedLink, State};
use access_token::{Facts, subject_name};
use base_types::{Items, Text};
use derived_facts::{copy_words, with_room};
use entry_rules::{ApplyFault, RuleCode, unlicensed};
use iam_names::{Audience, PoolName, ScopeWord, Who};
use pools::Provider;
use service_view::cloud_platform;
use std::alloc::{AllocError, Global};
use subject_token::{Source, read_source};

// How long a token lasts at most, in seconds.
const MAX_LIFETIME: u64 = 3600;

/// The scope of an exchange that names none.
pub fn all_permissions(alloc: Global) -> Result<Items<ScopeWord>, AllocError>
    ensures { IfOk result (λ words. words ≡ word_from_start ∷ []) }
{
    let mut words = Items::new(alloc);
    words.push(cloud_platform(alloc)?)?;
    Ok(words)
}

/// The link that an exchange records, with its token's payload, or the first rule that forbids it.
#[tactic(auto, using(crate::proofs::Preparing::exchange_refused_before))]
pub(crate) fn issue(alloc: Global, state: &State, exchange: &Exchange) -> Result<Issued, ApplyFault>
    requires { IsExchange exchange.now }
    ensures licensed { Passes result (first_unlicensed state.now.content (entries.Federated exchange.now)) }
    ensures issued { IfOk result (λ issued. with_link (entries.Federated exchange.now) issued
        ≡ planned_of state.now.content (entries.Federated exchange.now)) }
{
    let recorded = link_for(alloc, state, exchange)?;
    with_payload(alloc, state, recorded, RuleCode::E25)
}

// The link that an exchange would record.
fn link_for(alloc: Global, state: &State, exchange: &Exchange) -> Result<RecordedLink, ApplyFault>
    requires { IsExchange exchange.now }
    ensures link { IfOk result (λ link. Some link ≡ option_map recorded (made state.now.content (entries.Federated exchange.now))) }
    ensures passes { Passes result (first_of (exchange_rules state.now.content exchange.now)) }
{
    let known = knows_words(state, exchange.scope.as_slice());
    check(known, RuleCode::E11)?;
    let source = source_in(
        alloc,
        state,
        &exchange.provider,
        exchange.token.as_str(),
        exchange.at,
    )?;
    link_from(alloc, state, exchange, source)
}

fn link_from(
    alloc: Global,
    state: &State,
    exchange: &Exchange,
    source: Source,
) -> Result<RecordedLink, ApplyFault>
    requires { IsExchange exchange.now }
    ensures link { IfOk result (λ link. link
        ≡ recorded (Root (record { number = length state.now.content.links; at = exchange.now.at; words = exchange.now.scope }) source)) }
    ensures memory { IfErr result (λ fault. fault ≡ ApplyFault.Memory) }
{
    match show(alloc, &source.who, exchange.scope.as_slice()) {
        Ok(shown) => Ok(recorded_link(alloc, state.link_count(), exchange.at, shown, source)),
        Err(AllocError) => {
            drop(source);
            Err(ApplyFault::Memory)
        }
    }
}

// What a link's facts repeat of its principal and its scope.
#[derive(Debug, Drop)]
struct Shown {
    sub: Text,
    pools: Items<PoolName>,
    scopes: Items<Items<ScopeWord>>,
}

fn show(alloc: Global, who: &Who, words: &[ScopeWord]) -> Result<Shown, AllocError>
    ensures { IfOk result (λ shown. shown ≡ record { sub = name_of who.now; pools = pools_in who.now; scopes = words.now ∷ [] }) }
{
    let sub = subject_name(alloc, who)?;
    let pools = pools_of(alloc, who)?;
    let scopes = scopes_of(alloc, words)?;
    Ok(Shown { sub, pools, scopes })
}

fn pools_of(alloc: Global, who: &Who) -> Result<Items<PoolName>, AllocError>
    ensures { IfOk result (λ pools. pools ≡ pools_in who.now) }
{
    let mut pools = with_room(alloc, 1)?;
    if let Who::Outside { pool, .. } = who {
        pools.push(pool.copy(alloc)?)?;
    }
    Ok(pools)
}

fn scopes_of(alloc: Global, words: &[ScopeWord]) -> Result<Items<Items<ScopeWord>>, AllocError>
    ensures { IfOk result (λ scopes. scopes ≡ words.now ∷ []) }
{
    let mut scopes = with_room(alloc, 1)?;
    scopes.push(copy_words(alloc, words)?)?;
    Ok(scopes)
}

#[tactic(auto, unfolding(crate::specs::Facts::facts_of))]
fn recorded_link(alloc: Global, number: u32, at: u64, shown: Shown, source: Source) -> RecordedLink
    requires moment { at ≤ 200_000_000_000 }
    requires sub { shown.sub ≡ name_of source.who }
    requires pools { shown.pools ≡ pools_in source.who }
    ensures { (words : List (List ℕ)) → shown.scopes ≡ words ∷ [] → result ≡ recorded (Root (record { number = number; at = at; words = words }) source) }
{
    RecordedLink {
        kind: RecordedKind::Federated { exp: source.exp },
        depth: 1,
        facts: Facts {
            number,
            sub: shown.sub,
            iat: at,
            exp: source.exp.min(at.saturating_add(MAX_LIFETIME)),
            act: Items::new(alloc),
            may_act: source.may_act,
            who: source.who,
            pools: shown.pools,
            accounts: Items::new(alloc),
            scopes: shown.scopes,
            bounds: Items::new(alloc),
        },
    }
}

fn source_in(
    alloc: Global,
    state: &State,
    provider: &Audience,
    token: &str,
    now: u64,
) -> Result<Source, ApplyFault>
    ensures source { IfOk result (λ source. source_at state.now.content provider.now token.now now ≡ Ok source) }
    ensures passes { Passes result (fault_of (source_at state.now.content provider.now token.now now)) }
{
    let provider = provider_named(alloc, state, provider)?;
    check_enabled(state, provider)?;
    read_source(alloc, provider, token, now)
}

fn check_enabled(state: &State, provider: &Provider) -> Result<(), ApplyFault>
    ensures { Passes result (fails_if (not (provider_enabled state.now.content.view provider.now)) E15) }
{
    let enabled = !provider.is_disabled() && state.view().is_pool_enabled(&provider.name().pool);
    check(enabled, RuleCode::E15)
}

fn provider_named<'a>(
    alloc: Global,
    state: &'a State,
    name: &Audience,
) -> Result<&'a Provider, ApplyFault>
    ensures provider { IfOk result (λ provider. named state.now.content.view name.now ≡ Ok provider.now) }
    ensures passes { Passes result (fault_of (named state.now.content.view name.now)) }
{
    let name = name.print(alloc)?;
    match state.view().provider(name.as_str()) {
        Some(provider) => Ok(provider),
        None => Err(unlicensed(RuleCode::E14)),
    }
}
