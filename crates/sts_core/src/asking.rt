ghost use Rattle.std.specs.Prelude.{◌≡◌, ◌<◌, ◌&&◌, ◌||◌, ◌∷◌, [], IfOk, IfErr, IfSome, codes, length, not, option_map, unwrap_or};
ghost use Rattle.base_types.specs.Rules.{fails_if};
ghost use Rattle.base_types.specs.Steps.{needed};
ghost use Rattle.links.specs.State.{chain};
ghost use Rattle.entry_rules.specs.declared.fault.RuleCode.TheVariants.{E14 as unknown_provider, E21 as unknown_token, E22 as unknown_actor};
ghost use Rattle.exchange_form.specs.FormRules.{unless};
ghost use Rattle.exchange_form.specs.Forms as forms;
ghost use Rattle.exchange_form.specs.declared.exchange_rule.ExchangeRule.TheVariants as rules;
ghost use Rattle.service_view.specs.View.{cloud_platform};
ghost use Rattle.sts_core.specs.Answers.{Gives};
ghost use Rattle.sts_core.specs.Asked as asked;

use crate::options::{asked_boundary, asked_words, unlicensed};
use crate::rule_stop::RuleStop;
use base_types::{Items, Text, both};
use boundary::Boundary;
use derived_facts::copy_words;
use entry_rules::RuleCode;
use exchange_form::{ExchangeRule, Parameter, failing_form_rule, is_absent, is_from_outside, once};
use iam_names::{Audience, NameError, ScopeWord};
use links::{
    Delegation, Entry, Exchange, Narrowing, State, all_permissions, find_issued, live, words_of,
};
use std::alloc::{AllocError, Global};

/// The entry that an exchange asks for, or the first rule that it fails.
#[tactic(auto, unfolding(crate::specs::Asked::asked_for))]
pub(crate) fn asked_for(
    alloc: Global,
    state: &State,
    form: &[Parameter],
    now: u64,
) -> Result<Entry, RuleStop<ExchangeRule>>
    ensures { Gives result (asked.asked_for state.now.content form.now now) }
{
    if let Some(rule) = failing_form_rule(form) {
        return Err(RuleStop::Refused(rule));
    }
    let words = asked_words(alloc, state, once(form, "scope"));
    let boundary = asked_boundary(alloc, state, once(form, "options"));
    let (words, boundary) = both(words, boundary)?;
    if is_mixed(form, &boundary) {
        drop(words);
        drop(boundary);
        return Err(RuleStop::Refused(ExchangeRule::E13));
    }
    let Some(token) = once(form, "subject_token") else {
        drop(words);
        drop(boundary);
        return Err(RuleStop::Refused(ExchangeRule::E5));
    };
    entry_of(alloc, state, form, token, words, boundary, now)
}

// Whether the exchange asks for what may not be asked for together.
fn is_mixed(form: &[Parameter], boundary: &Option<Boundary>) -> bool
    ensures { result ≡ asked.is_mixed form.now boundary.now }
{
    let has_actor = !is_absent(form, "actor_token");
    mixes(is_from_outside(form), boundary.is_some(), has_actor)
}

fn mixes(is_outside: bool, has_boundary: bool, has_actor: bool) -> bool
    ensures { result ≡ (is_outside && (has_boundary || has_actor)) || (has_boundary && has_actor) }
{
    (is_outside && (has_boundary || has_actor)) || (has_boundary && has_actor)
}

// The entry of a subject token of its type.
fn entry_of(
    alloc: Global,
    state: &State,
    form: &[Parameter],
    token: &str,
    words: Option<Items<ScopeWord>>,
    boundary: Option<Boundary>,
    now: u64,
) -> Result<Entry, RuleStop<ExchangeRule>>
    ensures { Gives result (asked.entry_of state.now.content form.now token.now words boundary now) }
{
    if is_from_outside(form) {
        drop(boundary);
        return outside_entry(alloc, form, token, words, now);
    }
    access_entry(alloc, state, form, token, words, boundary, now)
}

// The exchange of a subject token from outside, for these words or for all permissions.
fn outside_entry(
    alloc: Global,
    form: &[Parameter],
    token: &str,
    words: Option<Items<ScopeWord>>,
    now: u64,
) -> Result<Entry, RuleStop<ExchangeRule>>
    ensures { Gives result (asked.outside_entry form.now token.now words now) }
{
    let provider = provider_in(alloc, once(form, "audience"));
    let (provider, words) = both(provider, Ok(words))?;
    let texts = both(Text::copy_of(alloc, token), words_or_all(alloc, words));
    let (provider, (token, scope)) = both(Ok(provider), texts)?;
    Ok(Entry::Federated(Exchange {
        provider,
        token,
        scope,
        at: now,
    }))
}

// The provider's name that an audience is.
fn provider_in(alloc: Global, audience: Option<&str>) -> Result<Audience, RuleStop<ExchangeRule>>
    ensures { Gives result (needed (rules.Unlicensed unknown_provider)
        (asked.named_provider (option_map (λ text. text.now) audience.entry))) }
{
    let Some(audience) = audience else {
        return Err(unlicensed(RuleCode::E14));
    };
    match Audience::read(alloc, audience) {
        Ok(provider) => Ok(provider),
        Err(NameError::Form) => Err(unlicensed(RuleCode::E14)),
        Err(NameError::Memory) => Err(RuleStop::Memory),
    }
}

// The words, or the one for all permissions.
fn words_or_all(
    alloc: Global,
    words: Option<Items<ScopeWord>>,
) -> Result<Items<ScopeWord>, AllocError>
    ensures { IfOk result (λ scope. scope ≡ unwrap_or words (cloud_platform ∷ [])) }
{
    match words {
        Some(words) => Ok(words),
        None => all_permissions(alloc),
    }
}

// The entry of an access token that was issued, for these words or for its own.
fn access_entry(
    alloc: Global,
    state: &State,
    form: &[Parameter],
    token: &str,
    words: Option<Items<ScopeWord>>,
    boundary: Option<Boundary>,
    now: u64,
) -> Result<Entry, RuleStop<ExchangeRule>>
    ensures { Gives result (asked.access_entry state.now.content form.now token.now words boundary now) }
{
    let subject = subject_of(alloc, state, form, token, now);
    let (subject, (words, boundary)) = both(subject, Ok((words, boundary)))?;
    let scope = words_or_own(alloc, state, subject, words);
    let (scope, boundary) = both(scope, Ok(boundary))?;
    let actor = once(form, "actor_token");
    derived_entry(alloc, state, subject, actor, scope, boundary, now)
}

// The number of the live link whose token is exchanged, without an audience.
fn subject_of(
    alloc: Global,
    state: &State,
    form: &[Parameter],
    token: &str,
    now: u64,
) -> Result<u32, RuleStop<ExchangeRule>>
    ensures gives { Gives result (unless
        (fails_if (not (forms.is_absent form.now (codes "audience"))) (rules.Unlicensed unknown_provider))
        (needed (rules.Unlicensed unknown_token) (asked.live_issued state.now.content now token.now))) }
    ensures within { IfOk result (λ subject. subject < length state.now.content.links) }
{
    if !is_absent(form, "audience") {
        return Err(unlicensed(RuleCode::E14));
    }
    match live_issued(alloc, state, token, now)? {
        Some(subject) => Ok(subject),
        None => Err(unlicensed(RuleCode::E21)),
    }
}

// The words, or the own ones of the link of that number.
fn words_or_own(
    alloc: Global,
    state: &State,
    number: u32,
    words: Option<Items<ScopeWord>>,
) -> Result<Items<ScopeWord>, AllocError>
    requires { number < length state.now.content.links }
    ensures { IfOk result (λ scope. scope ≡ unwrap_or words (asked.words_of (chain state.now.content number))) }
{
    match words {
        Some(words) => Ok(words),
        None => copy_words(alloc, words_of(state, number)),
    }
}

// The entry of a live link's token: a narrowing, or a delegation where there is an actor's token.
fn derived_entry(
    alloc: Global,
    state: &State,
    subject: u32,
    actor: Option<&str>,
    scope: Items<ScopeWord>,
    boundary: Option<Boundary>,
    now: u64,
) -> Result<Entry, RuleStop<ExchangeRule>>
    ensures { Gives result (asked.derived_entry state.now.content subject (option_map (λ text. text.now) actor.entry) scope boundary now) }
{
    let Some(token) = actor else {
        return Ok(Entry::Narrow(Narrowing {
            parent: subject,
            boundary,
            scope,
            at: now,
        }));
    };
    drop(boundary);
    let actor = actor_of(alloc, state, token, now);
    let (actor, scope) = both(actor, Ok(scope))?;
    Ok(Entry::Delegate(Delegation {
        subject,
        actor,
        scope,
        at: now,
    }))
}

// The number of the live link whose token is the actor's.
fn actor_of(
    alloc: Global,
    state: &State,
    token: &str,
    now: u64,
) -> Result<u32, RuleStop<ExchangeRule>>
    ensures { Gives result (needed (rules.Unlicensed unknown_actor) (asked.live_issued state.now.content now token.now)) }
{
    match live_issued(alloc, state, token, now)? {
        Some(actor) => Ok(actor),
        None => Err(unlicensed(RuleCode::E22)),
    }
}

/// The number of the live link that a token was issued for.
pub(crate) fn live_issued(
    alloc: Global,
    state: &State,
    token: &str,
    now: u64,
) -> Result<Option<u32>, AllocError>
    ensures number { IfOk result (λ found. found ≡ asked.live_issued state.now.content now token.now) }
    ensures within { IfOk result (λ found. IfSome found (λ number. number < length state.now.content.links)) }
{
    let Some(number) = find_issued(alloc, state, token)? else {
        return Ok(None);
    };
    if live(state, number, now) {
        return Ok(Some(number));
    }
    Ok(None)
}
