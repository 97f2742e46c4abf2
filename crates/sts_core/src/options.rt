ghost use Rattle.std.specs.Prelude.{◌≡◌, option_map};
ghost use Rattle.base_types.specs.Steps.{needed};
ghost use Rattle.boundary.specs.Boundaries.{boundary_of};
ghost use Rattle.serde_json.specs.View.{view};
ghost use Rattle.entry_rules.specs.declared.fault.RuleCode.TheVariants.{E11 as unknown_word};
ghost use Rattle.sts_core.specs.Answers.{Gives};
ghost use Rattle.sts_core.specs.Asked as asked;
ghost use Rattle.exchange_form.specs.declared.exchange_rule.ExchangeRule.TheVariants as rules;

use crate::rule_stop::RuleStop;
use access_token::read_words;
use base_types::Items;
use boundary::{Boundary, BoundaryError, read_boundary};
use entry_rules::RuleCode;
use exchange_form::{ExchangeRule, read_object};
use iam_names::ScopeWord;
use json_text::ReadFault;
use links::{State, knows_words, unknown_role};
use serde_json::Value;
use std::alloc::Global;

/// The words of the scope, where there is one.
#[tactic(auto, unfolding(crate::specs::Asked::asked_words))]
pub(crate) fn asked_words(
    alloc: Global,
    state: &State,
    scope: Option<&str>,
) -> Result<Option<Items<ScopeWord>>, RuleStop<ExchangeRule>>
    ensures { Gives result (asked.asked_words state.now.content (option_map (λ text. text.now) scope.entry)) }
{
    let Some(text) = scope else {
        return Ok(None);
    };
    Ok(Some(known_words(alloc, state, text)?))
}

// Scope words that are all there.
fn known_words(
    alloc: Global,
    state: &State,
    text: &str,
) -> Result<Items<ScopeWord>, RuleStop<ExchangeRule>>
    ensures { Gives result (needed (rules.Unlicensed unknown_word) (asked.known_words state.now.content text.now)) }
{
    match read_words(alloc, text) {
        Ok(words) => {
            if knows_words(state, words.as_slice()) {
                return Ok(words);
            }
            drop(words);
            Err(unlicensed(RuleCode::E11))
        }
        Err(ReadFault::Form) => Err(unlicensed(RuleCode::E11)),
        Err(ReadFault::Memory) => Err(RuleStop::Memory),
    }
}

/// The rule forbids the entry that is asked for.
pub(crate) fn unlicensed(rule: RuleCode) -> RuleStop<ExchangeRule>
    ensures { result ≡ RuleStop.Refused (rules.Unlicensed rule) }
{
    RuleStop::Refused(ExchangeRule::Unlicensed(rule))
}

/// The access boundary of the options, which are a JSON object.
#[tactic(auto, unfolding(crate::specs::Asked::asked_boundary))]
pub(crate) fn asked_boundary(
    alloc: Global,
    state: &State,
    options: Option<&str>,
) -> Result<Option<Boundary>, RuleStop<ExchangeRule>>
    ensures { Gives result (asked.asked_boundary state.now.content (option_map (λ text. text.now) options.entry)) }
{
    let Some(text) = options else {
        return Ok(None);
    };
    match read_object(alloc, text.as_bytes())? {
        Some(json) => {
            let boundary = boundary_under(alloc, state, json.get("accessBoundary"));
            drop(json);
            boundary
        }
        None => Err(RuleStop::Refused(ExchangeRule::Options)),
    }
}

fn boundary_under(
    alloc: Global,
    state: &State,
    json: Option<&Value>,
) -> Result<Option<Boundary>, RuleStop<ExchangeRule>>
    ensures { Gives result (asked.boundary_under state.now.content (option_map (λ json. view json.now) json.entry)) }
{
    let Some(json) = json else {
        return Ok(None);
    };
    let boundary = boundary_in(alloc, json)?;
    known_boundary(state, boundary)
}

fn boundary_in(alloc: Global, json: &Value) -> Result<Boundary, RuleStop<ExchangeRule>>
    ensures { Gives result (asked.read_boundary (boundary_of (view json.now))) }
{
    match read_boundary(alloc, json) {
        Ok(boundary) => Ok(boundary),
        Err(BoundaryError::Fault { rule, cause }) => {
            Err(RuleStop::Refused(ExchangeRule::Boundary { rule, cause }))
        }
        Err(BoundaryError::Memory) => Err(RuleStop::Memory),
    }
}

// The boundary, where its roles are all there.
fn known_boundary(
    state: &State,
    boundary: Boundary,
) -> Result<Option<Boundary>, RuleStop<ExchangeRule>>
    ensures { Gives result (asked.known_boundary state.now.content boundary) }
{
    match unknown_role(state, &boundary) {
        Some(rule) => {
            drop(boundary);
            Err(unlicensed(RuleCode::E12 { rule }))
        }
        None => Ok(Some(boundary)),
    }
}
