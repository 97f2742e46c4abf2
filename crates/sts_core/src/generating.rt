ghost use Rattle.std.specs.Prelude.{◌≡◌, ◌∷◌, ◌++◌, [], IfOk, IfErr, Some, codes, option_and_then, option_map};
ghost use Rattle.base_types.specs.Forms.{passing};
ghost use Rattle.base_types.specs.Steps.{needed};
ghost use Rattle.exchange_form.specs.Forms.{object_of};
ghost use Rattle.iam_names.specs.Cuts.{after};
ghost use Rattle.iam_names.specs.Forms.{is_account};
ghost use Rattle.json_text.specs.Reads.{Reads};
ghost use Rattle.serde_json.specs.Find.{as_str};
ghost use Rattle.serde_json.specs.View.{view};
ghost use Rattle.sts_core.specs.Answers.{Gives, Refuses};
ghost use Rattle.sts_core.specs.Asked.{live_issued as issued_at};
ghost use Rattle.sts_core.specs.Generated as generated;
ghost use Rattle.sts_replies.specs.declared.generate_rule.GenerateRule.TheVariants.{I2, I3, I4, I5, I6, I7};
ghost use Rattle.wif_base.specs.Routes.{before_suffix};

use crate::asking::live_issued;
use crate::rule_stop::RuleStop;
use base_types::{Items, Text, both};
use exchange_form::read_object;
use iam_names::{Account, NameError, ScopeWord};
use json_text::{ReadFault, ReadsJson, short_list};
use links::{Entry, Impersonation, State, knows_words};
use serde_json::Value;
use std::alloc::{AllocError, Global};
use sts_replies::GenerateRule;
use wif_base::Request;

const DELEGATES: usize = 4;

const WORDS: usize = 16;

/// How long a token lasts where no lifetime is asked for, and at most, in seconds.
const LIFETIME: u64 = 3600;

/// The impersonation that is asked for with the bearer's token, or the first rule that the request fails.
#[tactic(auto, unfolding(crate::specs::Generated::generated_for))]
pub(crate) fn generated_for(
    alloc: Global,
    state: &State,
    account: &Text,
    request: &Request,
    now: u64,
) -> Result<Entry, RuleStop<GenerateRule>>
    ensures { Gives result (generated.generated_for state.now.content account.now request.now now) }
{
    let Some(bearer) = &request.bearer else {
        return Err(RuleStop::Refused(GenerateRule::I1));
    };
    let target = target_of(alloc, account.as_str());
    let (target, json) = both(target, object_in(alloc, request.body.as_slice()))?;
    let delegates = delegates_in(alloc, given(json.get("delegates")));
    let scope = scope_in(alloc, state, json.get("scope"));
    let lifetime = lifetime_in(alloc, given(json.get("lifetime")));
    drop(json);
    let members = both(both(delegates, scope), lifetime);
    let (target, ((delegates, scope), lifetime)) = both(Ok(target), members)?;
    let accounts = with_target(delegates, target);
    let named = both(accounts, Ok(scope))?;
    let parent = parent_of(alloc, state, bearer.as_str(), now);
    let ((accounts, scope), parent) = both(Ok(named), parent)?;
    Ok(Entry::Impersonate(Impersonation {
        parent,
        accounts,
        scope,
        lifetime,
        at: now,
    }))
}

// The account that the path names.
fn target_of(alloc: Global, account: &str) -> Result<Account, RuleStop<GenerateRule>>
    ensures { Gives result (needed I2 (passing is_account account.now)) }
{
    match Account::read(alloc, account) {
        Ok(account) => Ok(account),
        Err(NameError::Form) => Err(RuleStop::Refused(GenerateRule::I2)),
        Err(NameError::Memory) => Err(RuleStop::Memory),
    }
}

fn object_in(alloc: Global, body: &[u8]) -> Result<Value, RuleStop<GenerateRule>>
    ensures object { IfOk result (λ json. object_of body.now ≡ Some (view json)) }
    ensures refused { IfErr result (λ stop. Refuses stop (needed I3 (object_of body.now))) }
{
    match read_object(alloc, body)? {
        Some(json) => Ok(json),
        None => Err(RuleStop::Refused(GenerateRule::I3)),
    }
}

// A member that is null counts as absent.
fn given(member: Option<&Value>) -> Option<&Value>
    ensures { option_map (λ json. view json.now) result ≡ generated.given (option_map (λ json. view json.now) member.entry) }
{
    match member {
        Some(json) if !json.is_null() => Some(json),
        _ => None,
    }
}

/// The form of a delegate.
struct DelegateItem;

impl ReadsJson for DelegateItem {
    ghost use Rattle.sts_core.specs.Generated.{delegate_of};

    type Item = Account;

    ghost meaning = { delegate_of };

    fn read_json(alloc: Global, json: &Value) -> Result<Account, ReadFault> {
        match json.as_str() {
            Some(text) => account_behind(alloc, text),
            None => Err(ReadFault::Form),
        }
    }
}

// The account behind `projects/-/serviceAccounts/`.
fn account_behind(alloc: Global, text: &str) -> Result<Account, ReadFault>
    ensures { Reads result (option_and_then (passing is_account) (after (codes "projects/-/serviceAccounts/") text.now)) }
{
    let Some(account) = text.strip_prefix("projects/-/serviceAccounts/") else {
        return Err(ReadFault::Form);
    };
    match Account::read(alloc, account) {
        Ok(account) => Ok(account),
        Err(NameError::Form) => Err(ReadFault::Form),
        Err(NameError::Memory) => Err(ReadFault::Memory),
    }
}

// The accounts of at most 4 delegates, where there are any.
fn delegates_in(
    alloc: Global,
    json: Option<&Value>,
) -> Result<Items<Account>, RuleStop<GenerateRule>>
    ensures { Gives result (needed I4 (generated.delegates_of (option_map (λ json. view json.now) json.entry))) }
{
    let Some(json) = json else {
        return Ok(Items::new(alloc));
    };
    match short_list::<DelegateItem>(alloc, json, DELEGATES) {
        Ok(delegates) => Ok(delegates),
        Err(ReadFault::Form) => Err(RuleStop::Refused(GenerateRule::I4)),
        Err(ReadFault::Memory) => Err(RuleStop::Memory),
    }
}

/// The form of a scope word in a list.
struct WordItem;

impl ReadsJson for WordItem {
    ghost use Rattle.sts_core.specs.Generated.{word_of};

    type Item = ScopeWord;

    ghost meaning = { word_of };

    fn read_json(alloc: Global, json: &Value) -> Result<ScopeWord, ReadFault> {
        let Some(text) = json.as_str() else {
            return Err(ReadFault::Form);
        };
        match ScopeWord::read(alloc, text) {
            Ok(word) => Ok(word),
            Err(NameError::Form) => Err(ReadFault::Form),
            Err(NameError::Memory) => Err(ReadFault::Memory),
        }
    }
}

// A list of 1 to 16 scope words that are all there.
fn scope_in(
    alloc: Global,
    state: &State,
    json: Option<&Value>,
) -> Result<Items<ScopeWord>, RuleStop<GenerateRule>>
    ensures { Gives result (needed I5 (generated.scope_of state.now.content (option_map (λ json. view json.now) json.entry))) }
{
    let Some(json) = json else {
        return Err(RuleStop::Refused(GenerateRule::I5));
    };
    match short_list::<WordItem>(alloc, json, WORDS) {
        Ok(words) => {
            if !words.is_empty() && knows_words(state, words.as_slice()) {
                return Ok(words);
            }
            drop(words);
            Err(RuleStop::Refused(GenerateRule::I5))
        }
        Err(ReadFault::Form) => Err(RuleStop::Refused(GenerateRule::I5)),
        Err(ReadFault::Memory) => Err(RuleStop::Memory),
    }
}

// The seconds of a lifetime, and an hour where there is none.
fn lifetime_in(alloc: Global, json: Option<&Value>) -> Result<u64, RuleStop<GenerateRule>>
    ensures { Gives result (needed I6 (generated.lifetime_of (option_map (λ json. view json.now) json.entry))) }
{
    let Some(json) = json else {
        return Ok(LIFETIME);
    };
    let Some(digits) = digits_in(json) else {
        return Err(RuleStop::Refused(GenerateRule::I6));
    };
    match seconds_of(alloc, digits)? {
        Some(seconds) => Ok(seconds),
        None => Err(RuleStop::Refused(GenerateRule::I6)),
    }
}

// What stands before the `s` that a text ends with.
fn digits_in(json: &Value) -> Option<&str>
    ensures { option_map (λ digits. digits.now) result ≡ option_and_then (before_suffix (codes "s")) (as_str (view json.now)) }
{
    match json.as_str() {
        Some(text) => text.strip_suffix("s"),
        None => None,
    }
}

// The seconds of a decimal text of 1 to 3,600.
fn seconds_of(alloc: Global, digits: &str) -> Result<Option<u64>, AllocError>
    ensures { IfOk result (λ seconds. seconds ≡ generated.seconds_of digits.now) }
{
    let Some(seconds) = digits.parse::<u64>().ok() else {
        return Ok(None);
    };
    if is_lifetime(alloc, digits, seconds)? {
        return Ok(Some(seconds));
    }
    Ok(None)
}

fn is_lifetime(alloc: Global, digits: &str, seconds: u64) -> Result<bool, AllocError>
    ensures { IfOk result (λ yes. yes ≡ generated.is_lifetime digits.now seconds) }
{
    if seconds < 1 || seconds > LIFETIME {
        return Ok(false);
    }
    let written = Text::new(format!(in alloc; "{seconds}")?);
    Ok(digits == written.as_str())
}

// The delegates, and the account that is impersonated behind them.
fn with_target(delegates: Items<Account>, target: Account) -> Result<Items<Account>, AllocError>
    ensures { IfOk result (λ accounts. accounts ≡ delegates ++ target ∷ []) }
{
    let mut accounts = delegates;
    accounts.push(target)?;
    Ok(accounts)
}

// The number of the live link whose token the bearer shows.
fn parent_of(
    alloc: Global,
    state: &State,
    bearer: &str,
    now: u64,
) -> Result<u32, RuleStop<GenerateRule>>
    ensures { Gives result (needed I7 (issued_at state.now.content now bearer.now)) }
{
    match live_issued(alloc, state, bearer, now)? {
        Some(parent) => Ok(parent),
        None => Err(RuleStop::Refused(GenerateRule::I7)),
    }
}
