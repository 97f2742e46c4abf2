ghost use Rattle.std.specs.Prelude.{◌≡◌, ◌||◌, codes};
ghost use Rattle.std.specs.List.{list_any};
ghost use Rattle.base_types.specs.Rules.{first_of};
ghost use Rattle.exchange_form.specs.FormRules as rules;
ghost use Rattle.exchange_form.specs.Forms as forms;

use crate::exchange_rule::ExchangeRule;
use crate::form::{Parameter, is_absent, is_all_text, is_repeated, once};

/// The type of the tokens that are issued (RFC 8693, section 3).
pub const ACCESS_TOKEN_TYPE: &str = "urn:ietf:params:oauth:token-type:access_token";

const GRANT_TYPE: &str = "urn:ietf:params:oauth:grant-type:token-exchange";

const JWT_TYPE: &str = "urn:ietf:params:oauth:token-type:jwt";

const ID_TOKEN_TYPE: &str = "urn:ietf:params:oauth:token-type:id_token";

/// The first rule of the form that an exchange fails.
#[tactic(auto, unfolding(crate::specs::FormRules::form_rules))]
pub fn failing_form_rule(form: &[Parameter]) -> Option<ExchangeRule>
    ensures { result ≡ first_of (rules.form_rules form.now) }
{
    if !is_all_text(form) {
        return Some(ExchangeRule::E1);
    }
    if is_any_repeated(form) {
        return Some(ExchangeRule::E2);
    }
    if is_absent(form, "grant_type") {
        return Some(ExchangeRule::E3);
    }
    if !is_value(form, "grant_type", GRANT_TYPE) {
        return Some(ExchangeRule::E4);
    }
    if is_absent(form, "subject_token") {
        return Some(ExchangeRule::E5);
    }
    if !is_subject_type(form) {
        return Some(ExchangeRule::E6);
    }
    if !is_access_token_type_if_there(form, "requested_token_type") {
        return Some(ExchangeRule::E7);
    }
    if is_absent(form, "actor_token") != is_absent(form, "actor_token_type") {
        return Some(ExchangeRule::E8);
    }
    if !is_access_token_type_if_there(form, "actor_token_type") {
        return Some(ExchangeRule::E9);
    }
    if !is_absent(form, "resource") {
        return Some(ExchangeRule::E10);
    }
    None
}

// Whether a parameter that has one value at most has two.
fn is_any_repeated(form: &[Parameter]) -> bool
    ensures { result ≡ list_any (forms.is_repeated form.now) rules.single }
{
    let subject = is_repeated(form, "subject_token") || is_repeated(form, "subject_token_type");
    let actor = is_repeated(form, "actor_token") || is_repeated(form, "actor_token_type");
    let grant = is_repeated(form, "grant_type");
    let requested = is_repeated(form, "requested_token_type");
    let limits = is_repeated(form, "scope") || is_repeated(form, "options");
    grant || subject || actor || requested || limits
}

// Whether the parameter has one value, and it is this one.
fn is_value(form: &[Parameter], name: &str, value: &str) -> bool
    ensures { result ≡ rules.is_value value.now (forms.once name.now form.now) }
{
    match once(form, name) {
        Some(found) => found == value,
        None => false,
    }
}

/// Whether the subject token is one from outside.
pub fn is_from_outside(form: &[Parameter]) -> bool
    ensures { result ≡ rules.is_outside_type (forms.once (codes "subject_token_type") form.now) }
{
    let is_jwt = is_value(form, "subject_token_type", JWT_TYPE);
    let is_id_token = is_value(form, "subject_token_type", ID_TOKEN_TYPE);
    is_jwt || is_id_token
}

// Whether the parameter has one value, and it is the type of access tokens.
fn is_access_token_type(form: &[Parameter], name: &str) -> bool
    ensures { result ≡ rules.is_access_token_type form.now name.now }
{
    is_value(form, name, ACCESS_TOKEN_TYPE)
}

fn is_subject_type(form: &[Parameter]) -> bool
    ensures { result ≡ rules.is_subject_type form.now }
{
    is_from_outside(form) || is_access_token_type(form, "subject_token_type")
}

fn is_access_token_type_if_there(form: &[Parameter], name: &str) -> bool
    ensures { result ≡ forms.is_absent form.now name.now || rules.is_access_token_type form.now name.now }
{
    is_absent(form, name) || is_access_token_type(form, name)
}
