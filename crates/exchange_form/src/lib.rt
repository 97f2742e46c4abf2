//! The body of a request: a form or a JSON object, and the rules of the form of an exchange.
#![tactic(auto)]

mod body;
mod exchange_rule;
mod form;
mod form_rules;

pub use body::read_object;
pub use exchange_rule::ExchangeRule;
pub use form::{Parameter, is_absent, is_all_text, once, read_form};
pub use form_rules::{ACCESS_TOKEN_TYPE, failing_form_rule, is_from_outside};
