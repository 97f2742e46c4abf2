//! The replies of the service, and its refusals by their rules.
#![tactic(auto)]

mod generate_rule;
mod refusal;
mod reply;

pub use generate_rule::GenerateRule;
pub use refusal::{command_refused, exchange_refused, generate_refused, refusal_of};
pub use reply::{
    bad_argument, decided, entered, generated, inactive, issued, journal_full, json_reply,
    no_bearer, no_text, no_token, not_found,
};
