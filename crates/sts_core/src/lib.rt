//! The service: its state, and its answer to a request.
#![tactic(auto)]

mod administration;
mod asking;
mod checking;
mod exchange;
mod generate;
mod generating;
mod introspection;
mod laws;
mod opening;
mod options;
mod proposal;
mod recording;
mod rule_stop;
mod setting_up;
mod setup;
mod stop;
mod sts;

pub use laws::{
    a_delegated_token_is_admitted_to_no_more_than_its_subject,
    a_narrowed_token_is_admitted_to_no_more, a_token_carries_the_facts_of_its_link,
    checks_are_decided_by_their_links, each_step_keeps_the_journal_lawful,
    gate_agrees_with_the_chain,
};
pub use opening::{Opening, open_on};
pub use setting_up::set_up;
pub use setup::Setup;
pub use stop::Stop;
pub use sts::Sts;
