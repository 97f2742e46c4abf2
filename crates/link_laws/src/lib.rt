//! Laws of recorded links, in a user's words: what each link of a chain counts for, and what no link does.
#![tactic(auto)]

mod laws;

pub use laws::{
    a_disabled_pool_or_account_ends_its_links, delegated_where_the_subject_names_the_actor,
    each_link_of_a_chain_counts, each_token_has_its_link, entries_that_follow_change_no_link,
    impersonated_where_each_hop_is_granted, issued_for_a_verified_subject_token_alone,
    links_are_decided_by_what_they_carry, links_go_on_from_those_that_they_name,
    no_link_does_more_than_it_was_made_from, what_limits_an_actor_does_not_count,
};
