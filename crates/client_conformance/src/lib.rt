//! Laws on the client and the service together: the service's own reader finds in the bytes that a client sends the request that was
//! meant.
#![tactic(auto)]

mod laws;

pub use laws::{
    a_client_file_has_its_forms, a_request_is_read_as_it_was_sent, an_account_is_asked_as_meant,
    an_exchange_is_asked_as_meant,
};
