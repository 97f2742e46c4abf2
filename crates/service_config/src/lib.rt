//! The service's configuration: its issuer and key, the secrets of its callers, and a provider that is there from the start.
#![tactic(auto)]

mod config;
mod key;
mod read_config;

pub use config::{Config, ConfigError, StartProvider};
pub use key::Key;
pub use read_config::read_service_config;
