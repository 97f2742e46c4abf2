//! What a subject token gives under a provider, or the first rule that it fails.
#![tactic(auto)]

mod source;

pub use source::{Source, read_source};
