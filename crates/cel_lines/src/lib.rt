//! Expressions in lines: each line of a source asks for one, and is answered by a line of the sink.
#![tactic(auto)]

mod answer;
mod end;
mod environment;
mod front;
mod laws;
mod run;
#[cfg(test)]
mod tests;
mod type_text;
mod value_text;

pub use end::LinesEnd;
pub use laws::one_output;
pub use run::run_lines;
