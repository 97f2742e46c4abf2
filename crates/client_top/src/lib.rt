//! The program `wif_client`: workers that share one client, and a run over a file of moments.
#![tactic(auto)]

mod asks;
mod cuts;
mod gate;
mod job;
mod leases;
mod moments;
mod outcome;
mod ready;
mod report;
mod run;
#[cfg(test)]
mod tests;
mod unready;
mod words;
mod workers;

pub use asks::Ask;
pub use gate::{Gate, NoGate};
pub use outcome::Outcome;
pub use run::client_run;
pub use words::{Run, run_of};
pub use workers::run_workers;
