//! The type checker of expressions: the type of an expression under declared names, or its first fault.
#![tactic(auto)]

mod cel_type;
mod checker;
mod copying;
mod fault;
mod fitting;
mod laws;
mod rows;
mod rules;
mod scope;

pub use cel_type::{CelType, Declaration};
pub use checker::check;
pub use copying::copy_type;
pub use fault::{CheckError, TypeFault, TypeRule};
pub use fitting::fits;
pub use laws::{check_is_by_the_rules, faults_are_numbered_by_the_text};
