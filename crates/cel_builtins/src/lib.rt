//! What the operators and functions of the expression language compute, and the table of the kinds that each takes.
#![tactic(auto)]

mod apply;
mod calendar;
mod conversions;
mod durations;
mod function;
mod laws;
mod lists;
mod numbers;
mod overloads;
mod pieces;
mod refusals;
mod relations;
mod templates;
mod texts;
mod timestamps;
mod weighing;

pub use apply::{apply_one, apply_two};
pub use function::{Function, function_of};
pub use laws::one_row;
pub use overloads::{OVERLOADS, kind_of, number_of, row};
pub use refusals::no_overload;
pub use timestamps::time_text;
pub use weighing::weighed;
