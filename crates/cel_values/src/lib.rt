//! Values of the expression language, what is asked of them, the value that a JSON value gives, and the language's trees.
#![tactic(auto)]

mod conversion;
mod copying;
mod env;
mod equality;
mod error;
mod expr;
mod opacity;
mod value;
mod weight;

pub use conversion::from_json;
pub use copying::copy;
pub use env::{Binding, Env};
pub use equality::equal;
pub use error::{EvalError, EvalStop};
pub use expr::{BinaryOp, Expr, MacroKind, MapPair};
pub use opacity::holds_opaque;
pub use value::{MapEntry, Value};
pub use weight::{WEIGHT, room_left};
