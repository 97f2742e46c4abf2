ghost use Rattle.std.specs.Prelude.{◌++◌};
ghost use Rattle.cel_values.specs.declared.value.Value.TheViews as made;
ghost use Rattle.cel_builtins.specs.Outcomes.{Gives, weighed as weighed_value};

use crate::weighing::weighed;
use base_types::Items;
use cel_values::{EvalStop, Value, copy};
use std::alloc::Global;

/// The items of both.
pub(crate) fn joined_lists(alloc: Global, a: &[Value], b: &[Value]) -> Result<Value, EvalStop>
    ensures { Gives result (weighed_value (made.List (a.now ++ b.now))) }
{
    let mut both = Items::new(alloc);
    for item in a {
        both.push(copy(alloc, item)?)?;
    }
    for item in b {
        both.push(copy(alloc, item)?)?;
    }
    weighed(Value::List(both))
}
