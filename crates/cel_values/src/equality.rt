ghost use Rattle.std.specs.Prelude.{◌≡◌, map};
ghost use Rattle.cel_values.specs.Equality.{equal as equal_to, entry_equal, all_equal};

use crate::{MapEntry, Value};

/// Whether two values are equal: values of different kinds are not, lists and maps compare by their parts.
#[cycle(equal)]
pub fn equal(a: &Value, b: &Value) -> bool
    ensures { result ≡ equal_to a.now b.now }
{
    match (a, b) {
        (Value::Null, Value::Null) => true,
        (Value::Bool(a), Value::Bool(b)) => *a == *b,
        (Value::Int(a), Value::Int(b)) => *a == *b,
        (Value::Text(a), Value::Text(b)) => a.as_str() == b.as_str(),
        (Value::List(a), Value::List(b)) => equal_items(a.as_slice(), b.as_slice()),
        (Value::Map(a), Value::Map(b)) => equal_entries(a.as_slice(), b.as_slice()),
        (Value::Time(a), Value::Time(b)) => *a == *b,
        (Value::Span(a), Value::Span(b)) => *a == *b,
        (Value::Opaque, Value::Opaque) => true,
        _ => false,
    }
}

#[cycle(equal)]
#[tactic(auto, using(crate::proofs::Pairwise::other_length, crate::proofs::Pairwise::equal_from))]
fn equal_items(a: &[Value], b: &[Value]) -> bool
    ensures { result ≡ all_equal (map equal_to a.now) b.now }
{
    if a.len() != b.len() {
        return false;
    }
    for index in 0..a.len() {
        if !equal(&a[index], &b[index]) {
            return false;
        }
    }
    true
}

#[cycle(equal)]
#[tactic(auto, using(crate::proofs::Pairwise::other_length, crate::proofs::Pairwise::equal_from))]
fn equal_entries(a: &[MapEntry], b: &[MapEntry]) -> bool
    ensures { result ≡ all_equal (map entry_equal a.now) b.now }
{
    if a.len() != b.len() {
        return false;
    }
    for index in 0..a.len() {
        let entry = &a[index];
        let other = &b[index];
        if entry.key.as_str() != other.key.as_str() || !equal(&entry.value, &other.value) {
            return false;
        }
    }
    true
}
