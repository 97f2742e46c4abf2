ghost use Rattle.std.specs.Prelude.{◌≡◌, ◌<◌, ◌≤◌};
ghost use Rattle.cel_builtins.specs.Overloads.{number, kind, row as row_of};

use crate::Function;
use case_table::value_under;
use cel_values::Value;

/// Each row is 100 times the function's number, plus 10 times the first argument's kind, plus the second's, and then
/// the kind of the result. Kinds: 1 null, 2 bool, 3 int, 4 text, 5 list, 6 map, 7 timestamp, 8 duration, 0 none.
pub const OVERLOADS: [(u32, u32); 65] = [
    (120, 2),
    (230, 3),
    (333, 3),
    (344, 4),
    (355, 5),
    (378, 7),
    (387, 7),
    (388, 8),
    (433, 3),
    (478, 7),
    (477, 8),
    (488, 8),
    (533, 3),
    (633, 3),
    (733, 3),
    (822, 2),
    (833, 2),
    (844, 2),
    (877, 2),
    (888, 2),
    (922, 2),
    (933, 2),
    (944, 2),
    (977, 2),
    (988, 2),
    (1022, 2),
    (1033, 2),
    (1044, 2),
    (1077, 2),
    (1088, 2),
    (1122, 2),
    (1133, 2),
    (1144, 2),
    (1177, 2),
    (1188, 2),
    (1240, 3),
    (1250, 3),
    (1260, 3),
    (1344, 2),
    (1444, 2),
    (1544, 2),
    (1644, 4),
    (1744, 5),
    (1854, 4),
    (1940, 4),
    (2030, 3),
    (2040, 3),
    (2070, 3),
    (2140, 4),
    (2130, 4),
    (2120, 4),
    (2170, 4),
    (2240, 7),
    (2270, 7),
    (2340, 8),
    (2380, 8),
    (2470, 3),
    (2570, 3),
    (2670, 3),
    (2770, 3),
    (2870, 3),
    (2970, 3),
    (3070, 3),
    (3170, 3),
    (3270, 3),
];

/// The number of a function in the table.
pub fn number_of(function: Function) -> u32
    ensures number { result ≡ number function }
    ensures bound { result ≤ 32 }
{
    match function {
        Function::Not => 1,
        Function::Neg => 2,
        Function::Add => 3,
        Function::Sub => 4,
        Function::Mul => 5,
        Function::Div => 6,
        Function::Rem => 7,
        Function::Lt => 8,
        Function::Le => 9,
        Function::Gt => 10,
        Function::Ge => 11,
        Function::Size => 12,
        Function::Contains => 13,
        Function::StartsWith => 14,
        Function::EndsWith => 15,
        Function::Extract => 16,
        Function::Split => 17,
        Function::Join => 18,
        Function::LowerAscii => 19,
        Function::Int => 20,
        Function::String => 21,
        Function::Timestamp => 22,
        Function::Duration => 23,
        Function::GetFullYear => 24,
        Function::GetMonth => 25,
        Function::GetDayOfMonth => 26,
        Function::GetDayOfYear => 27,
        Function::GetDate => 28,
        Function::GetDayOfWeek => 29,
        Function::GetHours => 30,
        Function::GetMinutes => 31,
        Function::GetSeconds => 32,
    }
}

/// The kind of a value in the table.
pub fn kind_of(value: &Value) -> u32
    ensures kind { result ≡ kind value.now }
    ensures bound { result < 10 }
{
    match value {
        Value::Null => 1,
        Value::Bool(_) => 2,
        Value::Int(_) => 3,
        Value::Text(_) => 4,
        Value::List(_) => 5,
        Value::Map(_) => 6,
        Value::Time(_) => 7,
        Value::Span(_) => 8,
        Value::Opaque => 9,
    }
}

/// The kind of the result of the row that fits, or none where no row does.
#[tactic(auto, unfolding(crate::specs::Overloads::row))]
pub fn row(function: Function, first: u32, second: u32) -> Option<u32>
    requires first { first < 10 }
    requires second { second < 10 }
    ensures { result ≡ row_of function first second }
{
    value_under(&OVERLOADS, 100 * number_of(function) + 10 * first + second)
}
