ghost use Rattle.std.specs.Prelude.{◌≡◌};
ghost use Rattle.cel_builtins.specs.Overloads.{function_of as function_named, plain_function as plain_named, member_function as member_named, getter as getter_named};

/// An operator or function that has rows in the overload table.
#[derive(Clone, Copy, Debug, PartialEq, Eq)]
pub enum Function {
    Not,
    Neg,
    Add,
    Sub,
    Mul,
    Div,
    Rem,
    Lt,
    Le,
    Gt,
    Ge,
    Size,
    Contains,
    StartsWith,
    EndsWith,
    Extract,
    Split,
    Join,
    LowerAscii,
    Int,
    String,
    Timestamp,
    Duration,
    GetFullYear,
    GetMonth,
    GetDayOfMonth,
    GetDayOfYear,
    GetDate,
    GetDayOfWeek,
    GetHours,
    GetMinutes,
    GetSeconds,
}

/// The function of this name, called as a member of its first argument or by itself.
pub fn function_of(is_member: bool, name: &str) -> Option<Function>
    ensures { result ≡ function_named is_member name.now }
{
    if is_member {
        member_function(name)
    } else {
        plain_function(name)
    }
}

fn plain_function(name: &str) -> Option<Function>
    ensures { result ≡ plain_named name.now }
{
    match name {
        "size" => Some(Function::Size),
        "int" => Some(Function::Int),
        "string" => Some(Function::String),
        "timestamp" => Some(Function::Timestamp),
        "duration" => Some(Function::Duration),
        _ => None,
    }
}

fn member_function(name: &str) -> Option<Function>
    ensures { result ≡ member_named name.now }
{
    match name {
        "size" => Some(Function::Size),
        "contains" => Some(Function::Contains),
        "startsWith" => Some(Function::StartsWith),
        "endsWith" => Some(Function::EndsWith),
        "extract" => Some(Function::Extract),
        "split" => Some(Function::Split),
        "join" => Some(Function::Join),
        "lowerAscii" => Some(Function::LowerAscii),
        _ => getter(name),
    }
}

fn getter(name: &str) -> Option<Function>
    ensures { result ≡ getter_named name.now }
{
    match name {
        "getFullYear" => Some(Function::GetFullYear),
        "getMonth" => Some(Function::GetMonth),
        "getDayOfMonth" => Some(Function::GetDayOfMonth),
        "getDayOfYear" => Some(Function::GetDayOfYear),
        "getDate" => Some(Function::GetDate),
        "getDayOfWeek" => Some(Function::GetDayOfWeek),
        "getHours" => Some(Function::GetHours),
        "getMinutes" => Some(Function::GetMinutes),
        "getSeconds" => Some(Function::GetSeconds),
        _ => None,
    }
}
