ghost use Rattle.std.specs.Prelude.{◌≡◌, true, pos, ℤ, IfOk, IfErr};
ghost use Rattle.cel_values.specs.declared.value.Value.{out-Value};
ghost use Rattle.cel_values.specs.declared.value.Value.TheOpen.{Value-F};
ghost use Rattle.jiff_core.specs.Date.{epoch_day};
ghost use Rattle.cel_builtins.specs.Outcomes.{Gives, Stops};
ghost use Rattle.cel_builtins.specs.Numbers.{is_moment as moment_is_good};
ghost use Rattle.cel_builtins.specs.Calendar.{day_of as day_of_moment, second_of_day as second_of_moment, part_of, full_year as year_part, month as month_part, day_of_month as day_of_month_part, day_of_year as day_of_year_part, date as date_part, day_of_week as day_of_week_part, hours as hours_part, minutes as minutes_part, seconds_of_minute};

use crate::numbers::is_moment;
use cel_values::{EvalError, EvalStop, Value};
use jiff_core::civil::Date;

// The moment of a value, which is refused outside the calendar's range.
fn moment_of(a: &Value) -> Result<i64, EvalStop>
    ensures value { IfOk result (λ seconds. (moment_is_good seconds ≡ true) × (out-Value a.now ≡ Value-F.Time seconds)) }
    ensures refused { IfErr result (λ stop. (part : ℤ → ℤ) → Stops stop (part_of part (out-Value a.now))) }
{
    match a {
        Value::Time(seconds) => {
            if is_moment(*seconds) {
                Ok(*seconds)
            } else {
                Err(EvalStop::Error(EvalError::Overflow))
            }
        }
        _ => Err(EvalStop::Error(EvalError::NoOverload)),
    }
}

/// The date of a moment in UTC.
pub(crate) fn date_of(seconds: i64) -> Date
    requires { moment_is_good seconds ≡ true }
    ensures { epoch_day result ≡ day_of_moment seconds }
{
    let day = seconds.div_euclid(86_400);
    Date::from_days_since_min((day + 4_371_587) as u32)
}

/// The seconds since midnight in UTC.
pub(crate) fn second_of_day(seconds: i64) -> u32
    ensures { result ≡ second_of_moment seconds }
{
    seconds.rem_euclid(86_400) as u32
}

/// `getFullYear`
pub(crate) fn full_year(a: &Value) -> Result<Value, EvalStop>
    ensures { Gives result (part_of year_part (out-Value a.now)) }
{
    let date = date_of(moment_of(a)?);
    Ok(Value::Int(i64::from(date.year)))
}

/// `getMonth`, from 0
pub(crate) fn month(a: &Value) -> Result<Value, EvalStop>
    ensures { Gives result (part_of month_part (out-Value a.now)) }
{
    let date = date_of(moment_of(a)?);
    Ok(Value::Int(i64::from(date.month - 1)))
}

/// `getDayOfMonth`, from 0
pub(crate) fn day_of_month(a: &Value) -> Result<Value, EvalStop>
    ensures { Gives result (part_of day_of_month_part (out-Value a.now)) }
{
    let date = date_of(moment_of(a)?);
    Ok(Value::Int(i64::from(date.day - 1)))
}

/// `getDayOfYear`, from 0
pub(crate) fn day_of_year(a: &Value) -> Result<Value, EvalStop>
    ensures { Gives result (part_of day_of_year_part (out-Value a.now)) }
{
    let date = date_of(moment_of(a)?);
    Ok(Value::Int(i64::from(date.day_of_year() - 1)))
}

/// `getDate`, from 1
pub(crate) fn date(a: &Value) -> Result<Value, EvalStop>
    ensures { Gives result (part_of date_part (out-Value a.now)) }
{
    let date = date_of(moment_of(a)?);
    Ok(Value::Int(i64::from(date.day)))
}

/// `getDayOfWeek`, from 0 for Sunday
pub(crate) fn day_of_week(a: &Value) -> Result<Value, EvalStop>
    ensures { Gives result (part_of day_of_week_part (out-Value a.now)) }
{
    let date = date_of(moment_of(a)?);
    Ok(Value::Int(i64::from((date.weekday().index() + 1) % 7)))
}

/// `getHours`
pub(crate) fn hours(a: &Value) -> Result<Value, EvalStop>
    ensures { Gives result (part_of hours_part (out-Value a.now)) }
{
    let second = second_of_day(moment_of(a)?);
    Ok(Value::Int(i64::from(second / 3600)))
}

/// `getMinutes`
pub(crate) fn minutes(a: &Value) -> Result<Value, EvalStop>
    ensures { Gives result (part_of minutes_part (out-Value a.now)) }
{
    let second = second_of_day(moment_of(a)?);
    Ok(Value::Int(i64::from(second / 60 % 60)))
}

/// `getSeconds`
pub(crate) fn seconds(a: &Value) -> Result<Value, EvalStop>
    ensures { Gives result (part_of seconds_of_minute (out-Value a.now)) }
{
    let second = second_of_day(moment_of(a)?);
    Ok(Value::Int(i64::from(second % 60)))
}
