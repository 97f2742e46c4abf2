ghost use Rattle.std.specs.Prelude.{◌≡◌, ◌++◌, ◌+◌, ◌*◌, ◌+ℤ◌, ◌*ℤ◌, ◌<◌, ◌≤◌, ◌&&◌, [], ◌∷◌, true, length, pos, ℤ, Some, None, if◌then◌else◌, IfOk, OnOk, unsigned_abs, string_bytes};
ghost use Rattle.jiff_core.specs.Date.{epoch_day};
ghost use Rattle.jiff_core.specs.Calendar.{days_from_civil, IsEpochDay};
ghost use Rattle.cel_builtins.specs.Outcomes.{Gives};
ghost use Rattle.cel_builtins.specs.Numbers.{is_moment as moment_is_good};
ghost use Rattle.cel_builtins.specs.Timestamps.{two_digits, four_digits, written_date, clock_text, moment_text, fits_form as form_fits, byte_fits, two_at as two_digits_at, year_in, has_date as date_is_good, has_clock as clock_is_good, seconds_in as seconds_of_text, moment_in as moment_of_text};

use crate::calendar::{date_of, second_of_day};
use crate::refusals::bad_text;
use cel_values::{EvalStop, Value};
use jiff_core::civil::{Date, days_in_month};
use std::alloc::{AllocError, Global};

// ---- written

fn push_byte(text: &mut String, b: u8) -> Result<(), AllocError>
    requires { b < 128 }
    ensures { OnOk result (string_bytes text.new ≡ string_bytes text.old ++ b ∷ []) }
{
    text.push(b as char)
}

// The last two decimal digits of a number.
fn push_two(text: &mut String, n: u32) -> Result<(), AllocError>
    ensures { OnOk result (string_bytes text.new ≡ string_bytes text.old ++ two_digits n) }
{
    push_byte(text, b'0' + (n / 10 % 10) as u8)?;
    push_byte(text, b'0' + (n % 10) as u8)
}

// The last four decimal digits of a number.
fn push_four(text: &mut String, n: u32) -> Result<(), AllocError>
    ensures { OnOk result (string_bytes text.new ≡ string_bytes text.old ++ four_digits n) }
{
    push_two(text, n / 100)?;
    push_two(text, n)
}

// A mark and two digits.
fn push_part(text: &mut String, mark: u8, n: u32) -> Result<(), AllocError>
    requires { mark < 128 }
    ensures { OnOk result (string_bytes text.new ≡ string_bytes text.old ++ (mark ∷ two_digits n)) }
{
    push_byte(text, mark)?;
    push_two(text, n)
}

fn push_date(text: &mut String, date: Date) -> Result<(), AllocError>
    ensures { OnOk result (string_bytes text.new ≡ string_bytes text.old ++ written_date (unsigned_abs date.year) date.month date.day) }
{
    push_four(text, u32::from(date.year.unsigned_abs()))?;
    push_part(text, b'-', u32::from(date.month))?;
    push_part(text, b'-', u32::from(date.day))
}

fn push_clock(text: &mut String, second: u32) -> Result<(), AllocError>
    ensures { OnOk result (string_bytes text.new ≡ string_bytes text.old ++ clock_text second) }
{
    push_two(text, second / 3600)?;
    push_part(text, b':', second / 60 % 60)?;
    push_part(text, b':', second % 60)
}

/// `YYYY-MM-DDTHH:MM:SSZ`
pub fn time_text(alloc: Global, seconds: i64) -> Result<String, AllocError>
    requires { moment_is_good seconds ≡ true }
    ensures { IfOk result (λ text. string_bytes text ≡ moment_text seconds) }
{
    let mut text = String::new(alloc);
    push_date(&mut text, date_of(seconds))?;
    push_byte(&mut text, b'T')?;
    push_clock(&mut text, second_of_day(seconds))?;
    push_byte(&mut text, b'Z')?;
    Ok(text)
}

// ---- read

// `d` stands for a digit.
#[tactic(auto, using(crate::proofs::Forms::other_form, crate::proofs::Forms::form_from))]
fn fits_form(form: &[u8], text: &[u8]) -> bool
    ensures { result ≡ form_fits form.now text.now }
{
    if form.len() != text.len() {
        return false;
    }
    for index in 0..form.len() {
        if !fits(form[index], text[index]) {
            return false;
        }
    }
    true
}

fn fits(form: u8, b: u8) -> bool
    ensures { result ≡ byte_fits form b }
{
    if form == 100 {
        b.is_ascii_digit()
    } else {
        b == form
    }
}

fn two_at(text: &[u8], at: usize) -> u32
    requires { at + 1 < length text.now }
    ensures value { result ≡ two_digits_at at text.now }
    ensures bound { result ≤ 2277 }
{
    u32::from(text[at].saturating_sub(48)) * 10 + u32::from(text[at + 1].saturating_sub(48))
}

fn has_date(year: u32, month: u32, day: u32) -> bool
    ensures { result ≡ date_is_good year month day }
{
    1 <= year
        && year <= 9999
        && 1 <= month
        && month <= 12
        && 1 <= day
        && day <= u32::from(days_in_month(year as i16, month as u8))
}

fn has_clock(hour: u32, minute: u32, second: u32) -> bool
    ensures { result ≡ clock_is_good hour minute second }
{
    hour <= 23 && minute <= 59 && second <= 59
}

fn day_number(year: u32, month: u32, day: u32) -> i64
    requires { date_is_good year month day ≡ true }
    ensures value { result ≡ days_from_civil (pos year) month day }
    ensures bound { IsEpochDay result }
{
    let date = Date::constrain(year as i16, month as u8, day as u8);
    i64::from(date.to_unix_epoch_day())
}

fn second_at(day: i64, hour: u32, minute: u32, second: u32) -> i64
    requires day { IsEpochDay day }
    requires hour { hour ≤ 2277 }
    requires minute { minute ≤ 2277 }
    requires second { second ≤ 2277 }
    ensures { result ≡ day *ℤ pos 86400 +ℤ pos (hour * 3600 + minute * 60 + second) }
{
    let of_day = hour * 3600 + minute * 60 + second;
    day * 86_400 + i64::from(of_day)
}

fn seconds_in(text: &[u8]) -> Option<i64>
    requires { length text.now ≡ 20 }
    ensures { result ≡ (if date_is_good (year_in text.now) (two_digits_at 5 text.now) (two_digits_at 8 text.now)
        && clock_is_good (two_digits_at 11 text.now) (two_digits_at 14 text.now) (two_digits_at 17 text.now)
        then Some (seconds_of_text text.now) else None) }
{
    let year = two_at(text, 0) * 100 + two_at(text, 2);
    let month = two_at(text, 5);
    let day = two_at(text, 8);
    let hour = two_at(text, 11);
    let minute = two_at(text, 14);
    let second = two_at(text, 17);
    if has_date(year, month, day) && has_clock(hour, minute, second) {
        Some(second_at(day_number(year, month, day), hour, minute, second))
    } else {
        None
    }
}

/// The moment that a text writes, in the form `YYYY-MM-DDTHH:MM:SSZ` alone.
pub(crate) fn moment_in(text: &str) -> Result<Value, EvalStop>
    ensures { Gives result (moment_of_text text.now) }
{
    let text = text.as_bytes();
    if !fits_form(b"dddd-dd-ddTdd:dd:ddZ", text) {
        return bad_text();
    }
    match seconds_in(text) {
        Some(seconds) => Ok(Value::Time(seconds)),
        None => bad_text(),
    }
}
