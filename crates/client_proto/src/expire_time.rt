ghost use Rattle.std.specs.Prelude.{◌≡◌, ◌&&◌, ◌+◌, ◌*◌, ◌<◌, ◌≤◌, pos, unsigned_abs, length, true};
ghost use Rattle.jiff_core.specs.Calendar.{days_from_civil};
ghost use Rattle.client_proto.specs.ExpireTimes as times;

use jiff_core::civil::{Date, days_in_month};

const SECOND_SIZE: usize = 19;

// `d` stands for a digit.
#[tactic(auto, using(crate::proofs::Forms::other_form, crate::proofs::Forms::form_from))]
fn fits_form(form: &[u8], text: &[u8]) -> bool
    ensures { result ≡ times.fits_form form.now text.now }
{
    if form.len() != text.len() {
        return false;
    }
    for index in 0..form.len() {
        if !fits(form[index], text[index]) {
            return false;
        }
    }
    true
}

fn fits(form: u8, byte: u8) -> bool
    ensures { result ≡ times.byte_fits form byte }
{
    if form == 100 {
        byte.is_ascii_digit()
    } else {
        byte == form
    }
}

// `Z`, or a point, 1 to 9 digits and `Z`.
#[tactic(auto, unfolding(crate::specs::ExpireTimes::end_forms))]
fn is_end(text: &[u8]) -> bool
    ensures { result ≡ times.is_end text.now }
{
    fits_form(b"Z", text)
        || fits_form(b".dZ", text)
        || fits_form(b".ddZ", text)
        || fits_form(b".dddZ", text)
        || fits_form(b".ddddZ", text)
        || fits_form(b".dddddZ", text)
        || fits_form(b".ddddddZ", text)
        || fits_form(b".dddddddZ", text)
        || fits_form(b".ddddddddZ", text)
        || fits_form(b".dddddddddZ", text)
}

fn two_at(text: &[u8], at: usize) -> u32
    requires { at + 1 < length text.now }
    ensures value { result ≡ times.two_at at text.now }
    ensures bound { result ≤ 2277 }
{
    u32::from(text[at].saturating_sub(48)) * 10 + u32::from(text[at + 1].saturating_sub(48))
}

fn has_date(year: u32, month: u32, day: u32) -> bool
    ensures { result ≡ times.has_date year month day }
{
    1970 <= year
        && year <= 9999
        && 1 <= month
        && month <= 12
        && 1 <= day
        && day <= u32::from(days_in_month(year as i16, month as u8))
}

fn has_clock(hour: u32, minute: u32, second: u32) -> bool
    ensures { result ≡ times.has_clock hour minute second }
{
    hour <= 23 && minute <= 59 && second <= 59
}

fn day_number(year: u32, month: u32, day: u32) -> u64
    requires { times.has_date year month day ≡ true }
    ensures value { result ≡ times.day_number year month day }
    ensures bound { result ≤ 4_371_587 }
{
    let date = Date::constrain(year as i16, month as u8, day as u8);
    u64::from(date.to_unix_epoch_day().unsigned_abs())
}

fn second_at(day: u64, hour: u32, minute: u32, second: u32) -> u64
    requires day { day ≤ 4_371_587 }
    requires hour { hour ≤ 2277 }
    requires minute { minute ≤ 2277 }
    requires second { second ≤ 2277 }
    ensures { result ≡ day * 86400 + (hour * 3600 + minute * 60 + second) }
{
    day * 86_400 + u64::from(hour * 3600 + minute * 60 + second)
}

fn second_of(text: &[u8]) -> Option<u64>
    requires { length text.now ≡ 19 }
    ensures { result ≡ times.second_of text.now }
{
    let year = two_at(text, 0) * 100 + two_at(text, 2);
    let month = two_at(text, 5);
    let day = two_at(text, 8);
    let hour = two_at(text, 11);
    let minute = two_at(text, 14);
    let second = two_at(text, 17);
    if has_date(year, month, day) && has_clock(hour, minute, second) {
        Some(second_at(day_number(year, month, day), hour, minute, second))
    } else {
        None
    }
}

/// The moment that a text writes, in the form `YYYY-MM-DDTHH:MM:SSZ` from 1970 on, perhaps with a fraction of 1 to 9 digits behind the
/// second, which is dropped.
#[tactic(auto, unfolding(crate::specs::ExpireTimes::expire_time_of))]
pub(crate) fn read_expire_time(text: &[u8]) -> Option<u64>
    ensures { result ≡ times.expire_time_of text.now }
{
    if text.len() < SECOND_SIZE {
        return None;
    }
    let (second, end) = text.split_at(SECOND_SIZE);
    if !fits_form(b"dddd-dd-ddTdd:dd:dd", second) {
        return None;
    }
    if !is_end(end) {
        return None;
    }
    second_of(second)
}
