//! Date texts of a script.
ghost use Rattle.std.specs.Prelude.{◌≡◌, ◌≤◌, ◌<◌, ◌+◌, ◌*◌, ◌-ℤ◌, ◌&&◌, pos, length, true, if◌then◌else◌, Some, None, IfSome};
ghost use Rattle.xr_times.specs.Times.{IsDate, month_days, is_digit, has_two, two_at, has_year, year_in, has_month, has_day, has_clock, period, year_period, month_period, day_period, clock_period, second_period, date_period};

use crate::calendar::{month_days, time_at};
use xr_times::Period;
use xr_types::Calendar;

/// Whether two digits stand at a place.
fn has_two(text: &[u8], at: usize) -> bool
    requires { at + 2 ≤ length text.now }
    ensures { result ≡ has_two text.now at }
{
    text[at].is_ascii_digit() && text[at + 1].is_ascii_digit()
}

/// The number that two digits write.
fn two_at(text: &[u8], at: usize) -> u8
    requires within { at + 2 ≤ length text.now }
    requires digits { has_two text.now at ≡ true }
    ensures value { result ≡ two_at text.now at }
    ensures bound { result ≤ 99 }
{
    (text[at] - b'0') * 10 + (text[at + 1] - b'0')
}

/// The year at the front of a text.
fn year(text: &[u8]) -> Option<u16>
    requires { 4 ≤ length text.now }
    ensures value { result ≡ (if has_year text.now then Some (year_in text.now) else None) }
    ensures range { IfSome result (λ y. (1 ≤ y) × (y ≤ 9999)) }
{
    if !has_two(text, 0) || !has_two(text, 2) {
        return None;
    }
    let year = u16::from(two_at(text, 0)) * 100 + u16::from(two_at(text, 2));
    if year == 0 {
        return None;
    }
    Some(year)
}

/// The month behind a year.
fn month(text: &[u8]) -> Option<u8>
    requires { 7 ≤ length text.now }
    ensures value { result ≡ (if has_month text.now then Some (two_at text.now 5) else None) }
    ensures range { IfSome result (λ m. (1 ≤ m) × (m ≤ 12)) }
{
    if text[4] != b'-' || !has_two(text, 5) {
        return None;
    }
    let month = two_at(text, 5);
    if month == 0 || month > 12 {
        return None;
    }
    Some(month)
}

/// The day behind a month.
fn day(text: &[u8], calendar: Calendar, year: u16, month: u8) -> Option<u8>
    requires within { 10 ≤ length text.now }
    requires year { year ≡ year_in text.now }
    requires month { month ≡ two_at text.now 5 }
    requires years { year ≤ 9999 }
    requires from { 1 ≤ month }
    requires to { month ≤ 12 }
    ensures value { result ≡ (if has_day calendar text.now then Some (two_at text.now 8) else None) }
    ensures range { IfSome result (λ d. (1 ≤ d) × (d ≤ month_days calendar year month)) }
{
    if text[7] != b'-' || !has_two(text, 8) {
        return None;
    }
    let day = two_at(text, 8);
    if day == 0 || day > month_days(calendar, year, month) {
        return None;
    }
    Some(day)
}

/// The second of the day behind a date.
#[tactic(auto, unfolding(xr_times::specs::Times::has_clock))]
fn clock(text: &[u8]) -> Option<u32>
    requires { 19 ≤ length text.now }
    ensures value { result ≡ (if has_clock text.now then Some (3600 * two_at text.now 11 + 60 * two_at text.now 14 + two_at text.now 17) else None) }
    ensures bound { IfSome result (λ s. s < 86400) }
{
    let mark = text[10];
    if mark != b'T' && mark != b' ' && mark != b'\t' {
        return None;
    }
    if text[13] != b':' || text[16] != b':' {
        return None;
    }
    if !has_two(text, 11) || !has_two(text, 14) || !has_two(text, 17) {
        return None;
    }
    let (hour, minute, second) = (two_at(text, 11), two_at(text, 14), two_at(text, 17));
    if hour >= 24 || minute >= 60 || second >= 60 {
        return None;
    }
    Some(u32::from(hour) * 3_600 + u32::from(minute) * 60 + u32::from(second))
}

/// The period from a date's first second to another's last.
fn period(calendar: Calendar, year: u16, month: u8, day: u8, last_month: u8, last_day: u8) -> Period
    requires from { IsDate calendar year month day }
    requires to { IsDate calendar year last_month last_day }
    ensures { result ≡ period calendar year month day last_month last_day }
{
    Period {
        first: time_at(calendar, year, month, day, 0),
        last: time_at(calendar, year, last_month, last_day, 86_399),
    }
}

#[tactic(auto, using(crate::proofs::Epochs::some_days))]
fn of_year(text: &[u8], calendar: Calendar) -> Option<Period>
    requires { length text.now ≡ 4 }
    ensures { result ≡ year_period calendar text.now }
{
    let year = year(text)?;
    Some(period(calendar, year, 1, 1, 12, month_days(calendar, year, 12)))
}

#[tactic(auto, using(crate::proofs::Epochs::some_days))]
fn of_month(text: &[u8], calendar: Calendar) -> Option<Period>
    requires { length text.now ≡ 7 }
    ensures { result ≡ month_period calendar text.now }
{
    let year = year(text)?;
    let month = month(text)?;
    Some(period(
        calendar,
        year,
        month,
        1,
        month,
        month_days(calendar, year, month),
    ))
}

fn of_day(text: &[u8], calendar: Calendar) -> Option<Period>
    requires { length text.now ≡ 10 }
    ensures { result ≡ day_period calendar text.now }
{
    let Some(year) = year(text) else {
        return None;
    };
    let Some(month) = month(text) else {
        return None;
    };
    let Some(day) = day(text, calendar, year, month) else {
        return None;
    };
    Some(period(calendar, year, month, day, month, day))
}

/// The one second of a date and the time behind it.
fn at_clock(text: &[u8], calendar: Calendar, year: u16, month: u8, day: u8) -> Option<Period>
    requires within { 19 ≤ length text.now }
    requires year { year ≡ year_in text.now }
    requires month { month ≡ two_at text.now 5 }
    requires day { day ≡ two_at text.now 8 }
    requires date { IsDate calendar year month day }
    ensures { result ≡ clock_period calendar text.now }
{
    let Some(second) = clock(text) else {
        return None;
    };
    let time = time_at(calendar, year, month, day, second);
    Some(Period {
        first: time,
        last: time,
    })
}

fn of_second(text: &[u8], calendar: Calendar) -> Option<Period>
    requires { length text.now ≡ 19 }
    ensures { result ≡ second_period calendar text.now }
{
    let Some(year) = year(text) else {
        return None;
    };
    let Some(month) = month(text) else {
        return None;
    };
    let Some(day) = day(text, calendar, year, month) else {
        return None;
    };
    at_clock(text, calendar, year, month, day)
}

/// The period of a date text of a script, from its first to its last second: `YYYY`, `YYYY-MM`, `YYYY-MM-DD`,
/// or that with `T` or a blank and `hh:mm:ss`. None where the text is none or there is no such date.
pub fn read_date(text: &[u8], calendar: Calendar) -> Option<Period>
    ensures { result ≡ date_period calendar text.now }
{
    match text.len() {
        4 => of_year(text, calendar),
        7 => of_month(text, calendar),
        10 => of_day(text, calendar),
        19 => of_second(text, calendar),
        _ => None,
    }
}
