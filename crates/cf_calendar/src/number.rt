//! The numbers of dates, by a division.
ghost use Rattle.std.specs.Prelude.{◌≡◌, ◌≢◌, ◌<◌, ◌≤◌, ◌*◌, ℤ, MatchOption};
ghost use Rattle.xr_types.specs.declared.axis.Calendar.TheVariants.{Civil};
ghost use Rattle.cf_calendar.specs.Dates.{HasNumber, IsNamed, IsDay};
ghost use Rattle.cf_calendar.specs.Places.{IsDate, place, year_days};
ghost use Rattle.cf_calendar.specs.declared.date.CalDate.{CalDate};

use crate::date::CalDate;
use crate::month::{day_behind, days_before, month_days, year_days};
use xr_types::Calendar;

/// The date of a year, a month and a day, if the calendar has it.
fn date_with(calendar: Calendar, year: i64, month: i64, day: i64) -> Option<CalDate>
    ensures { MatchOption result ((d : CalDate) → IsDate calendar d → IsNamed d year month day → ⊥) (λ d. IsDate calendar d × IsNamed d year month day) }
{
    if year < 1 || year > 9999 || month < 1 || month > 12 || day < 1 {
        return None;
    }
    let month = month as u8;
    if day > i64::from(month_days(calendar, month)) {
        return None;
    }
    Some(CalDate {
        year: year as u16,
        month,
        day: day as u8,
    })
}

/// How many dates there are before a date.
pub fn place(calendar: Calendar, date: CalDate) -> u32
    requires served { calendar ≢ Civil }
    requires date { IsDate calendar date }
    ensures value { result ≡ place calendar date }
    ensures bound { result < 9999 * year_days calendar }
{
    let years = (u32::from(date.year) - 1) * year_days(calendar);
    years + (days_before(calendar, date.month) + (u32::from(date.day) - 1))
}

/// The date before which there are so many dates.
pub fn date_at(calendar: Calendar, at: u32) -> CalDate
    requires served { calendar ≢ Civil }
    requires within { at < 9999 * year_days calendar }
    ensures date { IsDate calendar result }
    ensures place { place calendar result ≡ at }
{
    let days = year_days(calendar);
    let behind = day_behind(calendar, at % days);
    CalDate {
        year: (at / days) as u16 + 1,
        month: behind.month,
        day: behind.day,
    }
}

/// The number of a date.
fn number_of(calendar: Calendar, date: CalDate) -> i64
    requires served { calendar ≢ Civil }
    requires date { IsDate calendar date }
    ensures { HasNumber calendar date result }
{
    let first = 1969 * year_days(calendar);
    i64::from(place(calendar, date)) - i64::from(first)
}

/// The number of a date, counted from 1970-01-01, in a calendar whose years are alike. None where the calendar
/// has no such date in the years 1 to 9999.
pub fn day_of(calendar: Calendar, year: i64, month: i64, day: i64) -> Option<i64>
    requires { calendar ≢ Civil }
    ensures { MatchOption result ((n : ℤ) → IsDay calendar year month day n → ⊥) (λ n. IsDay calendar year month day n) }
{
    match date_with(calendar, year, month, day) {
        Some(date) => Some(number_of(calendar, date)),
        None => None,
    }
}

/// The date of a number, counted from 1970-01-01, in a calendar whose years are alike. None where no date in the
/// years 1 to 9999 has the number.
pub fn date_of(calendar: Calendar, number: i64) -> Option<CalDate>
    requires { calendar ≢ Civil }
    ensures { MatchOption result ((d : CalDate) → HasNumber calendar d number → ⊥) (λ d. HasNumber calendar d number) }
{
    let days = i64::from(year_days(calendar));
    let first = 1969 * days;
    if number < -first || number >= 9999 * days - first {
        return None;
    }
    Some(date_at(calendar, (number + first) as u32))
}
