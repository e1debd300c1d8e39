//! Numbers and dates give each other again.
ghost use Rattle.std.specs.Prelude.{◌≡◌, ◌≢◌, ◌↔◌, IsTrue, true};
ghost use Rattle.xr_types.specs.declared.axis.Calendar.TheVariants.{Civil};
ghost use Rattle.cf_calendar.specs.Dates.{IsNamed};

use crate::date::CalDate;
use crate::number::{date_of, day_of};
use xr_types::Calendar;

/// Whether a date has this year, month and day.
fn is_named(date: CalDate, year: i64, month: i64, day: i64) -> bool
    ensures { IsTrue result ↔ IsNamed date year month day }
{
    i64::from(date.year) == year && i64::from(date.month) == month && i64::from(date.day) == day
}

/// Whether a number, if a date has it, is again the number of that date. It always is.
pub fn number_again(calendar: Calendar, number: i64) -> bool
    requires { calendar ≢ Civil }
    ensures { result ≡ true }
{
    let Some(date) = date_of(calendar, number) else {
        return true;
    };
    match day_of(
        calendar,
        i64::from(date.year),
        i64::from(date.month),
        i64::from(date.day),
    ) {
        Some(again) => again == number,
        None => false,
    }
}

/// Whether a date, if the calendar has it, is again the date of its number. It always is.
pub fn date_again(calendar: Calendar, year: i64, month: i64, day: i64) -> bool
    requires { calendar ≢ Civil }
    ensures { result ≡ true }
{
    let Some(number) = day_of(calendar, year, month, day) else {
        return true;
    };
    match date_of(calendar, number) {
        Some(again) => is_named(again, year, month, day),
        None => false,
    }
}
