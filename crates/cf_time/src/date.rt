//! The fields and the text of a time.
ghost use Rattle.std.specs.Prelude.{◌≡◌, ◌*◌, ◌<◌, pos};
ghost use Rattle.xr_times.specs.Times.{IsTime, all_days, seconds_since, field_of, digit, time_text};

use crate::calendar::{date_at, epoch};
use xr_times::Field;
use xr_types::Calendar;

/// The seconds from 0001-01-01T00:00:00 to a time.
#[tactic(auto, using(crate::proofs::Epochs::most_days))]
pub fn since(label: i64, calendar: Calendar) -> u64
    requires { IsTime calendar label }
    ensures value { result ≡ seconds_since calendar label }
    ensures within { result < 86400 * all_days calendar }
    ensures bound { result < 315537897600 }
{
    (label + epoch(calendar)) as u64
}

/// A field of a time.
pub fn field(label: i64, field: Field, calendar: Calendar) -> i64
    requires { IsTime calendar label }
    ensures { result ≡ pos (field_of calendar label field) }
{
    let since = since(label, calendar);
    let (day, second) = (since / 86_400, since % 86_400);
    match field {
        Field::Year => i64::from(date_at(calendar, day).year),
        Field::Month => i64::from(date_at(calendar, day).month),
        Field::Day => i64::from(date_at(calendar, day).day),
        Field::Hour => (second / 3_600) as i64,
        Field::Minute => (second % 3_600 / 60) as i64,
        Field::Second => (second % 60) as i64,
        Field::DayOfYear => i64::from(date_at(calendar, day).ordinal),
        Field::DayOfWeek => (day % 7) as i64,
    }
}

/// The last decimal digit of a number.
fn digit(number: u64) -> u8
    ensures { result ≡ digit number }
{
    (number % 10) as u8 + b'0'
}

/// The text of a time, `YYYY-MM-DDThh:mm:ss`.
pub fn text(label: i64, calendar: Calendar) -> [u8; 19]
    requires { IsTime calendar label }
    ensures { result ≡ time_text calendar label }
{
    let since = since(label, calendar);
    let second = since % 86_400;
    let date = date_at(calendar, since / 86_400);
    let (year, month, day) = (
        u64::from(date.year),
        u64::from(date.month),
        u64::from(date.day),
    );
    let (hour, minute, second) = (second / 3_600, second % 3_600 / 60, second % 60);
    [
        digit(year / 1000),
        digit(year / 100),
        digit(year / 10),
        digit(year),
        b'-',
        digit(month / 10),
        digit(month),
        b'-',
        digit(day / 10),
        digit(day),
        b'T',
        digit(hour / 10),
        digit(hour),
        b':',
        digit(minute / 10),
        digit(minute),
        b':',
        digit(second / 10),
        digit(second),
    ]
}
