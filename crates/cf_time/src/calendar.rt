//! The calendars: their dates and the numbers of their days.
ghost use Rattle.std.specs.Prelude.{◌≡◌, ◌≢◌, ◌+◌, ◌*◌, ◌<◌, ◌≤◌, pos, ◌-ℤ◌, ◌≤ℤ◌};
ghost use Rattle.xr_types.specs.declared.axis.Calendar.TheVariants.{Civil};
ghost use Rattle.xr_times.specs.Units.{is_date};
ghost use Rattle.xr_times.specs.Times.{IsDate, all_days, epoch, day_number, month_days, year_days};
ghost use Rattle.cf_time.specs.Days.{DateOf};

use cf_calendar::CalDate;
use jiff_core::civil;
use jiff_core::civil::Date;
use xr_types::Calendar;

/// The seconds from 0001-01-01T00:00:00 to 1970-01-01T00:00:00.
pub fn epoch(calendar: Calendar) -> i64
    ensures value { result ≡ pos (epoch calendar) }
    ensures from { pos 0 ≤ℤ result }
    ensures to { result ≤ℤ pos 62135596800 }
{
    match calendar {
        Calendar::Civil => 62_135_596_800,
        Calendar::NoLeap => 62_094_384_000,
        Calendar::Days360 => 61_243_776_000,
    }
}

/// The time with which the year 9999 has ended.
pub fn end(calendar: Calendar) -> i64
    ensures value { result ≡ pos (86400 * all_days calendar) -ℤ pos (epoch calendar) }
    ensures to { result ≤ℤ pos 253402300800 }
{
    match calendar {
        Calendar::Civil => 253_402_300_800,
        Calendar::NoLeap => 253_234_080_000,
        Calendar::Days360 => 249_765_120_000,
    }
}

/// A date by its numbers: the year, the month, the day of the month and the day of the year.
#[derive(Clone, Copy)]
pub struct Parts {
    pub year: u16,
    pub month: u8,
    pub day: u8,
    pub ordinal: u16,
}

/// The civil date that many days after 0001-01-01.
fn civil_at(day: u64) -> Parts
    requires { day < 3652059 }
    ensures { DateOf Civil result.year result.month result.day result.ordinal day }
{
    let date = Date::from_days_since_min(day as u32 + 3_652_425);
    Parts {
        year: date.year as u16,
        month: date.month,
        day: date.day,
        ordinal: date.day_of_year(),
    }
}

/// The date that many days after 0001-01-01, in a calendar whose years are alike.
fn alike_at(calendar: Calendar, day: u64) -> Parts
    requires alike { calendar ≢ Civil }
    requires within { day < all_days calendar }
    ensures { DateOf calendar result.year result.month result.day result.ordinal day }
{
    let date = cf_calendar::date_at(calendar, day as u32);
    Parts {
        year: date.year,
        month: date.month,
        day: date.day,
        ordinal: (day as u32 % cf_calendar::year_days(calendar)) as u16 + 1,
    }
}

/// The date that many days after 0001-01-01.
pub fn date_at(calendar: Calendar, day: u64) -> Parts
    requires { day < all_days calendar }
    ensures { DateOf calendar result.year result.month result.day result.ordinal day }
{
    match calendar {
        Calendar::Civil => civil_at(day),
        Calendar::NoLeap | Calendar::Days360 => alike_at(calendar, day),
    }
}

/// The days from 0001-01-01 to a date.
fn number_of(calendar: Calendar, year: u16, month: u8, day: u8) -> u32
    requires { IsDate calendar year month day }
    ensures { result ≡ day_number calendar year month day }
{
    match calendar {
        Calendar::Civil => {
            (Date::constrain(year as i16, month, day).to_unix_epoch_day() + 719_162) as u32
        }
        Calendar::NoLeap | Calendar::Days360 => {
            cf_calendar::place(calendar, CalDate { year, month, day })
        }
    }
}

/// The time of a second of a date.
pub fn time_at(calendar: Calendar, year: u16, month: u8, day: u8, second: u32) -> i64
    requires date { IsDate calendar year month day }
    requires second { second < 86400 }
    ensures { result ≡ pos (86400 * day_number calendar year month day + second) -ℤ pos (epoch calendar) }
{
    let day = number_of(calendar, year, month, day);
    i64::from(day) * 86_400 + i64::from(second) - epoch(calendar)
}

/// The days of a month.
pub fn month_days(calendar: Calendar, year: u16, month: u8) -> u8
    requires year { year ≤ 9999 }
    requires from { 1 ≤ month }
    requires to { month ≤ 12 }
    ensures { result ≡ month_days calendar year month }
{
    match calendar {
        Calendar::Civil => civil::days_in_month(year as i16, month),
        Calendar::NoLeap | Calendar::Days360 => cf_calendar::month_days(calendar, month),
    }
}

/// The days of a year.
pub fn year_days(calendar: Calendar, year: u16) -> u32
    requires { year ≤ 9999 }
    ensures { result ≡ year_days calendar year }
{
    match calendar {
        Calendar::Civil => u32::from(civil::days_in_year(year as i16)),
        Calendar::NoLeap | Calendar::Days360 => cf_calendar::year_days(calendar),
    }
}

/// Whether the calendar has a date, in the years 1 to 9999.
pub fn is_date(calendar: Calendar, year: u16, month: u16, day: u16) -> bool
    ensures { result ≡ is_date calendar year month day }
{
    if year == 0 || year > 9999 || month == 0 || month > 12 || day == 0 {
        return false;
    }
    day <= u16::from(month_days(calendar, year, month as u8))
}
