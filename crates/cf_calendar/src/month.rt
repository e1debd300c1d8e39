//! Months and years, which are alike in each year.
ghost use Rattle.std.specs.Prelude.{◌≡◌, ◌≢◌, ◌≤◌, ◌<◌, ◌-◌, ◌+◌};
ghost use Rattle.xr_types.specs.declared.axis.Calendar.TheVariants.{Civil};
ghost use Rattle.cf_calendar.specs.Dates.{month_lengths, month_days};
ghost use Rattle.cf_calendar.specs.Places.{year_days, days_of_months, IsDayOfYear};

use xr_types::Calendar;

/// How many days each month has.
fn month_lengths(calendar: Calendar) -> [u8; 12]
    ensures { result ≡ month_lengths calendar }
{
    match calendar {
        Calendar::Civil => [0, 0, 0, 0, 0, 0, 0, 0, 0, 0, 0, 0],
        Calendar::NoLeap => [31, 28, 31, 30, 31, 30, 31, 31, 30, 31, 30, 31],
        Calendar::Days360 => [30, 30, 30, 30, 30, 30, 30, 30, 30, 30, 30, 30],
    }
}

/// How many days a month has.
#[tactic(auto, unfolding(crate::specs::Dates::month_days))]
pub fn month_days(calendar: Calendar, month: u8) -> u8
    requires from { 1 ≤ month }
    requires to { month ≤ 12 }
    ensures { result ≡ month_days calendar month }
{
    month_lengths(calendar)[usize::from(month) - 1]
}

/// How many days a year has.
pub fn year_days(calendar: Calendar) -> u32
    requires { calendar ≢ Civil }
    ensures value { result ≡ year_days calendar }
    ensures some { 0 < result }
    ensures bound { result ≤ 366 }
{
    match calendar {
        Calendar::Civil => 1,
        Calendar::NoLeap => 365,
        Calendar::Days360 => 360,
    }
}

/// The days of the months before a month.
#[tactic(auto, using(crate::proofs::Months::months_more, crate::proofs::Months::no_months))]
pub fn days_before(calendar: Calendar, month: u8) -> u32
    requires from { 1 ≤ month }
    requires to { month ≤ 12 }
    ensures value { result ≡ days_of_months calendar (month - 1) }
    ensures bound { result ≤ 3060 }
{
    let mut days = 0;
    for earlier in 1..month {
        days += u32::from(month_days(calendar, earlier));
    }
    days
}

/// A month and a day of it.
#[derive(Clone, Copy)]
pub struct MonthDay {
    pub month: u8,
    pub day: u8,
}

/// The month and the day behind so many days of a year.
#[tactic(auto, using(crate::proofs::Months::months_more, crate::proofs::Months::no_months, crate::proofs::Months::year_of_months))]
pub fn day_behind(calendar: Calendar, days: u32) -> MonthDay
    requires { days < year_days calendar }
    ensures { IsDayOfYear calendar days result.month result.day }
{
    let mut rest = days;
    for month in 1..13 {
        let length = u32::from(month_days(calendar, month));
        if rest < length {
            return MonthDay {
                month,
                day: rest as u8 + 1,
            };
        }
        rest -= length;
    }
    MonthDay { month: 12, day: 1 }
}
