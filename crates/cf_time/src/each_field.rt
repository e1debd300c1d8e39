//! A field of each of many times.
ghost use Rattle.std.specs.Prelude.{◌≡◌, ◌<◌, ◌/◌, true, pos, All, IfOk, map};
ghost use Rattle.xr_times.specs.Times.{IsTime, all_days, field_of};
ghost use Rattle.cf_time.specs.Fields.{is_of_day, day_field};

use crate::calendar::date_at;
use crate::date::{field, since};
use std::alloc::{AllocError, Global};
use xr_times::Field;
use xr_types::{Calendar, NoMemory};

/// A field that the date of a day has.
fn of_day(calendar: Calendar, day: u64, field: Field) -> i64
    requires { day < all_days calendar }
    ensures { result ≡ pos (day_field calendar day field) }
{
    match field {
        Field::Year => i64::from(date_at(calendar, day).year),
        Field::Month => i64::from(date_at(calendar, day).month),
        Field::Day => i64::from(date_at(calendar, day).day),
        Field::DayOfYear => i64::from(date_at(calendar, day).ordinal),
        Field::Hour | Field::Minute | Field::Second | Field::DayOfWeek => 0,
    }
}

/// A day and its field.
#[derive(Clone, Copy)]
struct Last {
    day: u64,
    value: i64,
}

/// The day of a time and its field: those at hand, where the day is the same.
#[tactic(auto, using(crate::proofs::Days::same_day))]
fn kept(calendar: Calendar, last: Last, label: i64, field: Field) -> Last
    requires last { last.value ≡ pos (day_field calendar last.day field) }
    requires label { IsTime calendar label }
    requires field { is_of_day field ≡ true }
    ensures day { result.value ≡ pos (day_field calendar result.day field) }
    ensures label { result.value ≡ pos (field_of calendar label field) }
{
    let day = since(label, calendar) / 86_400;
    if day == last.day {
        return last;
    }
    Last {
        day,
        value: of_day(calendar, day, field),
    }
}

/// A field of the date of each time. Times of one day cost one look at the calendar.
fn by_day(
    alloc: Global,
    labels: &[i64],
    field: Field,
    calendar: Calendar,
) -> Result<Vec<i64>, AllocError>
    requires times { All (IsTime calendar) labels.now }
    requires field { is_of_day field ≡ true }
    ensures { IfOk result (λ v. v.items ≡ map (λ t. pos (field_of calendar t field)) labels.now) }
{
    let mut values = Vec::with_capacity(alloc, labels.len())?;
    let mut last = Last {
        day: 0,
        value: of_day(calendar, 0, field),
    };
    for label in labels {
        last = kept(calendar, last, *label, field);
        values.push(last.value)?;
    }
    Ok(values)
}

/// A field of each time.
fn by_label(
    alloc: Global,
    labels: &[i64],
    part: Field,
    calendar: Calendar,
) -> Result<Vec<i64>, AllocError>
    requires times { All (IsTime calendar) labels.now }
    ensures { IfOk result (λ v. v.items ≡ map (λ t. pos (field_of calendar t part)) labels.now) }
{
    let mut values = Vec::with_capacity(alloc, labels.len())?;
    for label in labels {
        values.push(field(*label, part, calendar))?;
    }
    Ok(values)
}

/// A field of each of many times, in their order.
pub fn fields(
    alloc: Global,
    labels: &[i64],
    field: Field,
    calendar: Calendar,
) -> Result<Vec<i64>, NoMemory>
    requires { All (IsTime calendar) labels.now }
    ensures { IfOk result (λ v. v.items ≡ map (λ t. pos (field_of calendar t field)) labels.now) }
{
    match field {
        Field::Year | Field::Month | Field::Day | Field::DayOfYear => {
            Ok(by_day(alloc, labels, field, calendar)?)
        }
        Field::Hour | Field::Minute | Field::Second | Field::DayOfWeek => {
            Ok(by_label(alloc, labels, field, calendar)?)
        }
    }
}
