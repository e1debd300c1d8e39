//! Times as a file counts them.
ghost use Rattle.std.specs.Prelude.{◌≡◌, ◌&&◌, ◌||◌, pos, IfSome, Some, None, if◌then◌else◌};
ghost use Rattle.xr_times.specs.Units.{units};
ghost use Rattle.xr_times.specs.Times.{IsTime, unit_seconds, is_time, is_gregorian, decoded};

use crate::calendar::{end, epoch};
use xr_types::{Calendar, TimeUnit, Units};

/// The seconds of a unit.
fn unit_seconds(unit: TimeUnit) -> i128
    ensures { result ≡ pos (unit_seconds unit) }
{
    match unit {
        TimeUnit::Days => 86_400,
        TimeUnit::Hours => 3_600,
        TimeUnit::Minutes => 60,
        TimeUnit::Seconds => 1,
    }
}

/// Whether a time lies in the years 1 to 9999.
fn is_time(calendar: Calendar, time: i128) -> bool
    ensures { result ≡ is_time calendar time }
{
    time >= -i128::from(epoch(calendar)) && time < i128::from(end(calendar))
}

/// Whether a time isn't before 1582-10-15.
fn is_gregorian(time: i128) -> bool
    ensures { result ≡ is_gregorian time }
{
    time >= -12_219_292_800
}

/// A time that the units decode.
fn bounded(calendar: Calendar, early: bool, time: i128) -> Option<i64>
    ensures value { result ≡ (if is_time calendar time && (early || is_gregorian time) then Some time else None) }
    ensures time { IfSome result (λ t. IsTime calendar t) }
{
    if !is_time(calendar, time) {
        return None;
    }
    if !early && !is_gregorian(time) {
        return None;
    }
    Some(time as i64)
}

/// The time that a count stands for, in seconds from 1970-01-01T00:00:00: the reference plus the count times
/// the unit. There is none outside the years 1 to 9999 and, where early times aren't decoded, before 1582-10-15.
pub fn decode(units: &Units, count: i128) -> Option<i64>
    ensures value { result ≡ decoded units.now count }
    ensures time { IfSome result (λ t. IsTime units.now.calendar t) }
{
    let reference = i128::from(units.reference);
    let Some(offset) = count.checked_mul(unit_seconds(units.unit)) else {
        return None;
    };
    let Some(time) = reference.checked_add(offset) else {
        return None;
    };
    bounded(units.calendar, units.early, time)
}

/// Units from a reference, if the calendar reads it: one before 1582-10-15 only where early times are read.
pub fn units_with(unit: TimeUnit, reference: i64, calendar: Calendar, early: bool) -> Option<Units>
    ensures { result ≡ units unit reference calendar early }
{
    if !early && reference < -12_219_292_800 {
        return None;
    }
    Some(Units {
        unit,
        reference,
        calendar,
        early,
    })
}
