//! Times as a file counts them when it is written.
ghost use Rattle.std.specs.Prelude.{◌≡◌, ◌<◌, pos, neg_ℤ};
ghost use Rattle.xr_times.specs.Times.{unit_seconds};
ghost use Rattle.xr_times.specs.Counts.{is_count, are_counts, IsCount, written_unit};

use xr_types::{TimeUnit, Units};

/// The seconds of a unit.
fn seconds_of(unit: TimeUnit) -> u64
    ensures value { result ≡ unit_seconds unit }
    ensures some { 0 < result }
{
    match unit {
        TimeUnit::Days => 86_400,
        TimeUnit::Hours => 3_600,
        TimeUnit::Minutes => 60,
        TimeUnit::Seconds => 1,
    }
}

/// Whether a time is so many whole units before or after a reference.
fn is_count(unit: TimeUnit, reference: i64, label: i64) -> bool
    ensures { result ≡ is_count unit reference label }
{
    label.abs_diff(reference) % seconds_of(unit) == 0
}

/// Whether each time is.
fn are_counts(unit: TimeUnit, reference: i64, labels: &[i64]) -> bool
    ensures { result ≡ are_counts unit reference labels.now }
{
    for label in labels {
        if !is_count(unit, reference, *label) {
            return false;
        }
    }
    true
}

/// So many units before the reference.
fn units_before(far: u64) -> i128
    ensures { result ≡ neg_ℤ (pos far) }
{
    -i128::from(far)
}

/// So many units behind it.
fn units_behind(far: u64) -> i128
    ensures { result ≡ pos far }
{
    i128::from(far)
}

/// The count of a time in its unit from its reference, where it is whole.
pub fn count(units: &Units, label: i64) -> Option<i128>
    ensures { IsCount units.now label result }
{
    if !is_count(units.unit, units.reference, label) {
        return None;
    }
    let far = label.abs_diff(units.reference) / seconds_of(units.unit);
    if label < units.reference {
        Some(units_before(far))
    } else {
        Some(units_behind(far))
    }
}

/// The unit in which times are written: their own where each is a whole count of it, else the first of days,
/// hours, minutes and seconds of which each is. The reference stays.
pub fn written_unit(units: &Units, labels: &[i64]) -> TimeUnit
    ensures { result ≡ written_unit units.now labels.now }
{
    let reference = units.reference;
    if are_counts(units.unit, reference, labels) {
        units.unit
    } else if are_counts(TimeUnit::Days, reference, labels) {
        TimeUnit::Days
    } else if are_counts(TimeUnit::Hours, reference, labels) {
        TimeUnit::Hours
    } else if are_counts(TimeUnit::Minutes, reference, labels) {
        TimeUnit::Minutes
    } else {
        TimeUnit::Seconds
    }
}
