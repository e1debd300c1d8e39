//! Runs of times that lie in one bin.
ghost use Rattle.std.specs.Prelude.{◌≡◌, ◌-◌, ◌+◌, ◌*◌, ◌/◌, ◌<◌, ◌≤◌, ℕ, ℤ};
ghost use Rattle.xr_times.specs.Times.{IsTime, all_days, seconds_since, year_at, month_at};
ghost use Rattle.xr_times.specs.declared.time.Freq.TheVariants as freqs;
ghost use Rattle.xr_times.specs.Bins.{IsFreq, IsRun, IsBin, bin_number};

use crate::calendar::{date_at, month_days, year_days};
use crate::date::since;
use xr_times::Freq;
use xr_types::Calendar;

/// The number of a bin, and the times in it from one to before another, in seconds from 0001-01-01T00:00:00.
#[derive(Clone, Copy)]
pub struct Run {
    pub number: u64,
    pub from: u64,
    pub to: u64,
}

/// The bin of a width.
#[tactic(auto, using(crate::proofs::Epochs::most_days))]
fn of_width(calendar: Calendar, width: u64, first: u64, since: u64) -> Run
    requires width { 0 < width }
    requires first { first < 86400 * all_days calendar }
    requires since { since < 86400 * all_days calendar }
    ensures number { result.number ≡ (since - first) / width }
    ensures run { IsRun calendar (freqs.Seconds width) first result.number result.from result.to }
    ensures bin { IsBin calendar (freqs.Seconds width) first result.number }
    ensures small { result.number < 315537897600 }
{
    let behind = since.saturating_sub(first);
    let number = behind / width;
    let from = first + number * width;
    let to = from.saturating_add(width);
    Run { number, from, to }
}

/// The calendar month of a day, counted from 0001-01-01.
fn of_month(calendar: Calendar, day: u64) -> Run
    requires { day < all_days calendar }
    ensures number { result.number ≡ 12 * year_at calendar day + month_at calendar day - 1 }
    ensures run { (first : ℕ) → IsRun calendar freqs.Months first result.number result.from result.to }
    ensures bin { (first : ℕ) → IsBin calendar freqs.Months first result.number }
    ensures small { result.number < 120000 }
{
    let date = date_at(calendar, day);
    let from = day + 1 - u64::from(date.day);
    let to = from + u64::from(month_days(calendar, date.year, date.month));
    Run {
        number: 12 * u64::from(date.year) + u64::from(date.month) - 1,
        from: 86_400 * from,
        to: 86_400 * to,
    }
}

/// The year of a day, counted from 0001-01-01.
fn of_year(calendar: Calendar, day: u64) -> Run
    requires { day < all_days calendar }
    ensures number { result.number ≡ year_at calendar day }
    ensures run { (first : ℕ) → IsRun calendar freqs.Years first result.number result.from result.to }
    ensures bin { (first : ℕ) → IsBin calendar freqs.Years first result.number }
    ensures small { result.number < 120000 }
{
    let date = date_at(calendar, day);
    let from = day + 1 - u64::from(date.ordinal);
    let to = from + u64::from(year_days(calendar, date.year));
    Run {
        number: u64::from(date.year),
        from: 86_400 * from,
        to: 86_400 * to,
    }
}

/// The bin of a time, in seconds from 0001-01-01T00:00:00.
pub fn run_at(calendar: Calendar, freq: Freq, first: u64, since: u64) -> Run
    requires freq { IsFreq freq }
    requires first { first < 86400 * all_days calendar }
    requires since { since < 86400 * all_days calendar }
    ensures number { (t : ℤ) → seconds_since calendar t ≡ since → bin_number calendar freq first t ≡ result.number }
    ensures run { IsRun calendar freq first result.number result.from result.to }
    ensures bin { IsBin calendar freq first result.number }
    ensures small { result.number < 315537897600 }
{
    match freq {
        Freq::Seconds(width) => of_width(calendar, width, first, since),
        Freq::Months => of_month(calendar, since / 86_400),
        Freq::Years => of_year(calendar, since / 86_400),
    }
}

/// The bin of a label: the one at hand, where the label lies in it.
pub fn next_run(calendar: Calendar, freq: Freq, first: u64, run: Run, label: i64) -> Run
    requires freq { IsFreq freq }
    requires first { first < 86400 * all_days calendar }
    requires run { IsRun calendar freq first run.number run.from run.to }
    requires bin { IsBin calendar freq first run.number }
    requires label { IsTime calendar label }
    ensures number { result.number ≡ bin_number calendar freq first label }
    ensures run { IsRun calendar freq first result.number result.from result.to }
    ensures bin { IsBin calendar freq first result.number }
{
    let since = since(label, calendar);
    if run.from <= since && since < run.to {
        return run;
    }
    run_at(calendar, freq, first, since)
}
