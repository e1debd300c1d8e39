//! Bins of times.
ghost use Rattle.std.specs.Prelude.{◌≡◌, ◌+◌, ◌-◌, ◌*◌, ◌<◌, ◌≤◌, ◌^◌, ℕ, pos, All, IfOk, length, map, slice_index_or};
ghost use Rattle.std.specs.List.{range_with_len};
ghost use Rattle.xr_times.specs.Times.{IsTime, all_days};
ghost use Rattle.xr_times.specs.Bins.{IsFreq, IsBin, IsFew, BinsAre, bin_number, bin_start, rises_from, rises, first_midnight, first_bin, bin_count, bin_starts, label_bins, bins_of};

use crate::calendar::{epoch, time_at};
use crate::date::since;
use crate::run::{Run, next_run, run_at};
use std::alloc::{AllocError, Global};
use xr_times::{BinList, Freq};
use xr_types::{Calendar, CallFault, Fault, Items};

/// Whether each time is at least the one before, the first at least this one.
fn rises_from(before: i64, labels: &[i64]) -> bool
    ensures { result ≡ rises_from before labels.now }
{
    let mut last = before;
    for label in labels {
        if last > *label {
            return false;
        }
        last = *label;
    }
    true
}

/// Whether each time is at least the one before.
fn rises(labels: &[i64]) -> bool
    ensures { result ≡ rises labels.now }
{
    match labels {
        [first, rest @ ..] => rises_from(*first, rest),
        [] => true,
    }
}

/// The label at a place, or 1970-01-01 past the end.
#[tactic(auto, using(crate::proofs::Epochs::zero_time))]
fn label_at(calendar: Calendar, labels: &[i64], at: usize) -> i64
    requires { All (IsTime calendar) labels.now }
    ensures value { result ≡ slice_index_or labels.now at (pos 0) }
    ensures time { IsTime calendar result }
{
    match labels.get(at) {
        Some(label) => *label,
        None => 0,
    }
}

/// The first second of a bin.
#[tactic(auto, using(crate::proofs::Epochs::most_days, crate::proofs::Epochs::some_days))]
fn start(calendar: Calendar, freq: Freq, first: u64, number: u64) -> i64
    requires { IsBin calendar freq first number }
    ensures { result ≡ bin_start calendar freq first number }
{
    match freq {
        Freq::Seconds(width) => (first + number * width) as i64 - epoch(calendar),
        Freq::Months => time_at(
            calendar,
            (number / 12) as u16,
            (number % 12 + 1) as u8,
            1,
            0,
        ),
        Freq::Years => time_at(calendar, number as u16, 1, 1, 0),
    }
}

/// Where the bins of labels begin and how many there are.
#[derive(Clone, Copy)]
struct Ends {
    midnight: u64,
    low: u64,
    count: u64,
}

/// From the bin of the first label to that of the last.
fn reach(calendar: Calendar, freq: Freq, labels: &[i64]) -> Ends
    requires freq { IsFreq freq }
    requires times { All (IsTime calendar) labels.now }
    ensures midnight { result.midnight ≡ first_midnight calendar labels.now }
    ensures low { result.low ≡ first_bin calendar freq labels.now }
    ensures count { result.count ≡ bin_count calendar freq labels.now }
    ensures bound { result.midnight < 86400 * all_days calendar }
    ensures small { result.low < 315537897600 }
    ensures fit { (j : ℕ) → result.low ≤ j → j < result.low + result.count → IsBin calendar freq result.midnight j }
{
    let head = since(label_at(calendar, labels, 0), calendar);
    let tail = since(
        label_at(calendar, labels, labels.len().saturating_sub(1)),
        calendar,
    );
    let midnight = 86_400 * (head / 86_400);
    let low = run_at(calendar, freq, midnight, head).number;
    let high = run_at(calendar, freq, midnight, tail).number;
    if labels.is_empty() {
        return Ends {
            midnight,
            low,
            count: 0,
        };
    }
    Ends {
        midnight,
        low,
        count: high.saturating_sub(low) + 1,
    }
}

/// The first second of each of so many bins.
#[tactic(auto, using(crate::proofs::Binned::starts_push))]
fn starts_from(
    alloc: Global,
    calendar: Calendar,
    freq: Freq,
    midnight: u64,
    low: u64,
    count: u64,
) -> Result<Vec<i64>, AllocError>
    requires most { count ≤ 33554432 }
    requires fit { (j : ℕ) → low ≤ j → j < low + count → IsBin calendar freq midnight j }
    requires bound { low < 315537897600 }
    ensures { IfOk result (λ v. v.items ≡ map (bin_start calendar freq midnight) (range_with_len low count)) }
{
    let mut starts = Vec::with_capacity(alloc, count as usize)?;
    for at in 0..count {
        starts.push(start(calendar, freq, midnight, low + at))?;
    }
    Ok(starts)
}

/// The place of a bin behind the first one.
fn place(calendar: Calendar, freq: Freq, midnight: u64, number: u64, low: u64) -> u32
    requires bin { IsBin calendar freq midnight number }
    requires few { IsFew freq (number - low) }
    ensures { result ≡ number - low }
{
    number.saturating_sub(low) as u32
}

/// The place of the bin of each label. Labels in one bin cost one look at the calendar.
fn places(
    alloc: Global,
    calendar: Calendar,
    freq: Freq,
    midnight: u64,
    low: u64,
    labels: &[i64],
) -> Result<Vec<u32>, AllocError>
    requires freq { IsFreq freq }
    requires midnight { midnight < 86400 * all_days calendar }
    requires times { All (IsTime calendar) labels.now }
    requires few { All (λ t. IsFew freq (bin_number calendar freq midnight t - low)) labels.now }
    ensures { IfOk result (λ v. v.items ≡ map (λ t. bin_number calendar freq midnight t - low) labels.now) }
{
    let mut places = Vec::with_capacity(alloc, labels.len())?;
    let mut run = run_at(calendar, freq, midnight, midnight);
    for label in labels {
        run = next_run(calendar, freq, midnight, run, *label);
        places.push(place(calendar, freq, midnight, run.number, low))?;
    }
    Ok(places)
}

/// The bins of labels: of a width, counted from the midnight of the first label's day, or calendar months or
/// years, from the bin of the first label to that of the last. Refused are labels that don't ascend, then more
/// than 2^25 bins (xarray and pandas, `resample`).
pub fn bins(
    alloc: Global,
    labels: &[i64],
    freq: Freq,
    calendar: Calendar,
) -> Result<BinList, CallFault>
    requires times { All (IsTime calendar) labels.now }
    requires freq { IsFreq freq }
    ensures { BinsAre result (bins_of calendar freq labels.now) }
{
    if !rises(labels) {
        return Err(CallFault::Refused(Fault::NotMonotonic));
    }
    let ends = reach(calendar, freq, labels);
    if ends.count > 33_554_432 {
        return Err(CallFault::Refused(Fault::TooLarge));
    }
    let starts = starts_from(alloc, calendar, freq, ends.midnight, ends.low, ends.count)?;
    let bin = places(alloc, calendar, freq, ends.midnight, ends.low, labels)?;
    Ok(BinList {
        starts: Items::of(starts),
        bin: Items::of(bin),
    })
}
