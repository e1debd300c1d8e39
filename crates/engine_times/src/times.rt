//! Fields and bins of times.
ghost use Rattle.std.specs.Prelude.{All, IfOk};
ghost use Rattle.xr_types.specs.declared.axis.Calendar.TheVariants.{Civil};
ghost use Rattle.xr_times.specs.Times.{IsTime};
ghost use Rattle.xr_times.specs.Bins.{IsFreq};

use anyhow::Result;
use cf_time::{bins, fields};
use std::alloc::{AllocError, Global};
use std::rt::Clock;
use std::time::Instant;
use xr_times::{Field, Freq};
use xr_types::Calendar;

// An hour behind 2000-01-01.
fn hour(i: u32) -> i64
    ensures { IsTime Civil result }
{
    946_684_800 + 3_600 * i64::from(i % 70_000_000)
}

fn hours(alloc: Global, count: u32) -> std::result::Result<Vec<i64>, AllocError>
    ensures { IfOk result (λ v. All (IsTime Civil) v.items) }
{
    let mut list = Vec::new(alloc);
    for i in 0..count {
        list.push(hour(i))?;
    }
    Ok(list)
}

/// The least time of a field of so many hourly times, and the last of them.
pub fn field_timed<C: Clock>(
    clock: &C,
    alloc: Global,
    field: Field,
    count: u32,
    times: u32,
) -> Result<(u128, i128)> {
    let labels = hours(alloc, count)?;
    let mut least = u128::MAX;
    let mut number = 0;
    for _ in 0..times {
        let start = Instant::now(clock)?;
        let Ok(values) = fields(alloc, labels.as_slice(), field, Calendar::Civil) else {
            return Ok((0, 0));
        };
        least = least.min(start.elapsed(clock)?.as_nanos());
        if let Some(last) = values.as_slice().last() {
            number = i128::from(*last);
        }
    }
    Ok((least, number))
}

/// The least time of the bins of so many hourly times, and the last of their places.
pub fn bins_timed<C: Clock>(
    clock: &C,
    alloc: Global,
    freq: Freq,
    count: u32,
    times: u32,
) -> Result<(u128, i128)>
    requires { IsFreq freq }
{
    let labels = hours(alloc, count)?;
    let mut least = u128::MAX;
    let mut number = 0;
    for _ in 0..times {
        let start = Instant::now(clock)?;
        let Ok(list) = bins(alloc, labels.as_slice(), freq, Calendar::Civil) else {
            return Ok((0, 0));
        };
        least = least.min(start.elapsed(clock)?.as_nanos());
        if let Some(last) = list.bin.as_slice().last() {
            number = i128::from(*last);
        }
    }
    Ok((least, number))
}
