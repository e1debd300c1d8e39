//! Times a call of the engine's crates, for `bench/engine.py`: `engine_times JOB CELLS TIMES` prints the least of so
//! many times, in nanoseconds, and a number that depends on what was computed.
#![tactic(auto)]

mod elements;
mod folds;
mod labels;
mod literals;
mod times;

use anyhow::{Context, Result};
use std::alloc::Global;
use std::env;
use std::rt::Clock;
use std::time::Instant;
use xr_times::{Field, Freq};
/// What is timed.
pub trait Job {
    /// Does the work once, and answers a number that depends on all of it.
    fn work(&mut self, alloc: Global) -> Option<i128>;
}

// The least time of a job in nanoseconds, and its number.
fn least<C: Clock, J: Job>(
    clock: &C,
    alloc: Global,
    times: u32,
    job: &mut J,
) -> Result<(u128, i128)> {
    let mut least = u128::MAX;
    let mut number = 0;
    for _ in 0..times {
        let start = Instant::now(clock)?;
        let made = job.work(alloc);
        least = least.min(start.elapsed(clock)?.as_nanos());
        number = made.unwrap_or(-1);
    }
    Ok((least, number))
}

fn timed<C: Clock>(
    clock: &C,
    alloc: Global,
    job: &str,
    cells: u32,
    times: u32,
) -> Result<(u128, i128)> {
    match job {
        "sum" | "max" | "min" | "count" => {
            let mut work = folds::Fold::new(alloc, job, cells, false)?;
            least(clock, alloc, times, &mut work)
        }
        "masked sum" | "masked max" | "masked min" | "masked count" => {
            let mut work = folds::Fold::new(alloc, job, cells, true)?;
            least(clock, alloc, times, &mut work)
        }
        "unsigned sum" | "unsigned max" | "unsigned min" => {
            let mut work = folds::Fold::unsigned(alloc, job, cells, false)?;
            least(clock, alloc, times, &mut work)
        }
        "unsigned masked sum" | "unsigned masked max" | "unsigned masked min" => {
            let mut work = folds::Fold::unsigned(alloc, job, cells, true)?;
            least(clock, alloc, times, &mut work)
        }
        "scan" => {
            let mut work = folds::Scan::new(alloc, cells)?;
            least(clock, alloc, times, &mut work)
        }
        "index ascending" | "index scattered" => {
            let (made, _, number) = labels::timed(
                clock,
                alloc,
                job.ends_with("ascending"),
                cells,
                times,
            )?;
            Ok((made, number))
        }
        "find ascending" | "find scattered" => {
            let (_, found, number) = labels::timed(
                clock,
                alloc,
                job.ends_with("ascending"),
                cells,
                times,
            )?;
            Ok((found, number))
        }
        "floor divide by 7" | "remainder by 7" => {
            literals::timed(clock, alloc, job, cells, times)
        }
        "month" => times::field_timed(clock, alloc, Field::Month, cells, times),
        "day of year" => times::field_timed(clock, alloc, Field::DayOfYear, cells, times),
        "hour" => times::field_timed(clock, alloc, Field::Hour, cells, times),
        "bins of 6h" => times::bins_timed(clock, alloc, Freq::Seconds(21_600), cells, times),
        "bins of months" => times::bins_timed(clock, alloc, Freq::Months, cells, times),
        _ => elements_timed(clock, alloc, job, cells, times),
    }
}

// A job on the cells of blocks of one row. If its name begins so, the cells are unsigned, masked, stand in rows of three,
// or are the first three of four in each row.
fn elements_timed<C: Clock>(
    clock: &C,
    alloc: Global,
    job: &str,
    cells: u32,
    times: u32,
) -> Result<(u128, i128)> {
    let count = u64::from(cells);
    let (unsigned, job) = match job.strip_prefix("unsigned ") {
        Some(rest) => (true, rest),
        None => (false, job),
    };
    if let Some(plain) = job.strip_prefix("masked ") {
        elements::timed(clock, alloc, plain, 1, count, count, unsigned, true, times)
    } else if let Some(plain) = job.strip_prefix("rows of 3: ") {
        elements::timed(clock, alloc, plain, count / 3, 3, 3, unsigned, false, times)
    } else if let Some(plain) = job.strip_prefix("3 columns of 4: ") {
        elements::timed(clock, alloc, plain, count / 3, 4, 3, unsigned, false, times)
    } else {
        elements::timed(clock, alloc, job, 1, count, count, unsigned, false, times)
    }
}

fn main(rt: HostRuntime) -> Result<()> {
    let alloc = rt.alloc();
    let words: Vec<String> = env::args(&rt)?.collect(alloc)?;
    let (Some(job), Some(cells), Some(times)) = (words.get(1), words.get(2), words.get(3)) else {
        return Ok(());
    };
    let cells = cells.as_str().parse::<u32>().context("CELLS")?;
    let times = times.as_str().parse::<u32>().context("TIMES")?;
    let (least, number) = timed(&rt, alloc, job.as_str(), cells, times)?;
    println!(rt; "{least} {number}")?;
    Ok(())
}
