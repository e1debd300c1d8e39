//! Times the reader of classic files, for `bench/reader.py`: `reader_times JOB FILE TIMES` prints the least of so many
//! times, in nanoseconds, and a number that depends on what was read. `head` walks the header, `read` gives the file
//! with its values, a variable after the other, `values` the values of all variables together, as a dataset is opened,
//! and `open` does so too and reads the bytes from the disk first.
#![tactic(auto)]

use anyhow::{Context, Result};
use bytes::Bytes;
use cdf_reader::{gathered_values, read, read_head};
use std::alloc::{AllocError, Global};
use std::rt::{Clock, Files};
use std::time::Instant;
use std::{env, fs};

/// What is timed.
#[derive(Drop)]
enum Job {
    Head,
    Read,
    Values,
}

// How many bytes of values a file has that is read whole, or none where memory or the file fails.
fn read_bytes(alloc: Global, bytes: &Bytes) -> u64 {
    let Ok(file) = read(alloc, bytes.as_slice()) else {
        return 0;
    };
    let mut total: u64 = 0;
    for var in file.vars.as_slice() {
        total = total.saturating_add(var.raw.len() as u64);
    }
    total
}

// The same of the values alone, which are gathered together.
fn value_bytes(alloc: Global, bytes: &Bytes) -> u64 {
    let Ok(head) = read_head(alloc, bytes.as_slice()) else {
        return 0;
    };
    let Ok(vars) = head.vars.as_slice().iter().collect::<Vec<_>>(alloc) else {
        return 0;
    };
    let Ok(values) = gathered_values(alloc, bytes, &head, vars.as_slice()) else {
        return 0;
    };
    let mut total: u64 = 0;
    for raw in &values {
        total = total.saturating_add(raw.len() as u64);
    }
    total
}

// How many bytes of values were read, or how many variables the header lists, or none of a file that is damaged.
fn work(alloc: Global, job: &Job, bytes: &Bytes) -> u64 {
    match job {
        Job::Head => match read_head(alloc, bytes.as_slice()) {
            Ok(head) => head.vars.as_slice().len() as u64,
            Err(_) => 0,
        },
        Job::Read => read_bytes(alloc, bytes),
        Job::Values => value_bytes(alloc, bytes),
    }
}

fn least<C: Clock>(
    clock: &C,
    alloc: Global,
    times: u32,
    job: &Job,
    bytes: &Bytes,
) -> Result<(u128, u64)> {
    let mut least = u128::MAX;
    let mut number = 0;
    for _ in 0..times {
        let start = Instant::now(clock)?;
        number = work(alloc, job, bytes);
        least = least.min(start.elapsed(clock)?.as_nanos());
    }
    Ok((least, number))
}

fn opened<C: Clock + Files + AllocGlobal>(
    rt: &C,
    alloc: Global,
    times: u32,
    path: &str,
) -> Result<(u128, u64)> {
    let mut least = u128::MAX;
    let mut number = 0;
    for _ in 0..times {
        let start = Instant::now(rt)?;
        let bytes = Bytes::from_vec(fs::read(rt, path)?).map_err(AllocError::from)?;
        number = work(alloc, &Job::Values, &bytes);
        least = least.min(start.elapsed(rt)?.as_nanos());
    }
    Ok((least, number))
}

fn main(rt: HostRuntime) -> Result<()> {
    let alloc = rt.alloc();
    let words: Vec<String> = env::args(&rt)?.collect(alloc)?;
    let (Some(job), Some(path), Some(times)) = (words.get(1), words.get(2), words.get(3)) else {
        return Ok(());
    };
    let times = times.as_str().parse::<u32>().context("TIMES")?;
    let (least, number) = match job.as_str() {
        "open" => opened(&rt, alloc, times, path.as_str())?,
        word => {
            let bytes = Bytes::from_vec(fs::read(&rt, path.as_str())?).map_err(AllocError::from)?;
            let job = match word {
                "head" => Job::Head,
                "read" => Job::Read,
                _ => Job::Values,
            };
            least(&rt, alloc, times, &job, &bytes)?
        }
    };
    println!(rt; "{least} {number}")?;
    Ok(())
}
