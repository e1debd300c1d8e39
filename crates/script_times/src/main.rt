//! Times the parsing of a script, for `bench/script.py`: `script_times FILE TIMES` prints the least of so many times,
//! in nanoseconds, and how many statements the script has.
#![tactic(auto)]

use anyhow::{Context, Result};
use std::alloc::Global;
use std::rt::Clock;
use std::time::Instant;
use std::{env, fs};
use xr_script::parse;

// The least time of parsing a text in nanoseconds, and how many statements it has, or 0 where it is no script.
fn least<C: Clock>(clock: &C, alloc: Global, text: &[u8], times: u32) -> Result<(u128, usize)> {
    let mut least = u128::MAX;
    let mut count = 0;
    for _ in 0..times {
        let start = Instant::now(clock)?;
        let parsed = parse(alloc, text);
        least = least.min(start.elapsed(clock)?.as_nanos());
        count = match parsed {
            Ok(script) => script.statements.len(),
            Err(_) => 0,
        };
    }
    Ok((least, count))
}

fn main(rt: HostRuntime) -> Result<()> {
    let alloc = rt.alloc();
    let words: Vec<String> = env::args(&rt)?.collect(alloc)?;
    let (Some(file), Some(times)) = (words.get(1), words.get(2)) else {
        return Ok(());
    };
    let times = times.as_str().parse::<u32>().context("TIMES")?;
    let text = fs::read(&rt, file.as_str())?;
    let (least, count) = least(&rt, alloc, text.as_slice(), times)?;
    println!(rt; "{least} {count}")?;
    Ok(())
}
