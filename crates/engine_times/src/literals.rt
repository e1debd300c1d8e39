//! Quotients and remainders of a row of cells by one divisor.
use anyhow::{Context, Result};
use elem_kernel::Divisor;
use std::alloc::Global;
use std::rt::Clock;
use std::time::Instant;

fn divide(cells: &[i32], by: &Divisor<i32>, out: &mut [i32]) {
    if out.len() != cells.len() {
        return;
    }
    for i in 0..cells.len() {
        out[i] = by.quotient(cells[i]);
    }
}

fn leave(cells: &[i32], by: &Divisor<i32>, out: &mut [i32]) {
    if out.len() != cells.len() {
        return;
    }
    for i in 0..cells.len() {
        out[i] = by.remainder(cells[i]);
    }
}

// Numbers from -504 to 504.
fn spread(cells: &mut [i32]) {
    for i in 0..cells.len() {
        cells[i] = ((i as u64).wrapping_mul(31) % 1009) as i32 - 504;
    }
}

/// The least time of dividing so many numbers of kind int32 by 7 in nanoseconds, and their last result.
pub fn timed<C: Clock>(
    clock: &C,
    alloc: Global,
    job: &str,
    cells: u32,
    times: u32,
) -> Result<(u128, i128)> {
    let by = Divisor::of(7).context("divisor")?;
    let mut row = Vec::from_elem(alloc, 0, cells as usize)?;
    let mut out = Vec::from_elem(alloc, 0, cells as usize)?;
    spread(row.as_mut_slice());
    let mut least = u128::MAX;
    for _ in 0..times {
        let start = Instant::now(clock)?;
        if job == "floor divide by 7" {
            divide(row.as_slice(), &by, out.as_mut_slice());
        } else {
            leave(row.as_slice(), &by, out.as_mut_slice());
        }
        least = least.min(start.elapsed(clock)?.as_nanos());
    }
    let last = out.as_slice().last().copied().unwrap_or(-1);
    Ok((least, i128::from(last)))
}
