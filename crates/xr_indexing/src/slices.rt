//! The positions of a slice (Python, "Sequence types: s[i:j:k]").
ghost use Rattle.std.specs.Prelude.{◌≡◌, ◌<◌, ◌≤◌, ◌-◌, ◌^◌, suc, true, false, if◌then◌else◌, map, IfOk, Some};
ghost use Rattle.xr_defs.specs.Slices.{rising_end, falling_end, given, rising, slice_positions};

use std::alloc::{AllocError, Global};

// An end of a slice, brought into 0 to n. Of a slice that goes back it is counted from the last position on.
fn end_of(n: u128, back: bool, none: u128, end: Option<i128>) -> u128
    requires { none ≤ n }
    ensures on { back ≡ false → result ≡ given none (rising_end n) end }
    ensures back { back ≡ true → n - result ≡ given (n - none) (falling_end n) end }
    ensures high { result ≤ n }
{
    match end {
        Some(end) => {
            let end = if back { -1 - end } else { end };
            let far = end.unsigned_abs();
            if end < 0 {
                n.saturating_sub(far)
            } else {
                n.min(far)
            }
        }
        None => none,
    }
}

// Every step-th position from the start on, below the stop; on the way back counted from the last one on.
fn walk(
    alloc: Global,
    n: u128,
    back: bool,
    start: u128,
    stop: u128,
    step: u128,
) -> Result<Vec<u32>, AllocError>
    requires stop { stop ≤ n }
    requires step { 0 < step }
    requires far { step ≤ 2 ^ 127 }
    requires small { n < 2 ^ 32 }
    ensures { IfOk result (λ v. v.items ≡ map (λ i. if back then n - suc i else i) (rising n start stop step)) }
{
    let mut out = Vec::new(alloc);
    let mut at = start;
    'walk: while at < stop {
        let place = if back { n - 1 - at } else { at };
        out.push(place as u32)?;
        at += step;
    }
    Ok(out)
}

fn by_step(
    alloc: Global,
    size: u64,
    start: Option<i128>,
    stop: Option<i128>,
    step: i128,
) -> Result<Vec<u32>, AllocError>
    requires { size < 2 ^ 32 }
    ensures { IfOk result (λ v. v.items ≡ slice_positions size start stop (Some step)) }
{
    if step == 0 {
        return Ok(Vec::new(alloc));
    }
    let n = u128::from(size);
    let back = step < 0;
    let first = end_of(n, back, 0, start);
    let last = end_of(n, back, n, stop);
    walk(alloc, n, back, first, last, step.unsigned_abs())
}

/// The positions of a slice `start:stop:step` on an axis of so many positions. A step that is missing is 1, and a
/// step of 0 takes none.
pub fn slice_positions(
    alloc: Global,
    size: u64,
    start: Option<i128>,
    stop: Option<i128>,
    step: Option<i128>,
) -> Result<Vec<u32>, AllocError>
    requires { size < 2 ^ 32 }
    ensures { IfOk result (λ v. v.items ≡ slice_positions size start stop step) }
{
    by_step(alloc, size, start, stop, step.unwrap_or(1))
}
