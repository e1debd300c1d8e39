//! The times, which are the labels of the first axis.
ghost use Rattle.std.specs.Prelude.{◌≡◌, ◌<◌, ◌≤◌, ◌*◌, pos, IfOk};
ghost use Rattle.xr_times.specs.Times.{counted};
ghost use Rattle.xr_chunks.specs.Demo as of;
ghost use Rattle.xr_chunks.specs.Demo.{hours_since_2000};

use std::alloc::{AllocError, Global};
use xr_types::{
    Calendar, Items, LabelList, Labels, Shared, TextBytes, TimeCoding, TimeUnit, Units,
};

const HOURS_SINCE_2000: Units = Units {
    unit: TimeUnit::Hours,
    reference: 946_684_800,
    calendar: Calendar::Civil,
    early: false,
};

// The time of number `i`, six hours after the one before it.
fn time(i: u32) -> i64
    requires { i < 1000000 }
    ensures { result ≡ counted hours_since_2000 (pos (6 * i)) }
{
    HOURS_SINCE_2000.reference + 21_600 * i as i64
}

#[tactic(auto, using(crate::proofs::Counted::one_more))]
fn times(alloc: Global, n: u32) -> Result<Items<i64>, AllocError>
    requires { n ≤ 1000000 }
    ensures { IfOk result (λ ts. ts ≡ of.times n) }
{
    let mut out = Items::new(alloc);
    for i in 0..n {
        out.push(time(i))?;
    }
    Ok(out)
}

fn coding(alloc: Global) -> Result<TimeCoding, AllocError>
    ensures { IfOk result (λ c. c ≡ of.coding) }
{
    Ok(TimeCoding {
        units: HOURS_SINCE_2000,
        units_text: TextBytes::from_str(alloc, "hours since 2000-01-01")?,
        calendar_text: None,
    })
}

/// The labels of `n` times.
pub fn labels(alloc: Global, n: u32) -> Result<Labels, AllocError>
    requires { n ≤ 1000000 }
    ensures { IfOk result (λ l. l ≡ of.labels n) }
{
    let times = Shared::of(alloc, times(alloc, n)?)?;
    Ok(Labels {
        list: LabelList::Times(coding(alloc)?, times),
        attrs: Items::new(alloc),
    })
}
