//! Indexes of labels.
ghost use Rattle.std.specs.Prelude.{◌≡◌, ◌<◌, ◌^◌, IfOk, length};
ghost use Rattle.xr_arrays.specs.Labels.{IsLabelled};

use anyhow::Result;
use label_index::Index;
use std::alloc::{AllocError, Global};
use std::rt::Clock;
use std::time::Instant;
use xr_types::{Axis, DType, Integers, Items, Label, LabelList, Labels, TextBytes};

// The whole number at a position: ascending, or scattered by an odd factor over the numbers of 32 bits.
fn number_at(ascending: bool, i: u32) -> i64 {
    if ascending {
        i64::from(i)
    } else {
        i64::from(i.wrapping_mul(2_654_435_761))
    }
}

fn numbers(
    alloc: Global,
    ascending: bool,
    count: u32,
) -> std::result::Result<Vec<i64>, AllocError> {
    let mut list = Vec::new(alloc);
    list.reserve_exact(count as usize)?;
    for i in 0..count {
        list.push(number_at(ascending, i))?;
    }
    Ok(list)
}

fn axis_of(alloc: Global, list: Vec<i64>) -> std::result::Result<Axis, AllocError>
    ensures { IfOk result (λ axis. IsLabelled axis × (axis.size ≡ length list.items)) }
{
    let size = list.len() as u64;
    let list = Integers::signed(alloc, Items::of(list))?;
    Ok(Axis {
        name: TextBytes::from_str(alloc, "x")?,
        size,
        labels: Some(Labels {
            list: LabelList::Numbers(DType::Int64, list),
            attrs: Items::new(alloc),
        }),
    })
}

fn axis_with(alloc: Global, ascending: bool, count: u32) -> std::result::Result<Axis, AllocError>
    ensures { IfOk result (λ axis. IsLabelled axis × (axis.size < 2 ^ 25)) }
{
    let mut list = numbers(alloc, ascending, count)?;
    list.truncate(33_554_431);
    axis_of(alloc, list)
}

// Looks every label up, and adds the positions.
fn find_all(index: &Index<'_>, ascending: bool, count: u32) -> i128 {
    let mut total: u64 = 0;
    for i in 0..count {
        let label = Label::Int(i128::from(number_at(ascending, i)));
        total = total.wrapping_add(index.find(&label).unwrap_or(0));
    }
    i128::from(total)
}

/// The least times of making the index of an axis of so many labels, and of looking each of them up.
pub fn timed<C: Clock>(
    clock: &C,
    alloc: Global,
    ascending: bool,
    count: u32,
    times: u32,
) -> Result<(u128, u128, i128)> {
    let axis = axis_with(alloc, ascending, count)?;
    let mut made = u128::MAX;
    let mut found = u128::MAX;
    let mut number = 0;
    for _ in 0..times {
        let start = Instant::now(clock)?;
        let Ok(index) = Index::of(alloc, &axis) else {
            return Ok((0, 0, 0));
        };
        made = made.min(start.elapsed(clock)?.as_nanos());
        let start = Instant::now(clock)?;
        number = find_all(&index, ascending, count);
        found = found.min(start.elapsed(clock)?.as_nanos());
    }
    Ok((made, found, number))
}
