//! Lists in row order that stand one after the other, read as one along an axis.
ghost use Rattle.std.specs.Prelude.{◌≡◌, ◌<◌, ◌≤◌, ◌+◌, ◌*◌, ◌++◌, ◌^◌, [], ◌∷◌, length, drop, take, suc, sum, OnOk, IfOk, get_or, slice_set, flat_map};
ghost use Rattle.std.specs.List.{range_with_len};
ghost use Rattle.xr_types.specs.Points.{size};
ghost use Rattle.plan_core.specs.Arrangements.{arranged};
ghost use Rattle.plan_core.specs.Joins.{joined_row, joined_sizes, joined_point, joined_total, IsJoining};

use crate::arrange::Arrangement;
use crate::shapes::points;
use std::alloc::{AllocError, Global};
use xr_types::Items;

/// Arrays with these sizes but for the axis, whose cells stand one after the other. Along the axis each has so many
/// positions.
#[derive(Clone, Copy)]
pub struct Joining<'a> {
    pub shape: &'a [u64],
    pub axis: usize,
    pub counts: &'a [u64],
    /// How many cells they have together.
    pub cells: u64,
}

// A block of each list.
fn push_row<T: Copy>(
    out: &mut Vec<T>,
    outer: usize,
    row: usize,
    before: usize,
    counts: &[u64],
    cells: &[T],
) -> Result<(), AllocError>
    requires before { before < outer }
    requires inside { outer * (joined_total counts.now * row) ≤ length cells.now }
    requires small { length cells.now < 2 ^ 63 }
    ensures { OnOk result (out.new.items ≡ out.old.items ++ joined_row row outer before 0 counts.now cells.now) }
{
    let mut start = 0;
    for count in counts {
        let width = *count as usize * row;
        let (_, behind) = cells.split_at(start + before * width);
        let (here, _) = behind.split_at(width);
        out.extend_from_slice(here)?;
        start += outer * width;
    }
    Ok(())
}

fn push_rows<T: Copy>(
    out: &mut Vec<T>,
    outer: usize,
    row: usize,
    counts: &[u64],
    cells: &[T],
) -> Result<(), AllocError>
    requires inside { outer * (joined_total counts.now * row) ≤ length cells.now }
    requires small { length cells.now < 2 ^ 63 }
    ensures { OnOk result (out.new.items ≡ out.old.items ++ flat_map (λ o. joined_row row outer o 0 counts.now cells.now) (range_with_len 0 outer)) }
{
    for before in 0..outer {
        push_row(out, outer, row, before, counts, cells)?;
    }
    Ok(())
}

// How many positions there are together. More than 64 bits count can't be held.
fn total(counts: &[u64]) -> Result<u64, AllocError>
    ensures { IfOk result (λ n. n ≡ sum counts.now) }
{
    let mut total: u64 = 0;
    for count in counts {
        total = match total.checked_add(*count) {
            Some(total) => total,
            None => return Err(AllocError),
        };
    }
    Ok(total)
}

fn joined_shape(
    alloc: Global,
    shape: &[u64],
    axis: usize,
    counts: &[u64],
) -> Result<Items<u64>, AllocError>
    requires axis { axis < length shape.now }
    ensures { IfOk result (λ s. s ≡ joined_sizes shape.now axis counts.now) }
{
    let mut sizes = Vec::from_slice(alloc, shape)?;
    sizes[axis] = total(counts)?;
    Ok(Items::of(sizes))
}

fn join_cells<T: Copy>(
    alloc: Global,
    shape: &[u64],
    axis: usize,
    counts: &[u64],
    cells: &[T],
) -> Result<Vec<T>, AllocError>
    requires joining { IsJoining shape.now axis counts.now (length cells.now) }
    ensures { (other : T) → IfOk result (λ v. v.items ≡ arranged (length cells.now ∷ []) (joined_sizes shape.now axis counts.now) (joined_point shape.now axis counts.now) other cells.now) }
{
    let (front, _) = shape.split_at(axis);
    let (_, behind) = shape.split_at(axis + 1);
    let mut out = Vec::new(alloc);
    if cells.is_empty() {
        return Ok(out);
    }
    out.reserve(cells.len())?;
    push_rows(
        &mut out,
        points(front) as usize,
        points(behind) as usize,
        counts,
        cells,
    )?;
    Ok(out)
}

impl<'a> Arrangement for Joining<'a> {
    ghost from = { λ j. j.cells ∷ [] };

    ghost to = { λ j. joined_sizes j.shape.now j.axis j.counts.now };

    ghost point = { λ j. joined_point j.shape.now j.axis j.counts.now };

    ghost Fits = { λ j. IsJoining j.shape.now j.axis j.counts.now j.cells };

    fn shape(&self, alloc: Global) -> Result<Items<u64>, AllocError> {
        joined_shape(alloc, self.shape, self.axis, self.counts)
    }

    fn has_holes(&self) -> bool {
        false
    }

    fn arrange<T: Copy>(&self, alloc: Global, cells: &[T], _hole: T) -> Result<Vec<T>, AllocError> {
        join_cells(alloc, self.shape, self.axis, self.counts, cells)
    }
}
