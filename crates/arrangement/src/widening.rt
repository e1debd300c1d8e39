//! One more axis, along which all positions show the same cell.
ghost use Rattle.std.specs.Prelude.{◌≡◌, ◌≤◌, ◌*◌, ◌++◌, length, insert, OnOk, IfOk};
ghost use Rattle.xr_types.specs.Points.{size};
ghost use Rattle.plan_core.specs.Arrangements.{arranged};
ghost use Rattle.plan_core.specs.Takes.{each_block};
ghost use Rattle.plan_core.specs.Widens.{repeated, widened_point, IsWidening};

use crate::arrange::Arrangement;
use crate::shapes::points;
use std::alloc::{AllocError, Global};
use xr_types::Items;

/// An array with these sizes, with one more axis before `axis`.
#[derive(Clone, Copy)]
pub struct Widening<'a> {
    pub shape: &'a [u64],
    pub axis: usize,
    pub size: u64,
}

fn push_repeated<T: Copy>(out: &mut Vec<T>, count: u64, row: &[T]) -> Result<(), AllocError>
    ensures { OnOk result (out.new.items ≡ out.old.items ++ repeated count row.now) }
{
    for _ in 0..count {
        out.extend_from_slice(row)?;
    }
    Ok(())
}

fn push_rows<T: Copy>(
    out: &mut Vec<T>,
    outer: usize,
    row: usize,
    count: u64,
    cells: &[T],
) -> Result<(), AllocError>
    requires { length cells.now ≡ outer * row }
    ensures { OnOk result (out.new.items ≡ out.old.items ++ each_block (repeated count) row outer cells.now) }
{
    let mut rest = cells;
    for _ in 0..outer {
        let (here, behind) = rest.split_at(row);
        push_repeated(out, count, here)?;
        rest = behind;
    }
    Ok(())
}

fn widened_shape(
    alloc: Global,
    shape: &[u64],
    axis: usize,
    size: u64,
) -> Result<Items<u64>, AllocError>
    requires { axis ≤ length shape.now }
    ensures { IfOk result (λ s. s ≡ insert shape.now axis size) }
{
    let mut sizes = Vec::from_slice(alloc, shape)?;
    sizes.insert(axis, size)?;
    Ok(Items::of(sizes))
}

fn widen_cells<T: Copy>(
    alloc: Global,
    shape: &[u64],
    axis: usize,
    positions: u64,
    cells: &[T],
) -> Result<Vec<T>, AllocError>
    requires widening { IsWidening shape.now axis positions }
    requires whole { length cells.now ≡ size shape.now }
    ensures { (other : T) → IfOk result (λ v. v.items ≡ arranged shape.now (insert shape.now axis positions) (widened_point axis) other cells.now) }
{
    let (front, behind) = shape.split_at(axis);
    let mut out = Vec::new(alloc);
    let sizes = widened_shape(alloc, shape, axis, positions)?;
    let count = points(sizes.as_slice());
    if count == 0 {
        return Ok(out);
    }
    out.reserve(count as usize)?;
    push_rows(
        &mut out,
        points(front) as usize,
        points(behind) as usize,
        positions,
        cells,
    )?;
    Ok(out)
}

impl<'a> Arrangement for Widening<'a> {
    ghost from = { λ w. w.shape.now };

    ghost to = { λ w. insert w.shape.now w.axis w.size };

    ghost point = { λ w. widened_point w.axis };

    ghost Fits = { λ w. IsWidening w.shape.now w.axis w.size };

    fn shape(&self, alloc: Global) -> Result<Items<u64>, AllocError> {
        widened_shape(alloc, self.shape, self.axis, self.size)
    }

    fn has_holes(&self) -> bool {
        false
    }

    fn arrange<T: Copy>(&self, alloc: Global, cells: &[T], _hole: T) -> Result<Vec<T>, AllocError> {
        widen_cells(alloc, self.shape, self.axis, self.size, cells)
    }
}
