//! Positions of one axis.
ghost use Rattle.std.specs.Prelude.{◌≡◌, ◌<◌, ◌≤◌, ◌+◌, ◌*◌, ◌++◌, ◌^◌, ℕ, length, Option, Some, None, true, All, IfSome, OnOk, IfOk, get_or, is_none, replicate, drop, take, suc, slice_set, if◌then◌else◌};
ghost use Rattle.std.specs.List.{list_any};
ghost use Rattle.xr_types.specs.Points.{size};
ghost use Rattle.xr_arrays.specs.Nodes.{IsBelow, without};
ghost use Rattle.plan_core.specs.Arrangements.{arranged};
ghost use Rattle.plan_core.specs.Takes.{part, parts, each_block, taking_sizes, taking_point, IsRun, IsTaking};

use crate::arrange::Arrangement;
use crate::shapes::points;
use std::alloc::{AllocError, Global};
use xr_types::Items;

/// Positions of one axis of an array with these sizes, None being a hole. One that drops the axis has one position.
#[derive(Clone, Copy)]
pub struct Taking<'a> {
    pub shape: &'a [u64],
    pub axis: usize,
    pub from: &'a [Option<u32>],
    pub drops: bool,
}

/// The first position, where each of the others stands one after the one before it.
pub fn run_start(from: &[Option<u32>]) -> Option<u32>
    ensures { IfSome result (λ q. IsRun q from.now) }
{
    let first = match from {
        [Some(first), ..] => *first,
        _ => return None,
    };
    for i in 0..from.len() {
        if !is_at(from[i], u64::from(first) + i as u64) {
            return None;
        }
    }
    Some(first)
}

fn is_at(source: Option<u32>, position: u64) -> bool
    ensures { result ≡ true → source ≡ Some position }
{
    match source {
        Some(q) => u64::from(q) == position,
        None => false,
    }
}

/// Whether some position has no source.
pub fn has_hole(from: &[Option<u32>]) -> bool
    ensures { result ≡ list_any is_none from.now }
{
    for source in from {
        if source.is_none() {
            return true;
        }
    }
    false
}

/// Appends so many holes.
pub fn push_holes<T: Copy>(out: &mut Vec<T>, count: usize, hole: T) -> Result<(), AllocError>
    ensures { OnOk result (out.new.items ≡ out.old.items ++ replicate count hole) }
{
    match out.len().checked_add(count) {
        Some(len) => out.resize(len, hole),
        None => Err(AllocError),
    }
}

fn push_part<T: Copy>(
    out: &mut Vec<T>,
    row: usize,
    source: Option<u32>,
    cells: &[T],
    hole: T,
) -> Result<(), AllocError>
    requires { IfSome source (λ q. q * row + row ≤ length cells.now) }
    ensures { OnOk result (out.new.items ≡ out.old.items ++ part row cells.now hole source) }
{
    match source {
        None => push_holes(out, row, hole),
        Some(q) => {
            let (_, behind) = cells.split_at(q as usize * row);
            let (here, _) = behind.split_at(row);
            out.extend_from_slice(here)
        }
    }
}

fn push_parts<T: Copy>(
    out: &mut Vec<T>,
    row: usize,
    from: &[Option<u32>],
    cells: &[T],
    hole: T,
) -> Result<(), AllocError>
    requires { All (λ s. IfSome s (λ q. q * row + row ≤ length cells.now)) from.now }
    ensures { OnOk result (out.new.items ≡ out.old.items ++ parts row from.now hole cells.now) }
{
    for source in from {
        push_part(out, row, *source, cells, hole)?;
    }
    Ok(())
}

// The parts of a block of n rows.
fn push_block<T: Copy>(
    out: &mut Vec<T>,
    n: usize,
    row: usize,
    from: &[Option<u32>],
    run: Option<u32>,
    cells: &[T],
    hole: T,
) -> Result<(), AllocError>
    requires cells { length cells.now ≡ n * row }
    requires inside { All (IsBelow n) from.now }
    requires run { IfSome run (λ q. IsRun q from.now) }
    requires small { n * row < 2 ^ 63 }
    ensures { OnOk result (out.new.items ≡ out.old.items ++ parts row from.now hole cells.now) }
{
    match run {
        Some(q) => {
            let (_, behind) = cells.split_at(q as usize * row);
            let (here, _) = behind.split_at(from.len() * row);
            out.extend_from_slice(here)
        }
        None => push_parts(out, row, from, cells, hole),
    }
}

// The parts of each of the blocks.
fn push_blocks<T: Copy>(
    out: &mut Vec<T>,
    outer: usize,
    n: usize,
    row: usize,
    from: &[Option<u32>],
    cells: &[T],
    hole: T,
) -> Result<(), AllocError>
    requires cells { length cells.now ≡ outer * (n * row) }
    requires inside { All (IsBelow n) from.now }
    requires small { n * row < 2 ^ 63 }
    ensures { OnOk result (out.new.items ≡ out.old.items ++ each_block (parts row from.now hole) (n * row) outer cells.now) }
{
    let run = run_start(from);
    let width = n * row;
    let mut rest = cells;
    for _ in 0..outer {
        let (here, behind) = rest.split_at(width);
        push_block(out, n, row, from, run, here, hole)?;
        rest = behind;
    }
    Ok(())
}

/// The sizes with another one for an axis, or without it.
pub fn taken_shape(
    alloc: Global,
    shape: &[u64],
    axis: usize,
    count: u64,
    drops: bool,
) -> Result<Items<u64>, AllocError>
    requires { axis < length shape.now }
    ensures { IfOk result (λ s. s ≡ (if drops then without axis shape.now else slice_set shape.now axis count)) }
{
    let mut sizes = Vec::from_slice(alloc, shape)?;
    if drops {
        sizes.remove(axis);
    } else {
        sizes[axis] = count;
    }
    Ok(Items::of(sizes))
}

// The cells that are taken.
fn take_cells<T: Copy>(
    alloc: Global,
    shape: &[u64],
    axis: usize,
    from: &[Option<u32>],
    drops: bool,
    cells: &[T],
    hole: T,
) -> Result<Vec<T>, AllocError>
    requires taking { IsTaking drops shape.now axis from.now }
    requires whole { length cells.now ≡ size shape.now }
    ensures { IfOk result (λ v. v.items ≡ arranged shape.now (taking_sizes drops shape.now axis from.now) (taking_point drops axis from.now) hole cells.now) }
{
    let (front, _) = shape.split_at(axis);
    let (_, behind) = shape.split_at(axis + 1);
    let mut out = Vec::new(alloc);
    let sizes = taken_shape(alloc, shape, axis, from.len() as u64, drops)?;
    let count = points(sizes.as_slice());
    if count == 0 {
        return Ok(out);
    }
    out.reserve(count as usize)?;
    push_blocks(
        &mut out,
        points(front) as usize,
        shape[axis] as usize,
        points(behind) as usize,
        from,
        cells,
        hole,
    )?;
    Ok(out)
}

impl<'a> Arrangement for Taking<'a> {
    ghost from = { λ t. t.shape.now };

    ghost to = { λ t. taking_sizes t.drops t.shape.now t.axis t.from.now };

    ghost point = { λ t. taking_point t.drops t.axis t.from.now };

    ghost Fits = { λ t. IsTaking t.drops t.shape.now t.axis t.from.now };

    fn shape(&self, alloc: Global) -> Result<Items<u64>, AllocError> {
        taken_shape(
            alloc,
            self.shape,
            self.axis,
            self.from.len() as u64,
            self.drops,
        )
    }

    fn has_holes(&self) -> bool {
        has_hole(self.from)
    }

    fn arrange<T: Copy>(&self, alloc: Global, cells: &[T], hole: T) -> Result<Vec<T>, AllocError> {
        take_cells(
            alloc, self.shape, self.axis, self.from, self.drops, cells, hole,
        )
    }
}
