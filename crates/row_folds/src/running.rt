//! Running sums along an axis.
ghost use Rattle.std.specs.Prelude.{◌≡◌, ◌<◌, ◌≤◌, ◌+◌, ◌-◌, ◌%◌, ℕ, ℤ, pos, List, length, map, get_or, nat_lt, if◌then◌else◌, Option, IfOk};
ghost use Rattle.std.specs.Int.{int_wrap, w64};
ghost use Rattle.xr_types.specs.Kinds.{wrap_to};
ghost use Rattle.xr_types.specs.Points.{size, place, IsPoint};
ghost use Rattle.xr_types.specs.declared.kind.DType.TheVariants.{UInt64};
ghost use Rattle.xr_types.specs.declared.operation.FoldKind.TheVariants.{Sum};
ghost use Rattle.xr_arrays.specs.Nodes.{scanned, most_node_cells};
ghost use Rattle.row_folds.specs.Rows.{array_of};
ghost use Rattle.row_folds.specs.SumsTo.{sum_to};

use crate::accumulator::{added, number_or};
use crate::sizes::points;
use crate::source::Source;
use std::alloc::{AllocError, Global};
use xr_arrays::{ArrayValue, Cells};
use xr_types::{DType, Elem, Items, is_unsigned};

// The sum before a cell: that of the cell before it along the axis, or 0 in the first row of a block.
fn sum_before(totals: &[i64], i: usize, row: usize, inside: usize) -> i64
    requires near { inside ≤ i }
    requires row { 0 < row }
    requires there { i ≤ length totals.now }
    ensures { result ≡ (if nat_lt inside row then pos 0 else get_or totals.now (i - row) (pos 0)) }
{
    if inside < row { 0 } else { totals[i - row] }
}

// The place in its block of the next cell.
#[tactic(auto, using(crate::proofs::SumsTo::next_inside))]
fn next(inside: usize, block: usize) -> usize
    requires { inside < block }
    ensures { (i : ℕ) → inside ≡ i % block → result ≡ (i + 1) % block }
{
    if inside + 1 == block { 0 } else { inside + 1 }
}

// The sums up to each cell, wrapped at 64 bits.
fn totals<T: Elem, S: Source<T>>(
    alloc: Global,
    shape: &[u64],
    axis: usize,
    source: S,
) -> Result<Vec<i64>, AllocError>
    requires ready { S.Ready source }
    requires axis { axis < length shape.now }
    requires whole { length (S.cells source) ≡ size shape.now }
    requires few { size shape.now ≤ most_node_cells }
    ensures long { IfOk result (λ v. length v.items ≡ size shape.now) }
    ensures sums { IfOk result (λ v. (p : List ℕ) → IsPoint shape.now p → get_or v.items (place shape.now p) (pos 0) ≡ int_wrap w64 (sum_to shape.now axis (S.cells source) p)) }
{
    let count = points(shape) as usize;
    let mut totals = Vec::with_capacity(alloc, count)?;
    if count == 0 {
        return Ok(totals);
    }
    let (_, from) = shape.split_at(axis);
    let (_, behind) = shape.split_at(axis + 1);
    let row = points(behind) as usize;
    let block = points(from) as usize;
    let mut inside = 0;
    for i in 0..count {
        let before = sum_before(&totals, i, row, inside);
        let (cell, present) = source.cell(i);
        totals.push(added(before, number_or(cell, present, 0)))?;
        inside = next(inside, block);
    }
    Ok(totals)
}

// The sums as numbers without a sign.
fn unsigned(alloc: Global, totals: &[i64]) -> Result<Vec<u64>, AllocError>
    ensures { IfOk result (λ v. map (λ x. pos x) v.items ≡ map (wrap_to UInt64) totals.now) }
{
    let mut all = Vec::with_capacity(alloc, totals.len())?;
    for i in 0..totals.len() {
        all.push(u64::wrap_from(i128::from(totals[i])))?;
    }
    Ok(all)
}

/// At each position of an axis the sum of the cells up to it.
pub fn scan_source<T: Elem, S: Source<T>>(
    alloc: Global,
    kind: DType,
    shape: &[u64],
    axis: usize,
    source: S,
) -> Result<ArrayValue, AllocError>
    requires ready { S.Ready source }
    requires axis { axis < length shape.now }
    requires whole { length (S.cells source) ≡ size shape.now }
    requires few { size shape.now ≤ most_node_cells }
    ensures { IfOk result (λ b. b ≡ scanned Sum (array_of kind shape.now (S.cells source)) axis) }
{
    let sizes = Items::from_slice(alloc, shape)?;
    let totals = totals(alloc, shape, axis, source)?;
    if is_unsigned(kind) {
        let totals = unsigned(alloc, &totals)?;
        return Ok(ArrayValue::of(sizes, Cells::UInt64(Items::of(totals)), None));
    }
    Ok(ArrayValue::of(sizes, Cells::Int64(Items::of(totals)), None))
}
