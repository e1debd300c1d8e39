//! Folds of axes.
ghost use Rattle.std.specs.Prelude.{◌≡◌, ◌≤◌, ◌++◌, List, length, Some, true, IfOk, OnOk, [], ◌∷◌};
ghost use Rattle.xr_types.specs.Kinds.{wrap_to};
ghost use Rattle.xr_types.specs.Points.{size};
ghost use Rattle.xr_types.specs.declared.operation.FoldKind.TheVariants.{Sum};
ghost use Rattle.xr_arrays.specs.Arrays.{made, IsArray};
ghost use Rattle.xr_arrays.specs.Folds.{total_kind, sum_of};
ghost use Rattle.xr_arrays.specs.Nodes.{kept, folded, AreFed, most_node_cells};
ghost use Rattle.plan_core.specs.Rows.{those};
ghost use Rattle.plan_whole.specs.Folded.{kept_one};

use crate::numbers::array_of;
use crate::total::{total, total_strips};
use cell_strips::Strips;
use std::alloc::{AllocError, Global};
use xr_arrays::{ArrayValue, Feed};
use xr_types::{DType, FoldKind, Items, is_unsigned, wrap};

/// The kind of sums of numbers of a kind.
pub fn total_kind(kind: DType) -> DType
    ensures { result ≡ total_kind kind }
{
    if is_unsigned(kind) {
        DType::UInt64
    } else {
        DType::Int64
    }
}

/// A sum that was wrapped at 64 bits, as the kind of sums of numbers of a kind wraps it.
pub fn as_total(kind: DType, total: i64) -> i128
    ensures { result ≡ wrap_to (total_kind kind) total }
{
    wrap(total_kind(kind), i128::from(total))
}

fn push_kept(sizes: &mut Vec<u64>, feed: &Feed, size: u64) -> Result<(), AllocError>
    ensures { OnOk result (sizes.new.items ≡ sizes.old.items ++ kept_one feed.now size) }
{
    match feed {
        Feed::Keep => sizes.push(size)?,
        Feed::By(lists) => sizes.push(lists.len())?,
        Feed::All => {}
    }
    Ok(())
}

// The sizes of the axes that stay.
fn kept_sizes(alloc: Global, feeds: &[Feed], shape: &[u64]) -> Result<Vec<u64>, AllocError>
    requires { length feeds.now ≡ length shape.now }
    ensures { IfOk result (λ v. v.items ≡ kept feeds.now shape.now) }
{
    let mut sizes = Vec::new(alloc);
    for i in 0..feeds.len() {
        push_kept(&mut sizes, &feeds[i], shape[i])?;
    }
    Ok(sizes)
}

fn is_sum(fold: FoldKind) -> bool
    ensures { result ≡ true → fold ≡ Sum }
{
    match fold {
        FoldKind::Sum => true,
        _ => false,
    }
}

/// Whether a fold of an array with these sizes is the sum of all its cells.
pub fn sums_all(
    alloc: Global,
    fold: FoldKind,
    feeds: &[Feed],
    shape: &[u64],
) -> Result<bool, AllocError>
    requires { length feeds.now ≡ length shape.now }
    ensures sum { IfOk result (λ b. b ≡ true → fold ≡ Sum) }
    ensures all { IfOk result (λ b. b ≡ true → kept feeds.now shape.now ≡ []) }
{
    if !is_sum(fold) {
        return Ok(false);
    }
    let sizes = kept_sizes(alloc, feeds, shape)?;
    Ok(sizes.as_slice().is_empty())
}

// The sum of all cells.
fn sum(alloc: Global, a: &ArrayValue) -> Result<ArrayValue, AllocError>
    ensures { IfOk result (λ b. b ≡ made (total_kind a.now.kind) [] (λ p. Some (wrap_to (total_kind a.now.kind) (sum_of (those a.now.cells))))) }
{
    array_of(
        alloc,
        total_kind(a.kind()),
        Items::new(alloc),
        &[Some(as_total(a.kind(), total(a)))],
    )
}

/// The sum of all cells of an array that comes strip by strip. `count` is how many cells the array has.
pub fn sum_strips<S: Strips>(
    alloc: Global,
    source: &S,
    count: usize,
) -> Result<ArrayValue, AllocError>
    requires ready { S.Ready source.now }
    requires array { IsArray (S.whole source.now) }
    requires count { count ≡ size (S.whole source.now).shape }
    ensures { IfOk result (λ b. b ≡ made (total_kind (S.whole source.now).kind) [] (λ p. Some (wrap_to (total_kind (S.whole source.now).kind) (sum_of (those (S.whole source.now).cells))))) }
{
    let none = source.strip(alloc, 0, 0)?;
    let kind = none.kind();
    let total = total_strips(alloc, source, count)?;
    array_of(
        alloc,
        total_kind(kind),
        Items::new(alloc),
        &[Some(as_total(kind, total))],
    )
}

/// The fold of the cells that agree along the axes that are kept.
pub fn fold(
    alloc: Global,
    fold: FoldKind,
    a: &ArrayValue,
    feeds: &[Feed],
) -> Result<ArrayValue, AllocError>
    requires array { IsArray a.now }
    requires feeds { length feeds.now ≡ length a.now.shape }
    requires fed { AreFed feeds.now a.now.shape }
    requires few { size a.now.shape ≤ most_node_cells }
    requires small { size (kept feeds.now a.now.shape) ≤ most_node_cells }
    ensures { IfOk result (λ b. b ≡ folded fold feeds.now a.now) }
{
    let all = sums_all(alloc, fold, feeds, a.shape())?;
    if all {
        return sum(alloc, a);
    }
    row_folds::fold(alloc, fold, a, feeds)
}
