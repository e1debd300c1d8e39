//! The limits of a result.
ghost use Rattle.std.specs.Prelude.{◌≡◌, ◌≤◌, ◌-◌, ◌^◌, min, nat_le, slice_set, true, false, All};
ghost use Rattle.std.specs.List.{list_all, AllByRecursion};
ghost use Rattle.xr_types.specs.Names.{shape_over};
ghost use Rattle.xr_types.specs.Points.{size};
ghost use Rattle.xr_types.specs.declared.axis.Axis.{Axis as OneAxis};
ghost use Rattle.xr_arrays.specs.Labels.{labels_of};
ghost use Rattle.xr_arrays.specs.Nodes.{IsBelow};
ghost use Rattle.xr_defs.specs.Limits.{most_cells};
ghost use Rattle.xr_defs.specs.Selecting as of;
ghost use Rattle.align_join.specs.Joined.{HasFew, IsFew};
ghost use Rattle.xr_joining.specs.Fitted.{is_below};

use xr_types::{Axis, LabelList, MOST_CELLS, MOST_DIMENSIONS};

/// Cells of a node of a plan.
pub const MOST_NODE_CELLS: u64 = 1 << 50;

/// The product of the sizes, as far as 64 bits count.
#[tactic(auto, using(crate::proofs::Products::saturates))]
pub fn points(shape: &[u64]) -> u64
    ensures { result ≡ min (size shape.now) (2 ^ 64 - 1) }
{
    match shape {
        [] => 1,
        [n, rest @ ..] => n.saturating_mul(points(rest)),
    }
}

/// The product with another size of one axis, as far as 64 bits count.
#[tactic(auto, using(crate::proofs::Products::saturates))]
pub fn points_with(shape: &[u64], axis: usize, count: u64) -> u64
    ensures { result ≡ min (size (slice_set shape.now axis count)) (2 ^ 64 - 1) }
{
    match shape {
        [] => 1,
        [n, rest @ ..] => {
            if axis == 0 {
                count.saturating_mul(points(rest))
            } else {
                n.saturating_mul(points_with(rest, axis - 1, count))
            }
        }
    }
}

#[tactic(auto, using(crate::proofs::Products::saturates))]
fn points_over(axes: &[Axis]) -> u64
    ensures { result ≡ min (size (shape_over axes.now)) (2 ^ 64 - 1) }
{
    match axes {
        [] => 1,
        [axis, rest @ ..] => axis.size.saturating_mul(points_over(rest)),
    }
}

fn are_short(axes: &[Axis]) -> bool
    ensures { result ≡ list_all (λ n. nat_le n most_cells) (shape_over axes.now) }
{
    match axes {
        [] => true,
        [axis, rest @ ..] => axis.size <= MOST_CELLS && are_short(rest),
    }
}

/// Whether there are no more dimensions, positions along an axis and cells than there may be.
#[tactic(auto, using(crate::proofs::Products::shape_rank))]
pub fn is_within(axes: &[Axis]) -> bool
    ensures { result ≡ of.is_within (shape_over axes.now) }
{
    axes.len() <= MOST_DIMENSIONS && are_short(axes) && points_over(axes) <= MOST_CELLS
}

/// Whether an array over these axes has cells.
#[tactic(auto, using(crate::proofs::Products::none_times, crate::proofs::Products::times_none))]
pub fn has_cells(axes: &[Axis]) -> bool
    ensures some { result ≡ true → AllByRecursion (λ (x : OneAxis). 1 ≤ x.size) axes.now }
    ensures none { result ≡ false → size (shape_over axes.now) ≡ 0 }
{
    match axes {
        [] => true,
        [axis, rest @ ..] => axis.size != 0 && has_cells(rest),
    }
}

fn is_below(at: Option<u32>, size: u64) -> bool
    ensures { result ≡ is_below size at }
{
    match at {
        None => true,
        Some(at) => u64::from(at) < size,
    }
}

/// Whether positions lie below a size.
#[tactic(auto, using(crate::proofs::Few::each_below))]
pub fn are_below(from: &[Option<u32>], size: u64) -> bool
    ensures { result ≡ true → All (IsBelow size) from.now }
{
    from.iter().all(|at| is_below(*at, size))
}

fn is_few(list: &LabelList) -> bool
    ensures { result ≡ true → IsFew list.now }
{
    let count = match list {
        LabelList::Numbers(_, numbers) => numbers.len(),
        LabelList::Times(_, times) => times.as_slice().len(),
        LabelList::Texts(texts) => texts.as_slice().len(),
    };
    count as u64 <= MOST_CELLS
}

fn has_few(axis: &Axis) -> bool
    ensures { result ≡ true → HasFew axis.now }
{
    match &axis.labels {
        None => true,
        Some(labels) => is_few(&labels.list),
    }
}

/// Whether the labels of all axes can be looked up.
#[tactic(auto, using(crate::proofs::Few::few_none, crate::proofs::Few::few_more))]
pub fn have_few(axes: &[Axis]) -> bool
    ensures { result ≡ true → All HasFew axes.now }
{
    match axes {
        [] => true,
        [axis, rest @ ..] => has_few(axis) && have_few(rest),
    }
}
