//! What a reduction refuses beside its arguments.
ghost use Rattle.std.specs.Prelude.{◌≡◌, ◌==◌, ◌-◌, ◌^◌, min, map};
ghost use Rattle.std.specs.List.{list_any};
ghost use Rattle.xr_types.specs.Names.{shape_over};
ghost use Rattle.xr_types.specs.Points.{size};
ghost use Rattle.xr_types.specs.Results.{Answers};
ghost use Rattle.xr_types.specs.declared.axis.Axis.{Axis as Dim};
ghost use Rattle.xr_arrays.specs.Nodes as nodes;
ghost use Rattle.xr_operations.specs.Reductions as calls;
ghost use Rattle.xr_reducing.specs.Reduced.{check_over};

use crate::folds::{is_positional, needs_cells};
use xr_arrays::Feed;
use xr_parts::is_among;
use xr_types::{Axis, CallFault, Fault, FoldKind, MOST_CELLS, Name, TextBytes};

/// Whether an axis without positions is reduced.
pub(crate) fn are_emptied(names: &[TextBytes], axes: &[Axis]) -> bool
    ensures { result ≡ list_any (λ (x : Dim). calls.is_emptied names.now x.name x.size) axes.now }
{
    axes.iter()
        .any(|axis| is_among(names, &axis.name) && axis.size == 0)
}

// The size of the axis of a name.
#[tactic(auto, using(xr_parts::proofs::Axes::called_cons))]
fn size_called(axes: &[Axis], name: &TextBytes) -> u64
    ensures { result ≡ calls.size_called axes.now name.now }
{
    match axes {
        [] => 0,
        [axis, rest @ ..] => {
            if axis.name.is(name) {
                axis.size
            } else {
                size_called(rest, name)
            }
        }
    }
}

// Whether a dimension without positions is reduced.
fn are_emptied_dims(names: &[TextBytes], axes: &[Axis], dims: &[Name]) -> bool
    ensures { result ≡ list_any (λ d. calls.is_emptied names.now d (calls.size_called axes.now d)) dims.now }
{
    dims.iter()
        .any(|dim| is_among(names, dim) && size_called(axes, dim) == 0)
}

#[tactic(auto, unfolding(xr_operations::specs::Reductions::check_cells, xr_types::specs::Results::unless))]
pub(crate) fn check_cells(fold: FoldKind, emptied: bool) -> Result<(), CallFault>
    ensures { Answers (λ u. u) result (calls.check_cells fold emptied) }
{
    if needs_cells(fold) && emptied {
        Err(CallFault::Refused(Fault::EmptyReduce))
    } else {
        Ok(())
    }
}

/// Refuses a variable that is reduced over a dimension without positions to what needs cells.
#[tactic(auto, unfolding(crate::specs::Reduced::check_over))]
pub(crate) fn check_over(
    fold: FoldKind,
    names: &[TextBytes],
    axes: &[Axis],
    dims: &[Name],
) -> Result<(), CallFault>
    ensures { Answers (λ u. u) result (check_over fold names.now axes.now dims.now) }
{
    check_cells(fold, are_emptied_dims(names, axes, dims))
}

// Whether so many axes are folded.
fn are_folded(feeds: &[Feed], count: u32) -> bool
    ensures { result ≡ (nodes.folded_axes feeds.now == count) }
{
    match feeds {
        [] => count == 0,
        [feed, rest @ ..] => match feed {
            Feed::Keep => are_folded(rest, count),
            Feed::All => count > 0 && are_folded(rest, count - 1),
            Feed::By(_) => count > 0 && are_folded(rest, count - 1),
        },
    }
}

#[tactic(auto, unfolding(xr_operations::specs::Reductions::check_count, xr_types::specs::Results::unless))]
pub(crate) fn check_count(fold: FoldKind, feeds: &[Feed]) -> Result<(), CallFault>
    ensures { Answers (λ u. u) result (calls.check_count fold feeds.now) }
{
    if is_positional(fold) && !are_folded(feeds, 1) {
        Err(CallFault::Refused(Fault::BadArgument))
    } else {
        Ok(())
    }
}

// The product of the axes' sizes, as far as 64 bits count.
#[tactic(auto, using(crate::proofs::Products::saturates))]
fn points_over(axes: &[Axis]) -> u64
    ensures { result ≡ min (size (shape_over axes.now)) (2 ^ 64 - 1) }
{
    match axes {
        [] => 1,
        [axis, rest @ ..] => axis.size.saturating_mul(points_over(rest)),
    }
}

#[tactic(auto, unfolding(xr_operations::specs::Reductions::check_size, xr_types::specs::Results::unless))]
pub(crate) fn check_axes(axes: &[Axis]) -> Result<(), CallFault>
    ensures { Answers (λ u. u) result (calls.check_size (shape_over axes.now)) }
{
    if points_over(axes) > MOST_CELLS {
        Err(CallFault::Refused(Fault::TooLarge))
    } else {
        Ok(())
    }
}

// The product of the sizes of the dimensions that aren't reduced, as far as 64 bits count.
#[tactic(auto, using(crate::proofs::Products::saturates))]
fn points_left(names: &[TextBytes], axes: &[Axis], dims: &[Name]) -> u64
    ensures { result ≡ min (size (map (calls.size_called axes.now) (calls.names_left names.now dims.now))) (2 ^ 64 - 1) }
{
    match dims {
        [] => 1,
        [dim, rest @ ..] => {
            if is_among(names, dim) {
                points_left(names, axes, rest)
            } else {
                size_called(axes, dim).saturating_mul(points_left(names, axes, rest))
            }
        }
    }
}

#[tactic(auto, unfolding(xr_operations::specs::Reductions::check_size, xr_types::specs::Results::unless))]
pub(crate) fn check_dims(names: &[TextBytes], axes: &[Axis], dims: &[Name]) -> Result<(), CallFault>
    ensures { Answers (λ u. u) result (calls.check_size (map (calls.size_called axes.now) (calls.names_left names.now dims.now))) }
{
    if points_left(names, axes, dims) > MOST_CELLS {
        Err(CallFault::Refused(Fault::TooLarge))
    } else {
        Ok(())
    }
}
