//! Methods of grouped arrays whose lists are folded, each.
ghost use Rattle.std.specs.Prelude.{◌≡◌, ◌^◌, ◌-◌, List, IfOk, min};
ghost use Rattle.xr_arrays.specs.declared.node.Node.{Node};
ghost use Rattle.xr_types.specs.Names.{shape_over};
ghost use Rattle.xr_types.specs.Points.{size};
ghost use Rattle.xr_types.specs.Results.{Answers};
ghost use Rattle.xr_formulas.specs.Mades.{AnswersMade};
ghost use Rattle.xr_groups.specs.Listed as lists;
ghost use Rattle.xr_operations.specs.Reductions as reductions;
ghost use Rattle.xr_values.specs.Meaning.{given};
ghost use Rattle.xr_values.specs.Stands.{array_in, IsArrayIn};
ghost use Rattle.xr_groups.specs.Methods as methods;
ghost use Rattle.xr_groups.specs.declared.change.Least.TheVariants.{Never};
ghost use Rattle.xr_parts.specs.Frames.{IsFrame};
ghost use Rattle.xr_grouping.specs.Mades.{folded_made, kept_made, made_by, plain_made, plain_of};

use crate::asked::{check_has_method, folded_kind, needs_cells};
use crate::checked::grouped_changes;
use crate::listed::{axes_by, coords_left, feeds_by, is_grouped};
use std::alloc::{AllocError, Global};
use xr_arguments::nothing_given;
use xr_defs::Grouping;
use xr_formulas::{Chain, Formula, Made, Step, cells_of, like, one_step};
use xr_groups::Change;
use xr_types::{Axis, CallFault, DeepCopy, Fault, FoldKind, Items, MOST_CELLS};
use xr_values::{Args, DataArray, without_fills};

// The product of the axes' sizes, as far as 64 bits count.
#[tactic(auto, using(xr_reducing::proofs::Products::saturates))]
fn points_over(axes: &[Axis]) -> u64
    ensures { result ≡ min (size (shape_over axes.now)) (2 ^ 64 - 1) }
{
    match axes {
        [] => 1,
        [axis, rest @ ..] => axis.size.saturating_mul(points_over(rest)),
    }
}

#[tactic(auto, unfolding(xr_operations::specs::Reductions::check_size, xr_types::specs::Results::unless))]
pub(crate) fn check_axes(axes: &[Axis]) -> Result<(), CallFault>
    ensures { Answers (λ u. u) result (reductions.check_size (shape_over axes.now)) }
{
    if points_over(axes) > MOST_CELLS {
        Err(CallFault::Refused(Fault::TooLarge))
    } else {
        Ok(())
    }
}

/// Whether folds of cells, of which some may miss, may miss.
pub fn masked_after(fold: FoldKind, masked: bool) -> bool
    ensures { result ≡ reductions.masked_after fold masked }
{
    needs_cells(fold) && masked
}

/// An array of folds with these cells.
pub(crate) fn folded_with(
    alloc: Global,
    fold: FoldKind,
    masked: bool,
    changes: &[Change],
    on: &DataArray,
    axes: Items<Axis>,
    chain: Chain,
) -> Result<Made, AllocError>
    requires { axes ≡ lists.axes_by changes.now on.now.axes }
    ensures { IfOk result (λ m. m ≡ made_by fold masked changes.now chain on.now) }
{
    Ok(Made {
        name: on.name.deep_copy(alloc)?,
        axes,
        kind: folded_kind(fold, on.kind),
        masked,
        attrs: without_fills(alloc, on.attrs.as_slice())?,
        coords: coords_left(alloc, changes, on.coords.as_slice())?,
        cells: Formula::One(chain),
    })
}

// Each list of a dimension folded.
fn folded_made(
    alloc: Global,
    fold: FoldKind,
    changes: &[Change],
    on: &DataArray,
    axes: Items<Axis>,
) -> Result<Made, AllocError>
    requires { axes ≡ lists.axes_by changes.now on.now.axes }
    ensures { IfOk result (λ m. m ≡ folded_made fold (reductions.masked_after fold on.now.masked) changes.now on.now) }
{
    let feeds = feeds_by(alloc, changes, on.axes.as_slice())?;
    let chain = one_step(alloc, on.node, Step::Fold(fold, feeds))?;
    let masked = masked_after(fold, on.masked);
    folded_with(alloc, fold, masked, changes, on, axes, chain)
}

// Each list of a dimension folded, or the array as it is where it has none of the dimensions.
fn listed_made(
    alloc: Global,
    fold: FoldKind,
    changes: &[Change],
    on: &DataArray,
    axes: Items<Axis>,
) -> Result<Made, AllocError>
    requires { axes ≡ lists.axes_by changes.now on.now.axes }
    ensures { IfOk result (λ m. m ≡ plain_made fold changes.now on.now) }
{
    if is_grouped(changes, on.axes.as_slice()) {
        folded_made(alloc, fold, changes, on, axes)
    } else {
        kept_made(alloc, on)
    }
}

fn kept_made(alloc: Global, on: &DataArray) -> Result<Made, AllocError>
    ensures { IfOk result (λ m. m ≡ kept_made on.now) }
{
    let attrs = on.attrs.deep_copy(alloc)?;
    let cells = Formula::One(cells_of(alloc, on.node));
    like(alloc, on, on.kind, on.masked, attrs, cells)
}

/// What a method makes of an array in groups or blocks.
#[tactic(auto, unfolding(crate::specs::Mades::plain_of))]
pub(crate) fn plain_made(
    alloc: Global,
    fold: FoldKind,
    grouping: &Grouping,
    on: &DataArray,
    args: &Args,
) -> Result<Made, CallFault>
    requires plain { methods.least_of grouping.now ≡ Never }
    requires frame { IsFrame on.now.axes on.now.coords }
    ensures { (nodes others : List Node) → IsArrayIn nodes on.now → AnswersMade nodes result (plain_of fold grouping.now (array_in nodes on.now) (given others args.now)) }
{
    check_has_method(grouping, fold)?;
    nothing_given(args)?;
    let own = on.axes.as_slice();
    let changes = grouped_changes(alloc, grouping, own, on.coords.as_slice(), &[])?;
    let changes = changes.as_slice();
    let axes = axes_by(alloc, changes, own)?;
    check_axes(axes.as_slice())?;
    let made = listed_made(alloc, fold, changes, on, axes)?;
    Ok(made)
}
