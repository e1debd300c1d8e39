//! Arrays reduced over some or all of their dimensions.
ghost use Rattle.std.specs.Prelude.{◌≡◌, List, IfOk};
ghost use Rattle.xr_arrays.specs.declared.node.Node.{Node};
ghost use Rattle.xr_operations.specs.Reductions as calls;
ghost use Rattle.xr_formulas.specs.Mades.{AnswersMade};
ghost use Rattle.xr_values.specs.Meaning.{given};
ghost use Rattle.xr_values.specs.Stands.{array_in, IsArrayIn};
ghost use Rattle.xr_reducing.specs.Mades.{fold_formula, reduced_made};

use crate::checks::{are_emptied, check_axes, check_cells, check_count};
use crate::dims::{dims_given, names_of};
use crate::folds::{folded_kind, masked_after};
use crate::left::{axes_left, coords_left, feeds_of};
use std::alloc::{AllocError, Global};
use xr_arrays::Feed;
use xr_formulas::{Formula, Made, Step, is_chars, one_step};
use xr_types::{Axis, CallFault, DeepCopy, Fault, FoldKind, Items, NodeId, TextBytes};
use xr_values::{Args, DataArray, without_fills};

/// The fold of a node's cells.
pub(crate) fn fold_formula(
    alloc: Global,
    fold: FoldKind,
    node: NodeId,
    feeds: Items<Feed>,
) -> Result<Formula, AllocError>
    ensures { IfOk result (λ f. f ≡ fold_formula fold feeds node) }
{
    let chain = one_step(alloc, node, Step::Fold(fold, feeds))?;
    Ok(Formula::One(chain))
}

// The array without these dimensions, over the axes that are left.
fn made_over(
    alloc: Global,
    fold: FoldKind,
    names: &[TextBytes],
    on: &DataArray,
    axes: Items<Axis>,
    feeds: Items<Feed>,
) -> Result<Made, AllocError>
    ensures { IfOk result (λ m. m ≡ reduced_made fold names.now on.now axes feeds) }
{
    Ok(Made {
        name: on.name.deep_copy(alloc)?,
        axes,
        kind: folded_kind(fold, on.kind),
        masked: masked_after(fold, on.masked),
        attrs: without_fills(alloc, on.attrs.as_slice())?,
        coords: coords_left(alloc, names, on.coords.as_slice())?,
        cells: fold_formula(alloc, fold, on.node, feeds)?,
    })
}

/// An array reduced over the dimensions that `dim` names, a text or a list of distinct texts, or over all of them. It keeps its
/// name, its attributes but for those that name fill numbers, and the coordinates that have none of them.
///
/// # Errors
/// `WrongKind` for an array of chars; then `BadArgument` for arguments that don't fit; `WrongKind` for a `dim` that is no text
/// and no list of texts, then `BadArgument` where a name stands twice; `NoDimension` for the first name that isn't there;
/// `EmptyReduce` where a fold that needs cells has a dimension without positions; `BadArgument` where one that tells a position
/// has not one dimension; `TooLarge` past the limit of cells.
#[tactic(auto, using(crate::proofs::Reduced::array_reduced), unfolding(xr_operations::specs::Reductions::reduced_array, xr_types::specs::Results::unless))]
pub fn reduced_array(
    alloc: Global,
    fold: FoldKind,
    on: &DataArray,
    args: &Args,
) -> Result<Made, CallFault>
    ensures { (nodes : List Node) → IsArrayIn nodes on.now → AnswersMade nodes result (calls.reduced_array fold (array_in nodes on.now) (given nodes args.now)) }
{
    if is_chars(on.kind) {
        return Err(CallFault::Refused(Fault::WrongKind));
    }
    let own = on.axes.as_slice();
    let dims = names_of(alloc, own)?;
    let names = dims_given(alloc, own, args)?;
    let names = names.as_slice();
    check_cells(fold, are_emptied(names, own))?;
    let feeds = feeds_of(alloc, names, dims.as_slice())?;
    check_count(fold, feeds.as_slice())?;
    let axes = axes_left(alloc, names, own)?;
    check_axes(axes.as_slice())?;
    let made = made_over(alloc, fold, names, on, axes, feeds)?;
    Ok(made)
}
