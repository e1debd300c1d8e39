//! `isel(x=..)` of arrays and datasets: what stands at positions of the dimensions that are named.
ghost use Rattle.std.specs.Prelude.{◌≡◌, [], ◌∷◌, List, IfOk};
ghost use Rattle.xr_arrays.specs.declared.node.Node.{Node};
ghost use Rattle.xr_arrays.specs.Added.{AddsAtMost};
ghost use Rattle.xr_defs.specs.Room.{of_array, of_set, room};
ghost use Rattle.plan_core.specs.Plans.{Grows};
ghost use Rattle.xr_operations.specs.Indexing as of;
ghost use Rattle.xr_values.specs.Answers.{AnswersArray, AnswersSet};
ghost use Rattle.xr_values.specs.Meaning.{given};
ghost use Rattle.xr_values.specs.Stands.{array_in, dataset_in, IsArrayIn, IsDatasetIn};

use crate::selection::selection_given;
use plan_core::Plan;
use std::alloc::Global;
use xr_changing::{check_array, check_set, placed, set_placed};
use xr_squeezing::{are_few, squeezed_array, squeezed_set};
use xr_types::{CallFault, Fault};
use xr_values::{Args, DataArray, Dataset};

/// The array at the positions of each argument by keyword: a position, a slice or a list of positions. A dimension of which one
/// position is taken goes, and leaves its label there as a coordinate.
///
/// # Errors
/// `BadArgument` for a plain argument; then, for each argument, `WrongKind` unless it is a position, a slice or a list of
/// positions, and `BadArgument` for a step of 0; then `NoDimension` for the first name that is no dimension; then
/// `OutOfRange` for a position that isn't there; then `TooLarge`.
#[tactic(auto, unfolding(xr_operations::specs::Indexing::isel_array, xr_operations::specs::Indexing::array_selected))]
pub fn isel_array(
    alloc: Global,
    plan: &mut Plan,
    on: &DataArray,
    args: &Args,
) -> Result<DataArray, CallFault>
    requires { IsArrayIn plan.old on.now }
    ensures answers { (nodes : List Node) → AnswersArray plan.new result (of.isel_array (array_in plan.old on.now) (given nodes args.now)) }
    ensures grows { Grows plan.old plan.new }
    ensures room { IfOk result (λ b. AddsAtMost plan.old plan.new (room (of_array (array_in plan.old on.now) ∷ of_array (array_in plan.new b) ∷ []))) }
{
    let selection = selection_given(alloc, on.axes.as_slice(), args)?;
    let changes = selection.changes.as_slice();
    check_array(alloc, changes, on)?;
    let taken = placed(alloc, plan, changes, None, on)?;
    let left = squeezed_array(alloc, plan, selection.gone.as_slice(), taken)?;
    Ok(left)
}

/// The dataset at the positions of each argument by keyword: each variable and coordinate that has the dimension is selected by it,
/// as in `isel_array`.
///
/// # Errors
/// Those of `isel_array`.
#[tactic(auto, unfolding(xr_operations::specs::Indexing::isel_set, xr_operations::specs::Indexing::set_selected, xr_types::specs::Results::unless))]
pub fn isel_set(
    alloc: Global,
    plan: &mut Plan,
    on: &Dataset,
    args: &Args,
) -> Result<Dataset, CallFault>
    requires { IsDatasetIn plan.old on.now }
    ensures answers { (nodes : List Node) → AnswersSet plan.new result (of.isel_set (dataset_in plan.old on.now) (given nodes args.now)) }
    ensures grows { Grows plan.old plan.new }
    ensures room { IfOk result (λ t. AddsAtMost plan.old plan.new (room (of_set (dataset_in plan.old on.now) ∷ of_set (dataset_in plan.new t) ∷ []))) }
{
    let selection = selection_given(alloc, on.axes.as_slice(), args)?;
    let changes = selection.changes.as_slice();
    let gone = selection.gone.as_slice();
    check_set(alloc, changes, on)?;
    let taken = set_placed(alloc, plan, changes, None, on)?;
    if !are_few(gone, &taken) {
        return Err(CallFault::Refused(Fault::TooLarge));
    }
    let left = squeezed_set(alloc, plan, gone, taken)?;
    Ok(left)
}
