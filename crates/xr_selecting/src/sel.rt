//! `sel(x=..)` of an array or a dataset: what stands at the labels of the dimensions that are named.
ghost use Rattle.std.specs.Prelude.{List, [], ◌∷◌, IfOk};
ghost use Rattle.xr_arrays.specs.declared.node.Node.{Node};
ghost use Rattle.xr_arrays.specs.Added.{AddsAtMost};
ghost use Rattle.xr_defs.specs.Room.{of_array, of_set, room};
ghost use Rattle.xr_operations.specs.Selection as of;
ghost use Rattle.plan_core.specs.Plans.{Grows};
ghost use Rattle.xr_values.specs.Answers.{AnswersArray, AnswersSet};
ghost use Rattle.xr_values.specs.Meaning.{given};
ghost use Rattle.xr_values.specs.Stands.{array_in, dataset_in, IsArrayIn, IsDatasetIn};

use crate::positions::positions_given;
use plan_core::Plan;
use std::alloc::Global;
use xr_indexing::{isel_array, isel_set};
use xr_types::CallFault;
use xr_values::{Args, DataArray, Dataset};

/// The array at the labels of each argument by keyword.
///
/// # Errors
/// `BadArgument` for a plain argument; then the faults of `method` and `tolerance`; then, for each other argument, `WrongKind`
/// unless it is a label, a list or a slice of labels; then `NoDimension` for the first name that is no dimension; then, dimension
/// by dimension, `BadArgument`, `LabelKind`, `NotUnique`, `NotMonotonic` and `NoSuchLabel`; then `TooLarge`. A dimension without
/// labels takes what `isel` takes.
#[tactic(auto, unfolding(xr_operations::specs::Selection::sel_array))]
pub fn sel_array(
    alloc: Global,
    plan: &mut Plan,
    on: &DataArray,
    args: &Args,
) -> Result<DataArray, CallFault>
    requires { IsArrayIn plan.old on.now }
    ensures answers { (nodes : List Node) → AnswersArray plan.new result (of.sel_array (array_in plan.old on.now) (given nodes args.now)) }
    ensures grows { Grows plan.old plan.new }
    ensures room { IfOk result (λ b. AddsAtMost plan.old plan.new (room (of_array (array_in plan.old on.now) ∷ of_array (array_in plan.new b) ∷ []))) }
{
    let positions = positions_given(alloc, on.axes.as_slice(), args)?;
    isel_array(alloc, plan, on, &positions)
}

/// The dataset at the labels of each argument by keyword: each variable and coordinate that has the dimension is selected by it.
///
/// # Errors
/// Those of `sel_array`.
#[tactic(auto, unfolding(xr_operations::specs::Selection::sel_set))]
pub fn sel_set(
    alloc: Global,
    plan: &mut Plan,
    on: &Dataset,
    args: &Args,
) -> Result<Dataset, CallFault>
    requires { IsDatasetIn plan.old on.now }
    ensures answers { (nodes : List Node) → AnswersSet plan.new result (of.sel_set (dataset_in plan.old on.now) (given nodes args.now)) }
    ensures grows { Grows plan.old plan.new }
    ensures room { IfOk result (λ t. AddsAtMost plan.old plan.new (room (of_set (dataset_in plan.old on.now) ∷ of_set (dataset_in plan.new t) ∷ []))) }
{
    let positions = positions_given(alloc, on.axes.as_slice(), args)?;
    isel_set(alloc, plan, on, &positions)
}
