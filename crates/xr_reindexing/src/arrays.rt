//! `reindex(x=..)` of an array.
ghost use Rattle.std.specs.Prelude.{◌≡◌, ◌∷◌, List, [], option_map, IfOk};
ghost use Rattle.xr_arrays.specs.declared.node.Node.{Node};
ghost use Rattle.xr_arrays.specs.Added.{AddsAtMost};
ghost use Rattle.xr_defs.specs.Room.{of_array, room};
ghost use Rattle.plan_core.specs.Plans.{Grows};
ghost use Rattle.xr_relations.specs.Reindexing as of;
ghost use Rattle.xr_values.specs.Answers.{AnswersArray};
ghost use Rattle.xr_values.specs.Meaning.{given, meaning};
ghost use Rattle.xr_values.specs.Stands.{array_in, IsArrayIn};

use crate::asked::fill_given;
use crate::changes::changes_given;
use crate::fills::{cell_of, check_coords, check_fit, fill_called};
use plan_core::Plan;
use std::alloc::Global;
use xr_changing::{check_array, names_of, placed};
use xr_operations::Change;
use xr_selecting::search_given;
use xr_types::{CallFault, Fault};
use xr_values::{Args, DataArray, Value};

// The array at new labels, once a fill fits it and its coordinates and it isn't too large.
#[tactic(auto, unfolding(xr_relations::specs::Reindexing::array_changed))]
fn array_changed(
    alloc: Global,
    plan: &mut Plan,
    changes: &[Change],
    fill: Option<&Value>,
    on: &DataArray,
) -> Result<DataArray, CallFault>
    requires { IsArrayIn plan.old on.now }
    ensures answers { (nodes : List Node) → AnswersArray plan.new result (of.array_changed changes.now (of.fill_or_missing (option_map (λ v. meaning nodes v.now) fill.entry)) (array_in plan.old on.now)) }
    ensures grows { Grows plan.old plan.new }
    ensures room { IfOk result (λ b. AddsAtMost plan.old plan.new (room (of_array (array_in plan.old on.now) ∷ of_array (array_in plan.new b) ∷ []))) }
{
    let names = names_of(alloc, on.axes.as_slice())?;
    check_fit(changes, fill, names.as_slice(), on.kind)?;
    check_coords(alloc, changes, fill, on.coords.as_slice())?;
    check_array(alloc, changes, on)?;
    let array = placed(alloc, plan, changes, cell_of(fill), on)?;
    Ok(array)
}

/// The array with the labels that each argument by keyword gives to its dimension, and `fill_value` where a label wasn't there. New
/// whole numbers are of kind int64; the index keeps its attributes, and times their units. Coordinates along a dimension go with
/// it. The result is masked where a missing cell fills.
///
/// # Errors
/// `BadArgument` for a plain argument; then the faults of `method` and `tolerance`; `WrongKind` for a fill that is neither `NA` nor a
/// literal of the array's kind; then `WrongKind` for the first dimension that is given no list of labels; then `NoDimension`; then,
/// dimension by dimension, `BadArgument`, `LabelKind`, also without an index, `NotUnique`, `NotMonotonic`, and `WouldPromote` where
/// a label isn't there and no fill is given; then `DoesNotFit` for a whole number past 64 bits, and, where a label isn't there, for
/// a fill that isn't in the range of the kind; `WrongKind` and `DoesNotFit` of the coordinates; then `TooLarge`.
#[tactic(auto, unfolding(xr_relations::specs::Reindexing::reindex_array, xr_types::specs::Results::unless, xr_values::specs::Meaning::given))]
pub fn reindex_array(
    alloc: Global,
    plan: &mut Plan,
    on: &DataArray,
    args: &Args,
) -> Result<DataArray, CallFault>
    requires { IsArrayIn plan.old on.now }
    ensures answers { (nodes : List Node) → AnswersArray plan.new result (of.reindex_array (array_in plan.old on.now) (given nodes args.now)) }
    ensures grows { Grows plan.old plan.new }
    ensures room { IfOk result (λ b. AddsAtMost plan.old plan.new (room (of_array (array_in plan.old on.now) ∷ of_array (array_in plan.new b) ∷ []))) }
{
    if args.plain.len() != 0 {
        return Err(CallFault::Refused(Fault::BadArgument));
    }
    let by = search_given(args.keyed.as_slice())?;
    let fill = fill_given(args);
    fill_called(on.kind, fill)?;
    let changes = changes_given(alloc, by, on.axes.as_slice(), args)?;
    array_changed(alloc, plan, changes.as_slice(), fill, on)
}
