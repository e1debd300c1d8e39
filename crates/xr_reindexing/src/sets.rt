//! `reindex(x=..)` of a dataset.
ghost use Rattle.std.specs.Prelude.{◌∷◌, List, [], option_map, IfOk};
ghost use Rattle.xr_arrays.specs.declared.node.Node.{Node};
ghost use Rattle.xr_arrays.specs.Added.{AddsAtMost};
ghost use Rattle.xr_defs.specs.Room.{of_set, room};
ghost use Rattle.plan_core.specs.Plans.{Grows};
ghost use Rattle.xr_relations.specs.Reindexing as of;
ghost use Rattle.xr_values.specs.Answers.{AnswersSet};
ghost use Rattle.xr_values.specs.Meaning.{given, meaning};
ghost use Rattle.xr_values.specs.Stands.{dataset_in, IsDatasetIn};

use crate::asked::fill_given;
use crate::changes::changes_given;
use crate::fills::{cell_of, check_coords, check_literal, check_variables};
use plan_core::Plan;
use std::alloc::Global;
use xr_changing::{check_set, set_placed};
use xr_operations::Change;
use xr_selecting::search_given;
use xr_types::{CallFault, Fault};
use xr_values::{Args, Dataset, Value};

// The dataset at new labels, once a fill fits its variables and coordinates and it isn't too large.
#[tactic(auto, unfolding(xr_relations::specs::Reindexing::set_changed))]
fn set_changed(
    alloc: Global,
    plan: &mut Plan,
    changes: &[Change],
    fill: Option<&Value>,
    on: &Dataset,
) -> Result<Dataset, CallFault>
    requires { IsDatasetIn plan.old on.now }
    ensures answers { (nodes : List Node) → AnswersSet plan.new result (of.set_changed changes.now (of.fill_or_missing (option_map (λ v. meaning nodes v.now) fill.entry)) (dataset_in plan.old on.now)) }
    ensures grows { Grows plan.old plan.new }
    ensures room { IfOk result (λ t. AddsAtMost plan.old plan.new (room (of_set (dataset_in plan.old on.now) ∷ of_set (dataset_in plan.new t) ∷ []))) }
{
    check_variables(changes, fill, on.vars.as_slice())?;
    check_coords(alloc, changes, fill, on.coords.as_slice())?;
    check_set(alloc, changes, on)?;
    let set = set_placed(alloc, plan, changes, cell_of(fill), on)?;
    Ok(set)
}

/// The dataset with the labels that each argument by keyword gives to its dimension: each variable and coordinate that has the
/// dimension goes with it, with `fill_value` where a label wasn't there, as in `reindex_array`.
///
/// # Errors
/// Those of `reindex_array`, where the kind of the fill is looked at beside its range, of the variables and then of the
/// coordinates.
#[tactic(auto, unfolding(xr_relations::specs::Reindexing::reindex_set, xr_types::specs::Results::unless, xr_values::specs::Meaning::given))]
pub fn reindex_set(
    alloc: Global,
    plan: &mut Plan,
    on: &Dataset,
    args: &Args,
) -> Result<Dataset, CallFault>
    requires { IsDatasetIn plan.old on.now }
    ensures answers { (nodes : List Node) → AnswersSet plan.new result (of.reindex_set (dataset_in plan.old on.now) (given nodes args.now)) }
    ensures grows { Grows plan.old plan.new }
    ensures room { IfOk result (λ t. AddsAtMost plan.old plan.new (room (of_set (dataset_in plan.old on.now) ∷ of_set (dataset_in plan.new t) ∷ []))) }
{
    if args.plain.len() != 0 {
        return Err(CallFault::Refused(Fault::BadArgument));
    }
    let by = search_given(args.keyed.as_slice())?;
    let fill = fill_given(args);
    check_literal(fill)?;
    let changes = changes_given(alloc, by, on.axes.as_slice(), args)?;
    set_changed(alloc, plan, changes.as_slice(), fill, on)
}
