//! Arrays and datasets with their positions in groups, and the methods of these.
ghost use Rattle.std.specs.Prelude.{◌≡◌, ◌++◌, List, IfOk};
ghost use Rattle.xr_arrays.specs.declared.node.Node.{Node};
ghost use Rattle.xr_arrays.specs.Added.{AddsAtMost};
ghost use Rattle.xr_defs.specs.Room.{portions, room};
ghost use Rattle.xr_runs.specs.Calls.{array_grouped, end_called, fold_called, grouped_by, set_grouped};
ghost use Rattle.plan_core.specs.Plans.{Grows};
ghost use Rattle.xr_values.specs.Meaning.{meaning, given, IsValueIn};
ghost use Rattle.xr_values.specs.Stands.{array_in, dataset_in, IsArrayIn, IsDatasetIn};
ghost use Rattle.dataset_core.specs.Answers.{AnswersValue};

use crate::cells::reduction;
use crate::held::{array_value, set_value};
use plan_core::Plan;
use std::alloc::Global;
use std::rc::Rc;
use xr_group_sets::{grouped_set, set_grouping};
use xr_grouping::{array_grouping, grouped_array};
use xr_groups::Maker;
use xr_types::{CallFault, Fault, FoldKind};
use xr_values::{Args, DataArray, Dataset, Value};

// An array in groups.
fn array_in_groups(
    alloc: Global,
    array: &Rc<DataArray, Global>,
    maker: Maker,
    args: &Args,
) -> Result<Value, CallFault>
    requires { (nodes : List Node) × IsArrayIn nodes array.now.value }
    ensures answers { (nodes : List Node) → IsArrayIn nodes array.now.value → AnswersValue nodes result (array_grouped maker (array_in nodes array.now.value) (given nodes args.now)) }
{
    let grouping = array_grouping(alloc, maker, array, args)?;
    Ok(Value::GroupedArray(array.clone()?, grouping))
}

// A dataset in groups.
fn set_in_groups(
    alloc: Global,
    set: &Rc<Dataset, Global>,
    maker: Maker,
    args: &Args,
) -> Result<Value, CallFault>
    requires { (nodes : List Node) × IsDatasetIn nodes set.now.value }
    ensures answers { (nodes : List Node) → IsDatasetIn nodes set.now.value → AnswersValue nodes result (set_grouped maker (dataset_in nodes set.now.value) (given nodes args.now)) }
{
    let grouping = set_grouping(alloc, maker, set, args)?;
    Ok(Value::GroupedSet(set.clone()?, grouping))
}

/// `groupby`, `resample`, `rolling` and `coarsen`.
#[tactic(auto, using(xr_arguments::proofs::Variants::is_array, xr_arguments::proofs::Variants::is_set, xr_arguments::proofs::Inside::held_array, xr_arguments::proofs::Inside::held_set, xr_values::proofs::Meaning::meaning_out), unfolding(xr_runs::specs::Calls::grouped_by))]
pub(crate) fn grouping(
    alloc: Global,
    on: &Value,
    maker: Maker,
    args: &Args,
) -> Result<Value, CallFault>
    requires { (nodes : List Node) × IsValueIn nodes on.now }
    ensures answers { (nodes : List Node) → IsValueIn nodes on.now → AnswersValue nodes result (grouped_by maker (meaning nodes on.now) (given nodes args.now)) }
{
    match on {
        Value::Array(array) => array_in_groups(alloc, array, maker, args),
        Value::Set(set) => set_in_groups(alloc, set, maker, args),
        _ => Err(CallFault::Refused(Fault::WrongKind)),
    }
}

/// The fold of each group, or a reduction of some or all dimensions.
#[tactic(auto, using(plan_core::proofs::Plans::grows_by_none, plan_core::proofs::Added::adds_none, xr_arguments::proofs::Variants::is_grouped_array, xr_arguments::proofs::Variants::is_grouped_set, xr_values::proofs::Meaning::meaning_out), unfolding(xr_runs::specs::Calls::fold_called))]
pub(crate) fn fold(
    alloc: Global,
    plan: &mut Plan,
    on: &Value,
    kind: FoldKind,
    args: &Args,
) -> Result<Value, CallFault>
    requires { IsValueIn plan.old on.now }
    ensures answers { AnswersValue plan.new result (fold_called kind (meaning plan.old on.now) (given plan.old args.now)) }
    ensures grows { Grows plan.old plan.new }
    ensures room { IfOk result (λ v. AddsAtMost plan.old plan.new (room (portions (meaning plan.old on.now) ++ portions (meaning plan.new v)))) }
{
    match on {
        Value::GroupedArray(array, grouping) => {
            let answer = grouped_array(alloc, plan, kind, grouping, array, args)?;
            Ok(array_value(alloc, answer)?)
        }
        Value::GroupedSet(set, grouping) => {
            let answer = grouped_set(alloc, plan, kind, grouping, set, args)?;
            Ok(set_value(alloc, answer)?)
        }
        _ => reduction(alloc, plan, on, kind, args),
    }
}

/// The first or the last present cell of each group.
#[tactic(auto, using(plan_core::proofs::Plans::grows_by_none, plan_core::proofs::Added::adds_none, xr_arguments::proofs::Variants::is_grouped_array, xr_arguments::proofs::Variants::is_grouped_set, xr_values::proofs::Meaning::meaning_out), unfolding(xr_runs::specs::Calls::end_called))]
pub(crate) fn end_cell(
    alloc: Global,
    plan: &mut Plan,
    on: &Value,
    kind: FoldKind,
    args: &Args,
) -> Result<Value, CallFault>
    requires { IsValueIn plan.old on.now }
    ensures answers { AnswersValue plan.new result (end_called kind (meaning plan.old on.now) (given plan.old args.now)) }
    ensures grows { Grows plan.old plan.new }
    ensures room { IfOk result (λ v. AddsAtMost plan.old plan.new (room (portions (meaning plan.old on.now) ++ portions (meaning plan.new v)))) }
{
    match on {
        Value::GroupedArray(_, _) => fold(alloc, plan, on, kind, args),
        Value::GroupedSet(_, _) => fold(alloc, plan, on, kind, args),
        _ => Err(CallFault::Refused(Fault::WrongKind)),
    }
}
