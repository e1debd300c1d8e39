//! `combine_by_coords(LIST, compat="no_conflicts", join="outer", fill_value?)`: tiles of a grid put together by their labels.
ghost use Rattle.std.specs.Prelude.{◌≡◌, ℕ, List, map, Option, Some, Ok, option_map, IfOk};
ghost use Rattle.std.specs.List.{AllByRecursion};
ghost use denote.Param.Send.{IsSync};
ghost use Rattle.xr_arrays.specs.declared.node.Node.{Node};
ghost use Rattle.plan_core.specs.Plans.{Grows};
ghost use Rattle.xr_combination.specs.Combine as calls;
ghost use Rattle.xr_defs.specs.Building.{argument as argument_of, bound as bound_to};
ghost use Rattle.xr_defs.specs.Meanings.{Value as Meant};
ghost use Rattle.xr_values.specs.Answers.{AnswersSet};
ghost use Rattle.xr_values.specs.Meaning.{given, meaning, AreArgsIn, IsValueIn};
ghost use Rattle.xr_joint.specs.Joint.{AnswersOne};
ghost use Rattle.xr_types.specs.Results.{Answers};
ghost use Rattle.xr_relations.specs.Aligning as relations;
ghost use Rattle.xr_combine.specs.Sets.{AnswersSeveral, IsFixed};
ghost use Rattle.xr_combine.specs.Steps as steps;

use crate::groups::groups_combined;
use crate::sets::{all_shared, as_values, borrowed, sets_given};
use plan_core::Plan;
use std::alloc::Global;
use std::rc::Rc;
use std::thread::Threads;
use xr_arguments::{argument, bound, option, required};
use xr_combination::Compat;
use xr_combining::{compat_given, fill_given, how_given};
use xr_merge::merge_of;
use xr_tiling::grouped;
use xr_types::{CallFault, How, Items, NoMemory};
use xr_values::{Args, Dataset, Value};

// Each group by itself.
fn combined<R: Threads + Sync>(
    rt: &R,
    alloc: Global,
    plan: &mut Plan,
    how: How,
    fill: Option<&Value>,
    values: &[Value],
) -> Result<Items<Rc<Dataset>>, CallFault>
    requires sync { IsSync R.row }
    requires fixed { IsFixed fill }
    requires inside { AllByRecursion (IsValueIn plan.old) values.now }
    ensures answers { AnswersSeveral plan.new result (steps.combined how (option_map (λ v. meaning plan.old v.now) fill.entry) (map (meaning plan.old) values.now)) }
    ensures grows { Grows plan.old plan.new }
{
    let sets = all_shared(alloc, values)?;
    let members = borrowed(alloc, sets.as_slice())?;
    let groups = grouped(alloc, members.as_slice())?;
    groups_combined(
        rt,
        alloc,
        plan,
        how,
        fill,
        sets.as_slice(),
        groups.as_slice(),
    )
}

// The groups are merged.
fn combine_of<R: Threads + Sync>(
    rt: &R,
    alloc: Global,
    plan: &mut Plan,
    compat: Compat,
    how: How,
    fill: Option<&Value>,
    values: &[Value],
) -> Result<Dataset, CallFault>
    requires sync { IsSync R.row }
    requires fixed { IsFixed fill }
    requires inside { AllByRecursion (IsValueIn plan.old) values.now }
    ensures answers { AnswersSet plan.new result (calls.combine_of compat how (option_map (λ v. meaning plan.old v.now) fill.entry) (map (meaning plan.old) values.now)) }
    ensures grows { Grows plan.old plan.new }
{
    let sets = combined(rt, alloc, plan, how, fill, values)?;
    let groups = as_values(alloc, sets.as_slice())?;
    merge_of(rt, alloc, plan, compat, how, fill, groups.as_slice())
}

// The argument in the first place. One that is named in its stead, which no keyword does, wants memory.
#[tactic(auto, using(xr_merge::proofs::Given::first_is, xr_merge::proofs::Given::first_inside))]
fn first(args: &Args) -> Result<&Value, NoMemory>
    ensures is { (nodes : List Node) (names : List (List ℕ)) (vs : List (Option Meant)) → bound_to names (given nodes args.now) ≡ Ok vs → IfOk result (λ v. argument_of vs 0 ≡ Some (meaning nodes v.now)) }
    ensures inside { (nodes : List Node) → AreArgsIn nodes args.now → IfOk result (λ v. IsValueIn nodes v.now) }
{
    match args.plain.as_slice() {
        [] => Err(NoMemory),
        [value, ..] => Ok(value),
    }
}

// A number, a truth value or a missing cell means the same in every plan.
fn fixed_fill(value: Option<&Value>) -> Result<Option<&Value>, CallFault>
    ensures fixed { IfOk result IsFixed }
    ensures answers { (nodes : List Node) → Answers (option_map (λ v. meaning nodes v.now)) result (relations.fill_given (option_map (λ v. meaning nodes v.now) value.entry)) }
{
    fill_given(value)
}

/// Datasets put together by the labels of their dimensions: those that have the same data variables are tiles of a grid, which are put
/// one after the other along each dimension in which their labels differ, in the direction of the labels; then the groups are merged,
/// as `compat` says. The cells of new variables are those of nodes that are added.
///
/// # Errors
/// `WrongKind` and `BadArgument` for the arguments. Then group by group, in the order of the names of their variables: `Conflict` where
/// the tiles fill no grid, `NotMonotonic` and `LabelKind` for their labels, the faults of `concat`, and `NotMonotonic` where the labels of
/// the grid don't go on in their direction. Then the faults of `merge`.
pub fn combine_by_coords<R: Threads + Sync>(
    rt: &R,
    alloc: Global,
    plan: &mut Plan,
    args: &Args,
) -> Result<Value, CallFault>
    requires sync { IsSync R.row }
    requires given { AreArgsIn plan.old args.now }
    ensures answers { AnswersOne plan.new result (calls.combine_called (given plan.old args.now)) }
    ensures grows { Grows plan.old plan.new }
{
    let given = bound(
        alloc,
        &["list of datasets", "compat", "join", "fill_value"],
        args,
    )?;
    let given = given.as_slice();
    required(argument(given, 0))?;
    let values = sets_given(first(args)?)?;
    let compat = compat_given(option(given, 1))?;
    let how = how_given(option(given, 2))?;
    let fill = fixed_fill(option(given, 3))?;
    let set = combine_of(rt, alloc, plan, compat, how, fill, values)?;
    Ok(Value::Set(Rc::new(alloc, set)?))
}
