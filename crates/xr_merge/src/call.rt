//! `merge(LIST, compat="no_conflicts", join="outer", fill_value?)`: values merged by the names of their variables.
ghost use Rattle.std.specs.Prelude.{◌≡◌, ℕ, List, map, Option, Some, Ok, option_map, true, IfOk};
ghost use Rattle.std.specs.List.{list_all, AllByRecursion};
ghost use denote.Param.Send.{IsSync};
ghost use Rattle.xr_types.specs.Results.{Answers};
ghost use Rattle.xr_types.specs.declared.axis.Axis.{Axis as AnAxis};
ghost use Rattle.xr_arrays.specs.declared.node.Node.{Node};
ghost use Rattle.plan_core.specs.Plans.{Grows};
ghost use Rattle.xr_combination.specs.Merge as calls;
ghost use Rattle.xr_defs.specs.Building.{argument as argument_of, bound as bound_to};
ghost use Rattle.xr_defs.specs.Meanings.{Value as Meant};
ghost use Rattle.xr_combining.specs.Held.{holds_named};
ghost use Rattle.xr_values.specs.Answers.{AnswersSet};
ghost use Rattle.xr_values.specs.Meaning.{given, meaning, AreArgsIn, IsValueIn};
ghost use Rattle.xr_values.specs.Stands.{dataset_in};
ghost use Rattle.xr_joint.specs.Fitting.{HasFrame, IsOpenIn};
ghost use Rattle.xr_joint.specs.Joint.{parts_in, AnswersOne, AreReady, IsSound};
ghost use Rattle.xr_merge.specs.Merged.{axes_of, joint_over, merged_over, sets_merged};

use crate::attributes::common_attrs;
use crate::joined::joined_axes;
use crate::joint::joined_by_name;
use crate::named::named_given;
use crate::sets::as_datasets;
use plan_core::Plan;
use std::alloc::Global;
use std::rc::Rc;
use std::thread::Threads;
use xr_aligning::fill_cell;
use xr_arguments::{argument, bound, option, required};
use xr_combination::Compat;
use xr_combining::{compat_given, fill_given, how_given};
use xr_joint::{Joint, all_fitted, check_fills, check_limits, checked, placed};
use xr_merging::{all_skipped, check_dims, have_crossing};
use xr_types::{Attr, Axis, CallFault, Fault, How, Items, NoMemory};
use xr_values::{Args, Dataset, Value};

// The axes of all, once no name stands for two things and each has one set of dimensions.
#[tactic(auto, unfolding(crate::specs::Merged::axes_of, xr_types::specs::Results::unless))]
fn axes_of(
    alloc: Global,
    how: How,
    filled: bool,
    sets: &[Dataset],
) -> Result<Items<Axis>, CallFault>
    ensures { (nodes : List Node) → Answers (λ (xs : List AnAxis). xs) result (axes_of how filled (map (dataset_in nodes) sets.now)) }
{
    let axes = joined_axes(alloc, sets, how, filled)?;
    if have_crossing(sets) {
        return Err(CallFault::Refused(Fault::DuplicateName));
    }
    check_dims(alloc, axes.as_slice(), sets)?;
    Ok(axes)
}

// What is made over them, once a fill is one where it is needed, and no dataset is too large.
fn joint_over<R: Threads + Sync>(
    rt: &R,
    alloc: Global,
    plan: &mut Plan,
    compat: Compat,
    axes: &[Axis],
    fill: Option<&Value>,
    sets: &[Dataset],
) -> Result<Joint, CallFault>
    requires sync { IsSync R.row }
    requires open { AllByRecursion (IsOpenIn plan.old) sets.now }
    requires frames { AllByRecursion HasFrame sets.now }
    ensures answers { Answers (parts_in plan.new) result (joint_over compat axes.now (option_map (λ v. meaning plan.old v.now) fill.entry) (map (dataset_in plan.old) sets.now)) }
    ensures ready { IfOk result (λ j. AreReady plan.new axes.now j.vars) }
    ensures sound { IfOk result (λ j. AllByRecursion IsSound j.coords) }
    ensures grows { Grows plan.old plan.new }
{
    check_fills(alloc, axes, fill, sets)?;
    check_limits(alloc, axes, sets)?;
    let over = all_fitted(alloc, plan, axes, fill_cell(fill), sets)?;
    joined_by_name(rt, alloc, plan, compat, axes, over.as_slice())
}

#[tactic(auto, using(plan_core::proofs::Plans::grows_on, crate::proofs::Steps::merged_refused))]
fn merged_over<R: Threads + Sync>(
    rt: &R,
    alloc: Global,
    plan: &mut Plan,
    compat: Compat,
    axes: &[Axis],
    fill: Option<&Value>,
    attrs: Items<Attr>,
    sets: &[Dataset],
) -> Result<Dataset, CallFault>
    requires sync { IsSync R.row }
    requires open { AllByRecursion (IsOpenIn plan.old) sets.now }
    requires frames { AllByRecursion HasFrame sets.now }
    ensures answers { AnswersSet plan.new result (merged_over compat axes.now (option_map (λ v. meaning plan.old v.now) fill.entry) attrs (map (dataset_in plan.old) sets.now)) }
    ensures grows { Grows plan.old plan.new }
{
    let made = joint_over(rt, alloc, plan, compat, axes, fill, sets)?;
    let skipped = all_skipped(alloc, sets)?;
    let set = placed(alloc, plan, axes, made, attrs, skipped)?;
    checked(plan, set)
}

#[tactic(auto, using(plan_core::proofs::Plans::grows_by_none, crate::proofs::Told::some_kept, crate::proofs::Told::sets_refused))]
fn sets_merged<R: Threads + Sync>(
    rt: &R,
    alloc: Global,
    plan: &mut Plan,
    compat: Compat,
    how: How,
    fill: Option<&Value>,
    attrs: Items<Attr>,
    sets: &[Dataset],
) -> Result<Dataset, CallFault>
    requires sync { IsSync R.row }
    requires open { AllByRecursion (IsOpenIn plan.old) sets.now }
    requires frames { AllByRecursion HasFrame sets.now }
    ensures answers { AnswersSet plan.new result (sets_merged compat how (option_map (λ v. meaning plan.old v.now) fill.entry) attrs (map (dataset_in plan.old) sets.now)) }
    ensures grows { Grows plan.old plan.new }
{
    let axes = axes_of(alloc, how, fill.is_some(), sets)?;
    merged_over(rt, alloc, plan, compat, axes.as_slice(), fill, attrs, sets)
}

/// The data variables and coordinates of datasets and named arrays in one dataset, with `compat`, the join and the fill at hand.
///
/// # Errors
/// Those of `merge` but for its arguments.
#[tactic(auto, using(plan_core::proofs::Plans::grows_by_none))]
pub fn merge_of<R: Threads + Sync>(
    rt: &R,
    alloc: Global,
    plan: &mut Plan,
    compat: Compat,
    how: How,
    fill: Option<&Value>,
    values: &[Value],
) -> Result<Dataset, CallFault>
    requires sync { IsSync R.row }
    requires inside { AllByRecursion (IsValueIn plan.old) values.now }
    requires named { list_all holds_named values.now ≡ true }
    ensures answers { AnswersSet plan.new result (calls.merge_of compat how (option_map (λ v. meaning plan.old v.now) fill.entry) (map (meaning plan.old) values.now)) }
    ensures grows { Grows plan.old plan.new }
{
    let sets = as_datasets(alloc, values)?;
    let attrs = common_attrs(alloc, values)?;
    sets_merged(rt, alloc, plan, compat, how, fill, attrs, sets.as_slice())
}

// The argument in the first place. One that is named in its stead, which no keyword does, wants memory.
#[tactic(auto, using(crate::proofs::Given::first_is, crate::proofs::Given::first_inside))]
fn first(args: &Args) -> Result<&Value, NoMemory>
    ensures is { (nodes : List Node) (names : List (List ℕ)) (vs : List (Option Meant)) → bound_to names (given nodes args.now) ≡ Ok vs → IfOk result (λ v. argument_of vs 0 ≡ Some (meaning nodes v.now)) }
    ensures inside { (nodes : List Node) → AreArgsIn nodes args.now → IfOk result (λ v. IsValueIn nodes v.now) }
{
    match args.plain.as_slice() {
        [] => Err(NoMemory),
        [value, ..] => Ok(value),
    }
}

/// The data variables and coordinates of datasets and named arrays in one dataset, over the axes that theirs are joined to. Of those
/// that have one name, the cells that aren't missing have to agree, or to be equal, or the first one stands for all, as `compat`
/// says. The cells of new variables are those of nodes that are added.
///
/// # Errors
/// `BadArgument` and `WrongKind` for the arguments; then, of the dimensions in the order in which they appear, that of the first that
/// can't be joined; `DuplicateName` for a variable that has the name of a dimension or coordinate; `Conflict` for one name over
/// several sets of dimensions; `WrongKind` and `DoesNotFit` for a fill that isn't one where it is needed; `TooLarge` for a value over
/// the joined axes; then name by name `Conflict`, `WrongKind` and `WouldPromote`; then `TooLarge`.
#[tactic(auto, using(plan_core::proofs::Plans::grows_by_none, xr_arguments::proofs::Inside::set_inside, xr_arguments::proofs::Variants::is_set), unfolding(xr_combination::specs::Merge::merge_called))]
pub fn merge<R: Threads + Sync>(
    rt: &R,
    alloc: Global,
    plan: &mut Plan,
    args: &Args,
) -> Result<Value, CallFault>
    requires sync { IsSync R.row }
    requires given { AreArgsIn plan.old args.now }
    ensures answers { AnswersOne plan.new result (calls.merge_called (given plan.old args.now)) }
    ensures grows { Grows plan.old plan.new }
{
    let given = bound(
        alloc,
        &["list of values", "compat", "join", "fill_value"],
        args,
    )?;
    let given = given.as_slice();
    required(argument(given, 0))?;
    let values = named_given(first(args)?)?;
    let compat = compat_given(option(given, 1))?;
    let how = how_given(option(given, 2))?;
    let fill = fill_given(option(given, 3))?;
    let set = merge_of(rt, alloc, plan, compat, how, fill, values)?;
    Ok(Value::Set(Rc::new(alloc, set)?))
}
