//! `concat(LIST, dim, join="outer", fill_value?)`: values one after the other along a dimension.
ghost use Rattle.std.specs.Prelude.{◌≡◌, ◌≤◌, ◌++◌, ℕ, List, length, map, Option, Some, Ok, option_map, true, IfOk, OnOk};
ghost use Rattle.std.specs.List.{list_all, AllByRecursion};
ghost use denote.Param.Send.{IsSync};
ghost use Rattle.xr_types.specs.Results.{Answers, all_of};
ghost use Rattle.xr_arrays.specs.declared.node.Node.{Node};
ghost use Rattle.plan_core.specs.Plans.{Grows};
ghost use Rattle.xr_combination.specs.Concat as calls;
ghost use Rattle.xr_combination.specs.Pieces as pieces;
ghost use Rattle.xr_defs.specs.Building.{argument as argument_of, bound as bound_to};
ghost use Rattle.xr_defs.specs.Carrying as carrying;
ghost use Rattle.xr_defs.specs.Meanings.{Value as Meant};
ghost use Rattle.xr_defs.specs.Parts.{axes_called};
ghost use Rattle.xr_defs.specs.Values as of;
ghost use Rattle.xr_values.specs.Carrying.{the_attrs};
ghost use Rattle.xr_values.specs.Meaning.{given, meaning, AreArgsIn, IsValueIn};
ghost use Rattle.xr_values.specs.Stands.{dataset_in, IsDatasetIn};
ghost use Rattle.xr_joint.specs.Fitting.{HasFrame};
ghost use Rattle.xr_joint.specs.Joint.{AnswersOne};
ghost use Rattle.xr_concat.specs.Answered.{AnswersHeld};
ghost use Rattle.xr_concat.specs.Named.{AreHeldIn};
ghost use Rattle.xr_concat.specs.Steps.{checked_over, made_of, made_over};

use crate::answer::answered;
use crate::asked::{alike_given, dim_given};
use crate::constants::check_constants;
use crate::limits::are_variables_within;
use crate::sets::all_over;
use crate::variables::variables_concatenated;
use plan_core::Plan;
use std::alloc::{AllocError, Global};
use std::thread::Threads;
use xr_aligning::fill_cell;
use xr_arguments::{argument, bound, option, required};
use xr_chaining::all_unnamed;
use xr_combining::{fill_given, how_given};
use xr_joint::{Joint, check_fills, placed};
use xr_merging::{all_skipped, joined_attrs, with_attrs};
use xr_stacking::{axes_of, check_all_kinds, coords_concatenated, result_axes};
use xr_types::{Attr, Axis, CallFault, Fault, How, Items, Name, NoMemory};
use xr_values::{Args, DataArray, Dataset, Value};

// ---- what is checked

// The dimensions and kinds of the data variables, and the fill.
fn check_over(
    alloc: Global,
    joined: &[Axis],
    fill: Option<&Value>,
    sets: &[Dataset],
) -> Result<(), CallFault>
    requires frames { AllByRecursion HasFrame sets.now }
    ensures { (nodes : List Node) → Answers (λ u. u) result (checked_over joined.now (option_map (λ v. meaning nodes v.now) fill.entry) (map (dataset_in nodes) sets.now)) }
{
    check_all_kinds(alloc, sets)?;
    check_fills(alloc, joined, fill, sets)
}

// ---- what is made

fn push_attrs(alloc: Global, out: &mut Items<DataArray>, sets: &[Dataset]) -> Result<(), AllocError>
    ensures { (nodes : List Node) → OnOk result (the_attrs out.new ≡ the_attrs out.old ++ map (λ (s : of.Dataset). s.attrs) (map (dataset_in nodes) sets.now)) }
{
    for set in sets {
        out.push(with_attrs(alloc, &set.attrs)?)?;
    }
    Ok(())
}

fn common_attrs(alloc: Global, sets: &[Dataset]) -> Result<Items<Attr>, NoMemory>
    ensures { (nodes : List Node) → IfOk result (λ attrs. attrs ≡ carrying.joined_attrs (map (λ (s : of.Dataset). s.attrs) (map (dataset_in nodes) sets.now))) }
{
    let mut lists = Items::new(alloc);
    push_attrs(alloc, &mut lists, sets)?;
    let attrs = joined_attrs(alloc, lists.as_slice())?;
    Ok(attrs)
}

// Datasets over joined axes as one that stands in the plan.
#[tactic(auto, using(plan_core::proofs::Plans::grows_on))]
fn put_together(
    alloc: Global,
    plan: &mut Plan,
    dim: &Name,
    axes: &[Axis],
    all: &[Axis],
    sets: &[Dataset],
) -> Result<Dataset, CallFault>
    requires held { AreHeldIn plan.old sets.now }
    requires all { all.now ≡ axes_called axes.now (calls.result_names dim.now (map (dataset_in plan.old) sets.now)) }
    ensures answers { AnswersHeld plan.new result (calls.put_together dim.now axes.now (map (dataset_in plan.old) sets.now)) }
    ensures grows { Grows plan.old plan.new }
{
    let vars = variables_concatenated(alloc, plan, all, dim, sets)?;
    let coords = coords_concatenated(alloc, dim, axes, sets)?;
    let attrs = common_attrs(alloc, sets)?;
    let skipped = all_skipped(alloc, sets)?;
    let set = placed(alloc, plan, all, Joint { vars, coords }, attrs, skipped)?;
    Ok(set)
}

// Datasets over joined axes as the answer.
#[tactic(auto, using(plan_core::proofs::Plans::grows_by_none))]
fn made_of<R: Threads + Sync>(
    rt: &R,
    alloc: Global,
    plan: &mut Plan,
    dim: &Name,
    axes: &[Axis],
    values: &[Value],
    sets: &[Dataset],
) -> Result<Value, CallFault>
    requires sync { IsSync R.row }
    requires held { AreHeldIn plan.old sets.now }
    requires kinds { all_of (calls.check_kinds (map (dataset_in plan.old) sets.now)) (calls.set_names (pieces.first_set (map (dataset_in plan.old) sets.now))) ≡ Ok tt }
    ensures answers { (nodes : List Node) → (list_all pieces.is_array (map (meaning nodes) values.now) ≡ true → length (pieces.first_set (map (dataset_in plan.old) sets.now)).vars ≤ 1) → AnswersOne plan.new result (made_of dim.now axes.now (map (meaning nodes) values.now) (map (dataset_in plan.old) sets.now)) }
    ensures grows { Grows plan.old plan.new }
{
    check_constants(rt, alloc, plan, dim, sets)?;
    let all = result_axes(alloc, dim, axes, sets)?;
    let all = all.as_slice();
    if !are_variables_within(alloc, all, dim, sets)? {
        return Err(CallFault::Refused(Fault::TooLarge));
    }
    let set = put_together(alloc, plan, dim, axes, all, sets)?;
    answered(alloc, plan, values, set)
}

// Of these values, which are these datasets over their own axes.
#[tactic(auto, using(plan_core::proofs::Plans::grows_by_none, plan_core::proofs::Plans::grows_on))]
fn made_over<R: Threads + Sync>(
    rt: &R,
    alloc: Global,
    plan: &mut Plan,
    dim: &Name,
    joined: &[Axis],
    axes: &[Axis],
    fill: Option<&Value>,
    values: &[Value],
    sets: &[Dataset],
) -> Result<Value, CallFault>
    requires sync { IsSync R.row }
    requires inside { AllByRecursion (IsValueIn plan.old) values.now }
    requires frames { AllByRecursion HasFrame sets.now }
    requires are { map (dataset_in plan.old) sets.now ≡ map calls.unnamed (map (meaning plan.old) values.now) }
    requires sets { list_all pieces.is_set (map (meaning plan.old) values.now) ≡ true → AllByRecursion (IsDatasetIn plan.old) sets.now }
    ensures answers { AnswersOne plan.new result (made_over dim.now joined.now axes.now (option_map (λ v. meaning plan.old v.now) fill.entry) (map (meaning plan.old) values.now)) }
    ensures grows { Grows plan.old plan.new }
{
    check_over(alloc, joined, fill, sets)?;
    let over = all_over(alloc, plan, joined, fill_cell(fill), values, sets)?;
    made_of(rt, alloc, plan, dim, axes, values, over.as_slice())
}

/// Arrays or datasets one after the other along a dimension that all have, or that none has, which then stands first. The other
/// dimensions are joined by their labels, and the labels along it stand one after the other; along a new one they are the scalar
/// coordinates of its name. A data variable without the dimension, where it isn't new, has to be the same in all. The cells of new
/// variables are those of nodes that are added.
///
/// # Errors
/// `NoVariable` for a data variable that one has and another lacks; `NoDimension` for a dimension that some have and others don't;
/// `DuplicateName` where a data variable, or a coordinate over dimensions, has its name; those of the first other dimension that
/// can't be joined; `LabelKind` and `WouldPromote` for the labels along it; then name by name `Conflict` for other dimensions,
/// `WrongKind` and `WouldPromote` for kinds that don't become one; `WrongKind` and `DoesNotFit` for a fill that isn't one where it is
/// needed; `TooLarge` for a value over the joined axes; `Conflict` for other cells; then `TooLarge`.
#[tactic(auto, using(plan_core::proofs::Plans::grows_by_none))]
pub fn concat_of<R: Threads + Sync>(
    rt: &R,
    alloc: Global,
    plan: &mut Plan,
    dim: &Name,
    how: How,
    fill: Option<&Value>,
    values: &[Value],
) -> Result<Value, CallFault>
    requires sync { IsSync R.row }
    requires inside { AllByRecursion (IsValueIn plan.old) values.now }
    ensures answers { AnswersOne plan.new result (calls.concat_of dim.now how (option_map (λ v. meaning plan.old v.now) fill.entry) (map (meaning plan.old) values.now)) }
    ensures grows { Grows plan.old plan.new }
{
    let sets = all_unnamed(alloc, values)?;
    let sets = sets.as_slice();
    let axes = axes_of(alloc, dim, how, fill.is_some(), values, sets)?;
    match axes.as_slice() {
        [] => Err(CallFault::NoMemory),
        [_, joined @ ..] => {
            made_over(
                rt,
                alloc,
                plan,
                dim,
                joined,
                axes.as_slice(),
                fill,
                values,
                sets,
            )
        }
    }
}

// The argument in the first place. One that is named in its stead, which no keyword does, wants memory.
#[tactic(auto, using(crate::proofs::Listed::first_is, crate::proofs::Listed::first_inside))]
fn first(args: &Args) -> Result<&Value, NoMemory>
    ensures is { (nodes : List Node) (names : List (List ℕ)) (vs : List (Option Meant)) → bound_to names (given nodes args.now) ≡ Ok vs → IfOk result (λ v. argument_of vs 0 ≡ Some (meaning nodes v.now)) }
    ensures inside { (nodes : List Node) → AreArgsIn nodes args.now → IfOk result (λ v. IsValueIn nodes v.now) }
{
    match args.plain.as_slice() {
        [] => Err(NoMemory),
        [value, ..] => Ok(value),
    }
}

/// The values of a list one after the other along a dimension, as [`concat_of`].
///
/// # Errors
/// `BadArgument` and `WrongKind` for the arguments; then those of [`concat_of`].
#[tactic(auto, using(plan_core::proofs::Plans::grows_by_none))]
pub fn concat<R: Threads + Sync>(
    rt: &R,
    alloc: Global,
    plan: &mut Plan,
    args: &Args,
) -> Result<Value, CallFault>
    requires sync { IsSync R.row }
    requires given { AreArgsIn plan.old args.now }
    ensures answers { AnswersOne plan.new result (calls.concat_called (given plan.old args.now)) }
    ensures grows { Grows plan.old plan.new }
{
    let given = bound(
        alloc,
        &["list of values", "dim", "join", "fill_value"],
        args,
    )?;
    let given = given.as_slice();
    required(argument(given, 0))?;
    let second = required(argument(given, 1))?;
    let values = alike_given(first(args)?)?;
    let dim = dim_given(second)?;
    let how = how_given(option(given, 2))?;
    let fill = fill_given(option(given, 3))?;
    concat_of(rt, alloc, plan, dim, how, fill, values)
}
