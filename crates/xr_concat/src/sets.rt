//! Arrays and datasets over joined axes, as datasets. That of an array has one variable, which has a name until it is there.
ghost use Rattle.std.specs.Prelude.{◌≡◌, ◌++◌, ◌∷◌, [], true, List, map, IfOk, OnOk};
ghost use Rattle.std.specs.List.{list_all, AllByRecursion};
ghost use Rattle.xr_arrays.specs.declared.node.Node.{Node};
ghost use Rattle.plan_core.specs.Plans.{Grows};
ghost use Rattle.xr_combination.specs.Concat.{unnamed};
ghost use Rattle.xr_combination.specs.Pieces.{is_array, is_set};
ghost use Rattle.xr_parts.specs.Single.{set_of, variable_of};
ghost use Rattle.xr_relations.specs.Aligning.{fitted_set};
ghost use Rattle.xr_values.specs.Meaning.{meaning, IsValueIn};
ghost use Rattle.xr_values.specs.Stands.{dataset_in, IsDatasetIn};
ghost use Rattle.xr_joint.specs.Fitting.{HasFrame, IsOpenIn};
ghost use Rattle.xr_concat.specs.Named.{called, inner_name, nameless, nameless_one, AnswersOver, AreHeldIn, IsHeldIn};

use crate::asked::{are_arrays, are_sets};
use plan_core::Plan;
use std::alloc::{AllocError, Global};
use xr_chaining::names_of;
use xr_joint::{all_fitted, check_limits};
use xr_types::{Axis, CallFault, DeepCopy, Items, Name, NoMemory};
use xr_values::{DataArray, Dataset, Value, Variable, Variables, copy_coords};

// ---- an array as a dataset

fn called_variable(alloc: Global, array: &DataArray) -> Result<Variable, AllocError>
    ensures { IfOk result (λ v. v ≡ variable_of inner_name array.now) }
{
    Ok(Variable {
        name: Name::from_str(alloc, "v")?,
        dims: names_of(alloc, array.axes.as_slice())?,
        kind: array.kind,
        masked: array.masked,
        attrs: array.attrs.deep_copy(alloc)?,
        node: array.node,
    })
}

fn called_set(alloc: Global, array: &DataArray) -> Result<Dataset, AllocError>
    ensures { IfOk result (λ s. s ≡ set_of inner_name array.now) }
{
    let mut vars = Variables::new(alloc);
    vars.put(alloc, called_variable(alloc, array)?)?;
    Ok(Dataset {
        axes: array.axes.deep_copy(alloc)?,
        coords: copy_coords(alloc, array.coords.as_slice())?,
        vars,
        attrs: Items::new(alloc),
        skipped: Items::new(alloc),
    })
}

// What is no array, of which there is none, wants memory.
#[tactic(auto, using(xr_arguments::proofs::Variants::is_array, xr_values::proofs::Meaning::meaning_out, crate::proofs::Opened::array_held, crate::proofs::Opened::array_framed))]
fn called(alloc: Global, value: &Value) -> Result<Dataset, NoMemory>
    ensures is { (nodes : List Node) → IfOk result (λ s. dataset_in nodes s ≡ called (meaning nodes value.now)) }
    ensures opened { (nodes : List Node) → IsValueIn nodes value.now → IfOk result (IsOpenIn nodes) }
    ensures frame { (nodes : List Node) → IsValueIn nodes value.now → IfOk result HasFrame }
{
    match value {
        Value::Array(array) => Ok(called_set(alloc, array)?),
        _ => Err(NoMemory),
    }
}

fn push_called(alloc: Global, out: &mut Items<Dataset>, values: &[Value]) -> Result<(), NoMemory>
    ensures are { (nodes : List Node) → OnOk result (map (dataset_in nodes) out.new ≡ map (dataset_in nodes) out.old ++ map called (map (meaning nodes) values.now)) }
    ensures opened { (nodes : List Node) → AllByRecursion (IsValueIn nodes) values.now → AllByRecursion (IsOpenIn nodes) out.old → OnOk result (AllByRecursion (IsOpenIn nodes) out.new) }
    ensures frames { (nodes : List Node) → AllByRecursion (IsValueIn nodes) values.now → AllByRecursion HasFrame out.old → OnOk result (AllByRecursion HasFrame out.new) }
{
    for value in values {
        let set = called(alloc, value)?;
        out.push(set)?;
    }
    Ok(())
}

// Arrays as datasets of one variable.
fn all_called(alloc: Global, values: &[Value]) -> Result<Items<Dataset>, NoMemory>
    ensures are { (nodes : List Node) → IfOk result (λ ss. map (dataset_in nodes) ss ≡ map called (map (meaning nodes) values.now)) }
    ensures opened { (nodes : List Node) → AllByRecursion (IsValueIn nodes) values.now → IfOk result (AllByRecursion (IsOpenIn nodes)) }
    ensures frames { (nodes : List Node) → AllByRecursion (IsValueIn nodes) values.now → IfOk result (AllByRecursion HasFrame) }
{
    let mut out = Items::new(alloc);
    push_called(alloc, &mut out, values)?;
    Ok(out)
}

// ---- without the name

fn nameless_variable(alloc: Global, var: &Variable) -> Result<Variables, AllocError>
    ensures { IfOk result (λ vs. vs ≡ nameless_one var.now ∷ []) }
{
    let mut vars = Variables::new(alloc);
    let one = Variable {
        name: Name::from_str(alloc, "")?,
        dims: var.dims.deep_copy(alloc)?,
        kind: var.kind,
        masked: var.masked,
        attrs: var.attrs.deep_copy(alloc)?,
        node: var.node,
    };
    vars.put(alloc, one)?;
    Ok(vars)
}

fn with_variables(alloc: Global, set: &Dataset, vars: Variables) -> Result<Dataset, AllocError>
    ensures { IfOk result (λ s. s ≡ record set.now { vars = vars }) }
{
    Ok(Dataset {
        axes: set.axes.deep_copy(alloc)?,
        coords: copy_coords(alloc, set.coords.as_slice())?,
        vars,
        attrs: set.attrs.deep_copy(alloc)?,
        skipped: set.skipped.deep_copy(alloc)?,
    })
}

// Several variables, which no array has, want memory.
#[tactic(auto, using(crate::proofs::Single::nameless_is, crate::proofs::Single::nameless_held))]
fn nameless(alloc: Global, set: &Dataset) -> Result<Dataset, NoMemory>
    ensures is { (nodes : List Node) → IfOk result (λ s. dataset_in nodes s ≡ nameless (dataset_in nodes set.now)) }
    ensures held { (nodes : List Node) → IsHeldIn nodes set.now → IfOk result (IsHeldIn nodes) }
{
    match set.vars.as_slice() {
        [var] => {
            let vars = nameless_variable(alloc, var)?;
            let one = with_variables(alloc, set, vars)?;
            Ok(one)
        }
        _ => Err(NoMemory),
    }
}

fn push_nameless(alloc: Global, out: &mut Items<Dataset>, sets: &[Dataset]) -> Result<(), NoMemory>
    ensures are { (nodes : List Node) → OnOk result (map (dataset_in nodes) out.new ≡ map (dataset_in nodes) out.old ++ map nameless (map (dataset_in nodes) sets.now)) }
    ensures held { (nodes : List Node) → AreHeldIn nodes sets.now → AreHeldIn nodes out.old → OnOk result (AreHeldIn nodes out.new) }
{
    for set in sets {
        let one = nameless(alloc, set)?;
        out.push(one)?;
    }
    Ok(())
}

fn all_nameless(alloc: Global, sets: &[Dataset]) -> Result<Items<Dataset>, NoMemory>
    ensures are { (nodes : List Node) → IfOk result (λ ss. map (dataset_in nodes) ss ≡ map nameless (map (dataset_in nodes) sets.now)) }
    ensures held { (nodes : List Node) → AreHeldIn nodes sets.now → IfOk result (AreHeldIn nodes) }
{
    let mut out = Items::new(alloc);
    push_nameless(alloc, &mut out, sets)?;
    Ok(out)
}

// ---- over joined axes

fn sets_over(
    alloc: Global,
    plan: &mut Plan,
    joined: &[Axis],
    fill: Option<i128>,
    sets: &[Dataset],
) -> Result<Items<Dataset>, CallFault>
    requires open { AllByRecursion (IsOpenIn plan.old) sets.now }
    requires frames { AllByRecursion HasFrame sets.now }
    ensures answers { AnswersOver plan.new result (map (fitted_set joined.now fill) (map (dataset_in plan.old) sets.now)) }
    ensures grows { Grows plan.old plan.new }
{
    check_limits(alloc, joined, sets)?;
    let over = all_fitted(alloc, plan, joined, fill, sets)?;
    Ok(over)
}

fn arrays_over(
    alloc: Global,
    plan: &mut Plan,
    joined: &[Axis],
    fill: Option<i128>,
    values: &[Value],
) -> Result<Items<Dataset>, CallFault>
    requires { AllByRecursion (IsValueIn plan.old) values.now }
    ensures answers { list_all is_array (map (meaning plan.old) values.now) ≡ true → AnswersOver plan.new result (map (fitted_set joined.now fill) (map unnamed (map (meaning plan.old) values.now))) }
    ensures grows { Grows plan.old plan.new }
{
    let named = all_called(alloc, values)?;
    let over = sets_over(alloc, plan, joined, fill, named.as_slice())?;
    let sets = all_nameless(alloc, over.as_slice())?;
    Ok(sets)
}

/// Values over joined axes, as datasets, of which these are those over their own axes. Their cells are those of nodes that are added.
/// Values of several sorts, which are refused before, want memory.
///
/// # Errors
/// `TooLarge`.
#[tactic(auto, using(plan_core::proofs::Plans::grows_by_none))]
pub(crate) fn all_over(
    alloc: Global,
    plan: &mut Plan,
    joined: &[Axis],
    fill: Option<i128>,
    values: &[Value],
    sets: &[Dataset],
) -> Result<Items<Dataset>, CallFault>
    requires inside { AllByRecursion (IsValueIn plan.old) values.now }
    requires are { map (dataset_in plan.old) sets.now ≡ map unnamed (map (meaning plan.old) values.now) }
    requires sets { list_all is_set (map (meaning plan.old) values.now) ≡ true → AllByRecursion (IsDatasetIn plan.old) sets.now }
    ensures answers { AnswersOver plan.new result (map (fitted_set joined.now fill) (map (dataset_in plan.old) sets.now)) }
    ensures grows { Grows plan.old plan.new }
{
    if are_arrays(values) {
        arrays_over(alloc, plan, joined, fill, values)
    } else if are_sets(values) {
        sets_over(alloc, plan, joined, fill, sets)
    } else {
        Err(CallFault::NoMemory)
    }
}
