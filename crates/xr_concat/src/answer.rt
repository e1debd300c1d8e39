//! What is put together, as an array or a dataset.
ghost use Rattle.std.specs.Prelude.{◌≡◌, ◌++◌, ◌&&◌, List, map, option_map, true, false, IfOk, OnOk};
ghost use Rattle.std.specs.List.{list_all, AllByRecursion};
ghost use Rattle.xr_types.specs.Names.{among, axis_names, shape_over};
ghost use Rattle.xr_arrays.specs.declared.node.Node.{Node};
ghost use Rattle.xr_combination.specs.Concat as calls;
ghost use Rattle.xr_combination.specs.Pieces as pieces;
ghost use Rattle.xr_defs.specs.Carrying as carrying;
ghost use Rattle.xr_defs.specs.Encoding.{all_among, coords_over};
ghost use Rattle.xr_defs.specs.Meanings.{Value as Meant};
ghost use Rattle.xr_defs.specs.Selecting as selecting;
ghost use Rattle.xr_forming.specs.Held.{Holds, HoldsArray};
ghost use Rattle.xr_joint.specs.Joint.{AnswersOne};
ghost use Rattle.xr_values.specs.Answers.{AnswersArray};
ghost use Rattle.xr_values.specs.Meaning.{meaning};
ghost use Rattle.xr_values.specs.Stands.{array_in, dataset_in};
ghost use Rattle.xr_concat.specs.Answered.{array_answered, array_with, single};
ghost use Rattle.xr_concat.specs.Steps.{answered};

use crate::asked::are_arrays;
use crate::limits::are_within;
use plan_core::Plan;
use std::alloc::{AllocError, Global};
use std::rc::Rc;
use xr_defs::Coord;
use xr_forming::is_array_formed;
use xr_joining::is_within;
use xr_joint::checked;
use xr_stacking::{axes_called, has_name};
use xr_types::{Axis, CallFault, DeepCopy, Fault, Items, Name, NoMemory};
use xr_values::{DataArray, Dataset, Value, Variable, copy_coord};

// ---- the name that all have

#[tactic(auto, using(xr_arguments::proofs::Variants::is_array, xr_values::proofs::Meaning::meaning_out))]
fn array_name(value: &Value) -> Option<&Name>
    ensures { (nodes : List Node) → option_map (λ n. n.now) result ≡ calls.array_name (meaning nodes value.now) }
{
    match value {
        Value::Array(array) => array.name.as_ref(),
        _ => None,
    }
}

fn same_name(name: Option<&Name>, other: Option<&Name>) -> bool
    ensures { result ≡ carrying.same_name (option_map (λ n. n.now) name.entry) (option_map (λ n. n.now) other.entry) }
{
    match (name, other) {
        (None, None) => true,
        (Some(name), Some(other)) => name.is(other),
        _ => false,
    }
}

fn have_name(name: Option<&Name>, values: &[Value]) -> bool
    ensures { (nodes : List Node) → result ≡ list_all (carrying.same_name (option_map (λ n. n.now) name.entry)) (map calls.array_name (map (meaning nodes) values.now)) }
{
    match values {
        [] => true,
        [value, rest @ ..] => same_name(name, array_name(value)) && have_name(name, rest),
    }
}

fn copy_name(alloc: Global, name: Option<&Name>) -> Result<Option<Name>, AllocError>
    ensures { IfOk result (λ n. n ≡ option_map (λ n. n.now) name.entry) }
{
    match name {
        None => Ok(None),
        Some(name) => Ok(Some(name.deep_copy(alloc)?)),
    }
}

fn shared_name(alloc: Global, values: &[Value]) -> Result<Option<Name>, AllocError>
    ensures { (nodes : List Node) → IfOk result (λ n. n ≡ carrying.shared_name (map calls.array_name (map (meaning nodes) values.now))) }
{
    match values {
        [] => Ok(None),
        [value, rest @ ..] => {
            let name = array_name(value);
            if !have_name(name, rest) {
                return Ok(None);
            }
            copy_name(alloc, name)
        }
    }
}

// ---- an array

fn have_axes(dims: &[Name], axes: &[Axis]) -> bool
    ensures { result ≡ all_among dims.now (axis_names axes.now) }
{
    match axes {
        [] => true,
        [axis, rest @ ..] => has_name(dims, &axis.name) && have_axes(dims, rest),
    }
}

fn push_over(
    alloc: Global,
    out: &mut Items<Coord>,
    dims: &[Name],
    coords: &[Coord],
) -> Result<(), AllocError>
    ensures { OnOk result (out.new ≡ out.old ++ coords_over dims.now coords.now) }
{
    match coords {
        [] => Ok(()),
        [coord, rest @ ..] => {
            if have_axes(dims, coord.axes.as_slice()) {
                out.push(copy_coord(alloc, coord)?)?;
            }
            push_over(alloc, out, dims, rest)
        }
    }
}

fn coords_over(alloc: Global, dims: &[Name], coords: &[Coord]) -> Result<Items<Coord>, AllocError>
    ensures { IfOk result (λ cs. cs ≡ coords_over dims.now coords.now) }
{
    let mut out = Items::new(alloc);
    push_over(alloc, &mut out, dims, coords)?;
    Ok(out)
}

// A variable of a dataset as an array of this name.
fn array_of(
    alloc: Global,
    name: Option<Name>,
    set: &Dataset,
    var: &Variable,
) -> Result<DataArray, NoMemory>
    ensures { IfOk result (λ a. a ≡ array_with name set.now var.now) }
{
    let dims = var.dims.as_slice();
    let axes = axes_called(alloc, set.axes.as_slice(), dims)?;
    let attrs = var.attrs.deep_copy(alloc)?;
    let coords = coords_over(alloc, dims, set.coords.as_slice())?;
    Ok(DataArray {
        name,
        axes,
        kind: var.kind,
        masked: var.masked,
        attrs,
        coords,
        node: var.node,
    })
}

// Whether it has no more dimensions, positions along one and cells than it may have, and its coordinates too.
fn is_array_within(array: &DataArray) -> bool
    ensures { result ≡ selecting.is_within (shape_over array.now.axes) && selecting.are_within array.now.coords }
{
    is_within(array.axes.as_slice()) && are_within(array.coords.as_slice())
}

// An array within the limits. One that isn't as it has to be, of which there is none, wants memory.
#[tactic(auto, using(crate::proofs::Answered::array_within, crate::proofs::Answered::array_refused))]
fn array_checked(plan: &Plan, array: DataArray) -> Result<DataArray, CallFault>
    requires { HoldsArray plan.now array }
    ensures { AnswersArray plan.now result (array_answered (array_in plan.now array)) }
{
    if !is_array_within(&array) {
        return Err(CallFault::Refused(Fault::TooLarge));
    }
    if !is_array_formed(plan, &array) {
        return Err(CallFault::NoMemory);
    }
    Ok(array)
}

// Several data variables, which no arrays give, want memory.
fn as_array(
    alloc: Global,
    plan: &Plan,
    values: &[Value],
    set: &Dataset,
) -> Result<DataArray, CallFault>
    requires { Holds plan.now set.now }
    ensures { (others : List Node) → AnswersArray plan.now result (array_answered (single (map (meaning others) values.now) (dataset_in plan.now set.now))) }
{
    match set.vars.as_slice() {
        [var] => {
            let name = shared_name(alloc, values)?;
            let array = array_of(alloc, name, set, var)?;
            array_checked(plan, array)
        }
        _ => Err(CallFault::NoMemory),
    }
}

// ---- either

// What arrays give.
fn of_arrays(
    alloc: Global,
    plan: &Plan,
    values: &[Value],
    set: &Dataset,
) -> Result<Value, CallFault>
    requires { Holds plan.now set.now }
    ensures { (others : List Node) → list_all pieces.is_array (map (meaning others) values.now) ≡ true → AnswersOne plan.now result (answered (map (meaning others) values.now) (dataset_in plan.now set.now)) }
{
    let array = as_array(alloc, plan, values, set)?;
    Ok(Value::Array(Rc::new(alloc, array)?))
}

// What datasets give.
fn of_sets(alloc: Global, plan: &Plan, set: Dataset) -> Result<Value, CallFault>
    requires { Holds plan.now set }
    ensures { (vs : List Meant) → list_all pieces.is_array vs ≡ false → AnswersOne plan.now result (answered vs (dataset_in plan.now set)) }
{
    let set = checked(plan, set)?;
    Ok(Value::Set(Rc::new(alloc, set)?))
}

/// What arrays or datasets give: an array of the one variable, which has the name that all arrays have, or the dataset.
///
/// # Errors
/// `TooLarge`. What isn't as it has to be, of which there is none, wants memory.
pub(crate) fn answered(
    alloc: Global,
    plan: &Plan,
    values: &[Value],
    set: Dataset,
) -> Result<Value, CallFault>
    requires { Holds plan.now set }
    ensures { (others : List Node) → AnswersOne plan.now result (answered (map (meaning others) values.now) (dataset_in plan.now set)) }
{
    if are_arrays(values) {
        of_arrays(alloc, plan, values, &set)
    } else {
        of_sets(alloc, plan, set)
    }
}
