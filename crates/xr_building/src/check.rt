//! What an entry has to be: labels for a dimension, or a coordinate that is none.
ghost use Rattle.std.specs.Prelude.{◌≡◌, ◌&&◌, ◌==◌, List, map, length};
ghost use Rattle.std.specs.List.{list_all};
ghost use Rattle.xr_arrays.specs.declared.node.Node.{Node};
ghost use Rattle.xr_types.specs.Names.{among, axis_names};
ghost use Rattle.xr_types.specs.Results.{Answers, all_of};
ghost use Rattle.xr_defs.specs.Building as of;
ghost use Rattle.xr_defs.specs.Meanings.{Array};
ghost use Rattle.xr_values.specs.Meaning.{meaning, all_values, with_key};
ghost use Rattle.xr_values.specs.Stands.{array_in};
ghost use Rattle.xr_building.specs.Placing.{is_there, listed_labels};

use crate::axes::is_dimension;
use std::alloc::Global;
use xr_formulas::is_integer_kind;
use xr_parts::has_axis;
use xr_types::{Axis, CallFault, DeepCopy, Fault, TextBytes};
use xr_values::{DataArray, Value};

#[tactic(auto, using(xr_arguments::proofs::Variants::is_number, xr_values::proofs::Meaning::meaning_out))]
fn is_number(value: &Value) -> bool
    ensures { (nodes : List Node) → result ≡ of.is_number (meaning nodes value.now) }
{
    match value {
        Value::Number(_) => true,
        _ => false,
    }
}

#[tactic(auto, using(xr_arguments::proofs::Variants::is_text, xr_values::proofs::Meaning::meaning_out))]
fn is_text(value: &Value) -> bool
    ensures { (nodes : List Node) → result ≡ of.is_text (meaning nodes value.now) }
{
    match value {
        Value::Text(_) => true,
        _ => false,
    }
}

/// Whether all are numbers.
pub fn are_numbers(list: &[Value]) -> bool
    ensures { (nodes : List Node) → result ≡ list_all of.is_number (map (meaning nodes) list.now) }
{
    for value in list {
        if !is_number(value) {
            return false;
        }
    }
    true
}

/// Whether all are texts.
pub fn are_texts(list: &[Value]) -> bool
    ensures { (nodes : List Node) → result ≡ list_all of.is_text (map (meaning nodes) list.now) }
{
    for value in list {
        if !is_text(value) {
            return false;
        }
    }
    true
}

// Whether the array lies along this dimension alone.
fn is_along(name: &TextBytes, array: &DataArray) -> bool
    ensures { result ≡ ((length array.now.axes == 1) && among (axis_names array.now.axes) name.now) }
{
    let axes = array.axes.as_slice();
    axes.len() == 1 && has_axis(axes, name)
}

// Numbers alone, or texts alone.
#[tactic(auto, using(crate::proofs::Items::labels_checked))]
fn check_list(list: &[Value]) -> Result<(), CallFault>
    ensures { (nodes : List Node) → Answers (λ u. u) result (listed_labels (all_values nodes list.now)) }
{
    if are_numbers(list) || are_texts(list) {
        Ok(())
    } else {
        Err(CallFault::Refused(Fault::WrongKind))
    }
}

#[tactic(auto, unfolding(xr_defs::specs::Building::check_labels, xr_types::specs::Results::unless))]
fn check_index(name: &TextBytes, array: &DataArray) -> Result<(), CallFault>
    ensures { (nodes : List Node) → Answers (λ u. u) result (of.check_labels name.now (Array (array_in nodes array.now))) }
{
    if !is_integer_kind(array.kind) {
        return Err(CallFault::Refused(Fault::WrongKind));
    }
    if array.masked {
        return Err(CallFault::Refused(Fault::BadArgument));
    }
    if is_along(name, array) {
        Ok(())
    } else {
        Err(CallFault::Refused(Fault::BadArgument))
    }
}

#[tactic(auto, using(xr_arguments::proofs::Variants::is_list, xr_arguments::proofs::Variants::is_array, xr_arguments::proofs::Variants::is_times, xr_values::proofs::Meaning::meaning_out), unfolding(xr_defs::specs::Building::check_labels))]
fn check_labels(name: &TextBytes, value: &Value) -> Result<(), CallFault>
    ensures { (nodes : List Node) → Answers (λ u. u) result (of.check_labels name.now (meaning nodes value.now)) }
{
    match value {
        Value::List(items) => check_list(items.as_slice()),
        Value::Array(array) => check_index(name, array),
        Value::Times(_, _) => Ok(()),
        _ => Err(CallFault::Refused(Fault::WrongKind)),
    }
}

#[tactic(auto, using(xr_arguments::proofs::Variants::is_number, xr_arguments::proofs::Variants::is_text, xr_arguments::proofs::Variants::is_list, xr_arguments::proofs::Variants::is_array, xr_values::proofs::Meaning::meaning_out), unfolding(xr_defs::specs::Building::check_coordinate, xr_types::specs::Results::unless))]
fn check_coordinate(value: &Value) -> Result<(), CallFault>
    ensures { (nodes : List Node) → Answers (λ u. u) result (of.check_coordinate (meaning nodes value.now)) }
{
    match value {
        Value::Number(_) | Value::Text(_) | Value::List(_) => Ok(()),
        Value::Array(array) => {
            if array.axes.as_slice().len() <= 1 {
                Ok(())
            } else {
                Err(CallFault::Refused(Fault::BadArgument))
            }
        }
        _ => Err(CallFault::Refused(Fault::WrongKind)),
    }
}

/// Refuses an entry that is neither labels for a dimension nor a coordinate that is none.
///
/// # Errors
/// `WrongKind` for what can't be labels, or no coordinate; `BadArgument` for an array that is masked or doesn't lie along the dimension
/// alone, or has more than one where it is no labels.
#[tactic(auto, unfolding(xr_defs::specs::Building::check_entry))]
pub fn check_entry(axes: &[Axis], entry: &(TextBytes, Value)) -> Result<(), CallFault>
    ensures { (nodes : List Node) → Answers (λ u. u) result (of.check_entry axes.now (with_key nodes entry.now)) }
{
    if is_dimension(axes, &entry.0) {
        check_labels(&entry.0, &entry.1)
    } else {
        check_coordinate(&entry.1)
    }
}

/// Refuses the first entry that is neither labels for a dimension nor a coordinate that is none.
///
/// # Errors
/// `WrongKind` for what can't be labels, or no coordinate; `BadArgument` for an array that is masked or doesn't lie along the dimension
/// alone, or has more than one where it is no labels.
pub fn check_entries(axes: &[Axis], entries: &[(TextBytes, Value)]) -> Result<(), CallFault>
    ensures { (nodes : List Node) → Answers (λ u. u) result (all_of (of.check_entry axes.now) (map (with_key nodes) entries.now)) }
{
    for entry in entries {
        check_entry(axes, entry)?;
    }
    Ok(())
}

// Refuses the first of an array's axes that isn't among these.
#[tactic(auto, unfolding(xr_types::specs::Results::unless))]
fn check_axes_there(alloc: Global, axes: &[Axis], own: &[Axis]) -> Result<(), CallFault>
    ensures { Answers (λ u. u) result (all_of (is_there axes.now) own.now) }
{
    for axis in own {
        if !is_dimension(axes, &axis.name) {
            return Err(CallFault::Refused(Fault::NoDimension(axis.name.deep_copy(alloc)?)));
        }
    }
    Ok(())
}

#[tactic(auto, using(xr_arguments::proofs::Variants::is_list, xr_arguments::proofs::Variants::is_array, xr_values::proofs::Meaning::meaning_out), unfolding(xr_defs::specs::Building::check_place, xr_types::specs::Results::unless))]
fn check_place(alloc: Global, axes: &[Axis], entry: &(TextBytes, Value)) -> Result<(), CallFault>
    ensures { (nodes : List Node) → Answers (λ u. u) result (of.check_place axes.now (with_key nodes entry.now)) }
{
    match &entry.1 {
        Value::List(_) => {
            if is_dimension(axes, &entry.0) {
                Ok(())
            } else {
                Err(CallFault::Refused(Fault::NoDimension(entry.0.deep_copy(alloc)?)))
            }
        }
        Value::Array(array) => check_axes_there(alloc, axes, array.axes.as_slice()),
        _ => Ok(()),
    }
}

/// Refuses the first list for a name that is no dimension, or array with a dimension that isn't there.
pub fn check_places(
    alloc: Global,
    axes: &[Axis],
    entries: &[(TextBytes, Value)],
) -> Result<(), CallFault>
    ensures { (nodes : List Node) → Answers (λ u. u) result (all_of (of.check_place axes.now) (map (with_key nodes) entries.now)) }
{
    for entry in entries {
        check_place(alloc, axes, entry)?;
    }
    Ok(())
}
