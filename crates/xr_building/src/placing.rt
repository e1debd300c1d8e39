//! Whether entries fit their places: the sizes of labels and of arrays, the labels of arrays, and names.
ghost use Rattle.std.specs.Prelude.{◌≡◌, ◌==◌, true, List, not};
ghost use Rattle.xr_types.specs.declared.axis.LabelList.TheVariants as lists;
ghost use Rattle.xr_types.specs.declared.fault.Fault.TheVariants as faults;
ghost use Rattle.xr_types.specs.Names.{among};
ghost use Rattle.xr_types.specs.Results.{unless, all_of, Answers};
ghost use Rattle.xr_arrays.specs.declared.node.Node.{Node};
ghost use Rattle.xr_defs.specs.declared.value.Coord.{Coord};
ghost use Rattle.xr_defs.specs.Selecting.{axis_called};
ghost use Rattle.xr_defs.specs.Values.{present};
ghost use Rattle.xr_defs.specs.Building as of;
ghost use Rattle.xr_values.specs.Stands.{array_in, IsArrayIn};
ghost use Rattle.xr_values.specs.Variables.{names_of};
ghost use Rattle.xr_building.specs.Placing.{array_checks, is_free, IsAlone};
ghost use Rattle.xr_building.specs.Puts.{after, over};

use crate::aligned::check_aligned;
use crate::axes::{called, is_dimension};
use crate::puts::Put;
use xr_types::{Axis, CallFault, Fault, TextBytes};
use xr_values::{DataArray, Variable};

/// Refuses labels that aren't as many as the axis has positions.
///
/// # Errors
/// `SizeConflict`.
#[tactic(auto, using(crate::proofs::Called::called_found), unfolding(xr_types::specs::Results::unless))]
pub fn check_total(axes: &[Axis], name: &TextBytes, total: u64) -> Result<(), CallFault>
    ensures { Answers (λ u. u) result (unless (total == (axis_called axes.now name.now).size) faults.SizeConflict) }
{
    let size = match called(axes, name) {
        Some(axis) => axis.size,
        None => 0,
    };
    if total == size {
        Ok(())
    } else {
        Err(CallFault::Refused(Fault::SizeConflict))
    }
}

#[tactic(auto, using(crate::proofs::Called::called_found, crate::proofs::Called::dimension_found, crate::proofs::After::axis_there, crate::proofs::After::axis_gone))]
fn check_axis(axes: &[Axis], puts: &[Put], own: &Axis) -> Result<(), CallFault>
    ensures { (coords : List Coord) → Answers (λ u. u) result (of.check_axis (after (over axes.now coords) puts.now).axes own.now) }
{
    match called(axes, &own.name) {
        Some(axis) => check_aligned(own, axis.size, puts, &axis.labels),
        None => check_aligned(own, 0, &[], &None),
    }
}

fn check_axes(axes: &[Axis], puts: &[Put], own: &[Axis]) -> Result<(), CallFault>
    ensures { (coords : List Coord) → Answers (λ u. u) result (all_of (of.check_axis (after (over axes.now coords) puts.now).axes) own.now) }
{
    for axis in own {
        check_axis(axes, puts, axis)?;
    }
    Ok(())
}

// Refuses an array along a dimension that isn't as long.
fn check_along(axes: &[Axis], name: &TextBytes, array: &DataArray) -> Result<(), CallFault>
    requires { IsAlone array.now }
    ensures { (nodes : List Node) → IsArrayIn nodes array.now → Answers (λ u. u) result (unless (of.label_total (lists.Numbers array.now.kind (present (array_in nodes array.now).cells)) == (axis_called axes.now name.now).size) faults.SizeConflict) }
{
    check_total(axes, name, array.axes.as_slice()[0].size)
}

#[tactic(auto, using(crate::proofs::After::after_dimension, crate::proofs::After::after_size))]
fn check_fit(
    axes: &[Axis],
    puts: &[Put],
    name: &TextBytes,
    array: &DataArray,
) -> Result<(), CallFault>
    requires { of.is_dimension axes.now name.now ≡ true → IsAlone array.now }
    ensures { (nodes : List Node) (coords : List Coord) → IsArrayIn nodes array.now → Answers (λ u. u) result (array_checks (after (over axes.now coords) puts.now) name.now (array_in nodes array.now)) }
{
    if is_dimension(axes, name) {
        check_along(axes, name, array)
    } else {
        check_axes(axes, puts, array.axes.as_slice())
    }
}

fn is_taken(variables: &[Variable], name: &TextBytes) -> bool
    ensures { result ≡ among (names_of variables.now) name.now }
{
    for variable in variables {
        if name.is(&variable.name) {
            return true;
        }
    }
    false
}

/// Refuses the name of a data variable.
///
/// # Errors
/// `DuplicateName`.
#[tactic(auto, unfolding(xr_types::specs::Results::unless))]
pub fn check_taken(variables: &[Variable], name: &TextBytes) -> Result<(), CallFault>
    ensures { Answers (λ u. u) result (unless (not (among (names_of variables.now) name.now)) faults.DuplicateName) }
{
    if is_taken(variables, name) {
        Err(CallFault::Refused(Fault::DuplicateName))
    } else {
        Ok(())
    }
}

/// Refuses an array that doesn't fit the axes with these puts, and then the name of a data variable.
///
/// # Errors
/// `SizeConflict` and `NotAligned`, and then `DuplicateName`.
pub fn check_array(
    axes: &[Axis],
    puts: &[Put],
    variables: &[Variable],
    name: &TextBytes,
    array: &DataArray,
) -> Result<(), CallFault>
    requires { of.is_dimension axes.now name.now ≡ true → IsAlone array.now }
    ensures { (nodes : List Node) (coords : List Coord) → IsArrayIn nodes array.now → Answers (λ u. u) result (is_free (names_of variables.now) name.now (array_checks (after (over axes.now coords) puts.now) name.now (array_in nodes array.now))) }
{
    check_fit(axes, puts, name, array)?;
    check_taken(variables, name)
}
