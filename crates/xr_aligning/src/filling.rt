//! Whether a fill is one for the cells that need it.
ghost use Rattle.std.specs.Prelude.{◌≡◌, List, Some, map, option_map};
ghost use Rattle.xr_aligning.specs.Common.{AllByRecursion, Answers, IsCoordinate, IsFrame, IsThere, Node, all_of, array_in, dataset_in, meaning};
ghost use Rattle.xr_defs.specs.Meanings as meant;
ghost use Rattle.xr_relations.specs.Aligning as calls;
ghost use Rattle.xr_aligning.specs.declared.coming.Coming.{Coming as OneComing};
ghost use Rattle.xr_aligning.specs.Coming.{check_coord_by, check_fill_by, check_number, check_fill_where, check_var_by, stands_for, Comes};
ghost use Rattle.xr_aligning.specs.Fits as of;
ghost use Rattle.xr_aligning.specs.Fitted.{IsChange};

use crate::coming::{Coming, change_of};
use crate::fits::{Change, Fit, any_hole, over_axes, over_names};
use crate::labelled::Labelled;
use std::alloc::Global;
use xr_defs::{Content, Coord};
use xr_formulas::{check_fits, literal_for};
use xr_types::{Axis, CallFault, DType, Fault};
use xr_values::{DataArray, Dataset, Value, Variable};

fn check_literal(kind: DType, value: &Value) -> Result<(), CallFault>
    ensures { (nodes : List Node) → Answers (λ u. u) result (check_number kind (meaning nodes value.now)) }
{
    let n = literal_for(kind, value)?;
    check_fits(kind, n)
}

#[tactic(auto, using(xr_arguments::proofs::Variants::is_missing, xr_arguments::proofs::Variants::is_number, xr_arguments::proofs::Variants::is_truth, xr_values::proofs::Meaning::meaning_out), unfolding(xr_relations::specs::Aligning::check_fill_for, xr_operations::specs::CellMethods::literal_for))]
fn check_value(kind: DType, value: &Value) -> Result<(), CallFault>
    ensures { (nodes : List Node) → Answers (λ u. u) result (calls.check_fill_for kind (Some (meaning nodes value.now))) }
{
    match value {
        Value::Missing => Ok(()),
        Value::Number(_) => check_literal(kind, value),
        Value::Truth(_) => check_literal(kind, value),
        _ => Err(CallFault::Refused(Fault::WrongKind)),
    }
}

#[tactic(auto, unfolding(xr_relations::specs::Aligning::check_fill_for))]
fn check_fill_for(kind: DType, fill: Option<&Value>) -> Result<(), CallFault>
    ensures { (nodes : List Node) → Answers (λ u. u) result (calls.check_fill_for kind (option_map (λ v. meaning nodes v.now) fill.entry)) }
{
    match fill {
        None => Ok(()),
        Some(value) => check_value(kind, value),
    }
}

fn check_hole(fits: &[&Fit], fill: Option<&Value>, kind: DType) -> Result<(), CallFault>
    ensures { (nodes : List Node) → Answers (λ u. u) result (check_fill_where (of.any_hole (map (λ f. f.now) fits.now)) kind (option_map (λ v. meaning nodes v.now) fill.entry)) }
{
    if any_hole(fits) {
        check_fill_for(kind, fill)
    } else {
        Ok(())
    }
}

// Along these of the axes.
fn check_axes(
    alloc: Global,
    change: &Change<'_>,
    axes: &[Axis],
    fill: Option<&Value>,
    kind: DType,
) -> Result<(), CallFault>
    requires change { IsChange change.now }
    requires axes { AllByRecursion (IsThere change.now.own.now) axes.now }
    ensures { (nodes : List Node) → Answers (λ u. u) result (calls.check_hole change.now.joined.now (option_map (λ v. meaning nodes v.now) fill.entry) axes.now kind) }
{
    let fits = over_axes(alloc, change, axes)?;
    check_hole(fits.as_slice(), fill, kind)
}

#[tactic(auto, unfolding(crate::specs::Coming::check_coord_by, xr_relations::specs::Aligning::check_content))]
fn check_coord(
    alloc: Global,
    change: &Change<'_>,
    fill: Option<&Value>,
    coord: &Coord,
) -> Result<(), CallFault>
    requires change { IsChange change.now }
    requires coord { IsCoordinate change.now.own.now coord.now }
    ensures { (nodes : List Node) → Answers (λ u. u) result (check_coord_by change.now.joined.now (option_map (λ v. meaning nodes v.now) fill.entry) coord.now) }
{
    match &coord.content {
        Content::Cells(cells, _) => {
            check_axes(alloc, change, coord.axes.as_slice(), fill, cells.kind())
        }
        Content::Text(_) => Ok(()),
        Content::Time(_, _) => Ok(()),
    }
}

fn check_coords(
    alloc: Global,
    change: &Change<'_>,
    fill: Option<&Value>,
    coords: &[Coord],
) -> Result<(), CallFault>
    requires change { IsChange change.now }
    requires coords { AllByRecursion (IsCoordinate change.now.own.now) coords.now }
    ensures { (nodes : List Node) → Answers (λ u. u) result (all_of (check_coord_by change.now.joined.now (option_map (λ v. meaning nodes v.now) fill.entry)) coords.now) }
{
    for coord in coords {
        check_coord(alloc, change, fill, coord)?;
    }
    Ok(())
}

fn check_variable(
    alloc: Global,
    change: &Change<'_>,
    fill: Option<&Value>,
    var: &Variable,
) -> Result<(), CallFault>
    requires { IsChange change.now }
    ensures { (nodes : List Node) → Answers (λ u. u) result (check_var_by change.now.joined.now (option_map (λ v. meaning nodes v.now) fill.entry) change.now.own.now var.now) }
{
    let fits = over_names(alloc, change, var.dims.as_slice())?;
    check_hole(fits.as_slice(), fill, var.kind)
}

fn check_variables(
    alloc: Global,
    change: &Change<'_>,
    fill: Option<&Value>,
    vars: &[Variable],
) -> Result<(), CallFault>
    requires { IsChange change.now }
    ensures { (nodes : List Node) → Answers (λ u. u) result (all_of (check_var_by change.now.joined.now (option_map (λ v. meaning nodes v.now) fill.entry) change.now.own.now) vars.now) }
{
    match vars {
        [] => Ok(()),
        [var, rest @ ..] => {
            check_variable(alloc, change, fill, var)?;
            check_variables(alloc, change, fill, rest)
        }
    }
}

// Of the array's cells, then of its coordinates'.
fn check_array(
    alloc: Global,
    change: &Change<'_>,
    fill: Option<&Value>,
    array: &DataArray,
) -> Result<(), CallFault>
    requires change { IsChange change.now }
    requires own { change.now.own.now ≡ array.now.axes }
    requires frame { IsFrame array.now.axes array.now.coords }
    ensures { (nodes others : List Node) → Answers (λ u. u) result (check_fill_by change.now.joined.now (option_map (λ v. meaning nodes v.now) fill.entry) (meant.Array (array_in others array.now))) }
{
    check_axes(alloc, change, array.axes.as_slice(), fill, array.kind)?;
    check_coords(alloc, change, fill, array.coords.as_slice())
}

/// Refuses a fill that isn't one for the cells of a dataset that have a position without a source: those of the variables, then those
/// of the coordinates.
///
/// # Errors
/// `WrongKind`, then `DoesNotFit`.
pub fn check_set(
    alloc: Global,
    change: &Change<'_>,
    fill: Option<&Value>,
    set: &Dataset,
) -> Result<(), CallFault>
    requires change { IsChange change.now }
    requires own { change.now.own.now ≡ set.now.axes }
    requires frame { IsFrame set.now.axes set.now.coords }
    ensures { (nodes others : List Node) → Answers (λ u. u) result (check_fill_by change.now.joined.now (option_map (λ v. meaning nodes v.now) fill.entry) (meant.Set (dataset_in others set.now))) }
{
    check_variables(alloc, change, fill, set.vars.as_slice())?;
    check_coords(alloc, change, fill, set.coords.as_slice())
}

#[tactic(auto, using(crate::proofs::Given::is_change, crate::proofs::Given::array_frame, crate::proofs::Given::set_frame))]
fn check_fill(alloc: Global, coming: &Coming<'_>, fill: Option<&Value>) -> Result<(), CallFault>
    requires { Comes coming.now }
    ensures { (nodes others : List Node) → Answers (λ u. u) result (check_fill_by coming.now.joined (option_map (λ v. meaning nodes v.now) fill.entry) (stands_for others coming.now)) }
{
    let change = change_of(coming, None);
    match coming.on {
        Labelled::Array(array) => check_array(alloc, &change, fill, array),
        Labelled::Set(set) => check_set(alloc, &change, fill, set),
    }
}

/// Refuses a fill that isn't one for the cells of a value that have a position without a source: those of an array or of the
/// variables, then those of the coordinates.
///
/// # Errors
/// `WrongKind`, then `DoesNotFit`.
pub fn check_fills(
    alloc: Global,
    coming: &[Coming<'_>],
    fill: Option<&Value>,
) -> Result<(), CallFault>
    requires { AllByRecursion Comes coming.now }
    ensures { (nodes others : List Node) → Answers (λ u. u) result (all_of (λ (m : OneComing). check_fill_by m.joined (option_map (λ v. meaning nodes v.now) fill.entry) (stands_for others m)) coming.now) }
{
    for one in coming {
        check_fill(alloc, one, fill)?;
    }
    Ok(())
}
