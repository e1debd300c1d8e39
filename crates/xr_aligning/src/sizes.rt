//! The limits of values over joined axes, from their sizes alone.
ghost use Rattle.std.specs.Prelude.{◌≡◌, ◌+◌, ◌&&◌, ℤ, List, Option, length, map, nat_le, IfOk};
ghost use Rattle.xr_aligning.specs.Common.{AllByRecursion, Answers, IsCoordinate, IsFrame, IsThere, Node, TooLarge, all_of, dataset_in, fitted_coord, joined_in, list_all, most_cells, most_variables, shape_over, unless};
ghost use Rattle.xr_types.specs.declared.axis.Axis.{Axis as AnAxis};
ghost use Rattle.xr_defs.specs.Selecting as limits;
ghost use Rattle.xr_relations.specs.Aligning as calls;
ghost use Rattle.xr_aligning.specs.declared.coming.Coming.{Coming as OneComing};
ghost use Rattle.xr_aligning.specs.Coming.{come, Comes};
ghost use Rattle.xr_aligning.specs.Fitted.{IsChange};
ghost use Rattle.xr_values.specs.declared.dataset.Dataset.{Dataset as ASet};
ghost use Rattle.xr_aligning.specs.Sets.{are_vars_within, sizes_after, IsVarHere};

use crate::coming::{Coming, change_of};
use crate::fits::{Change, fits_of, is_within, joined_in, over_axes, over_names};
use crate::labelled::Labelled;
use std::alloc::Global;
use xr_defs::Coord;
use xr_types::{Axis, CallFault, Fault, MOST_CELLS, MOST_VARIABLES, NoMemory};
use xr_values::{DataArray, Dataset, Variable};

fn axes_within(alloc: Global, change: &Change<'_>, axes: &[Axis]) -> Result<bool, NoMemory>
    requires change { IsChange change.now }
    requires axes { AllByRecursion (IsThere change.now.own.now) axes.now }
    ensures { IfOk result (λ b. b ≡ limits.is_within (shape_over (map (joined_in change.now.joined.now) axes.now))) }
{
    let fits = over_axes(alloc, change, axes)?;
    Ok(is_within(fits.as_slice()))
}

fn coords_within(alloc: Global, change: &Change<'_>, coords: &[Coord]) -> Result<bool, NoMemory>
    requires change { IsChange change.now }
    requires coords { AllByRecursion (IsCoordinate change.now.own.now) coords.now }
    ensures { (fill : Option ℤ) → IfOk result (λ b. b ≡ limits.are_within (map (fitted_coord change.now.joined.now fill) coords.now)) }
{
    for coord in coords {
        if !axes_within(alloc, change, coord.axes.as_slice())? {
            return Ok(false);
        }
    }
    Ok(true)
}

fn var_within(alloc: Global, change: &Change<'_>, var: &Variable) -> Result<bool, NoMemory>
    requires { IsChange change.now }
    ensures { IfOk result (λ b. b ≡ limits.is_within (sizes_after change.now.joined.now change.now.own.now var.now.dims)) }
{
    let fits = over_names(alloc, change, var.dims.as_slice())?;
    Ok(is_within(fits.as_slice()))
}

fn vars_within(alloc: Global, change: &Change<'_>, vars: &[Variable]) -> Result<bool, NoMemory>
    requires { IsChange change.now }
    ensures { IfOk result (λ b. b ≡ are_vars_within change.now.joined.now change.now.own.now vars.now) }
{
    match vars {
        [] => Ok(true),
        [var, rest @ ..] => {
            if !var_within(alloc, change, var)? {
                return Ok(false);
            }
            vars_within(alloc, change, rest)
        }
    }
}

fn array_within(alloc: Global, change: &Change<'_>, array: &DataArray) -> Result<bool, NoMemory>
    requires change { IsChange change.now }
    requires own { change.now.own.now ≡ array.now.axes }
    requires frame { IsFrame array.now.axes array.now.coords }
    ensures { (fill : Option ℤ) → IfOk result (λ b. b ≡ (limits.is_within (shape_over (map (joined_in change.now.joined.now) array.now.axes)) && limits.are_within (map (fitted_coord change.now.joined.now fill) array.now.coords))) }
{
    if !axes_within(alloc, change, array.axes.as_slice())? {
        return Ok(false);
    }
    coords_within(alloc, change, array.coords.as_slice())
}

fn are_axes_short(joined: &[Axis], own: &[Axis]) -> bool
    ensures { result ≡ list_all (λ (x : AnAxis). nat_le x.size most_cells) (map (joined_in joined.now) own.now) }
{
    match own {
        [] => true,
        [axis, rest @ ..] => {
            joined_in(joined, axis).size <= MOST_CELLS && are_axes_short(joined, rest)
        }
    }
}

fn set_within(alloc: Global, change: &Change<'_>, set: &Dataset) -> Result<bool, NoMemory>
    requires change { IsChange change.now }
    requires own { change.now.own.now ≡ set.now.axes }
    requires frame { IsFrame set.now.axes set.now.coords }
    ensures { (fill : Option ℤ) → IfOk result (λ b. b ≡ (list_all (λ (x : AnAxis). nat_le x.size most_cells) (map (joined_in change.now.joined.now) set.now.axes) && (limits.are_within (map (fitted_coord change.now.joined.now fill) set.now.coords) && are_vars_within change.now.joined.now set.now.axes set.now.vars))) }
{
    if !are_axes_short(change.joined, set.axes.as_slice()) {
        return Ok(false);
    }
    if !coords_within(alloc, change, set.coords.as_slice())? {
        return Ok(false);
    }
    vars_within(alloc, change, set.vars.as_slice())
}

#[tactic(auto, using(crate::proofs::Given::is_change, crate::proofs::Given::array_frame, crate::proofs::Given::set_frame))]
fn is_coming_within(alloc: Global, coming: &Coming<'_>) -> Result<bool, NoMemory>
    requires { Comes coming.now }
    ensures { (nodes : List Node) (fill : Option ℤ) → IfOk result (λ b. calls.check_size (come nodes fill coming.now) ≡ unless b TooLarge) }
{
    let change = change_of(coming, None);
    match coming.on {
        Labelled::Array(array) => array_within(alloc, &change, array),
        Labelled::Set(set) => set_within(alloc, &change, set),
    }
}

#[tactic(auto, unfolding(xr_types::specs::Results::unless))]
fn check_size(alloc: Global, coming: &Coming<'_>) -> Result<(), CallFault>
    requires { Comes coming.now }
    ensures { (nodes : List Node) (fill : Option ℤ) → Answers (λ u. u) result (calls.check_size (come nodes fill coming.now)) }
{
    if !is_coming_within(alloc, coming)? {
        return Err(CallFault::Refused(Fault::TooLarge));
    }
    Ok(())
}

/// Refuses values of which one would have more of any than an array or a dataset may have.
///
/// # Errors
/// `TooLarge`.
pub fn check_sizes(alloc: Global, coming: &[Coming<'_>]) -> Result<(), CallFault>
    requires { AllByRecursion Comes coming.now }
    ensures { (nodes : List Node) (fill : Option ℤ) → Answers (λ u. u) result (all_of (λ (m : OneComing). calls.check_size (come nodes fill m)) coming.now) }
{
    for one in coming {
        check_size(alloc, one)?;
    }
    Ok(())
}

// ---- datasets over axes whose labels they all take

fn are_few(set: &Dataset) -> bool
    ensures { result ≡ nat_le (length set.now.coords + length set.now.vars) most_variables }
{
    let coords = set.coords.as_slice().len();
    let vars = set.vars.as_slice().len();
    coords.saturating_add(vars) <= MOST_VARIABLES
}

fn both(a: bool, b: bool) -> bool
    ensures { result ≡ (a && b) }
{
    a && b
}

// Whether a dataset over joined axes has no more of all than it may have.
#[tactic(auto, using(crate::proofs::Given::change_is))]
fn is_fitted_within(alloc: Global, joined: &[Axis], set: &Dataset) -> Result<bool, NoMemory>
    requires { IsFrame set.now.axes set.now.coords }
    ensures { (nodes : List Node) (fill : Option ℤ) → AllByRecursion (IsVarHere nodes set.now.axes) set.now.vars → IfOk result (λ b. limits.check_set (calls.fitted_set joined.now fill (dataset_in nodes set.now)) ≡ unless b TooLarge) }
{
    let own = set.axes.as_slice();
    let fits = fits_of(alloc, joined, own)?;
    let change = Change {
        joined,
        own,
        fits: fits.as_slice(),
        fill: None,
    };
    let within = set_within(alloc, &change, set)?;
    Ok(both(within, are_few(set)))
}

#[tactic(auto, unfolding(xr_types::specs::Results::unless))]
fn check_fitted_size(alloc: Global, joined: &[Axis], set: &Dataset) -> Result<(), CallFault>
    requires { IsFrame set.now.axes set.now.coords }
    ensures { (nodes : List Node) (fill : Option ℤ) → AllByRecursion (IsVarHere nodes set.now.axes) set.now.vars → Answers (λ u. u) result (limits.check_set (calls.fitted_set joined.now fill (dataset_in nodes set.now))) }
{
    if !is_fitted_within(alloc, joined, set)? {
        return Err(CallFault::Refused(Fault::TooLarge));
    }
    Ok(())
}

/// Refuses datasets of which one would have more of any, over these joined axes, than a dataset may have.
///
/// # Errors
/// `TooLarge`.
pub fn check_fitted_sizes(alloc: Global, joined: &[Axis], sets: &[Dataset]) -> Result<(), CallFault>
    requires { AllByRecursion (λ (s : ASet). IsFrame s.axes s.coords) sets.now }
    ensures { (nodes : List Node) (fill : Option ℤ) → AllByRecursion (λ (s : ASet). AllByRecursion (IsVarHere nodes s.axes) s.vars) sets.now → Answers (λ u. u) result (all_of limits.check_set (map (calls.fitted_set joined.now fill) (map (dataset_in nodes) sets.now))) }
{
    for set in sets {
        check_fitted_size(alloc, joined, set)?;
    }
    Ok(())
}
