//! The limits of a result, from its sizes alone.
ghost use Rattle.std.specs.Prelude.{◌≡◌, ◌&&◌, ℤ, List, Option, map, nat_le, IfOk};
ghost use Rattle.std.specs.List.{list_all};
ghost use Rattle.xr_arrays.specs.declared.node.Node.{Node};
ghost use Rattle.xr_types.specs.Names.{shape_over};
ghost use Rattle.xr_types.specs.Results.{Answers};
ghost use Rattle.xr_defs.specs.Limits.{most_cells};
ghost use Rattle.xr_defs.specs.Selecting as limits;
ghost use Rattle.xr_operations.specs.declared.change.Change.{Change as OneChange};
ghost use Rattle.xr_operations.specs.Changing as of;
ghost use Rattle.xr_values.specs.Stands.{array_in, dataset_in};
ghost use Rattle.xr_changing.specs.Steps.{are_named_within, sizes_named};

use crate::coords::axes_called;
use crate::steps::change_called;
use arrangement::points;
use std::alloc::{AllocError, Global};
use xr_defs::Coord;
use xr_operations::Change;
use xr_types::{
    Axis, CallFault, Fault, Items, MOST_CELLS, MOST_DIMENSIONS, MOST_VARIABLES, Name, NoMemory,
};
use xr_values::{DataArray, Dataset, Variable};

fn new_size(changes: &[Change], axis: &Axis) -> u64
    ensures { result ≡ (of.new_axis changes.now axis.now).size }
{
    match change_called(changes, &axis.name) {
        None => axis.size,
        Some(change) => change.from.as_slice().len() as u64,
    }
}

/// The sizes of axes after changes.
pub fn sizes_over(
    alloc: Global,
    changes: &[Change],
    axes: &[Axis],
) -> Result<Items<u64>, AllocError>
    ensures { IfOk result (λ s. s ≡ shape_over (map (of.new_axis changes.now) axes.now)) }
{
    let mut sizes = Items::new(alloc);
    for axis in axes {
        sizes.push(new_size(changes, axis))?;
    }
    Ok(sizes)
}

fn are_short(shape: &[u64]) -> bool
    ensures { result ≡ list_all (λ n. nat_le n most_cells) shape.now }
{
    shape.iter().all(|n| *n <= MOST_CELLS)
}

fn is_within(shape: &[u64]) -> bool
    ensures { result ≡ limits.is_within shape.now }
{
    shape.len() <= MOST_DIMENSIONS && are_short(shape) && points(shape) <= MOST_CELLS
}

fn are_within(alloc: Global, changes: &[Change], coords: &[Coord]) -> Result<bool, AllocError>
    ensures { (fill : Option ℤ) → IfOk result (λ b. b ≡ limits.are_within (map (of.changed_coord changes.now fill) coords.now)) }
{
    match coords {
        [] => Ok(true),
        [coord, rest @ ..] => {
            let sizes = sizes_over(alloc, changes, coord.axes.as_slice())?;
            if !is_within(sizes.as_slice()) {
                return Ok(false);
            }
            are_within(alloc, changes, rest)
        }
    }
}

/// Refuses an array that would be too large.
#[tactic(auto, unfolding(xr_defs::specs::Selecting::check_array, xr_types::specs::Results::unless))]
pub fn check_array(alloc: Global, changes: &[Change], on: &DataArray) -> Result<(), CallFault>
    ensures { (nodes : List Node) (fill : Option ℤ) → Answers (λ u. u) result (limits.check_array (of.changed_array changes.now fill (array_in nodes on.now))) }
{
    let sizes = sizes_over(alloc, changes, on.axes.as_slice())?;
    if is_within(sizes.as_slice()) && are_within(alloc, changes, on.coords.as_slice())? {
        Ok(())
    } else {
        Err(CallFault::Refused(Fault::TooLarge))
    }
}

// ---- datasets

/// The sizes that the axes of these names have after changes.
pub fn sizes_named(
    alloc: Global,
    changes: &[Change],
    axes: &[Axis],
    dims: &[Name],
) -> Result<Items<u64>, NoMemory>
    ensures { IfOk result (λ s. s ≡ sizes_named (map (of.new_axis changes.now) axes.now) dims.now) }
{
    let own = axes_called(alloc, axes, dims)?;
    let sizes = sizes_over(alloc, changes, own.as_slice())?;
    Ok(sizes)
}

fn are_named_within(
    alloc: Global,
    changes: &[Change],
    axes: &[Axis],
    vars: &[Variable],
) -> Result<bool, NoMemory>
    ensures { IfOk result (λ b. b ≡ are_named_within (map (of.new_axis changes.now) axes.now) vars.now) }
{
    for var in vars {
        let sizes = sizes_named(alloc, changes, axes, var.dims.as_slice())?;
        if !is_within(sizes.as_slice()) {
            return Ok(false);
        }
    }
    Ok(true)
}

#[tactic(auto, using(crate::proofs::NewAxes::mapped))]
fn are_few(on: &Dataset) -> bool
    ensures { (changes : List OneChange) (nodes : List Node) (fill : Option ℤ) → result ≡ limits.are_few (of.changed_set changes fill (dataset_in nodes on.now)) }
{
    let (coords, vars) = (on.coords.as_slice(), on.vars.as_slice());
    coords.len().saturating_add(vars.len()) <= MOST_VARIABLES
}

/// Refuses a dataset that would be too large.
#[tactic(auto, using(crate::proofs::NewAxes::mapped), unfolding(xr_defs::specs::Selecting::check_set, xr_types::specs::Results::unless))]
pub fn check_set(alloc: Global, changes: &[Change], on: &Dataset) -> Result<(), CallFault>
    ensures { (nodes : List Node) (fill : Option ℤ) → Answers (λ u. u) result (limits.check_set (of.changed_set changes.now fill (dataset_in nodes on.now))) }
{
    let own = on.axes.as_slice();
    let sizes = sizes_over(alloc, changes, own)?;
    if are_short(sizes.as_slice())
        && are_within(alloc, changes, on.coords.as_slice())?
        && are_named_within(alloc, changes, own, on.vars.as_slice())?
        && are_few(on)
    {
        Ok(())
    } else {
        Err(CallFault::Refused(Fault::TooLarge))
    }
}
