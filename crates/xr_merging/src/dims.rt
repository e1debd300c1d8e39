//! Whether what has one name has one set of dimensions.
ghost use Rattle.std.specs.Prelude.{◌≡◌, List, map, true, IfOk, OnOk};
ghost use Rattle.std.specs.List.{list_all};
ghost use Rattle.xr_types.specs.Names.{among, axis_names};
ghost use Rattle.xr_types.specs.Results.{Answers};
ghost use Rattle.xr_arrays.specs.declared.node.Node.{Node};
ghost use Rattle.xr_combination.specs.Merge as calls;
ghost use Rattle.xr_combination.specs.Pieces as pieces;
ghost use Rattle.xr_defs.specs.declared.value.Coord.{Coord as ACoord};
ghost use Rattle.xr_values.specs.Stands.{dataset_in};
ghost use Rattle.xr_values.specs.declared.variable.Variable.{Variable as Var};
ghost use Rattle.xr_merging.specs.Dims.{all_coords_over, all_variables_over, are_over_first, is_coord_over, is_variable_over};

use crate::members::{coords_called, variables_called};
use crate::names::{all_coords, all_variables, has_axis, has_name};
use std::alloc::{AllocError, Global};
use xr_defs::Coord;
use xr_types::{Axis, CallFault, Fault, Items, Name};
use xr_values::{Dataset, Variable};

// ---- two lists of names

fn has_names(names: &[Name], others: &[Name]) -> bool
    ensures { result ≡ list_all (among names.now) others.now }
{
    match others {
        [] => true,
        [other, rest @ ..] => has_name(names, other) && has_names(names, rest),
    }
}

/// Whether two lists have the same dimensions, in whichever order.
pub fn have_same_dims(dims: &[Name], others: &[Name]) -> bool
    ensures { result ≡ pieces.have_same_dims dims.now others.now }
{
    has_names(dims, others) && has_names(others, dims)
}

fn has_axes(axes: &[Axis], others: &[Axis]) -> bool
    ensures { result ≡ list_all (among (axis_names axes.now)) (axis_names others.now) }
{
    match others {
        [] => true,
        [other, rest @ ..] => has_axis(axes, &other.name) && has_axes(axes, rest),
    }
}

fn have_same_axes(axes: &[Axis], others: &[Axis]) -> bool
    ensures { result ≡ pieces.have_same_dims (axis_names axes.now) (axis_names others.now) }
{
    has_axes(axes, others) && has_axes(others, axes)
}

// ---- variables and coordinates of one name

fn are_over(dims: &[Name], vars: &[&Variable]) -> bool
    ensures { result ≡ list_all (λ (v : Var). pieces.have_same_dims dims.now v.dims) (map (λ v. v.now) vars.now) }
{
    match vars {
        [] => true,
        [var, rest @ ..] => have_same_dims(dims, var.dims.as_slice()) && are_over(dims, rest),
    }
}

fn are_over_first(vars: &[&Variable]) -> bool
    ensures { result ≡ are_over_first (map (λ v. v.now) vars.now) }
{
    match vars {
        [] => true,
        [first, ..] => are_over(first.dims.as_slice(), vars),
    }
}

fn have_axes(axes: &[Axis], coords: &[&Coord]) -> bool
    ensures { result ≡ list_all (λ (c : ACoord). pieces.have_same_dims (axis_names axes.now) (axis_names c.axes)) (map (λ c. c.now) coords.now) }
{
    match coords {
        [] => true,
        [coord, rest @ ..] => {
            have_same_axes(axes, coord.axes.as_slice()) && have_axes(axes, rest)
        }
    }
}

fn have_one_set_of_dims(coords: &[&Coord]) -> bool
    ensures { result ≡ calls.have_one_set_of_dims (map (λ c. c.now) coords.now) }
{
    match coords {
        [] => true,
        [first, others @ ..] => have_axes(first.axes.as_slice(), others),
    }
}

// ---- all names

#[tactic(auto, using(crate::proofs::Called::over_first))]
fn is_variable_over(alloc: Global, sets: &[Dataset], name: &Name) -> Result<bool, AllocError>
    ensures { (nodes : List Node) → IfOk result (λ b. b ≡ is_variable_over (map (dataset_in nodes) sets.now) name.now) }
{
    let vars = variables_called(alloc, sets, name)?;
    Ok(are_over_first(vars.as_slice()))
}

fn are_variables_over(alloc: Global, sets: &[Dataset], names: &[Name]) -> Result<bool, AllocError>
    ensures { (nodes : List Node) → IfOk result (λ b. b ≡ list_all (is_variable_over (map (dataset_in nodes) sets.now)) names.now) }
{
    match names {
        [] => Ok(true),
        [name, rest @ ..] => {
            if !is_variable_over(alloc, sets, name)? {
                return Ok(false);
            }
            are_variables_over(alloc, sets, rest)
        }
    }
}

#[tactic(auto, unfolding(crate::specs::Dims::is_coord_over))]
fn is_coord_over(alloc: Global, sets: &[Dataset], name: &Name) -> Result<bool, AllocError>
    ensures { (nodes : List Node) → IfOk result (λ b. b ≡ is_coord_over (map (dataset_in nodes) sets.now) name.now) }
{
    let coords = coords_called(alloc, sets, name)?;
    Ok(have_one_set_of_dims(coords.as_slice()))
}

fn are_coords_over(alloc: Global, sets: &[Dataset], names: &[Name]) -> Result<bool, AllocError>
    ensures { (nodes : List Node) → IfOk result (λ b. b ≡ list_all (is_coord_over (map (dataset_in nodes) sets.now)) names.now) }
{
    match names {
        [] => Ok(true),
        [name, rest @ ..] => {
            if !is_coord_over(alloc, sets, name)? {
                return Ok(false);
            }
            are_coords_over(alloc, sets, rest)
        }
    }
}

#[tactic(auto, unfolding(crate::specs::Dims::all_variables_over))]
fn all_variables_over(alloc: Global, sets: &[Dataset]) -> Result<bool, AllocError>
    ensures { (nodes : List Node) → IfOk result (λ b. b ≡ all_variables_over (map (dataset_in nodes) sets.now)) }
{
    let names = all_variables(alloc, sets)?;
    let all = are_variables_over(alloc, sets, names.as_slice())?;
    Ok(all)
}

#[tactic(auto, unfolding(crate::specs::Dims::all_coords_over))]
fn all_coords_over(alloc: Global, axes: &[Axis], sets: &[Dataset]) -> Result<bool, AllocError>
    ensures { (nodes : List Node) → IfOk result (λ b. b ≡ all_coords_over axes.now (map (dataset_in nodes) sets.now)) }
{
    let names = all_coords(alloc, axes, sets)?;
    let all = are_coords_over(alloc, sets, names.as_slice())?;
    Ok(all)
}

/// Refuses variables or coordinates of one name that haven't one set of dimensions.
///
/// # Errors
/// `Conflict`.
#[tactic(auto, using(crate::proofs::Called::dims_checked), unfolding(xr_types::specs::Results::unless))]
pub fn check_dims(alloc: Global, axes: &[Axis], sets: &[Dataset]) -> Result<(), CallFault>
    ensures { (nodes : List Node) → Answers (λ u. u) result (calls.check_dims axes.now (map (dataset_in nodes) sets.now)) }
{
    if !all_variables_over(alloc, sets)? {
        return Err(CallFault::Refused(Fault::Conflict));
    }
    if !all_coords_over(alloc, axes, sets)? {
        return Err(CallFault::Refused(Fault::Conflict));
    }
    Ok(())
}
