//! The limits of a dataset.
ghost use Rattle.std.specs.Prelude.{◌≡◌, ◌≤◌, ◌-◌, ◌^◌, ◌&&◌, true, List, length, map, min, nat_le};
ghost use Rattle.xr_aligning.specs.Common.{AllByRecursion, list_all, most_cells, most_variables, size};
ghost use Rattle.xr_types.specs.declared.axis.Axis.{Axis as OneAxis};
ghost use Rattle.xr_defs.specs.Selecting as of;
ghost use Rattle.xr_values.specs.declared.variable.Variable.{Variable as OneVariable};
ghost use Rattle.xr_aligning.specs.Limits.{are_variables_within, is_set_within, sizes_called};

use xr_defs::Coord;
use xr_joining::is_within;
use xr_types::{Axis, MOST_CELLS, MOST_DIMENSIONS, MOST_VARIABLES, Name, TextBytes};
use xr_values::{Dataset, Variable};

/// Whether no axis has more positions than it may have.
pub fn are_short(axes: &[Axis]) -> bool
    ensures test { result ≡ list_all (λ (x : OneAxis). nat_le x.size most_cells) axes.now }
    ensures each { result ≡ true → AllByRecursion (λ (x : OneAxis). x.size ≤ most_cells) axes.now }
{
    match axes {
        [] => true,
        [axis, rest @ ..] => axis.size <= MOST_CELLS && are_short(rest),
    }
}

/// The size of the axis of a name, 0 where there is none.
#[tactic(auto, using(xr_parts::proofs::Axes::called_here, xr_parts::proofs::Axes::called_on))]
pub fn size_called(axes: &[Axis], name: &TextBytes) -> u64
    ensures { result ≡ (of.axis_called axes.now name.now).size }
{
    match axes {
        [] => 0,
        [axis, rest @ ..] => {
            if axis.name.is(name) {
                axis.size
            } else {
                size_called(rest, name)
            }
        }
    }
}

fn are_short_named(axes: &[Axis], dims: &[Name]) -> bool
    ensures { result ≡ list_all (λ n. nat_le n most_cells) (sizes_called axes.now dims.now) }
{
    match dims {
        [] => true,
        [dim, rest @ ..] => size_called(axes, dim) <= MOST_CELLS && are_short_named(axes, rest),
    }
}

#[tactic(auto, using(xr_joining::proofs::Products::saturates))]
fn cells_named(axes: &[Axis], dims: &[Name]) -> u64
    ensures { result ≡ min (size (sizes_called axes.now dims.now)) (2 ^ 64 - 1) }
{
    match dims {
        [] => 1,
        [dim, rest @ ..] => size_called(axes, dim).saturating_mul(cells_named(axes, rest)),
    }
}

/// Whether a variable over these axes has no more dimensions, positions along one and cells than it may have.
#[tactic(auto, using(crate::proofs::Limited::sizes_rank))]
pub fn is_variable_within(axes: &[Axis], var: &Variable) -> bool
    ensures { result ≡ of.is_within (sizes_called axes.now var.now.dims) }
{
    let dims = var.dims.as_slice();
    dims.len() <= MOST_DIMENSIONS
        && are_short_named(axes, dims)
        && cells_named(axes, dims) <= MOST_CELLS
}

fn are_variables_within(axes: &[Axis], vars: &[Variable]) -> bool
    ensures { result ≡ are_variables_within axes.now vars.now }
{
    vars.iter().all(|var| is_variable_within(axes, var))
}

fn are_within(coords: &[Coord]) -> bool
    ensures { result ≡ of.are_within coords.now }
{
    coords.iter().all(|coord| is_within(coord.axes.as_slice()))
}

/// Whether a dataset, its coordinates and its variables have no more of all than they may have.
pub fn is_set_within(set: &Dataset) -> bool
    ensures { result ≡ is_set_within set.now }
{
    let axes = set.axes.as_slice();
    let coords = set.coords.as_slice();
    let vars = set.vars.as_slice();
    are_short(axes)
        && are_within(coords)
        && are_variables_within(axes, vars)
        && coords.len().saturating_add(vars.len()) <= MOST_VARIABLES
}
