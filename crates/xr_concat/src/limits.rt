//! Whether what is put together is within the limits.
ghost use Rattle.std.specs.Prelude.{◌≡◌, List, map, IfOk};
ghost use Rattle.std.specs.List.{list_all};
ghost use Rattle.xr_arrays.specs.declared.node.Node.{Node};
ghost use Rattle.xr_aligning.specs.Limits.{sizes_called};
ghost use Rattle.xr_combination.specs.Concat as calls;
ghost use Rattle.xr_combination.specs.Pieces as pieces;
ghost use Rattle.xr_defs.specs.Selecting as selecting;
ghost use Rattle.xr_defs.specs.declared.value.Coord.{Coord as ACoord};
ghost use Rattle.xr_merging.specs.Names.{names_in};
ghost use Rattle.xr_values.specs.Stands.{dataset_in};
ghost use Rattle.xr_concat.specs.Limits.{are_within_called, is_within_called};
ghost use Rattle.xr_stacking.specs.Members.{dims_after, dims_called};

use std::alloc::Global;
use xr_chaining::is_new;
use xr_defs::Coord;
use xr_joining::is_within;
use xr_merging::variables_called;
use xr_stacking::{axes_called, with_first};
use xr_types::{Axis, Items, Name, NoMemory, copy_all};
use xr_values::{Dataset, Variable};

fn dims_after(alloc: Global, new: bool, dim: &Name, dims: &[Name]) -> Result<Items<Name>, NoMemory>
    ensures { IfOk result (λ ds. ds ≡ dims_after new dim.now dims.now) }
{
    if new {
        Ok(with_first(alloc, dim, dims)?)
    } else {
        Ok(copy_all(alloc, dims)?)
    }
}

// The dimensions of what a name gives, which some dataset has.
fn dims_called(
    alloc: Global,
    dim: &Name,
    sets: &[Dataset],
    name: &Name,
) -> Result<Items<Name>, NoMemory>
    ensures { (nodes : List Node) → IfOk result (λ ds. ds ≡ dims_called (calls.is_new dim.now (map (dataset_in nodes) sets.now)) dim.now (map (dataset_in nodes) sets.now) name.now) }
{
    let vars = variables_called(alloc, sets, name)?;
    match vars.as_slice() {
        [] => Err(NoMemory),
        [first, ..] => dims_after(alloc, is_new(dim, sets), dim, first.dims.as_slice()),
    }
}

fn is_within_called(
    alloc: Global,
    axes: &[Axis],
    dim: &Name,
    sets: &[Dataset],
    name: &Name,
) -> Result<bool, NoMemory>
    ensures { (nodes : List Node) → IfOk result (λ b. b ≡ is_within_called axes.now dim.now (map (dataset_in nodes) sets.now) name.now) }
{
    let dims = dims_called(alloc, dim, sets, name)?;
    let own = axes_called(alloc, axes, dims.as_slice())?;
    Ok(is_within(own.as_slice()))
}

fn each_within(
    alloc: Global,
    axes: &[Axis],
    dim: &Name,
    sets: &[Dataset],
    vars: &[Variable],
) -> Result<bool, NoMemory>
    ensures { (nodes : List Node) → IfOk result (λ b. b ≡ list_all (is_within_called axes.now dim.now (map (dataset_in nodes) sets.now)) (names_in nodes vars.now)) }
{
    match vars {
        [] => Ok(true),
        [var, rest @ ..] => {
            if !is_within_called(alloc, axes, dim, sets, &var.name)? {
                return Ok(false);
            }
            each_within(alloc, axes, dim, sets, rest)
        }
    }
}

/// Whether each data variable that datasets give, over these axes, has no more dimensions, positions along one and cells than it may
/// have.
pub(crate) fn are_variables_within(
    alloc: Global,
    axes: &[Axis],
    dim: &Name,
    sets: &[Dataset],
) -> Result<bool, NoMemory>
    ensures { (nodes : List Node) → IfOk result (λ b. b ≡ are_within_called axes.now dim.now (map (dataset_in nodes) sets.now)) }
{
    match sets {
        [] => Ok(true),
        [first, ..] => each_within(alloc, axes, dim, sets, first.vars.as_slice()),
    }
}

/// Whether each coordinate is within the limits.
pub(crate) fn are_within(coords: &[Coord]) -> bool
    ensures { result ≡ selecting.are_within coords.now }
{
    match coords {
        [] => true,
        [coord, rest @ ..] => is_within(coord.axes.as_slice()) && are_within(rest),
    }
}
