//! The coordinates of several datasets, name by name.
ghost use Rattle.std.specs.Prelude.{◌≡◌, ◌++◌, List, map, IfOk, OnOk};
ghost use Rattle.xr_types.specs.Results.{Answers};
ghost use Rattle.xr_arrays.specs.declared.node.Node.{Node};
ghost use Rattle.xr_combination.specs.Concat.{piece_coord};
ghost use Rattle.xr_combination.specs.Merge as calls;
ghost use Rattle.xr_combination.specs.Pieces.{each_of};
ghost use Rattle.xr_defs.specs.Parts.{axes_called};
ghost use Rattle.xr_values.specs.Stands.{dataset_in};
ghost use Rattle.xr_merging.specs.Each.{behind};
ghost use Rattle.xr_merging.specs.Held.{merged_piece};

use crate::contents::contents_merged;
use crate::held::{Merged, merged_or_own, push_held};
use crate::members::coords_called;
use std::alloc::Global;
use xr_chaining::axis_called;
use xr_combination::Compat;
use xr_defs::{Content, Coord};
use xr_types::{Axis, CallFault, DeepCopy, Items, Name, NoMemory};
use xr_values::Dataset;

fn push_called(
    alloc: Global,
    out: &mut Items<Axis>,
    axes: &[Axis],
    dims: &[Name],
) -> Result<(), NoMemory>
    ensures { OnOk result (out.new ≡ out.old ++ axes_called axes.now dims.now) }
{
    match dims {
        [] => Ok(()),
        [dim, rest @ ..] => {
            let axis = axis_called(axes, dim)?;
            out.push(axis.deep_copy(alloc)?)?;
            push_called(alloc, out, axes, rest)
        }
    }
}

// The coordinate of these cells, over axes of a dataset.
fn of_cells(alloc: Global, axes: &[Axis], name: &Name, merged: Merged) -> Result<Coord, NoMemory>
    ensures { IfOk result (λ c. c ≡ piece_coord axes.now name.now (merged_piece merged)) }
{
    let mut own = Items::new(alloc);
    push_called(alloc, &mut own, axes, merged.dims.as_slice())?;
    Ok(Coord {
        name: name.deep_copy(alloc)?,
        axes: own,
        attrs: merged.attrs,
        content: Content::Cells(merged.cells, merged.masked),
    })
}

/// One coordinate of those of a name, over the axes of the result.
///
/// # Errors
/// `Conflict` where they may not stand beside one another; then, where all have cells, `WrongKind` and `WouldPromote` for kinds
/// that don't become one.
#[tactic(auto, using(crate::proofs::Merging::with_cells, crate::proofs::Merging::unmerged, crate::proofs::Merging::without_cells))]
fn coord_merged(
    alloc: Global,
    compat: Compat,
    axes: &[Axis],
    sets: &[Dataset],
    name: &Name,
) -> Result<Coord, CallFault>
    ensures { (nodes : List Node) → Answers (λ c. c) result (calls.coord_merged compat axes.now (map (dataset_in nodes) sets.now) name.now) }
{
    let coords = coords_called(alloc, sets, name)?;
    let coords = coords.as_slice();
    let mut held = Items::new(alloc);
    if !push_held(alloc, &mut held, coords)? {
        return contents_merged(alloc, compat, coords);
    }
    let merged = merged_or_own(alloc, compat, held.as_slice())?;
    Ok(of_cells(alloc, axes, name, merged)?)
}

fn push_merged(
    alloc: Global,
    out: &mut Items<Coord>,
    compat: Compat,
    axes: &[Axis],
    sets: &[Dataset],
    names: &[Name],
) -> Result<(), CallFault>
    ensures { (nodes : List Node) → Answers (λ u. out.new) result (behind out.old (each_of (calls.coord_merged compat axes.now (map (dataset_in nodes) sets.now)) names.now)) }
{
    for name in names {
        let coord = coord_merged(alloc, compat, axes, sets, name)?;
        out.push(coord)?;
    }
    Ok(())
}

/// The coordinates of these names, each one of those that have it, over the axes of the result.
///
/// # Errors
/// Those of the first that can't be merged.
#[tactic(auto, using(crate::proofs::Each::from_none))]
pub fn coords_merged(
    alloc: Global,
    compat: Compat,
    axes: &[Axis],
    sets: &[Dataset],
    names: &[Name],
) -> Result<Items<Coord>, CallFault>
    ensures { (nodes : List Node) → Answers (λ cs. cs) result (each_of (calls.coord_merged compat axes.now (map (dataset_in nodes) sets.now)) names.now) }
{
    let mut out = Items::new(alloc);
    push_merged(alloc, &mut out, compat, axes, sets, names)?;
    Ok(out)
}
