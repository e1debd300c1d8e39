//! Dimensions of a file by their numbers.
ghost use Rattle.std.specs.Prelude.{◌≡◌, ◌==◌, ◌-◌, ◌^◌, ◌++◌, map, min, drop, nat_lt, IfOk};
ghost use Rattle.std.specs.List.{list_any};
ghost use Rattle.xr_types.specs.Points.{size};
ghost use Rattle.xr_files.specs.Classic.{dim_at};
ghost use Rattle.xr_files.specs.Files.{positions, shape_of};
ghost use Rattle.xr_defs.specs.Limits.{are_different, most_cells};

use std::alloc::{AllocError, Global};
use xr_files::CdfDim;
use xr_types::{DeepCopy, Items, MOST_CELLS, Name};

/// The name of the dimension of a number. There is none of the number of no dimension.
pub(crate) fn dim_name(dims: &[CdfDim], id: u64) -> &str
    ensures { result.now ≡ (dim_at dims.now id).name }
{
    match dims.get(id as usize) {
        Some(dim) => dim.name.as_str(),
        None => "",
    }
}

/// How many positions a dimension has: the record dimension has as many as there are records.
pub(crate) fn positions(numrecs: u64, dim: &CdfDim) -> u64
    ensures { result ≡ positions numrecs dim.now }
{
    if dim.len == 0 { numrecs } else { dim.len }
}

/// How many positions the dimension of a number has.
pub(crate) fn positions_at(dims: &[CdfDim], numrecs: u64, id: u64) -> u64
    ensures { result ≡ positions numrecs (dim_at dims.now id) }
{
    match dims.get(id as usize) {
        Some(dim) => positions(numrecs, dim),
        None => 1,
    }
}

fn has(ids: &[u64], id: u64) -> bool
    ensures { result ≡ list_any (λ j. j == id) ids.now }
{
    for other in ids {
        if *other == id {
            return true;
        }
    }
    false
}

/// Whether no number stands twice.
pub(crate) fn are_different(ids: &[u64]) -> bool
    ensures { result ≡ are_different ids.now }
{
    match ids {
        [] => true,
        [id, rest @ ..] => !has(rest, *id) && are_different(rest),
    }
}

/// How many cells stand over these dimensions, or the greatest number of 64 bits where they are more.
#[tactic(auto, using(crate::proofs::Products::saturates))]
pub(crate) fn size(dims: &[CdfDim], numrecs: u64, ids: &[u64]) -> u64
    ensures { result ≡ min (size (shape_of dims.now numrecs ids.now)) (2 ^ 64 - 1) }
{
    match ids {
        [] => 1,
        [id, rest @ ..] => {
            positions_at(dims, numrecs, *id).saturating_mul(size(dims, numrecs, rest))
        }
    }
}

/// Whether one of these dimensions has more positions than an axis may have.
pub(crate) fn has_long(dims: &[CdfDim], numrecs: u64, ids: &[u64]) -> bool
    ensures { result ≡ list_any (nat_lt most_cells) (shape_of dims.now numrecs ids.now) }
{
    for id in ids {
        if positions_at(dims, numrecs, *id) > MOST_CELLS {
            return true;
        }
    }
    false
}

/// The sizes of these dimensions.
pub(crate) fn shape_of(
    alloc: Global,
    dims: &[CdfDim],
    numrecs: u64,
    ids: &[u64],
) -> Result<Items<u64>, AllocError>
    ensures { IfOk result (λ s. s ≡ shape_of dims.now numrecs ids.now) }
{
    let mut shape = Items::new(alloc);
    for id in ids {
        shape.push(positions_at(dims, numrecs, *id))?;
    }
    Ok(shape)
}

/// The names of these dimensions.
pub(crate) fn names_of(
    alloc: Global,
    dims: &[CdfDim],
    ids: &[u64],
) -> Result<Items<Name>, AllocError>
    ensures { IfOk result (λ s. s ≡ map (λ i. (dim_at dims.now i).name) ids.now) }
{
    let mut names = Items::new(alloc);
    for id in ids {
        names.push(Name::from_str(alloc, dim_name(dims, *id))?)?;
    }
    Ok(names)
}
