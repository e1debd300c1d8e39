//! How long the pieces along axes are.
ghost use Rattle.std.specs.Prelude.{◌≡◌, map, IfOk, option_map};
ghost use Rattle.xr_defs.specs.Selecting.{axis_called};
ghost use Rattle.xr_chunks.specs.Chunks as of;

use std::alloc::{AllocError, Global};
use xr_indexing::position_of;
use xr_types::{Axis, Items, Name, TextBytes};

// The size that is given for a dimension.
fn size_along(sizes: &[(TextBytes, u128)], name: &TextBytes) -> Option<u128>
    ensures { result ≡ of.size_along sizes.now name.now }
{
    match sizes {
        [] => None,
        [size, rest @ ..] => {
            if size.0.is(name) {
                Some(size.1)
            } else {
                size_along(rest, name)
            }
        }
    }
}

// A size, which is no greater than that of the axis.
fn piece(axis: u64, size: u128) -> u64
    ensures { result ≡ of.piece axis size }
{
    let size = if size < axis as u128 {
        size as u64
    } else {
        axis
    };
    size.max(1)
}

fn piece_along(sizes: &[(TextBytes, u128)], name: &TextBytes, axis: u64) -> Option<u64>
    ensures { result ≡ of.piece_along sizes.now name.now axis }
{
    match size_along(sizes, name) {
        None => None,
        Some(size) => Some(piece(axis, size)),
    }
}

/// The sizes of the pieces of an array over these axes.
pub fn array_pieces(
    alloc: Global,
    sizes: &[(TextBytes, u128)],
    axes: &[Axis],
) -> Result<Items<Option<u64>>, AllocError>
    ensures { IfOk result (λ ps. ps ≡ of.array_pieces sizes.now axes.now) }
{
    let mut pieces = Items::new(alloc);
    for axis in axes {
        pieces.push(piece_along(sizes, &axis.name, axis.size))?;
    }
    Ok(pieces)
}

fn size_called(axes: &[Axis], name: &TextBytes) -> u64
    ensures { result ≡ (axis_called axes.now name.now).size }
{
    match position_of(axes, name) {
        Some(k) => axes[k].size,
        None => 0,
    }
}

/// The sizes of the pieces of a variable over these dimensions of a dataset.
pub fn variable_pieces(
    alloc: Global,
    sizes: &[(TextBytes, u128)],
    axes: &[Axis],
    dims: &[Name],
) -> Result<Items<Option<u64>>, AllocError>
    ensures { IfOk result (λ ps. ps ≡ of.variable_pieces sizes.now axes.now dims.now) }
{
    let mut pieces = Items::new(alloc);
    for dim in dims {
        pieces.push(piece_along(sizes, dim, size_called(axes, dim)))?;
    }
    Ok(pieces)
}
