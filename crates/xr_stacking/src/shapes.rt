//! The sizes of arrays that are put one after the other.
ghost use Rattle.std.specs.Prelude.{◌≡◌, ◌<◌, ◌≤◌, true, length, get_or, slice_set, IfOk};
ghost use Rattle.std.specs.List.{AllByRecursion};
ghost use Rattle.xr_types.specs.Points.{size};
ghost use Rattle.xr_arrays.specs.Nodes.{most_node_cells};
ghost use Rattle.xr_stacking.specs.Lines.{extent, joined_shape, InLine, SameBut};

use arrangement::points;
use std::alloc::{AllocError, Global};
use xr_types::{Items, MOST_DIMENSIONS, NoMemory};

/// Cells of a node of a plan.
const MOST_NODE_CELLS: u64 = 1 << 50;

/// Whether a node may have so many cells.
pub(crate) fn is_small(shape: &[u64]) -> bool
    ensures { result ≡ true → size shape.now ≤ most_node_cells }
{
    points(shape) <= MOST_NODE_CELLS
}

/// The size of an axis, or 0 where there is none.
pub(crate) fn size_of(shape: &[u64], axis: usize) -> u64
    ensures { result ≡ get_or shape.now axis 0 }
{
    match shape.get(axis) {
        Some(size) => *size,
        None => 0,
    }
}

/// Whether the sizes are the same.
pub(crate) fn same(shape: &[u64], other: &[u64]) -> bool
    ensures { result ≡ true → other.now ≡ shape.now }
{
    shape == other
}

// Whether the sizes are the same but for an axis.
fn same_but(axis: usize, shape: &[u64], other: &[u64]) -> bool
    ensures { result ≡ true → SameBut axis shape.now other.now }
{
    match shape {
        [] => other.is_empty(),
        [size, sizes @ ..] => match other {
            [] => false,
            [first, others @ ..] => {
                if axis == 0 {
                    same(sizes, others)
                } else {
                    size == first && same_but(axis - 1, sizes, others)
                }
            }
        },
    }
}

fn all_same_but(axis: usize, first: &[u64], shapes: &[Items<u64>]) -> bool
    ensures { result ≡ true → AllByRecursion (SameBut axis first.now) shapes.now }
{
    match shapes {
        [] => true,
        [shape, rest @ ..] => {
            same_but(axis, first, shape.as_slice()) && all_same_but(axis, first, rest)
        }
    }
}

// Positions past 64 bits, which nothing has, want memory.
fn extent(axis: usize, shapes: &[Items<u64>]) -> Result<u64, NoMemory>
    ensures { IfOk result (λ n. n ≡ extent axis shapes.now) }
{
    match shapes {
        [] => Ok(0),
        [shape, rest @ ..] => {
            let behind = extent(axis, rest)?;
            match size_of(shape.as_slice(), axis).checked_add(behind) {
                Some(count) => Ok(count),
                None => Err(NoMemory),
            }
        }
    }
}

fn with_size(
    alloc: Global,
    shape: &[u64],
    axis: usize,
    count: u64,
) -> Result<Items<u64>, AllocError>
    requires { axis < length shape.now }
    ensures { IfOk result (λ s. s ≡ slice_set shape.now axis count) }
{
    let mut sizes = Items::from_slice(alloc, shape)?;
    sizes.set(axis, count);
    Ok(sizes)
}

/// The sizes of arrays of these sizes that are put one after the other along an axis. Those that can't be, as no arrays of one name
/// over joined axes, want memory.
pub(crate) fn joined_shape(
    alloc: Global,
    axis: usize,
    shapes: &[Items<u64>],
) -> Result<Items<u64>, NoMemory>
    ensures shape { IfOk result (λ s. s ≡ joined_shape axis shapes.now) }
    ensures line { IfOk result (λ s. InLine axis shapes.now) }
{
    match shapes {
        [] => Err(NoMemory),
        [first, ..] => {
            let first = first.as_slice();
            if axis >= first.len() || first.len() > MOST_DIMENSIONS {
                return Err(NoMemory);
            }
            if !all_same_but(axis, first, shapes) {
                return Err(NoMemory);
            }
            let count = extent(axis, shapes)?;
            let shape = with_size(alloc, first, axis, count)?;
            if !is_small(shape.as_slice()) {
                return Err(NoMemory);
            }
            Ok(shape)
        }
    }
}
