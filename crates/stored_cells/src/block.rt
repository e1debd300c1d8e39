//! Parts of an array that share its bytes.
ghost use Rattle.std.specs.Prelude.{◌≡◌, ◌≤◌, ◌+◌, length, take, drop, IfOk, OnOk};
ghost use Rattle.xr_types.specs.Points.{size};
ghost use Rattle.xr_arrays.specs.Nodes.{most_node_cells};

use std::alloc::{AllocError, Global};
use xr_arrays::StoredArray;
use xr_types::Items;

/// The array of so many cells from a place on, which shares their bytes where they stand in one piece or are
/// whole pieces.
pub fn shared_block(
    alloc: Global,
    array: &StoredArray,
    from: usize,
    count: usize,
    shape: Items<u64>,
) -> Result<StoredArray, AllocError>
    requires few { size array.now.shape ≤ most_node_cells }
    requires inside { from + count ≤ size array.now.shape }
    requires whole { size shape ≡ count }
    ensures whole { OnOk result (length array.now.cells ≡ size array.now.shape) }
    ensures block { IfOk result (λ b. b ≡ record { kind = array.now.kind; shape = shape; cells = take count (drop from array.now.cells) }) }
{
    let parts = array.parts();
    let pieces = parts.pieces.cut(alloc, parts.kind, from, count)?;
    let fills = Items::from_slice(alloc, parts.fills)?;
    Ok(StoredArray::in_pieces(shape, parts.kind, pieces, fills))
}
