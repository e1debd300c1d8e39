//! Strips of arrays that are at hand.
ghost use Rattle.std.specs.Prelude.{◌≡◌, ◌≤◌, ◌+◌, ◌∷◌, [], length, take, drop, MatchOption, ⊤, IfOk, option_map};
ghost use Rattle.xr_types.specs.Points.{size};
ghost use Rattle.xr_arrays.specs.Nodes.{most_node_cells};
ghost use Rattle.cell_strips.specs.Rows.{count};
ghost use Rattle.cell_strips.specs.Strips.{strip, cells_strip};

use crate::arrays::{array, typed_parts};
use std::alloc::{AllocError, Global};
use stored_cells::shared_block;
use xr_arrays::{ArrayValue, Cells, Form, StoredArray, TypedArray};
use xr_types::Items;

fn row_strip<T: Copy>(
    alloc: Global,
    row: &Items<T>,
    from: usize,
    count: usize,
) -> Result<Items<T>, AllocError>
    requires { from + count ≤ length row.now }
    ensures { IfOk result (λ v. v ≡ take count (drop from row.now)) }
{
    Items::from_slice(alloc, row.as_slice().split_at(from).1.split_at(count).0)
}

fn part_of(alloc: Global, cells: &Cells, from: usize, n: usize) -> Result<Cells, AllocError>
    requires { from + n ≤ count cells.now }
    ensures { IfOk result (λ c. c ≡ cells_strip from n cells.now) }
{
    match cells {
        Cells::Bool(v) => Ok(Cells::Bool(row_strip(alloc, v, from, n)?)),
        Cells::Char(v) => Ok(Cells::Char(row_strip(alloc, v, from, n)?)),
        Cells::Int8(v) => Ok(Cells::Int8(row_strip(alloc, v, from, n)?)),
        Cells::Int16(v) => Ok(Cells::Int16(row_strip(alloc, v, from, n)?)),
        Cells::Int32(v) => Ok(Cells::Int32(row_strip(alloc, v, from, n)?)),
        Cells::Int64(v) => Ok(Cells::Int64(row_strip(alloc, v, from, n)?)),
        Cells::UInt8(v) => Ok(Cells::UInt8(row_strip(alloc, v, from, n)?)),
        Cells::UInt16(v) => Ok(Cells::UInt16(row_strip(alloc, v, from, n)?)),
        Cells::UInt32(v) => Ok(Cells::UInt32(row_strip(alloc, v, from, n)?)),
        Cells::UInt64(v) => Ok(Cells::UInt64(row_strip(alloc, v, from, n)?)),
    }
}

fn mask_part(
    alloc: Global,
    mask: Option<&Items<u8>>,
    from: usize,
    n: usize,
) -> Result<Option<Items<u8>>, AllocError>
    requires { MatchOption (option_map (λ m. m.now) mask) ⊤ (λ m. from + n ≤ length m) }
    ensures { IfOk result (λ m. m ≡ option_map (λ m. take n (drop from m)) (option_map (λ m. m.now) mask.entry)) }
{
    match mask {
        Some(mask) => Ok(Some(row_strip(alloc, mask, from, n)?)),
        None => Ok(None),
    }
}

fn typed_strip(
    alloc: Global,
    whole: &TypedArray,
    from: usize,
    n: usize,
    shape: Items<u64>,
) -> Result<ArrayValue, AllocError>
    requires inside { from + n ≤ size whole.now.shape }
    requires shape { shape ≡ n ∷ [] }
    ensures { IfOk result (λ b. b ≡ strip from n whole.now) }
{
    let (cells, mask) = typed_parts(whole);
    let hidden = mask_part(alloc, mask, from, n)?;
    let part = part_of(alloc, cells, from, n)?;
    Ok(array(shape, part, hidden))
}

fn stored_strip(
    alloc: Global,
    array: &StoredArray,
    from: usize,
    n: usize,
    shape: Items<u64>,
) -> Result<ArrayValue, AllocError>
    requires few { size array.now.shape ≤ most_node_cells }
    requires inside { from + n ≤ size array.now.shape }
    requires shape { shape ≡ n ∷ [] }
    ensures { IfOk result (λ b. b ≡ strip from n array.now) }
{
    let block = shared_block(alloc, array, from, n, shape)?;
    Ok(ArrayValue::stored(block))
}

/// So many cells of an array in row order from a place on.
pub fn strip_of(
    alloc: Global,
    array: &ArrayValue,
    from: usize,
    n: usize,
) -> Result<ArrayValue, AllocError>
    requires few { size array.now.shape ≤ most_node_cells }
    requires inside { from + n ≤ size array.now.shape }
    ensures { IfOk result (λ b. b ≡ strip from n array.now) }
{
    let shape = Items::from_slice(alloc, &[n as u64])?;
    match array.form() {
        Form::Typed(array) => typed_strip(alloc, array, from, n, shape),
        Form::Stored(array) => stored_strip(alloc, array, from, n, shape),
    }
}
