//! The cells of an array as keys of groups.
ghost use Rattle.std.specs.Prelude.{◌≡◌, ◌==◌, length, map, zip, Some, None, IfOk, IfSome, option_map, if◌then◌else◌};
ghost use Rattle.xr_arrays.specs.Arrays.{hidden, cell};

use std::alloc::{AllocError, Global};
use stored_cells::{Typed, as_typed};
use xr_arrays::{ArrayValue, Cells};
use xr_types::{Elem, Items};

fn present<T: Elem>(cell: T) -> Option<i128>
    ensures { result ≡ Some (T.number cell) }
{
    Some(cell.widen())
}

fn widened<T: Elem>(alloc: Global, cells: &[T]) -> Result<Vec<Option<i128>>, AllocError>
    ensures { IfOk result (λ v. v.items ≡ map Some (map T.number cells.now)) }
{
    let mut keys = Vec::with_capacity(alloc, cells.len())?;
    for i in 0..cells.len() {
        keys.push(present(cells[i]))?;
    }
    Ok(keys)
}

// A number, unless its byte in the mask isn't 0.
fn shown<T: Elem>(cell: T, byte: u8) -> Option<i128>
    ensures { result ≡ (if byte == 0 then Some (T.number cell) else None) }
{
    if byte == 0 { Some(cell.widen()) } else { None }
}

fn widened_masked<T: Elem>(
    alloc: Global,
    cells: &[T],
    mask: &[u8],
) -> Result<Vec<Option<i128>>, AllocError>
    requires { length mask.now ≡ length cells.now }
    ensures { IfOk result (λ v. v.items ≡ map cell (zip (map T.number cells.now) mask.now)) }
{
    let mut keys = Vec::with_capacity(alloc, cells.len())?;
    for i in 0..cells.len() {
        keys.push(shown(cells[i], mask[i]))?;
    }
    Ok(keys)
}

fn keys_in<T: Elem>(
    alloc: Global,
    cells: &[T],
    mask: Option<&Items<u8>>,
) -> Result<Vec<Option<i128>>, AllocError>
    requires { IfSome mask (λ m. length m.now ≡ length cells.now) }
    ensures { IfOk result (λ v. v.items ≡ hidden (map T.number cells.now) (option_map (λ m. m.now) mask.entry)) }
{
    match mask {
        Some(mask) => widened_masked(alloc, cells, mask.as_slice()),
        None => widened(alloc, cells),
    }
}

fn typed_keys(alloc: Global, typed: &Typed) -> Result<Vec<Option<i128>>, AllocError>
    ensures { IfOk result (λ v. v.items ≡ typed.now.cells) }
{
    let (cells, mask) = typed.parts();
    match cells {
        Cells::Bool(v) => keys_in(alloc, v.as_slice(), mask),
        Cells::Char(v) => keys_in(alloc, v.as_slice(), mask),
        Cells::Int8(v) => keys_in(alloc, v.as_slice(), mask),
        Cells::Int16(v) => keys_in(alloc, v.as_slice(), mask),
        Cells::Int32(v) => keys_in(alloc, v.as_slice(), mask),
        Cells::Int64(v) => keys_in(alloc, v.as_slice(), mask),
        Cells::UInt8(v) => keys_in(alloc, v.as_slice(), mask),
        Cells::UInt16(v) => keys_in(alloc, v.as_slice(), mask),
        Cells::UInt32(v) => keys_in(alloc, v.as_slice(), mask),
        Cells::UInt64(v) => keys_in(alloc, v.as_slice(), mask),
    }
}

/// The cells of an array.
pub(crate) fn cell_keys(alloc: Global, cells: &ArrayValue) -> Result<Vec<Option<i128>>, AllocError>
    ensures { IfOk result (λ v. v.items ≡ cells.now.cells) }
{
    let typed = as_typed(alloc, cells)?;
    typed_keys(alloc, &typed)
}
