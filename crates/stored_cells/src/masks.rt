//! Masks of cells that hold fill numbers.
ghost use Rattle.std.specs.Prelude.{◌≡◌, ◌<◌, ℕ, length, get_or, map, if◌then◌else◌, IfOk};
ghost use Rattle.std.specs.Ordering.{int_eq};
ghost use Rattle.xr_arrays.specs.Arrays.{wide};
ghost use Rattle.stored_cells.specs.Masks.{mark, marks, Hides};

use std::alloc::{AllocError, Global};
use xr_arrays::Cells;
use xr_types::{Elem, Items};

/// Whether a cell holds a number.
#[tactic(auto, using(crate::proofs::MaskedCells::held))]
pub fn holds<T: Elem>(cell: T, number: i128) -> bool
    ensures { result ≡ int_eq (T.number cell) number }
{
    // The comparison stays at the width of the cell where the number is the same one for many cells.
    let near = T::wrap_from(number).widen();
    cell.widen() == near && near == number
}

// The mask of one cell, given what it was by the fill numbers before.
fn marked<T: Elem>(cell: T, fill: i128, before: u8) -> u8
    ensures { result ≡ (if int_eq (T.number cell) fill then 1 else before) }
{
    if holds(cell, fill) { 1 } else { before }
}

fn mark_row<T: Elem>(cells: &[T], fill: i128, mask: &mut [u8])
    requires { length mask.old ≡ length cells.now }
    ensures long { length mask.new ≡ length mask.old }
    ensures marks { (i : ℕ) (x : T) → i < length cells.now → get_or mask.new i 0 ≡ (if int_eq (T.number (get_or cells.now i x)) fill then 1 else get_or mask.old i 0) }
{
    for i in 0..cells.len() {
        mask[i] = marked(cells[i], fill, mask[i]);
    }
}

// The mask by several fill numbers, one after the other, so that each goes over the cells in one run.
fn mask_row<T: Elem>(alloc: Global, cells: &[T], fills: &[i128]) -> Result<Items<u8>, AllocError>
    ensures { IfOk result (λ m. m ≡ marks fills.now (map T.number cells.now)) }
{
    let mut mask = Vec::from_elem(alloc, 0u8, cells.len())?;
    for fill in fills {
        mark_row(cells, *fill, &mut mask);
    }
    Ok(Items::of(mask))
}

fn mask_of(alloc: Global, cells: &Cells, fills: &[i128]) -> Result<Items<u8>, AllocError>
    ensures { IfOk result (λ m. m ≡ marks fills.now (wide cells.now)) }
{
    match cells {
        Cells::Bool(v) | Cells::Char(v) => mask_row(alloc, v.as_slice(), fills),
        Cells::Int8(v) => mask_row(alloc, v.as_slice(), fills),
        Cells::Int16(v) => mask_row(alloc, v.as_slice(), fills),
        Cells::Int32(v) => mask_row(alloc, v.as_slice(), fills),
        Cells::Int64(v) => mask_row(alloc, v.as_slice(), fills),
        Cells::UInt8(v) => mask_row(alloc, v.as_slice(), fills),
        Cells::UInt16(v) => mask_row(alloc, v.as_slice(), fills),
        Cells::UInt32(v) => mask_row(alloc, v.as_slice(), fills),
        Cells::UInt64(v) => mask_row(alloc, v.as_slice(), fills),
    }
}

/// The mask of cells that hold one of the fill numbers, where there are such numbers.
#[tactic(auto, using(crate::proofs::MaskedCells::hides_none))]
pub fn mask_for(
    alloc: Global,
    cells: &Cells,
    fills: &[i128],
) -> Result<Option<Items<u8>>, AllocError>
    ensures { IfOk result (λ m. Hides fills.now (wide cells.now) m) }
{
    if fills.is_empty() {
        return Ok(None);
    }
    Ok(Some(mask_of(alloc, cells, fills)?))
}
