//! Cells that a caller gives as numbers or holes, written into typed cells and into the bytes of a mask.
ghost use Rattle.std.specs.Prelude.{◌≡◌, ◌+◌, ◌<◌, ◌≤◌, ◌⊎◌, ℕ, ℤ, Option, None, false, length, get_or};
ghost use Rattle.strided_block.specs.Typed.{number_or_zero, mask_byte};

use xr_types::Elem;

/// The number of a cell at a width, 0 for a missing one.
fn number<T: Elem>(cell: Option<i128>) -> T
    ensures { result ≡ T.of (number_or_zero cell) }
{
    match cell {
        Some(number) => T::wrap_from(number),
        None => T::wrap_from(0),
    }
}

/// The byte of a mask for a cell.
fn byte(cell: Option<i128>) -> u8
    ensures { result ≡ mask_byte cell }
{
    match cell {
        Some(_) => 0,
        None => 1,
    }
}

/// Writes the numbers of cells from a place on, 0 for a missing one.
pub(crate) fn put_numbers<T: Elem>(all: &mut [T], at: usize, cells: &[Option<i128>])
    requires { at + length cells.now ≤ length all.old }
    ensures cells { (i : ℕ) (z : T) → i < length cells.now → get_or all.new (at + i) z ≡ T.of (number_or_zero (get_or cells.now i None)) }
    ensures others { (k : ℕ) (z : T) → (k < at) ⊎ (at + length cells.now ≤ k) → get_or all.new k z ≡ get_or all.old k z }
{
    for i in 0..cells.len() {
        all[at + i] = number(cells[i]);
    }
}

/// Writes the mask's bytes of cells from a place on.
pub(crate) fn put_bytes(all: &mut [u8], at: usize, cells: &[Option<i128>])
    requires { at + length cells.now ≤ length all.old }
    ensures cells { (i z : ℕ) → i < length cells.now → get_or all.new (at + i) z ≡ mask_byte (get_or cells.now i None) }
    ensures others { (k z : ℕ) → (k < at) ⊎ (at + length cells.now ≤ k) → get_or all.new k z ≡ get_or all.old k z }
{
    for i in 0..cells.len() {
        all[at + i] = byte(cells[i]);
    }
}

/// Whether a cell is missing.
pub(crate) fn some_missing(cells: &[Option<i128>]) -> bool
    ensures { result ≡ false → (j : ℕ) → j < length cells.now → mask_byte (get_or cells.now j None) ≡ 0 }
{
    for i in 0..cells.len() {
        if byte(cells[i]) != 0 {
            return true;
        }
    }
    false
}
