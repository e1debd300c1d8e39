//! The cells of a block's memory, read and written a run at a time.
ghost use Rattle.std.specs.Prelude.{◌≡◌, ◌+◌, ◌<◌, ℕ, Option, Some, None, length, get_or};
ghost use Rattle.strided_block.specs.Deeds.{base_at, cells_at, cells_slots};
ghost use Rattle.strided_block.specs.Parts.{IsRun, Changes, InRun};
ghost use Rattle.strided_block.specs.Typed.{number_or_zero, mask_byte};
ghost use Rattle.strided_block.specs.Views.{IsThere};

use crate::memory::{Origin, Share};
use crate::row::{put_bytes, put_numbers};
use xr_types::Elem;

/// The cell at a place.
pub(crate) fn cell<T: Copy>(cells: &Share<T>, base: Origin<T>, at: usize) -> T
    requires { (base_at base ≡ cells_at cells.now) × IsThere (cells_slots cells.now) at }
    ensures { get_or (cells_slots cells.now) at None ≡ Some result }
{
    cells.run(base, at, 1)[0]
}

// Writes the first of some cells.
fn put_first<T: Copy>(all: &mut [T], item: T)
    requires { 0 < length all.old }
    ensures long { length all.new ≡ length all.old }
    ensures first { (y : T) → get_or all.new 0 y ≡ item }
{
    all[0] = item;
}

/// Writes the cell at a place.
pub(crate) fn put_cell<T: Copy>(cells: &mut Share<T>, base: Origin<T>, at: usize, item: T)
    requires { (base_at base ≡ cells_at cells.old) × IsThere (cells_slots cells.old) at }
    ensures block { cells_at cells.new ≡ cells_at cells.old }
    ensures others { Changes (cells_slots cells.old) (cells_slots cells.new) (InRun at 1) }
    ensures cell { get_or (cells_slots cells.new) at None ≡ Some item }
{
    put_first(cells.run_mut(base, at, 1), item);
}

// Writes one cell everywhere.
fn fill_slice<T: Copy>(all: &mut [T], item: T)
    ensures long { length all.new ≡ length all.old }
    ensures cells { (j : ℕ) (y : T) → j < length all.new → get_or all.new j y ≡ item }
{
    for i in 0..all.len() {
        all[i] = item;
    }
}

/// Writes one cell at so many places.
pub(crate) fn fill_run<T: Copy>(
    cells: &mut Share<T>,
    base: Origin<T>,
    at: usize,
    count: usize,
    item: T,
)
    requires { (base_at base ≡ cells_at cells.old) × IsRun (cells_slots cells.old) at count }
    ensures block { cells_at cells.new ≡ cells_at cells.old }
    ensures others { Changes (cells_slots cells.old) (cells_slots cells.new) (InRun at count) }
    ensures cells { (j : ℕ) → j < count → get_or (cells_slots cells.new) (at + j) None ≡ Some item }
{
    fill_slice(cells.run_mut(base, at, count), item);
}

// Writes cells in the place of as many.
fn copy_slice<T: Copy>(all: &mut [T], items: &[T])
    requires { length all.old ≡ length items.now }
    ensures { all.new ≡ items.now }
{
    all.copy_from_slice(items);
}

/// Writes cells from a place on.
pub(crate) fn put_run<T: Copy>(cells: &mut Share<T>, base: Origin<T>, at: usize, items: &[T])
    requires { (base_at base ≡ cells_at cells.old) × IsRun (cells_slots cells.old) at (length items.now) }
    ensures block { cells_at cells.new ≡ cells_at cells.old }
    ensures others { Changes (cells_slots cells.old) (cells_slots cells.new) (InRun at (length items.now)) }
    ensures cells { (j : ℕ) (x : T) → j < length items.now → get_or (cells_slots cells.new) (at + j) None ≡ Some (get_or items.now j x) }
{
    copy_slice(cells.run_mut(base, at, items.len()), items);
}

/// Writes the numbers of cells from a place on, 0 for a missing one.
pub(crate) fn put_number_run<T: Elem>(
    cells: &mut Share<T>,
    base: Origin<T>,
    at: usize,
    items: &[Option<i128>],
)
    requires { (base_at base ≡ cells_at cells.old) × IsRun (cells_slots cells.old) at (length items.now) }
    ensures block { cells_at cells.new ≡ cells_at cells.old }
    ensures others { Changes (cells_slots cells.old) (cells_slots cells.new) (InRun at (length items.now)) }
    ensures cells { (j : ℕ) → j < length items.now → get_or (cells_slots cells.new) (at + j) None ≡ Some (T.of (number_or_zero (get_or items.now j None))) }
{
    put_numbers(cells.run_mut(base, at, items.len()), 0, items);
}

/// Writes the mask's bytes of cells from a place on.
pub(crate) fn put_byte_run(
    cells: &mut Share<u8>,
    base: Origin<u8>,
    at: usize,
    items: &[Option<i128>],
)
    requires { (base_at base ≡ cells_at cells.old) × IsRun (cells_slots cells.old) at (length items.now) }
    ensures block { cells_at cells.new ≡ cells_at cells.old }
    ensures others { Changes (cells_slots cells.old) (cells_slots cells.new) (InRun at (length items.now)) }
    ensures cells { (j : ℕ) → j < length items.now → get_or (cells_slots cells.new) (at + j) None ≡ Some (mask_byte (get_or items.now j None)) }
{
    put_bytes(cells.run_mut(base, at, items.len()), 0, items);
}
