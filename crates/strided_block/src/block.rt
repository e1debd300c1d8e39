//! Blocks of cells in row order.
ghost use Rattle.std.specs.Prelude.{◌≡◌, ◌<◌, ◌^◌, ℕ, pos, List, Option, Some, None, length, get_or, replicate, IfOk};
ghost use Rattle.xr_types.specs.Points.{size, place, IsPoint};
ghost use Rattle.strided_block.specs.Typed.{number_or_zero, mask_byte};
ghost use Rattle.strided_block.specs.Views.{kept, shown, sight};
ghost use Rattle.strided_block.specs.Boxes.{zeros};
ghost use Rattle.core.specs.Mem.Slots.{slots_items, slots_ptr, slots_len, IsFull as IsRow};
ghost use Rattle.strided_block.specs.Deeds.{deed_at, deed_count};

use crate::memory::{Deed, Origin, Share, copied, filled, free};
use crate::place::{count, points, steps_of, twin};
use crate::row::{put_bytes, put_numbers};
use crate::view::View;
use core::slots::Slots;
use std::alloc::Global;
use std::marker::Model;
use xr_types::{Elem, NoMemory, Shape};

/// Cells of one type: one for each point of a shape. Contracts see its shape and its cells in row order.
pub struct Block<T> {
    pub(crate) base: Origin<T>,
    pub(crate) cells: Share<T>,
    pub(crate) deed: Option<Deed<T>>,
    pub(crate) shape: Shape,
}

impl<T> Model for Block<T> {
    ghost use Rattle.strided_block.specs.Deeds.{base_at, cells_at, cells_slots, IsBlock};
    ghost use Rattle.strided_block.specs.Parts.{somes};
    ghost use Rattle.strided_block.specs.Views.{Stored};

    ghost Value = { Stored T };

    ghost view = { λ b. record { shape = b.shape; cells = somes (cells_slots b.cells) } };

    ghost invariant = { λ b. IsBlock b.shape (base_at b.base) (cells_at b.cells) (cells_slots b.cells) b.deed };
}

impl<T> Block<T> {
    ghost use Rattle.strided_block.specs.Deeds.{base_at, cells_at, cells_slots, IsBlock};
    ghost use Rattle.strided_block.specs.Parts.{somes};

    /// The block's fields.
    pub(crate) fn into_parts(self) -> (Origin<T>, Share<T>, Option<Deed<T>>, Shape)
        ensures fields { IsBlock result.3 (base_at result.0) (cells_at result.1) (cells_slots result.1) result.2 }
        ensures value { self ≡ record { shape = result.3; cells = somes (cells_slots result.1) } }
    {
        let Block {
            base,
            cells,
            deed,
            shape,
        } = self;
        (base, cells, deed, shape)
    }
}

impl<T: Drop> Drop for Block<T> {
    fn drop(self) {
        let Block {
            base,
            cells,
            deed,
            shape,
        } = self;
        if let Some(deed) = deed {
            let count = points(shape.as_slice()) as usize;
            free(cells.into_row(base, count), deed);
        }
    }
}

// The block of a row of cells. One without a cell needs no memory.
fn of_row<T>(row: Slots<T>, deed: Deed<T>, shape: Shape) -> Block<T>
    requires row { IsRow row × (slots_len row ≡ size shape) × (slots_len row < 2 ^ 63) }
    requires deed { (deed_at deed ≡ slots_ptr row) × (deed_count deed ≡ slots_len row) }
    ensures { result ≡ record { shape = shape; cells = slots_items row } }
{
    let count = row.len();
    let (base, cells) = Share::of(row);
    if count == 0 {
        let (cells, none) = cells.cut(1, 1, 1);
        free(none.into_row(base, 0), deed);
        Block {
            base,
            cells,
            deed: None,
            shape,
        }
    } else {
        Block {
            base,
            cells,
            deed: Some(deed),
            shape,
        }
    }
}

// The block of these cells, in memory of its own.
fn of_slice<T: Elem>(alloc: Global, shape: &Shape, cells: &[T]) -> Result<Block<T>, NoMemory>
    requires { length cells.now ≡ size shape.now }
    ensures { IfOk result (λ b. b ≡ record { shape = shape.now; cells = cells.now }) }
{
    if cells.len() < 1 << 63 {
        match copied(alloc, cells) {
            Ok((row, deed)) => Ok(of_row(row, deed, twin(shape))),
            Err(_) => Err(NoMemory),
        }
    } else {
        Err(NoMemory)
    }
}

// The numbers of cells, 0 for a missing one.
fn numbers<T: Elem + Drop>(alloc: Global, cells: &[Option<i128>]) -> Result<Vec<T>, NoMemory>
    ensures long { IfOk result (λ v. length v.items ≡ length cells.now) }
    ensures cells { IfOk result (λ v. (i : ℕ) (z : T) → i < length cells.now → get_or v.items i z ≡ T.of (number_or_zero (get_or cells.now i None))) }
{
    let mut all = Vec::new(alloc);
    match all.resize(cells.len(), T::wrap_from(0)) {
        Ok(()) => {
            put_numbers(all.as_mut_slice(), 0, cells);
            Ok(all)
        }
        Err(_) => Err(NoMemory),
    }
}

// The mask's bytes of cells.
fn bytes(alloc: Global, cells: &[Option<i128>]) -> Result<Vec<u8>, NoMemory>
    ensures long { IfOk result (λ v. length v.items ≡ length cells.now) }
    ensures cells { IfOk result (λ v. (i z : ℕ) → i < length cells.now → get_or v.items i z ≡ mask_byte (get_or cells.now i None)) }
{
    let mut all = Vec::new(alloc);
    match all.resize(cells.len(), 0) {
        Ok(()) => {
            put_bytes(all.as_mut_slice(), 0, cells);
            Ok(all)
        }
        Err(_) => Err(NoMemory),
    }
}

/// The block of the mask's bytes of cells.
pub(crate) fn mask_of(
    alloc: Global,
    shape: &Shape,
    cells: &[Option<i128>],
) -> Result<Block<u8>, NoMemory>
    requires { length cells.now ≡ size shape.now }
    ensures shape { IfOk result (λ b. b.shape ≡ shape.now) }
    ensures cells { IfOk result (λ b. (p : List ℕ) → IsPoint shape.now p → kept b p ≡ Some (mask_byte (get_or cells.now (place shape.now p) None))) }
{
    let cells = bytes(alloc, cells)?;
    of_slice(alloc, shape, cells.as_slice())
}

impl<T: Elem + Drop> Block<T> {
    /// The block of the numbers of cells, 0 for a missing one.
    pub(crate) fn of_cells(
        alloc: Global,
        shape: &Shape,
        cells: &[Option<i128>],
    ) -> Result<Block<T>, NoMemory>
        requires { length cells.now ≡ size shape.now }
        ensures shape { IfOk result (λ b. b.shape ≡ shape.now) }
        ensures cells { IfOk result (λ b. (p : List ℕ) → IsPoint shape.now p → kept b p ≡ Some (T.of (number_or_zero (get_or cells.now (place shape.now p) None)))) }
    {
        let cells = numbers(alloc, cells)?;
        of_slice(alloc, shape, cells.as_slice())
    }

    /// The sizes of the block.
    pub fn shape(&self) -> &Shape
        ensures { result.now ≡ self.now.shape }
    {
        &self.shape
    }

    /// A block whose cells hold 0.
    pub fn zeroed(alloc: Global, shape: &Shape) -> Result<Block<T>, NoMemory>
        ensures { IfOk result (λ b. b ≡ record { shape = shape.now; cells = replicate (size shape.now) (T.of (pos 0)) }) }
    {
        let count = count(shape)?;
        match filled(alloc, count, T::wrap_from(0)) {
            Ok((row, deed)) => Ok(of_row(row, deed, twin(shape))),
            Err(_) => Err(NoMemory),
        }
    }

    /// A block of these cells, in row order.
    pub fn from_slice(alloc: Global, shape: &Shape, cells: &[T]) -> Result<Block<T>, NoMemory>
        requires { length cells.now ≡ size shape.now }
        ensures { IfOk result (λ b. b ≡ record { shape = shape.now; cells = cells.now }) }
    {
        of_slice(alloc, shape, cells)
    }

    /// The cells of the block.
    pub fn view(&self) -> View<'_, T>
        ensures value { result ≡ sight self.now.cells self.now.shape (zeros self.now.shape) self.now.shape }
        ensures cells { (p : List ℕ) → IsPoint self.now.shape p → shown result p ≡ kept self.now p }
    {
        View {
            cells: &self.cells,
            base: self.base,
            start: 0,
            shape: twin(&self.shape),
            steps: steps_of(&self.shape),
        }
    }
}
