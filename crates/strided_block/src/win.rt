//! Windows: owned cells of a block, to be written.
ghost use Rattle.std.specs.Prelude.{◌≡◌, ◌+◌, ◌-◌, ◌*◌, ◌<◌, ◌≤◌, ℕ, List, Option, Some, length, get_or, map, slice_set, None, true, nat_lt, if◌then◌else◌, ◌⊎◌};
ghost use Rattle.xr_types.specs.Points.{place, IsPoint};
ghost use Rattle.strided_block.specs.Boxes.{plus, along, IsRow};
ghost use Rattle.strided_block.specs.Parts.{either};
ghost use Rattle.strided_block.specs.Typed.{number_or_zero, mask_byte};
ghost use Rattle.strided_block.specs.Views.{Cut, KeptOutside, SameIn, Halves, IsWhole, IsThere, shown, held, cell_at, window_sight, together};

use crate::axes::zeros_for;
use crate::block::Block;
use crate::line::Places;
use crate::memory::{Deed, Origin, Share};
use crate::place::{place_in, points, spot_of, steps_of, twin};
use crate::runs::{put_byte_run, put_cell, put_number_run, put_run};
use crate::view::{View, agree_from};
use crate::zip::fill_rows;
use std::marker::Model;
use xr_types::{Elem, Shape};

/// The owned cells of a box in a block, to be written. Other windows may have the block's other cells. It has to be spent, by `join` or `into_block`.
pub struct Win<T> {
    pub(crate) base: Origin<T>,
    pub(crate) cells: Share<T>,
    pub(crate) deed: Option<Deed<T>>,
    pub(crate) whole: Shape,
    pub(crate) low: Shape,
    pub(crate) shape: Shape,
}

impl<T> Model for Win<T> {
    ghost use Rattle.strided_block.specs.Deeds.{base_at, cells_at, cells_slots, IsOwner};
    ghost use Rattle.strided_block.specs.Views.{Window, IsSound};

    ghost Value = { Window T };

    ghost view = { λ w. record { block = cells_at w.cells; whole = w.whole; low = w.low; shape = w.shape; slots = cells_slots w.cells } };

    ghost invariant = { λ w. IsOwner (base_at w.base) (cells_at w.cells) (cells_slots w.cells) w.deed × IsSound record { block = cells_at w.cells; whole = w.whole; low = w.low; shape = w.shape; slots = cells_slots w.cells } };
}

// The number of an axis.
fn number_at(numbers: &Shape, axis: usize) -> u64
    requires { axis < length numbers.now }
    ensures { result ≡ get_or numbers.now axis 0 }
{
    numbers.as_slice()[axis]
}

// The numbers of the axes, another at one of them.
fn with_number(numbers: &Shape, axis: usize, number: u64) -> Shape
    requires { axis < length numbers.now }
    ensures { result ≡ slice_set numbers.now axis number }
{
    let mut all = twin(numbers);
    all.set(axis, number);
    all
}

// The right to free the block, where a window is parted at a bound: it goes with the block's first cell.
fn part_deed<T>(deed: Option<Deed<T>>, bound: u64) -> (Option<Deed<T>>, Option<Deed<T>>)
    ensures first { result.0 ≡ (if nat_lt 0 bound then deed else None) }
    ensures second { result.1 ≡ (if nat_lt 0 bound then None else deed) }
{
    if 0 < bound {
        (deed, None)
    } else {
        (None, deed)
    }
}

// The right of one of two windows.
fn joined_deed<T>(first: Option<Deed<T>>, second: Option<Deed<T>>) -> Option<Deed<T>>
    requires { (first ≡ None) ⊎ (second ≡ None) }
    ensures { result ≡ either first second }
{
    match first {
        Some(deed) => {
            let None = second else { unreachable!() };
            Some(deed)
        }
        None => second,
    }
}

impl Win<u8> {
    /// Writes the mask's bytes of cells from a point on along the last axis.
    pub(crate) fn put_mask(&mut self, point: &Shape, cells: &[Option<i128>])
        requires { IsRow self.old.shape point.now (length cells.now) }
        ensures place { Cut self.old self.new self.old.low self.old.shape }
        ensures written { (j : ℕ) → j < length cells.now → cell_at self.new (along point.now j) ≡ Some (mask_byte (get_or cells.now j None)) }
        ensures others { (cs : List ℕ) → IsPoint self.old.whole cs → ((j : ℕ) → j < length cells.now → ¬ (cs ≡ plus self.old.low (along point.now j))) → held self.new cs ≡ held self.old cs }
    {
        let base = self.base;
        let at = self.place_of(point);
        put_byte_run(&mut self.cells, base, at, cells);
    }
}

impl<T> Win<T> {
    // Where the cell of a point lies in row order.
    pub(crate) fn place_of(&self, point: &Shape) -> usize
        requires { IsPoint self.now.shape point.now }
        ensures { result ≡ place self.now.whole (plus self.now.low point.now) }
    {
        place_in(self.whole.as_slice(), self.low.as_slice(), point.as_slice())
    }

    // Where the box begins, counted in steps.
    pub(crate) fn start(&self) -> u64
        ensures { result ≡ (window_sight self.now).start }
    {
        let steps = steps_of(&self.whole);
        spot_of(0, steps.as_slice(), self.low.as_slice())
    }

    // Whether the cells of the points that agree before an axis lie side by side, in row order.
    pub(crate) fn lies_together(&self, axis: usize) -> bool
        ensures { result ≡ together (window_sight self.now) axis }
    {
        agree_from(
            axis,
            steps_of(&self.whole).as_slice(),
            steps_of(&self.shape).as_slice(),
        )
    }

    // The first axis from which on the cells lie side by side.
    fn merged(&self) -> usize
        ensures within { result ≤ length self.now.shape }
        ensures first { together (window_sight self.now) result ≡ true }
    {
        let rank = self.shape.len();
        for axis in 0..rank {
            if self.lies_together(axis) {
                return axis;
            }
        }
        rank
    }
}

impl<T: Elem + Drop> Win<T> {
    /// Writes the numbers of cells from a point on along the last axis, 0 for a missing one.
    pub(crate) fn put_cells(&mut self, point: &Shape, cells: &[Option<i128>])
        requires { IsRow self.old.shape point.now (length cells.now) }
        ensures place { Cut self.old self.new self.old.low self.old.shape }
        ensures written { (j : ℕ) → j < length cells.now → cell_at self.new (along point.now j) ≡ Some (T.of (number_or_zero (get_or cells.now j None))) }
        ensures others { (cs : List ℕ) → IsPoint self.old.whole cs → ((j : ℕ) → j < length cells.now → ¬ (cs ≡ plus self.old.low (along point.now j))) → held self.new cs ≡ held self.old cs }
    {
        let base = self.base;
        let at = self.place_of(point);
        put_number_run(&mut self.cells, base, at, cells);
    }

    /// The window of a whole block.
    pub fn whole(block: Block<T>) -> Win<T>
        ensures place { IsWhole result }
        ensures shape { result.whole ≡ block.shape }
        ensures cells { result.slots ≡ map Some block.cells }
    {
        let (base, cells, deed, shape) = block.into_parts();
        let low = zeros_for(shape.as_slice());
        Win {
            base,
            cells,
            deed,
            whole: twin(&shape),
            low,
            shape,
        }
    }

    /// The sizes of the window.
    pub fn shape(&self) -> &Shape
        ensures { result.now ≡ self.now.shape }
    {
        &self.shape
    }

    /// The cells of the window.
    pub fn view(&self) -> View<'_, T>
        ensures shape { result.shape ≡ self.now.shape }
        ensures cells { (ps : List ℕ) → IsPoint self.now.shape ps → shown result ps ≡ cell_at self.now ps }
    {
        View {
            cells: &self.cells,
            base: self.base,
            start: self.start(),
            shape: twin(&self.shape),
            steps: steps_of(&self.whole),
        }
    }

    /// Writes the cell at a point.
    pub fn set(&mut self, point: &Shape, cell: T)
        requires { IsPoint self.old.shape point.now }
        ensures place { Cut self.old self.new self.old.low self.old.shape }
        ensures written { cell_at self.new point.now ≡ Some cell }
        ensures others { (cs : List ℕ) → IsPoint self.old.whole cs → ¬ (cs ≡ plus self.old.low point.now) → held self.new cs ≡ held self.old cs }
    {
        let base = self.base;
        let at = self.place_of(point);
        put_cell(&mut self.cells, base, at, cell);
    }

    /// Writes cells from a point on along the last axis.
    pub fn put_row(&mut self, point: &Shape, cells: &[T])
        requires { IsRow self.old.shape point.now (length cells.now) }
        ensures place { Cut self.old self.new self.old.low self.old.shape }
        ensures written { (j : ℕ) (x : T) → j < length cells.now → cell_at self.new (along point.now j) ≡ Some (get_or cells.now j x) }
        ensures others { (cs : List ℕ) → IsPoint self.old.whole cs → ((j : ℕ) → j < length cells.now → ¬ (cs ≡ plus self.old.low (along point.now j))) → held self.new cs ≡ held self.old cs }
    {
        let base = self.base;
        let at = self.place_of(point);
        put_run(&mut self.cells, base, at, cells);
    }

    /// Where the cells of the line along an axis through a point lie.
    pub(crate) fn places(&self, axis: usize, at: &Shape) -> Places
        requires axis { axis < length self.now.shape }
        requires at { IsPoint self.now.shape at.now }
        ensures apart { 0 < result.step }
        ensures within { (j : ℕ) → j < get_or self.now.shape axis 0 → IsThere self.now.slots (result.first + j * result.step) }
        ensures cells { (j : ℕ) → j < get_or self.now.shape axis 0 → place self.now.whole (plus self.now.low (slice_set at.now axis j)) ≡ result.first + j * result.step }
    {
        let mut begin = twin(at);
        begin.set(axis, 0);
        let first = self.place_of(&begin);
        let step = points(self.whole.as_slice().split_at(axis + 1).1) as usize;
        Places { first, step }
    }

    /// Writes one cell everywhere.
    pub fn fill(&mut self, cell: T)
        ensures place { Cut self.old self.new self.old.low self.old.shape }
        ensures cells { (p : List ℕ) → IsPoint self.old.shape p → cell_at self.new p ≡ Some cell }
        ensures others { KeptOutside self.old self.new }
    {
        let base = self.base;
        let axis = self.merged();
        let start = self.start();
        let steps = steps_of(&self.whole);
        fill_rows(
            &mut self.cells,
            base,
            start,
            &steps,
            &self.shape,
            axis,
            cell,
        );
    }

    /// The part below `at` along an axis, and the rest.
    pub fn split(self, axis: usize, at: u64) -> (Win<T>, Win<T>)
        requires axis { axis < length self.shape }
        requires at { at ≤ get_or self.shape axis 0 }
        ensures first { Cut self result.0 self.low (slice_set self.shape axis at) × SameIn result.0 self }
        ensures second { Cut self result.1 (slice_set self.low axis (get_or self.low axis 0 + at)) (slice_set self.shape axis (get_or self.shape axis 0 - at)) × SameIn result.1 self }
    {
        let Win {
            base,
            cells,
            deed,
            whole,
            low,
            shape,
        } = self;
        let size = number_at(&whole, axis);
        let bound = number_at(&low, axis) + at;
        let rest = number_at(&shape, axis) - at;
        let step = points(whole.as_slice().split_at(axis + 1).1);
        let (one, two) = cells.cut(step, size, bound);
        let (first, second) = part_deed(deed, bound);
        let first_shape = with_number(&shape, axis, at);
        let second_low = with_number(&low, axis, bound);
        let second_shape = with_number(&shape, axis, rest);
        (
            Win {
                base,
                cells: one,
                deed: first,
                whole: twin(&whole),
                low,
                shape: first_shape,
            },
            Win {
                base,
                cells: two,
                deed: second,
                whole,
                low: second_low,
                shape: second_shape,
            },
        )
    }

    /// The two halves of a split, as one window.
    pub fn join(self, other: Win<T>, axis: usize) -> Win<T>
        requires axis { axis < length self.shape }
        requires halves { Halves self other axis }
        ensures place { Cut self result self.low (slice_set self.shape axis (get_or self.shape axis 0 + get_or other.shape axis 0)) }
        ensures cells { SameIn self result × SameIn other result }
    {
        let Win {
            base,
            cells,
            deed,
            whole,
            low,
            shape,
        } = self;
        let Win {
            base: _,
            cells: others,
            deed: second,
            whole: _,
            low: _,
            shape: rest,
        } = other;
        let _most = number_at(&whole, axis);
        let size = number_at(&shape, axis) + number_at(&rest, axis);
        Win {
            base,
            cells: cells.meet(others),
            deed: joined_deed(deed, second),
            whole,
            low,
            shape: with_number(&shape, axis, size),
        }
    }

    /// The block of a window of the whole.
    pub fn into_block(self) -> Block<T>
        requires { IsWhole self }
        ensures shape { result.shape ≡ self.whole }
        ensures cells { map Some result.cells ≡ self.slots }
    {
        let Win {
            base,
            cells,
            deed,
            whole,
            low: _,
            shape: _,
        } = self;
        Block {
            base,
            cells,
            deed,
            shape: whole,
        }
    }
}
