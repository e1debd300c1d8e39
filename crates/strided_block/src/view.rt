//! Views of cells.
ghost use Rattle.std.specs.Prelude.{◌≡◌, ◌-◌, ◌+◌, ◌<◌, ◌≤◌, ◌++◌, ◌||◌, ℕ, List, Some, true, leb, bytes_eq, length, get_or, take, drop, map, insert, slice_set};
ghost use Rattle.xr_types.specs.Points.{size, place, IsPoint};
ghost use Rattle.xr_arrays.specs.Nodes.{IsOrder, without, moved as in_order};
ghost use Rattle.strided_block.specs.Boxes.{moved, zeros};
ghost use Rattle.strided_block.specs.Lines.{IsLine};
ghost use Rattle.strided_block.specs.Steps.{spot, spot_on, stepped, StepsWithin};
ghost use Rattle.strided_block.specs.Views.{shown, together, IsThere};

use crate::axes::{added, moved_sizes, moved_steps, round};
use crate::line::Places;
use crate::memory::{Origin, Share};
use crate::place::{points, spot_of, steps_of};
use crate::runs::cell;
use std::marker::Model;
use xr_types::{Elem, Shape};

/// Whether two lists of numbers agree from an axis on.
pub(crate) fn agree_from(axis: usize, a: &[u64], b: &[u64]) -> bool
    requires { length b.now ≡ length a.now }
    ensures { result ≡ leb (length b.now) axis || bytes_eq (drop axis a.now) (drop axis b.now) }
{
    if axis < b.len() {
        a.split_at(axis).1 == b.split_at(axis).1
    } else {
        true
    }
}

/// A lent view of cells of a block: a first cell, sizes, and along each axis a step from one cell to the next. A step may be 0, which repeats a cell, or go back.
#[derive(Drop)]
pub struct View<'a, T> {
    pub(crate) cells: &'a Share<T>,
    pub(crate) base: Origin<T>,
    pub(crate) start: u64,
    pub(crate) shape: Shape,
    // steps back are counted round 2^64
    pub(crate) steps: Shape,
}

impl<'a, T> Model for View<'a, T> {
    ghost use Rattle.std.specs.Prelude.{◌≡◌};
    ghost use Rattle.strided_block.specs.Deeds.{base_at, cells_at, cells_slots};
    ghost use Rattle.strided_block.specs.Views.{Seen, stepped_sight, IsClear};

    ghost Value = { Seen T };

    ghost view = { λ v. stepped_sight (cells_slots v.cells.now) v.start v.steps v.shape };

    ghost invariant = { λ v. (base_at v.base ≡ cells_at v.cells.now) × IsClear (cells_slots v.cells.now) v.start v.steps v.shape };
}

impl<'a, T: Elem> View<'a, T> {
    /// The sizes of the view.
    pub fn shape(&self) -> &Shape
        ensures { result.now ≡ self.now.shape }
    {
        &self.shape
    }

    /// The cell at a point.
    pub fn get(&self, point: &Shape) -> T
        requires { IsPoint self.now.shape point.now }
        ensures { shown self.now point.now ≡ Some result }
    {
        let at = spot_of(self.start, self.steps.as_slice(), point.as_slice()) as usize;
        cell(self.cells, self.base, at)
    }

    /// Whether the cells of the points that agree before an axis lie side by side, in row order.
    pub fn lies_together(&self, axis: usize) -> bool
        ensures { result ≡ together self.now axis }
    {
        agree_from(
            axis,
            self.steps.as_slice(),
            steps_of(&self.shape).as_slice(),
        )
    }

    /// The cells of the points that begin with `lead`, in row order, where they lie side by side.
    pub fn run(&self, lead: &Shape) -> &'a [T]
        requires lead { IsPoint (take (length lead.now) self.now.shape) lead.now }
        requires side_by_side { together self.now (length lead.now) ≡ true }
        ensures count { length result.now ≡ size (drop (length lead.now) self.now.shape) }
        ensures cells { (q : List ℕ) (x : T) → IsPoint (drop (length lead.now) self.now.shape) q → shown self.now (lead.now ++ q) ≡ Some (get_or result.now (place (drop (length lead.now) self.now.shape) q) x) }
    {
        let count = points(self.shape.as_slice().split_at(lead.len()).1);
        let cells = self.cells;
        if count == 0 {
            return cells.run(self.base, 0, 0);
        }
        let at = spot_of(self.start, self.steps.as_slice(), lead.as_slice()) as usize;
        cells.run(self.base, at, count as usize)
    }

    /// Where the cells of a view of one line lie.
    pub(crate) fn places(&self, axis: usize) -> Places
        requires some { 0 < get_or self.now.shape axis 0 }
        requires line { IsLine self.now.shape axis (get_or self.now.shape axis 0) }
        ensures within { (j : ℕ) → j < get_or self.now.shape axis 0 → IsThere self.now.slots (spot_on result.first result.step j) }
        ensures cells { (j : ℕ) → j < get_or self.now.shape axis 0 → spot self.now.start self.now.steps (slice_set (zeros self.now.shape) axis j) ≡ spot_on result.first result.step j }
    {
        Places {
            first: self.start as usize,
            step: self.steps.as_slice()[axis] as usize,
        }
    }

    /// The part from `from` up to `to` along an axis.
    pub fn sub(self, axis: usize, from: u64, to: u64) -> View<'a, T>
        requires axis { axis < length self.shape }
        requires range { (from ≤ to) × (to ≤ get_or self.shape axis 0) }
        ensures shape { result.shape ≡ slice_set self.entry.shape axis (to - from) }
        ensures cells { (ps : List ℕ) → IsPoint result.shape ps → shown result ps ≡ shown self.entry (moved ps axis from) }
    {
        let View {
            cells,
            base,
            start,
            mut shape,
            steps,
        } = self;
        let step = steps.as_slice()[axis];
        let start = start.wrapping_add(from.wrapping_mul(step));
        shape.set(axis, to - from);
        View {
            cells,
            base,
            start,
            shape,
            steps,
        }
    }

    /// `count` positions along an axis, `from` and each next one `step` further on. A step below 0 goes back, and one of 0 repeats a position.
    pub fn step(self, axis: usize, from: u64, step: i64, count: u64) -> View<'a, T>
        requires axis { axis < length self.shape }
        requires range { StepsWithin (get_or self.shape axis 0) from step count }
        ensures shape { result.shape ≡ slice_set self.entry.shape axis count }
        ensures cells { (ps : List ℕ) → IsPoint result.shape ps → shown result ps ≡ shown self.entry (slice_set ps axis (stepped from step (get_or ps axis 0))) }
    {
        let View {
            cells,
            base,
            start,
            mut shape,
            mut steps,
        } = self;
        let old = steps.as_slice()[axis];
        let start = start.wrapping_add(from.wrapping_mul(old));
        steps.set(axis, old.wrapping_mul(round(step)));
        shape.set(axis, count);
        View {
            cells,
            base,
            start,
            shape,
            steps,
        }
    }

    /// The axes in another order: axis number i is the view's axis `order[i]`.
    pub fn permute(self, order: &Shape) -> View<'a, T>
        requires { IsOrder (length self.shape) order.now }
        ensures shape { result.shape ≡ map (λ k. get_or self.entry.shape k 0) order.now }
        ensures cells { (ps : List ℕ) → IsPoint result.shape ps → shown result ps ≡ shown self.entry (in_order order.now ps) }
    {
        let View {
            cells,
            base,
            start,
            shape,
            steps,
        } = self;
        View {
            cells,
            base,
            start,
            shape: moved_sizes(order.as_slice(), shape.as_slice()),
            steps: moved_steps(order.as_slice(), steps.as_slice()),
        }
    }

    /// One axis more, before `axis`, of `size` positions that all show the same cell.
    pub fn widen(self, axis: usize, size: u64) -> View<'a, T>
        requires axis { axis ≤ length self.shape }
        requires few { length self.shape < 16 }
        ensures shape { result.shape ≡ insert self.entry.shape axis size }
        ensures cells { (ps : List ℕ) → IsPoint result.shape ps → shown result ps ≡ shown self.entry (without axis ps) }
    {
        let View {
            cells,
            base,
            start,
            shape,
            steps,
        } = self;
        View {
            cells,
            base,
            start,
            shape: added(shape.as_slice(), axis, size),
            steps: added(steps.as_slice(), axis, 0),
        }
    }
}
