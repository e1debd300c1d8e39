//! Cells along a line of a window, each made from the one before it.
ghost use Rattle.std.specs.Prelude.{◌≡◌, ◌+◌, ◌*◌, ◌<◌, ◌^◌, ℕ, List, Some, None, length, get_or, slice_set};
ghost use Rattle.xr_types.specs.Points.{IsPoint};
ghost use Rattle.strided_block.specs.Boxes.{plus, zeros};
ghost use Rattle.strided_block.specs.Lines.{IsLine, prior, Follows};
ghost use Rattle.strided_block.specs.Steps.{spot_on};
ghost use Rattle.strided_block.specs.Deeds.{base_at, cells_at, cells_slots};
ghost use Rattle.strided_block.specs.Parts.{Changes, OnLine};
ghost use Rattle.strided_block.specs.Views.{Cut, IsThere, shown, held, cell_at};

use crate::memory::{Origin, Share};
use crate::runs::{cell, put_cell};
use crate::view::View;
use crate::win::Win;
use xr_types::{Elem, Shape};

/// Where the cells of a line lie in memory: the first of them, and how far one is from the next.
#[derive(Clone, Copy)]
pub(crate) struct Places {
    pub first: usize,
    pub step: usize,
}

impl Places {
    // Where the cell j of a line lies whose step may go back.
    fn spot(self, j: usize) -> usize
        ensures { result ≡ spot_on self.first self.step j }
    {
        self.first.wrapping_add(j.wrapping_mul(self.step))
    }
}

// What f gives of the result before and of a cell of each of two views.
fn next_result<'v, A: Elem, B: Elem, T: Copy, F: Fn(T, A, B) -> T>(
    f: &F,
    last: T,
    a: &View<'v, A>,
    i: usize,
    b: &View<'v, B>,
    k: usize,
) -> T
    requires callable { F.IsAlwaysCallable f.now }
    requires inside { IsThere a.now.slots i × IsThere b.now.slots k }
    ensures { (x : A) (y : B) → get_or a.now.slots i None ≡ Some x → get_or b.now.slots k None ≡ Some y → F.post f.now last x y result }
{
    f(last, cell(a.cells, a.base, i), cell(b.cells, b.base, k))
}

// Writes what f gives, one after another, at the places of a line.
fn scan_places<'v, A: Elem, B: Elem, T: Copy, F: Fn(T, A, B) -> T>(
    f: &F,
    start: T,
    a: &View<'v, A>,
    from_a: Places,
    b: &View<'v, B>,
    from_b: Places,
    all: &mut Share<T>,
    base: Origin<T>,
    to: Places,
    count: usize,
)
    requires callable { F.IsAlwaysCallable f.now }
    requires base { base_at base ≡ cells_at all.old }
    requires first { (j : ℕ) → j < count → IsThere a.now.slots (spot_on from_a.first from_a.step j) }
    requires second { (j : ℕ) → j < count → IsThere b.now.slots (spot_on from_b.first from_b.step j) }
    requires room { (j : ℕ) → j < count → IsThere (cells_slots all.old) (to.first + j * to.step) }
    requires apart { 0 < to.step }
    requires small { length (cells_slots all.old) < 2 ^ 63 }
    ensures block { cells_at all.new ≡ cells_at all.old }
    ensures cells { (j : ℕ) → j < count → Follows (F.post f.now) (prior (Some start) (λ i. get_or (cells_slots all.new) (to.first + i * to.step) None) j) (get_or a.now.slots (spot_on from_a.first from_a.step j) None) (get_or b.now.slots (spot_on from_b.first from_b.step j) None) (get_or (cells_slots all.new) (to.first + j * to.step) None) }
    ensures others { Changes (cells_slots all.old) (cells_slots all.new) (OnLine to.first to.step count) }
{
    let mut last = start;
    for j in 0..count {
        last = next_result(f, last, a, from_a.spot(j), b, from_b.spot(j));
        put_cell(all, base, to.first + j * to.step, last);
    }
}

// Writes one cell at the places of a line.
fn fill_places<T: Copy>(all: &mut Share<T>, base: Origin<T>, to: Places, count: usize, item: T)
    requires base { base_at base ≡ cells_at all.old }
    requires room { (j : ℕ) → j < count → IsThere (cells_slots all.old) (to.first + j * to.step) }
    requires apart { 0 < to.step }
    requires small { length (cells_slots all.old) < 2 ^ 63 }
    ensures block { cells_at all.new ≡ cells_at all.old }
    ensures cells { (j : ℕ) → j < count → get_or (cells_slots all.new) (to.first + j * to.step) None ≡ Some item }
    ensures others { Changes (cells_slots all.old) (cells_slots all.new) (OnLine to.first to.step count) }
{
    for j in 0..count {
        put_cell(all, base, to.first + j * to.step, item);
    }
}

impl<T: Elem + Drop> Win<T> {
    /// Writes one cell along the line of an axis through a point.
    pub fn fill_line(&mut self, axis: usize, at: &Shape, cell: T)
        requires axis { axis < length self.old.shape }
        requires at { IsPoint self.old.shape at.now }
        ensures place { Cut self.old self.new self.old.low self.old.shape }
        ensures cells { (j : ℕ) → j < get_or self.old.shape axis 0 → cell_at self.new (slice_set at.now axis j) ≡ Some cell }
        ensures others { (cs : List ℕ) → IsPoint self.old.whole cs → ((j : ℕ) → j < get_or self.old.shape axis 0 → ¬ (cs ≡ plus self.old.low (slice_set at.now axis j))) → held self.new cs ≡ held self.old cs }
    {
        let count = self.shape.as_slice()[axis] as usize;
        let to = self.places(axis, at);
        let base = self.base;
        fill_places(&mut self.cells, base, to, count, cell);
    }
}

/// Writes results along the line of a window through a point. Each is what a function gives of the result before it, the first of `start`, and of the cells at its position of two views of one line each.
pub fn scan_line<'v, A: Elem + Drop, B: Elem + Drop, T: Elem + Drop, F: Fn(T, A, B) -> T + Drop>(
    f: F,
    start: T,
    a: &View<'v, A>,
    b: &View<'v, B>,
    axis: usize,
    at: &Shape,
    out: &mut Win<T>,
)
    requires callable { F.IsAlwaysCallable f }
    requires axis { axis < length out.old.shape }
    requires at { IsPoint out.old.shape at.now }
    requires lines { IsLine a.now.shape axis (get_or out.old.shape axis 0) × IsLine b.now.shape axis (get_or out.old.shape axis 0) }
    ensures place { Cut out.old out.new out.old.low out.old.shape }
    ensures cells { (j : ℕ) → j < get_or out.old.shape axis 0 → Follows (F.post f) (prior (Some start) (λ i. cell_at out.new (slice_set at.now axis i)) j) (shown a.now (slice_set (zeros a.now.shape) axis j)) (shown b.now (slice_set (zeros b.now.shape) axis j)) (cell_at out.new (slice_set at.now axis j)) }
    ensures others { (cs : List ℕ) → IsPoint out.old.whole cs → ((j : ℕ) → j < get_or out.old.shape axis 0 → ¬ (cs ≡ plus out.old.low (slice_set at.now axis j))) → held out.new cs ≡ held out.old cs }
{
    let count = out.shape.as_slice()[axis] as usize;
    let to = out.places(axis, at);
    let from_a = a.places(axis);
    let from_b = b.places(axis);
    let base = out.base;
    scan_places(
        &f,
        start,
        a,
        from_a,
        b,
        from_b,
        &mut out.cells,
        base,
        to,
        count,
    );
}
