//! A window whose cells are made from those of views, a run at a time.
ghost use Rattle.std.specs.Prelude.{◌≡◌, ◌+◌, ◌*◌, ◌<◌, ◌≤◌, ◌^◌, ◌++◌, ◌⊎◌, ◌&&◌, ℕ, List, None, Some, true, length, get_or, map, take, drop};
ghost use Rattle.xr_types.specs.Points.{size, place, IsPoint};
ghost use Rattle.strided_block.specs.Deeds.{base_at, cells_at, cells_slots};
ghost use Rattle.strided_block.specs.Parts.{IsRun, Changes, InRun, AtPoint};
ghost use Rattle.strided_block.specs.Steps.{spot};
ghost use Rattle.strided_block.specs.Views.{Cut, KeptOutside, IsLaid, shown, together, cell_at, stepped_sight, window_sight};
ghost use Rattle.strided_block.specs.Zips.{Zips, point_at};

use crate::memory::{Origin, Share};
use crate::place::{points, spot_of, steps_of};
use crate::runs::fill_run;
use crate::view::View;
use crate::win::Win;
use xr_types::{Elem, Shape};

// Writes what f gives at the cells of four runs, from a place on.
fn zip_run<
    A: Copy + Drop,
    B: Copy + Drop,
    C: Copy + Drop,
    D: Copy + Drop,
    T: Copy + Drop,
    F: Fn(A, B, C, D) -> T,
>(f: &F, a: &[A], b: &[B], c: &[C], d: &[D], all: &mut [T], at: usize)
    requires callable { F.IsAlwaysCallable f.now }
    requires lengths { (length b.now ≡ length a.now) × (length c.now ≡ length a.now) × (length d.now ≡ length a.now) }
    requires room { at + length a.now ≤ length all.old }
    ensures cells { (i : ℕ) (x : A) (y : B) (u : C) (v : D) (z : T) → i < length a.now → F.post f.now (get_or a.now i x) (get_or b.now i y) (get_or c.now i u) (get_or d.now i v) (get_or all.new (at + i) z) }
    ensures others { (k : ℕ) (z : T) → (k < at) ⊎ (at + length a.now ≤ k) → get_or all.new k z ≡ get_or all.old k z }
{
    for i in 0..a.len() {
        all[at + i] = f(a[i], b[i], c[i], d[i]);
    }
}

// The point at a place in row order.
fn point_of(sizes: &[u64], at: u64) -> Shape
    requires inside { at < size sizes.now }
    requires small { size sizes.now < 2 ^ 63 }
    requires short { length sizes.now ≤ 16 }
    ensures value { result ≡ point_at sizes.now at }
    ensures long { length result ≡ length sizes.now }
{
    let mut point = Shape::new();
    let mut left = at;
    for axis in 0..sizes.len() {
        let step = points(sizes.split_at(axis + 1).1);
        point.push(left / step);
        left %= step;
    }
    point
}

// Whether the cells of the points that agree before an axis lie side by side in all of the views and in a window.
fn all_together<'v, A: Elem, B: Elem, C: Elem, D: Elem, T>(
    axis: usize,
    a: &View<'v, A>,
    b: &View<'v, B>,
    c: &View<'v, C>,
    d: &View<'v, D>,
    out: &Win<T>,
) -> bool
    ensures { result ≡ ((together a.now axis && together b.now axis) && (together c.now axis && together d.now axis)) && together (window_sight out.now) axis }
{
    let first = a.lies_together(axis) && b.lies_together(axis);
    let last = c.lies_together(axis) && d.lies_together(axis);
    let all = first && last;
    all && out.lies_together(axis)
}

// The first axis from which on the cells of all of the views and of a window lie side by side.
fn merged<'v, A: Elem, B: Elem, C: Elem, D: Elem, T>(
    rank: usize,
    a: &View<'v, A>,
    b: &View<'v, B>,
    c: &View<'v, C>,
    d: &View<'v, D>,
    out: &Win<T>,
) -> usize
    requires views { (length a.now.shape ≡ rank) × (length b.now.shape ≡ rank) × (length c.now.shape ≡ rank) × (length d.now.shape ≡ rank) }
    requires out { length out.now.shape ≡ rank }
    ensures within { result ≤ rank }
    ensures first { (together a.now result ≡ true) × (together b.now result ≡ true) }
    ensures last { (together c.now result ≡ true) × (together d.now result ≡ true) }
    ensures out { together (window_sight out.now) result ≡ true }
{
    for axis in 0..rank {
        if all_together(axis, a, b, c, d, out) {
            return axis;
        }
    }
    rank
}

// Writes a run of cells, from a place on.
fn zip_lead<
    'v,
    A: Elem + Drop,
    B: Elem + Drop,
    C: Elem + Drop,
    D: Elem + Drop,
    T: Elem + Drop,
    F: Fn(A, B, C, D) -> T,
>(
    f: &F,
    a: &View<'v, A>,
    b: &View<'v, B>,
    c: &View<'v, C>,
    d: &View<'v, D>,
    lead: &Shape,
    all: &mut Share<T>,
    base: Origin<T>,
    at: usize,
)
    requires callable { F.IsAlwaysCallable f.now }
    requires shapes { (b.now.shape ≡ a.now.shape) × (c.now.shape ≡ a.now.shape) × (d.now.shape ≡ a.now.shape) }
    requires lead { IsPoint (take (length lead.now) a.now.shape) lead.now }
    requires first { (together a.now (length lead.now) ≡ true) × (together b.now (length lead.now) ≡ true) }
    requires last { (together c.now (length lead.now) ≡ true) × (together d.now (length lead.now) ≡ true) }
    requires room { (base_at base ≡ cells_at all.old) × IsRun (cells_slots all.old) at (size (drop (length lead.now) a.now.shape)) }
    ensures block { cells_at all.new ≡ cells_at all.old }
    ensures others { Changes (cells_slots all.old) (cells_slots all.new) (InRun at (size (drop (length lead.now) a.now.shape))) }
    ensures cells { (q : List ℕ) → IsPoint (drop (length lead.now) a.now.shape) q → Zips (F.post f.now) (shown a.now (lead.now ++ q)) (shown b.now (lead.now ++ q)) (shown c.now (lead.now ++ q)) (shown d.now (lead.now ++ q)) (get_or (cells_slots all.new) (at + place (drop (length lead.now) a.now.shape) q) None) }
{
    let first = a.run(lead);
    zip_run(
        f,
        first,
        b.run(lead),
        c.run(lead),
        d.run(lead),
        all.run_mut(base, at, first.len()),
        0,
    );
}

// Writes all cells of a window, a run after another.
fn zip_rows<
    'v,
    A: Elem + Drop,
    B: Elem + Drop,
    C: Elem + Drop,
    D: Elem + Drop,
    T: Elem + Drop,
    F: Fn(A, B, C, D) -> T,
>(
    f: &F,
    a: &View<'v, A>,
    b: &View<'v, B>,
    c: &View<'v, C>,
    d: &View<'v, D>,
    axis: usize,
    all: &mut Share<T>,
    base: Origin<T>,
    start: u64,
    steps: &Shape,
)
    requires callable { F.IsAlwaysCallable f.now }
    requires shapes { (b.now.shape ≡ a.now.shape) × (c.now.shape ≡ a.now.shape) × (d.now.shape ≡ a.now.shape) }
    requires axis { (axis ≤ length a.now.shape) × (length a.now.shape ≤ 16) }
    requires small { size a.now.shape < 2 ^ 63 }
    requires first { (together a.now axis ≡ true) × (together b.now axis ≡ true) }
    requires last { (together c.now axis ≡ true) × (together d.now axis ≡ true) }
    requires base { base_at base ≡ cells_at all.old }
    requires laid { IsLaid (cells_slots all.old) start steps.now a.now.shape × (together (stepped_sight (cells_slots all.old) start steps.now a.now.shape) axis ≡ true) }
    ensures block { cells_at all.new ≡ cells_at all.old }
    ensures others { Changes (cells_slots all.old) (cells_slots all.new) (AtPoint start steps.now a.now.shape) }
    ensures cells { (p : List ℕ) → IsPoint a.now.shape p → Zips (F.post f.now) (shown a.now p) (shown b.now p) (shown c.now p) (shown d.now p) (get_or (cells_slots all.new) (spot start steps.now p) None) }
{
    let (outer, inner) = a.shape().as_slice().split_at(axis);
    if points(inner) == 0 {
        return;
    }
    let rows = points(outer);
    for row in 0..rows {
        let lead = point_of(outer, row);
        let at = spot_of(start, steps.as_slice(), lead.as_slice()) as usize;
        zip_lead(f, a, b, c, d, &lead, all, base, at);
    }
}

/// Writes one cell at all points of a window, a run after another.
pub(crate) fn fill_rows<T: Copy>(
    all: &mut Share<T>,
    base: Origin<T>,
    start: u64,
    steps: &Shape,
    shape: &Shape,
    axis: usize,
    item: T,
)
    requires axis { axis ≤ length shape.now }
    requires small { size shape.now < 2 ^ 63 }
    requires base { base_at base ≡ cells_at all.old }
    requires laid { IsLaid (cells_slots all.old) start steps.now shape.now × (together (stepped_sight (cells_slots all.old) start steps.now shape.now) axis ≡ true) }
    ensures block { cells_at all.new ≡ cells_at all.old }
    ensures others { Changes (cells_slots all.old) (cells_slots all.new) (AtPoint start steps.now shape.now) }
    ensures cells { (p : List ℕ) → IsPoint shape.now p → get_or (cells_slots all.new) (spot start steps.now p) None ≡ Some item }
{
    let (outer, inner) = shape.as_slice().split_at(axis);
    let count = points(inner) as usize;
    if count == 0 {
        return;
    }
    let rows = points(outer);
    for row in 0..rows {
        let lead = point_of(outer, row);
        let at = spot_of(start, steps.as_slice(), lead.as_slice()) as usize;
        fill_run(all, base, at, count, item);
    }
}

/// Writes what a function gives of the cells of four views at each point of a window.
pub fn zip_cells<
    'v,
    A: Elem + Drop,
    B: Elem + Drop,
    C: Elem + Drop,
    D: Elem + Drop,
    T: Elem + Drop,
    F: Fn(A, B, C, D) -> T + Drop,
>(f: F, a: &View<'v, A>, b: &View<'v, B>, c: &View<'v, C>, d: &View<'v, D>, out: &mut Win<T>)
    requires callable { F.IsAlwaysCallable f }
    requires first { (a.now.shape ≡ out.old.shape) × (b.now.shape ≡ out.old.shape) }
    requires last { (c.now.shape ≡ out.old.shape) × (d.now.shape ≡ out.old.shape) }
    ensures place { Cut out.old out.new out.old.low out.old.shape }
    ensures cells { (p : List ℕ) → IsPoint out.old.shape p → Zips (F.post f) (shown a.now p) (shown b.now p) (shown c.now p) (shown d.now p) (cell_at out.new p) }
    ensures others { KeptOutside out.old out.new }
{
    let axis = merged(a.shape().len(), a, b, c, d, out);
    let base = out.base;
    let start = out.start();
    let steps = steps_of(&out.whole);
    zip_rows(&f, a, b, c, d, axis, &mut out.cells, base, start, &steps);
}
