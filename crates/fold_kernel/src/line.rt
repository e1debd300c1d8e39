//! Running sums along a line of cells.
ghost use Rattle.std.specs.Prelude.{◌≡◌, ◌<◌, ◌+◌, ◌+ℤ◌, ◌++◌, ℕ, ℤ, List, Option, Some, length, take, get_or, option_map, pos, slice_set};
ghost use Rattle.xr_types.specs.Kinds.{wrap_to};
ghost use Rattle.xr_arrays.specs.Folds.{fold_of, numbered, total_kind};
ghost use Rattle.xr_types.specs.Points.{IsPoint};
ghost use Rattle.xr_types.specs.declared.operation.FoldKind.TheVariants.{Sum};
ghost use Rattle.strided_block.specs.Boxes.{plus, zeros};
ghost use Rattle.strided_block.specs.Cells.{cell_shown, cell_held, cell_in, SameWindow};
ghost use Rattle.strided_block.specs.Lines.{IsLine};
ghost use Rattle.strided_block.specs.Typed.{truth, unless_hidden, view_kind, view_shape, number_shown, win_kind, win_box, number_held, box_of};
ghost use Rattle.strided_block.specs.Views.{Cut, shown, held, cell_at};
ghost use Rattle.fold_kernel.specs.Lines.{line_cells, with_number, SumsUp};
ghost use Rattle.fold_kernel.specs.Partials.{StandsFor};

use crate::partial::Partial;
use crate::running::more;
use strided_block::{CellView, CellWin, TypedView, TypedWin, View, Win, scan_line};
use xr_types::{Elem, Shape};

// The sum with the number of a cell, unless its byte in the mask isn't 0.
#[tactic(auto, using(crate::proofs::Lines::byte_shows))]
fn with_cell<T: Elem, S: Elem>(total: S, cell: T, byte: u8) -> S
    ensures { S.number result ≡ with_number S.kind (S.number total) (unless_hidden (Some byte) (Some (T.number cell))) }
{
    if byte == 0 {
        more(total, Some(cell))
    } else {
        total
    }
}

// The number of a truth value, 1 for a byte that isn't 0.
fn truth_number(cell: u8) -> i128
    ensures { result ≡ truth cell }
{
    i128::from(cell != 0)
}

// The sum with a truth value.
#[tactic(auto, using(crate::proofs::Totals::kind_bounds))]
fn plus_truth<S: Elem>(total: S, cell: u8) -> S
    ensures { S.number result ≡ wrap_to S.kind (S.number total +ℤ truth cell) }
{
    S::wrap_from(total.widen() + truth_number(cell))
}

// The sum with a truth value, unless its byte in the mask isn't 0.
#[tactic(auto, using(crate::proofs::Lines::byte_shows))]
fn with_truth<S: Elem>(total: S, cell: u8, byte: u8) -> S
    ensures { S.number result ≡ with_number S.kind (S.number total) (unless_hidden (Some byte) (Some (truth cell))) }
{
    if byte == 0 {
        plus_truth(total, cell)
    } else {
        total
    }
}

fn scan_cells<'v, T: Elem + Drop, S: Elem + Drop>(
    start: S,
    a: &View<'v, T>,
    mask: &View<'v, u8>,
    axis: usize,
    at: &Shape,
    out: &mut Win<S>,
)
    requires axis { axis < length out.old.shape }
    requires at { IsPoint out.old.shape at.now }
    requires line { IsLine mask.now.shape axis (get_or out.old.shape axis 0) }
    requires same { mask.now.shape ≡ a.now.shape }
    ensures place { Cut out.old out.new out.old.low out.old.shape }
    ensures sums { SumsUp S.kind (S.number start) (line_cells (λ p. unless_hidden (shown mask.now p) (option_map T.number (shown a.now p))) mask.now.shape axis) (get_or out.old.shape axis 0) (λ j. option_map S.number (cell_at out.new (slice_set at.now axis j))) }
    ensures others { (cs : List ℕ) → IsPoint out.old.whole cs → ((j : ℕ) → j < get_or out.old.shape axis 0 → ¬ (cs ≡ plus out.old.low (slice_set at.now axis j))) → held out.new cs ≡ held out.old cs }
{
    scan_line(
        |total: S, cell: T, byte: u8| -> S
            ensures { S.number result ≡ with_number S.kind (S.number total) (unless_hidden (Some byte) (Some (T.number cell))) }
        { with_cell(total, cell, byte) },
        start,
        a,
        mask,
        axis,
        at,
        out,
    );
}

fn scan_truths<'v, S: Elem + Drop>(
    start: S,
    a: &View<'v, u8>,
    mask: &View<'v, u8>,
    axis: usize,
    at: &Shape,
    out: &mut Win<S>,
)
    requires axis { axis < length out.old.shape }
    requires at { IsPoint out.old.shape at.now }
    requires line { IsLine mask.now.shape axis (get_or out.old.shape axis 0) }
    requires same { mask.now.shape ≡ a.now.shape }
    ensures place { Cut out.old out.new out.old.low out.old.shape }
    ensures sums { SumsUp S.kind (S.number start) (line_cells (λ p. unless_hidden (shown mask.now p) (option_map truth (shown a.now p))) mask.now.shape axis) (get_or out.old.shape axis 0) (λ j. option_map S.number (cell_at out.new (slice_set at.now axis j))) }
    ensures others { (cs : List ℕ) → IsPoint out.old.whole cs → ((j : ℕ) → j < get_or out.old.shape axis 0 → ¬ (cs ≡ plus out.old.low (slice_set at.now axis j))) → held out.new cs ≡ held out.old cs }
{
    scan_line(
        |total: S, cell: u8, byte: u8| -> S
            ensures { S.number result ≡ with_number S.kind (S.number total) (unless_hidden (Some byte) (Some (truth cell))) }
        { with_truth(total, cell, byte) },
        start,
        a,
        mask,
        axis,
        at,
        out,
    );
}

// Writes the running sums of the numbers of a line.
fn scan_numbers<'v, S: Elem + Drop>(
    start: S,
    a: &TypedView<'v>,
    mask: &View<'v, u8>,
    axis: usize,
    at: &Shape,
    out: &mut Win<S>,
)
    requires axis { axis < length out.old.shape }
    requires at { IsPoint out.old.shape at.now }
    requires line { IsLine mask.now.shape axis (get_or out.old.shape axis 0) }
    requires same { mask.now.shape ≡ view_shape a.now }
    ensures place { Cut out.old out.new out.old.low out.old.shape }
    ensures sums { SumsUp S.kind (S.number start) (line_cells (λ p. unless_hidden (shown mask.now p) (number_shown a.now p)) mask.now.shape axis) (get_or out.old.shape axis 0) (λ j. option_map S.number (cell_at out.new (slice_set at.now axis j))) }
    ensures others { (cs : List ℕ) → IsPoint out.old.whole cs → ((j : ℕ) → j < get_or out.old.shape axis 0 → ¬ (cs ≡ plus out.old.low (slice_set at.now axis j))) → held out.new cs ≡ held out.old cs }
{
    match a {
        TypedView::Bool(v) => scan_truths(start, v, mask, axis, at, out),
        TypedView::Char(v) => scan_cells(start, v, mask, axis, at, out),
        TypedView::Int8(v) => scan_cells(start, v, mask, axis, at, out),
        TypedView::Int16(v) => scan_cells(start, v, mask, axis, at, out),
        TypedView::Int32(v) => scan_cells(start, v, mask, axis, at, out),
        TypedView::Int64(v) => scan_cells(start, v, mask, axis, at, out),
        TypedView::UInt8(v) => scan_cells(start, v, mask, axis, at, out),
        TypedView::UInt16(v) => scan_cells(start, v, mask, axis, at, out),
        TypedView::UInt32(v) => scan_cells(start, v, mask, axis, at, out),
        TypedView::UInt64(v) => scan_cells(start, v, mask, axis, at, out),
    }
}

fn scan_into<'v>(
    before: &Partial,
    a: &TypedView<'v>,
    mask: &View<'v, u8>,
    axis: usize,
    at: &Shape,
    out: &mut TypedWin,
)
    requires sum { before.now.kind ≡ Sum }
    requires kind { win_kind out.old ≡ total_kind before.now.of }
    requires axis { axis < length (win_box out.old).shape }
    requires at { IsPoint (win_box out.old).shape at.now }
    requires line { IsLine mask.now.shape axis (get_or (win_box out.old).shape axis 0) }
    requires same { mask.now.shape ≡ view_shape a.now }
    ensures kind { win_kind out.new ≡ win_kind out.old }
    ensures place { win_box out.new ≡ win_box out.old }
    ensures sums { (start : ℤ) → Some start ≡ before.now.value → SumsUp (total_kind before.now.of) start (line_cells (λ p. unless_hidden (shown mask.now p) (number_shown a.now p)) mask.now.shape axis) (get_or (win_box out.old).shape axis 0) (λ j. number_held out.new (plus (win_box out.old).low (slice_set at.now axis j))) }
    ensures others { (cs : List ℕ) → IsPoint (win_box out.old).whole cs → ((j : ℕ) → j < get_or (win_box out.old).shape axis 0 → ¬ (cs ≡ plus (win_box out.old).low (slice_set at.now axis j))) → number_held out.new cs ≡ number_held out.old cs }
{
    match out {
        TypedWin::Int64(sums) => scan_numbers(before.total(), a, mask, axis, at, sums),
        TypedWin::UInt64(sums) => scan_numbers(before.total(), a, mask, axis, at, sums),
        _ => unreachable!(),
    }
}

// Shows the cells along a line.
fn show_line(axis: usize, at: &Shape, out: &mut CellWin)
    requires axis { axis < length out.old.mask.shape }
    requires at { IsPoint out.old.mask.shape at.now }
    ensures cells { out.new.cells ≡ out.old.cells }
    ensures place { box_of out.new.mask ≡ box_of out.old.mask }
    ensures bytes { (j : ℕ) → j < get_or out.old.mask.shape axis 0 → cell_at out.new.mask (slice_set at.now axis j) ≡ Some 0 }
    ensures others { (cs : List ℕ) → IsPoint out.old.mask.whole cs → ((j : ℕ) → j < get_or out.old.mask.shape axis 0 → ¬ (cs ≡ plus out.old.mask.low (slice_set at.now axis j))) → held out.new.mask cs ≡ held out.old.mask cs }
{
    if out.masked {
        out.mask.fill_line(axis, at, 0);
    }
}

/// Writes along the line of `out` through a point the sums of the cells of the line `a` up to each position, those that `before` stands for among them. A missing cell adds nothing, and no sum is missing. Nothing else changes.
pub fn scan<'v>(before: Partial, a: &CellView<'v>, axis: usize, at: &Shape, out: &mut CellWin)
    requires sum { before.kind ≡ Sum }
    requires of { before.of ≡ view_kind a.now.cells }
    requires kind { win_kind out.old.cells ≡ total_kind before.of }
    requires axis { axis < length out.old.mask.shape }
    requires at { IsPoint out.old.mask.shape at.now }
    requires line { IsLine a.now.mask.shape axis (get_or out.old.mask.shape axis 0) }
    ensures place { SameWindow out.old out.new }
    ensures sums { (b : List (ℕ × Option ℤ)) (first j : ℕ) → StandsFor before b → j < get_or out.old.mask.shape axis 0 → cell_in out.new (slice_set at.now axis j) ≡ fold_of Sum before.of (b ++ numbered first (take (j + 1) (line_cells (cell_shown a.now) a.now.mask.shape axis))) }
    ensures others { (cs : List ℕ) → IsPoint out.old.mask.whole cs → ((j : ℕ) → j < get_or out.old.mask.shape axis 0 → ¬ (cs ≡ plus out.old.mask.low (slice_set at.now axis j))) → cell_held out.new cs ≡ cell_held out.old cs }
{
    scan_into(&before, &a.cells, &a.mask, axis, at, &mut out.cells);
    show_line(axis, at, out);
}
