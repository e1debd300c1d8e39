//! The masks of results. Where no operand has a missing cell, and the window had none, no byte is touched.
ghost use Rattle.std.specs.Prelude.{◌≡◌, ℕ, List, Some, max};
ghost use Rattle.xr_types.specs.Points.{IsPoint};
ghost use Rattle.strided_block.specs.Views.{KeptOutside, shown, cell_at};
ghost use Rattle.strided_block.specs.Typed.{box_of};
ghost use Rattle.strided_block.specs.Zips.{Zips};
ghost use Rattle.elem_kernel.specs.Masks.{Joins, Keeps, Picks, ChoiceHides, first_at_zero};
ghost use Rattle.elem_kernel.specs.Pairs.{Maps, Pairs};

use crate::pairs::{map_cells, zip_pairs};
use crate::picks::pick_cells;
use strided_block::{CellView, CellWin, View, Win, zip_cells};

fn join_bytes<'v>(a: &View<'v, u8>, b: &View<'v, u8>, out: &mut Win<u8>)
    requires { (a.now.shape ≡ out.old.shape) × (b.now.shape ≡ out.old.shape) }
    ensures place { box_of out.new ≡ box_of out.old }
    ensures bytes { (p : List ℕ) → IsPoint out.old.shape p → Pairs Joins (shown a.now p) (shown b.now p) (cell_at out.new p) }
    ensures others { KeptOutside out.old out.new }
{
    zip_pairs(
        |x: u8, y: u8| -> u8
            ensures { result ≡ max x y }
        { x.max(y) },
        a,
        b,
        out,
    );
}

fn copy_bytes<'v>(a: &View<'v, u8>, out: &mut Win<u8>)
    requires { a.now.shape ≡ out.old.shape }
    ensures place { box_of out.new ≡ box_of out.old }
    ensures bytes { (p : List ℕ) → IsPoint out.old.shape p → Maps Keeps (shown a.now p) (cell_at out.new p) }
    ensures others { KeptOutside out.old out.new }
{
    map_cells(
        |x: u8| -> u8
            ensures { result ≡ x }
        { x },
        a,
        out,
    );
}

// The byte of a choice's mask joined with that of the chosen cell.
#[tactic(auto, using(crate::proofs::Made::taken))]
fn choice_hides(c: u8, x: u8, y: u8, m: u8) -> u8
    ensures { result ≡ max m (first_at_zero c y x) }
{
    if c == 0 { m.max(y) } else { m.max(x) }
}

fn choose_bytes<'v>(
    c: &View<'v, u8>,
    a: &View<'v, u8>,
    b: &View<'v, u8>,
    m: &View<'v, u8>,
    out: &mut Win<u8>,
)
    requires first { (c.now.shape ≡ out.old.shape) × (a.now.shape ≡ out.old.shape) }
    requires last { (b.now.shape ≡ out.old.shape) × (m.now.shape ≡ out.old.shape) }
    ensures place { box_of out.new ≡ box_of out.old }
    ensures bytes { (p : List ℕ) → IsPoint out.old.shape p → Zips ChoiceHides (shown c.now p) (shown a.now p) (shown b.now p) (shown m.now p) (cell_at out.new p) }
    ensures others { KeptOutside out.old out.new }
{
    zip_cells(
        |c: u8, x: u8, y: u8, m: u8| -> u8
            ensures { result ≡ max m (first_at_zero c y x) }
        { choice_hides(c, x, y, m) },
        c,
        a,
        b,
        m,
        out,
    );
}

/// Shows all cells.
pub(crate) fn show_all(out: &mut CellWin)
    ensures cells { out.new.cells ≡ out.old.cells }
    ensures place { box_of out.new.mask ≡ box_of out.old.mask }
    ensures bytes { (p : List ℕ) → IsPoint out.old.mask.shape p → cell_at out.new.mask p ≡ Some 0 }
    ensures others { KeptOutside out.old.mask out.new.mask }
{
    if out.masked {
        out.mask.fill(0);
        out.masked = false;
    }
}

/// Hides the cells that are hidden in one of two views.
pub(crate) fn join_masks<'v>(a: &CellView<'v>, b: &CellView<'v>, out: &mut CellWin)
    requires { (a.now.mask.shape ≡ out.old.mask.shape) × (b.now.mask.shape ≡ out.old.mask.shape) }
    ensures cells { out.new.cells ≡ out.old.cells }
    ensures place { box_of out.new.mask ≡ box_of out.old.mask }
    ensures bytes { (p : List ℕ) → IsPoint out.old.mask.shape p → Pairs Joins (shown a.now.mask p) (shown b.now.mask p) (cell_at out.new.mask p) }
    ensures others { KeptOutside out.old.mask out.new.mask }
{
    if a.masked || b.masked {
        out.masked = true;
        join_bytes(&a.mask, &b.mask, &mut out.mask);
    } else {
        show_all(out);
    }
}

/// Hides the cells that are hidden in a view.
pub(crate) fn copy_mask<'v>(a: &CellView<'v>, out: &mut CellWin)
    requires { a.now.mask.shape ≡ out.old.mask.shape }
    ensures cells { out.new.cells ≡ out.old.cells }
    ensures place { box_of out.new.mask ≡ box_of out.old.mask }
    ensures bytes { (p : List ℕ) → IsPoint out.old.mask.shape p → Maps Keeps (shown a.now.mask p) (cell_at out.new.mask p) }
    ensures others { KeptOutside out.old.mask out.new.mask }
{
    if a.masked {
        out.masked = true;
        copy_bytes(&a.mask, &mut out.mask);
    } else {
        show_all(out);
    }
}

/// Hides the cells that are hidden in both views, as the mask of the first where its byte is 0, else of the second.
pub(crate) fn pick_masks<'v>(a: &CellView<'v>, b: &CellView<'v>, out: &mut CellWin)
    requires { (a.now.mask.shape ≡ out.old.mask.shape) × (b.now.mask.shape ≡ out.old.mask.shape) }
    ensures cells { out.new.cells ≡ out.old.cells }
    ensures place { box_of out.new.mask ≡ box_of out.old.mask }
    ensures bytes { (p : List ℕ) → IsPoint out.old.mask.shape p → Zips Picks (shown a.now.mask p) (shown b.now.mask p) (shown a.now.mask p) (shown a.now.mask p) (cell_at out.new.mask p) }
    ensures others { KeptOutside out.old.mask out.new.mask }
{
    out.masked = true;
    pick_cells(&a.mask, &b.mask, &a.mask, &mut out.mask);
}

/// Hides the cells whose choice is hidden, or whose chosen cell is.
pub(crate) fn choose_masks<'v>(
    cond: &CellView<'v>,
    by: &View<'v, u8>,
    a: &CellView<'v>,
    b: &CellView<'v>,
    out: &mut CellWin,
)
    requires by { by.now.shape ≡ out.old.mask.shape }
    requires shapes { (cond.now.mask.shape ≡ out.old.mask.shape) × (a.now.mask.shape ≡ out.old.mask.shape) × (b.now.mask.shape ≡ out.old.mask.shape) }
    ensures cells { out.new.cells ≡ out.old.cells }
    ensures place { box_of out.new.mask ≡ box_of out.old.mask }
    ensures bytes { (p : List ℕ) → IsPoint out.old.mask.shape p → (c : ℕ) → shown by.now p ≡ Some c → Zips ChoiceHides (Some c) (shown a.now.mask p) (shown b.now.mask p) (shown cond.now.mask p) (cell_at out.new.mask p) }
    ensures others { KeptOutside out.old.mask out.new.mask }
{
    if cond.masked || (a.masked || b.masked) {
        out.masked = true;
        choose_bytes(by, &a.mask, &b.mask, &cond.mask, &mut out.mask);
    } else {
        show_all(out);
    }
}
