//! Cells that are taken from one view or from another.
ghost use Rattle.std.specs.Prelude.{◌≡◌, ℕ, List};
ghost use Rattle.xr_types.specs.Points.{IsPoint};
ghost use Rattle.strided_block.specs.Boxes.{plus};
ghost use Rattle.strided_block.specs.Views.{Cut, KeptOutside, shown, cell_at};
ghost use Rattle.strided_block.specs.Typed.{view_kind, view_shape, number_shown, win_kind, win_box, number_held};
ghost use Rattle.strided_block.specs.Zips.{Zips};
ghost use Rattle.elem_kernel.specs.Masks.{Picks, first_at_zero};

use crate::typed::{bools, bytes, chars, ints, longs, shorts, ubytes, uints, ulongs, ushorts};
use strided_block::{TypedView, TypedWin, View, Win, zip_cells};
use xr_types::Elem;

/// The first where the byte is 0, else the second.
#[tactic(auto, using(crate::proofs::Made::taken))]
pub fn first_or_second<T: Copy + Drop>(x: T, y: T, by: u8) -> T
    ensures { result ≡ first_at_zero by x y }
{
    if by == 0 { x } else { y }
}

/// Writes the cells of the first view where the byte of `by` is 0, else those of the second.
pub(crate) fn pick_cells<'v, T: Elem + Drop>(
    first: &View<'v, T>,
    second: &View<'v, T>,
    by: &View<'v, u8>,
    out: &mut Win<T>,
)
    requires shapes { (first.now.shape ≡ out.old.shape) × (second.now.shape ≡ out.old.shape) × (by.now.shape ≡ out.old.shape) }
    ensures place { Cut out.old out.new out.old.low out.old.shape }
    ensures cells { (p : List ℕ) → IsPoint out.old.shape p → Zips Picks (shown first.now p) (shown second.now p) (shown by.now p) (shown by.now p) (cell_at out.new p) }
    ensures others { KeptOutside out.old out.new }
{
    zip_cells(
        |x: T, y: T, by: u8, _again: u8| -> T
            ensures { result ≡ first_at_zero by x y }
        { first_or_second(x, y, by) },
        first,
        second,
        by,
        by,
        out,
    );
}

/// Writes the numbers of the first view where the byte of `by` is 0, else those of the second.
pub(crate) fn pick_numbers<'v>(
    first: &TypedView<'v>,
    second: &TypedView<'v>,
    by: &View<'v, u8>,
    out: &mut TypedWin,
)
    requires kinds { (view_kind first.now ≡ win_kind out.old) × (view_kind second.now ≡ win_kind out.old) }
    requires shapes { (view_shape first.now ≡ (win_box out.old).shape) × (view_shape second.now ≡ (win_box out.old).shape) × (by.now.shape ≡ (win_box out.old).shape) }
    ensures kind { win_kind out.new ≡ win_kind out.old }
    ensures place { win_box out.new ≡ win_box out.old }
    ensures cells { (p : List ℕ) → IsPoint (win_box out.old).shape p → Zips Picks (number_shown first.now p) (number_shown second.now p) (shown by.now p) (shown by.now p) (number_held out.new (plus (win_box out.old).low p)) }
    ensures others { (cs : List ℕ) → IsPoint (win_box out.old).whole cs → ((p : List ℕ) → IsPoint (win_box out.old).shape p → ¬ (cs ≡ plus (win_box out.old).low p)) → number_held out.new cs ≡ number_held out.old cs }
{
    match out {
        TypedWin::Bool(w) => pick_cells(bools(first), bools(second), by, w),
        TypedWin::Char(w) => pick_cells(chars(first), chars(second), by, w),
        TypedWin::Int8(w) => pick_cells(bytes(first), bytes(second), by, w),
        TypedWin::Int16(w) => pick_cells(shorts(first), shorts(second), by, w),
        TypedWin::Int32(w) => pick_cells(ints(first), ints(second), by, w),
        TypedWin::Int64(w) => pick_cells(longs(first), longs(second), by, w),
        TypedWin::UInt8(w) => pick_cells(ubytes(first), ubytes(second), by, w),
        TypedWin::UInt16(w) => pick_cells(ushorts(first), ushorts(second), by, w),
        TypedWin::UInt32(w) => pick_cells(uints(first), uints(second), by, w),
        TypedWin::UInt64(w) => pick_cells(ulongs(first), ulongs(second), by, w),
    }
}
