//! `isnull` and `notnull`.
ghost use Rattle.std.specs.Prelude.{◌≡◌, ℕ, List, Some};
ghost use Rattle.xr_types.specs.declared.kind.DType.TheVariants.{Bool};
ghost use Rattle.xr_types.specs.Points.{IsPoint};
ghost use Rattle.xr_types.specs.declared.operation.OpKind.TheVariants.{IsNull, NotNull};
ghost use Rattle.strided_block.specs.Boxes.{plus};
ghost use Rattle.strided_block.specs.Views.{Cut, KeptOutside, shown, cell_at};
ghost use Rattle.strided_block.specs.Typed.{truth, view_shape, number_shown, win_kind, win_box, number_held};
ghost use Rattle.elem_kernel.specs.Conditions.{IsNullTest};
ghost use Rattle.elem_kernel.specs.Masks.{TellsMissing};
ghost use Rattle.elem_kernel.specs.Pairs.{Pairs};

use crate::pairs::zip_pairs;
use strided_block::{TypedView, TypedWin, View, Win};
use xr_types::{Elem, OpKind};

// Whether a cell is missing, by the byte of its mask, as a truth value.
#[tactic(auto, using(crate::proofs::Made::missing_told))]
fn is_hidden(mask: u8) -> u8
    ensures { TellsMissing IsNull mask result }
{
    if mask == 0 { 0 } else { 1 }
}

// Whether a cell is there, by the byte of its mask, as a truth value.
#[tactic(auto, using(crate::proofs::Made::missing_told))]
fn is_shown(mask: u8) -> u8
    ensures { TellsMissing NotNull mask result }
{
    if mask == 0 { 1 } else { 0 }
}

// Writes whether the cells of a view are missing, or whether they are there. The cells themselves are not read.
fn tell_cells<'v, T: Elem + Drop>(
    op: OpKind,
    a: &View<'v, T>,
    mask: &View<'v, u8>,
    out: &mut Win<u8>,
)
    requires op { IsNullTest op }
    requires shapes { (a.now.shape ≡ out.old.shape) × (mask.now.shape ≡ out.old.shape) }
    ensures place { Cut out.old out.new out.old.low out.old.shape }
    ensures cells { (p : List ℕ) → IsPoint out.old.shape p → Pairs (λ x m z. TellsMissing op m z) (shown a.now p) (shown mask.now p) (cell_at out.new p) }
    ensures others { KeptOutside out.old out.new }
{
    match op {
        OpKind::IsNull => zip_pairs(
            |_x: T, m: u8| -> u8
                ensures { TellsMissing IsNull m result }
            { is_hidden(m) },
            a,
            mask,
            out,
        ),
        OpKind::NotNull => zip_pairs(
            |_x: T, m: u8| -> u8
                ensures { TellsMissing NotNull m result }
            { is_shown(m) },
            a,
            mask,
            out,
        ),
        _ => unreachable!(),
    }
}

// Writes whether the cells of a typed view are missing, or whether they are there.
fn tell_numbers<'v>(op: OpKind, a: &TypedView<'v>, mask: &View<'v, u8>, out: &mut Win<u8>)
    requires op { IsNullTest op }
    requires shapes { (view_shape a.now ≡ out.old.shape) × (mask.now.shape ≡ out.old.shape) }
    ensures place { Cut out.old out.new out.old.low out.old.shape }
    ensures cells { (p : List ℕ) → IsPoint out.old.shape p → Pairs (λ n m z. TellsMissing op m z) (number_shown a.now p) (shown mask.now p) (cell_at out.new p) }
    ensures others { KeptOutside out.old out.new }
{
    match a {
        TypedView::Bool(a) => tell_cells(op, a, mask, out),
        TypedView::Char(a) => tell_cells(op, a, mask, out),
        TypedView::Int8(a) => tell_cells(op, a, mask, out),
        TypedView::Int16(a) => tell_cells(op, a, mask, out),
        TypedView::Int32(a) => tell_cells(op, a, mask, out),
        TypedView::Int64(a) => tell_cells(op, a, mask, out),
        TypedView::UInt8(a) => tell_cells(op, a, mask, out),
        TypedView::UInt16(a) => tell_cells(op, a, mask, out),
        TypedView::UInt32(a) => tell_cells(op, a, mask, out),
        TypedView::UInt64(a) => tell_cells(op, a, mask, out),
    }
}

/// Writes whether the cells of a typed view are missing, or whether they are there, into a window of truth values.
pub(crate) fn tell_window<'v>(
    op: OpKind,
    a: &TypedView<'v>,
    mask: &View<'v, u8>,
    out: &mut TypedWin,
)
    requires op { IsNullTest op }
    requires kind { win_kind out.old ≡ Bool }
    requires shapes { (view_shape a.now ≡ (win_box out.old).shape) × (mask.now.shape ≡ (win_box out.old).shape) }
    ensures kind { win_kind out.new ≡ Bool }
    ensures place { win_box out.new ≡ win_box out.old }
    ensures cells { (p : List ℕ) → IsPoint (win_box out.old).shape p → Pairs (λ n m r. (z : ℕ) × (r ≡ truth z) × TellsMissing op m z) (number_shown a.now p) (shown mask.now p) (number_held out.new (plus (win_box out.old).low p)) }
    ensures others { (cs : List ℕ) → IsPoint (win_box out.old).whole cs → ((p : List ℕ) → IsPoint (win_box out.old).shape p → ¬ (cs ≡ plus (win_box out.old).low p)) → number_held out.new cs ≡ number_held out.old cs }
{
    match out {
        TypedWin::Bool(w) => tell_numbers(op, a, mask, w),
        _ => unreachable!(),
    }
}
