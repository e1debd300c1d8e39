//! `== != < <= > >=` of the cells of two views.
ghost use Rattle.std.specs.Prelude.{◌≡◌, ℕ, List, Some};
ghost use Rattle.xr_types.specs.Points.{IsPoint};
ghost use Rattle.xr_arrays.specs.Elements.{elem};
ghost use Rattle.xr_types.specs.declared.operation.OpKind.TheVariants.{Equal, NotEqual, Less, LessEqual};
ghost use Rattle.strided_block.specs.Views.{Cut, KeptOutside, shown, cell_at};
ghost use Rattle.strided_block.specs.Typed.{truth, view_kind, view_shape, number_shown, win_kind, win_box, number_held};
ghost use Rattle.strided_block.specs.Boxes.{plus};
ghost use Rattle.xr_types.specs.declared.kind.DType.TheVariants.{Bool};
ghost use Rattle.elem_kernel.specs.Truths.{HoldsTruth};
ghost use Rattle.elem_kernel.specs.Conditions.{IsComparison};
ghost use Rattle.elem_kernel.specs.Pairs.{Pairs};

use crate::number::{at_most, differs, equal, less};
use crate::pairs::zip_pairs;
use crate::truths::compare_truths;
use strided_block::{TypedView, TypedWin, View, Win};
use xr_types::{Elem, OpKind};

fn equals<'v, T: Elem + Drop>(a: &View<'v, T>, b: &View<'v, T>, out: &mut Win<u8>)
    requires { (a.now.shape ≡ out.old.shape) × (b.now.shape ≡ out.old.shape) }
    ensures place { Cut out.old out.new out.old.low out.old.shape }
    ensures cells { (p : List ℕ) → IsPoint out.old.shape p → Pairs (λ x y z. Some (truth z) ≡ elem Equal T.kind (Some (T.number x)) (Some (T.number y))) (shown a.now p) (shown b.now p) (cell_at out.new p) }
    ensures others { KeptOutside out.old out.new }
{
    zip_pairs(
        |x: T, y: T| -> u8
            ensures { Some (truth result) ≡ elem Equal T.kind (Some (T.number x)) (Some (T.number y)) }
        { equal(x, y) },
        a,
        b,
        out,
    );
}

fn differences<'v, T: Elem + Drop>(a: &View<'v, T>, b: &View<'v, T>, out: &mut Win<u8>)
    requires { (a.now.shape ≡ out.old.shape) × (b.now.shape ≡ out.old.shape) }
    ensures place { Cut out.old out.new out.old.low out.old.shape }
    ensures cells { (p : List ℕ) → IsPoint out.old.shape p → Pairs (λ x y z. Some (truth z) ≡ elem NotEqual T.kind (Some (T.number x)) (Some (T.number y))) (shown a.now p) (shown b.now p) (cell_at out.new p) }
    ensures others { KeptOutside out.old out.new }
{
    zip_pairs(
        |x: T, y: T| -> u8
            ensures { Some (truth result) ≡ elem NotEqual T.kind (Some (T.number x)) (Some (T.number y)) }
        { differs(x, y) },
        a,
        b,
        out,
    );
}

fn lesses<'v, T: Elem + Drop>(a: &View<'v, T>, b: &View<'v, T>, out: &mut Win<u8>)
    requires { (a.now.shape ≡ out.old.shape) × (b.now.shape ≡ out.old.shape) }
    ensures place { Cut out.old out.new out.old.low out.old.shape }
    ensures cells { (p : List ℕ) → IsPoint out.old.shape p → Pairs (λ x y z. Some (truth z) ≡ elem Less T.kind (Some (T.number x)) (Some (T.number y))) (shown a.now p) (shown b.now p) (cell_at out.new p) }
    ensures others { KeptOutside out.old out.new }
{
    zip_pairs(
        |x: T, y: T| -> u8
            ensures { Some (truth result) ≡ elem Less T.kind (Some (T.number x)) (Some (T.number y)) }
        { less(x, y) },
        a,
        b,
        out,
    );
}

fn at_mosts<'v, T: Elem + Drop>(a: &View<'v, T>, b: &View<'v, T>, out: &mut Win<u8>)
    requires { (a.now.shape ≡ out.old.shape) × (b.now.shape ≡ out.old.shape) }
    ensures place { Cut out.old out.new out.old.low out.old.shape }
    ensures cells { (p : List ℕ) → IsPoint out.old.shape p → Pairs (λ x y z. Some (truth z) ≡ elem LessEqual T.kind (Some (T.number x)) (Some (T.number y))) (shown a.now p) (shown b.now p) (cell_at out.new p) }
    ensures others { KeptOutside out.old out.new }
{
    zip_pairs(
        |x: T, y: T| -> u8
            ensures { Some (truth result) ≡ elem LessEqual T.kind (Some (T.number x)) (Some (T.number y)) }
        { at_most(x, y) },
        a,
        b,
        out,
    );
}

/// Writes whether the comparison holds of the cells of two views, as truth values.
pub(crate) fn compare_cells<'v, T: Elem + Drop>(
    op: OpKind,
    a: &View<'v, T>,
    b: &View<'v, T>,
    out: &mut Win<u8>,
)
    requires op { IsComparison op }
    requires shapes { (a.now.shape ≡ out.old.shape) × (b.now.shape ≡ out.old.shape) }
    ensures place { Cut out.old out.new out.old.low out.old.shape }
    ensures cells { (p : List ℕ) → IsPoint out.old.shape p → Pairs (λ x y z. Some (truth z) ≡ elem op T.kind (Some (T.number x)) (Some (T.number y))) (shown a.now p) (shown b.now p) (cell_at out.new p) }
    ensures others { KeptOutside out.old out.new }
{
    match op {
        OpKind::Equal => equals(a, b, out),
        OpKind::NotEqual => differences(a, b, out),
        OpKind::Less => lesses(a, b, out),
        OpKind::LessEqual => at_mosts(a, b, out),
        OpKind::Greater => lesses(b, a, out),
        OpKind::GreaterEqual => at_mosts(b, a, out),
        _ => unreachable!(),
    }
}

/// Writes whether the comparison holds of the numbers of two views of one kind, as truth values.
pub(crate) fn compare_numbers<'v>(
    op: OpKind,
    a: &TypedView<'v>,
    b: &TypedView<'v>,
    out: &mut Win<u8>,
)
    requires op { IsComparison op }
    requires kinds { view_kind b.now ≡ view_kind a.now }
    requires shapes { (view_shape a.now ≡ out.old.shape) × (view_shape b.now ≡ out.old.shape) }
    ensures place { Cut out.old out.new out.old.low out.old.shape }
    ensures cells { (p : List ℕ) → IsPoint out.old.shape p → Pairs (λ m n z. Some (truth z) ≡ elem op (view_kind a.now) (Some m) (Some n)) (number_shown a.now p) (number_shown b.now p) (cell_at out.new p) }
    ensures others { KeptOutside out.old out.new }
{
    match (a, b) {
        (TypedView::Bool(a), TypedView::Bool(b)) => compare_truths(op, a, b, out),
        (TypedView::Char(a), TypedView::Char(b)) => compare_cells(op, a, b, out),
        (TypedView::Int8(a), TypedView::Int8(b)) => compare_cells(op, a, b, out),
        (TypedView::Int16(a), TypedView::Int16(b)) => compare_cells(op, a, b, out),
        (TypedView::Int32(a), TypedView::Int32(b)) => compare_cells(op, a, b, out),
        (TypedView::Int64(a), TypedView::Int64(b)) => compare_cells(op, a, b, out),
        (TypedView::UInt8(a), TypedView::UInt8(b)) => compare_cells(op, a, b, out),
        (TypedView::UInt16(a), TypedView::UInt16(b)) => compare_cells(op, a, b, out),
        (TypedView::UInt32(a), TypedView::UInt32(b)) => compare_cells(op, a, b, out),
        (TypedView::UInt64(a), TypedView::UInt64(b)) => compare_cells(op, a, b, out),
        _ => unreachable!(),
    }
}

/// Writes whether the comparison holds of the numbers of two views of one kind into a window of truth values.
pub(crate) fn compare_window<'v>(
    op: OpKind,
    a: &TypedView<'v>,
    b: &TypedView<'v>,
    out: &mut TypedWin,
)
    requires op { IsComparison op }
    requires kinds { (view_kind b.now ≡ view_kind a.now) × (win_kind out.old ≡ Bool) }
    requires shapes { (view_shape a.now ≡ (win_box out.old).shape) × (view_shape b.now ≡ (win_box out.old).shape) }
    ensures kind { win_kind out.new ≡ Bool }
    ensures place { win_box out.new ≡ win_box out.old }
    ensures cells { (p : List ℕ) → IsPoint (win_box out.old).shape p → HoldsTruth op (view_kind a.now) (number_shown a.now p) (number_shown b.now p) (number_held out.new (plus (win_box out.old).low p)) }
    ensures others { (cs : List ℕ) → IsPoint (win_box out.old).whole cs → ((p : List ℕ) → IsPoint (win_box out.old).shape p → ¬ (cs ≡ plus (win_box out.old).low p)) → number_held out.new cs ≡ number_held out.old cs }
{
    match out {
        TypedWin::Bool(w) => compare_numbers(op, a, b, w),
        _ => unreachable!(),
    }
}
