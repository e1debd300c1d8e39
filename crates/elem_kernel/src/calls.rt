//! The element operations on views of cells with their mask.
ghost use Rattle.std.specs.Prelude.{◌≡◌, ◌≢◌, ℕ, List, None};
ghost use Rattle.xr_types.specs.declared.kind.DType.TheVariants.{Bool};
ghost use Rattle.xr_arrays.specs.Arrays.{IsCell};
ghost use Rattle.xr_types.specs.Points.{IsPoint};
ghost use Rattle.xr_arrays.specs.Elements.{elem, choose as chosen};
ghost use Rattle.xr_types.specs.declared.operation.OpKind.TheVariants.{FillNa, Cast};
ghost use Rattle.strided_block.specs.Boxes.{plus};
ghost use Rattle.strided_block.specs.Typed.{view_kind, win_kind};
ghost use Rattle.strided_block.specs.Cells.{cell_shown, cell_held, cell_in, SameWindow};
ghost use Rattle.elem_kernel.specs.Conditions.{IsArithmetic, IsBinary, IsComparison, IsNullTest, IsNumeric, IsOnIntegers, IsSign, IsUnary};

use crate::casts::cast_numbers;
use crate::comparisons::compare_window;
use crate::masks::{choose_masks, copy_mask, join_masks, pick_masks, show_all};
use crate::nulls::tell_window;
use crate::numbers::combine_numbers;
use crate::picks::pick_numbers;
use crate::signs::turn_numbers;
use crate::typed::bools;
use strided_block::{CellView, CellWin};
use xr_types::OpKind;
// Writes the negated cells of a view, or those with all bits turned.
fn turn<'v>(op: OpKind, a: &CellView<'v>, out: &mut CellWin)
    requires op { IsSign op }
    requires kind { view_kind a.now.cells ≡ win_kind out.old.cells }
    requires integers { IsOnIntegers op → win_kind out.old.cells ≢ Bool }
    requires shape { a.now.mask.shape ≡ out.old.mask.shape }
    ensures place { SameWindow out.old out.new }
    ensures cells { (p : List ℕ) → IsPoint out.old.mask.shape p → cell_in out.new p ≡ elem op (win_kind out.old.cells) (cell_shown a.now p) None }
    ensures others { (cs : List ℕ) → IsPoint out.old.mask.whole cs → ((p : List ℕ) → IsPoint out.old.mask.shape p → ¬ (cs ≡ plus out.old.mask.low p)) → cell_held out.new cs ≡ cell_held out.old cs }
{
    turn_numbers(op, &a.cells, &mut out.cells);
    copy_mask(a, out);
}

// Writes whether the cells of a view are missing, or whether they are there.
fn tell<'v>(op: OpKind, a: &CellView<'v>, out: &mut CellWin)
    requires op { IsNullTest op }
    requires kind { win_kind out.old.cells ≡ Bool }
    requires shape { a.now.mask.shape ≡ out.old.mask.shape }
    ensures place { SameWindow out.old out.new }
    ensures cells { (p : List ℕ) → IsPoint out.old.mask.shape p → cell_in out.new p ≡ elem op (view_kind a.now.cells) (cell_shown a.now p) None }
    ensures others { (cs : List ℕ) → IsPoint out.old.mask.whole cs → ((p : List ℕ) → IsPoint out.old.mask.shape p → ¬ (cs ≡ plus out.old.mask.low p)) → cell_held out.new cs ≡ cell_held out.old cs }
{
    tell_window(op, &a.cells, &a.mask, &mut out.cells);
    show_all(out);
}

/// Writes what an operation of one operand gives of the cells of a view: unary `-` and `~`, of the view's kind, or whether they are missing or there, as truth values.
pub fn unary<'v>(op: OpKind, a: &CellView<'v>, out: &mut CellWin)
    requires op { IsUnary op }
    requires signs { IsSign op → view_kind a.now.cells ≡ win_kind out.old.cells }
    requires tests { IsNullTest op → win_kind out.old.cells ≡ Bool }
    requires integers { IsOnIntegers op → view_kind a.now.cells ≢ Bool }
    requires shape { a.now.mask.shape ≡ out.old.mask.shape }
    ensures place { SameWindow out.old out.new }
    ensures cells { (p : List ℕ) → IsPoint out.old.mask.shape p → cell_in out.new p ≡ elem op (view_kind a.now.cells) (cell_shown a.now p) None }
    ensures others { (cs : List ℕ) → IsPoint out.old.mask.whole cs → ((p : List ℕ) → IsPoint out.old.mask.shape p → ¬ (cs ≡ plus out.old.mask.low p)) → cell_held out.new cs ≡ cell_held out.old cs }
{
    match op {
        OpKind::IsNull | OpKind::NotNull => tell(op, a, out),
        _ => turn(op, a, out),
    }
}

// Writes what an operation on two numbers gives of the cells of two views.
fn combine<'v>(op: OpKind, a: &CellView<'v>, b: &CellView<'v>, out: &mut CellWin)
    requires op { IsNumeric op }
    requires kinds { (view_kind a.now.cells ≡ win_kind out.old.cells) × (view_kind b.now.cells ≡ win_kind out.old.cells) }
    requires integers { IsArithmetic op → win_kind out.old.cells ≢ Bool }
    requires shapes { (a.now.mask.shape ≡ out.old.mask.shape) × (b.now.mask.shape ≡ out.old.mask.shape) }
    ensures place { SameWindow out.old out.new }
    ensures cells { (p : List ℕ) → IsPoint out.old.mask.shape p → cell_in out.new p ≡ elem op (win_kind out.old.cells) (cell_shown a.now p) (cell_shown b.now p) }
    ensures others { (cs : List ℕ) → IsPoint out.old.mask.whole cs → ((p : List ℕ) → IsPoint out.old.mask.shape p → ¬ (cs ≡ plus out.old.mask.low p)) → cell_held out.new cs ≡ cell_held out.old cs }
{
    combine_numbers(op, &a.cells, &b.cells, &mut out.cells);
    join_masks(a, b, out);
}

// Writes the cells of the first view, and those of the second where the first has none.
fn fill_missing<'v>(a: &CellView<'v>, b: &CellView<'v>, out: &mut CellWin)
    requires kinds { (view_kind a.now.cells ≡ win_kind out.old.cells) × (view_kind b.now.cells ≡ win_kind out.old.cells) }
    requires shapes { (a.now.mask.shape ≡ out.old.mask.shape) × (b.now.mask.shape ≡ out.old.mask.shape) }
    ensures place { SameWindow out.old out.new }
    ensures cells { (p : List ℕ) → IsPoint out.old.mask.shape p → cell_in out.new p ≡ elem FillNa (win_kind out.old.cells) (cell_shown a.now p) (cell_shown b.now p) }
    ensures others { (cs : List ℕ) → IsPoint out.old.mask.whole cs → ((p : List ℕ) → IsPoint out.old.mask.shape p → ¬ (cs ≡ plus out.old.mask.low p)) → cell_held out.new cs ≡ cell_held out.old cs }
{
    pick_numbers(&a.cells, &b.cells, &a.mask, &mut out.cells);
    pick_masks(a, b, out);
}

/// Writes what an operation of two operands gives of the cells of two views of the window's kind: `+ - * // % & | ^`, or the first cell and the second where the first is missing.
pub fn binary<'v>(op: OpKind, a: &CellView<'v>, b: &CellView<'v>, out: &mut CellWin)
    requires op { IsBinary op }
    requires kinds { (view_kind a.now.cells ≡ win_kind out.old.cells) × (view_kind b.now.cells ≡ win_kind out.old.cells) }
    requires integers { IsArithmetic op → win_kind out.old.cells ≢ Bool }
    requires shapes { (a.now.mask.shape ≡ out.old.mask.shape) × (b.now.mask.shape ≡ out.old.mask.shape) }
    ensures place { SameWindow out.old out.new }
    ensures cells { (p : List ℕ) → IsPoint out.old.mask.shape p → cell_in out.new p ≡ elem op (win_kind out.old.cells) (cell_shown a.now p) (cell_shown b.now p) }
    ensures others { (cs : List ℕ) → IsPoint out.old.mask.whole cs → ((p : List ℕ) → IsPoint out.old.mask.shape p → ¬ (cs ≡ plus out.old.mask.low p)) → cell_held out.new cs ≡ cell_held out.old cs }
{
    match op {
        OpKind::FillNa => fill_missing(a, b, out),
        _ => combine(op, a, b, out),
    }
}

/// Writes whether a comparison holds of the cells of two views of one kind.
pub fn compare<'v>(op: OpKind, a: &CellView<'v>, b: &CellView<'v>, out: &mut CellWin)
    requires op { IsComparison op }
    requires kinds { (view_kind b.now.cells ≡ view_kind a.now.cells) × (win_kind out.old.cells ≡ Bool) }
    requires shapes { (a.now.mask.shape ≡ out.old.mask.shape) × (b.now.mask.shape ≡ out.old.mask.shape) }
    ensures place { SameWindow out.old out.new }
    ensures cells { (p : List ℕ) → IsPoint out.old.mask.shape p → cell_in out.new p ≡ elem op (view_kind a.now.cells) (cell_shown a.now p) (cell_shown b.now p) }
    ensures others { (cs : List ℕ) → IsPoint out.old.mask.whole cs → ((p : List ℕ) → IsPoint out.old.mask.shape p → ¬ (cs ≡ plus out.old.mask.low p)) → cell_held out.new cs ≡ cell_held out.old cs }
{
    compare_window(op, &a.cells, &b.cells, &mut out.cells);
    join_masks(a, b, out);
}

/// Writes the cells of a view as those of the window's kind: what the kind's width leaves of them, and for truth values whether they aren't 0.
pub fn cast<'v>(a: &CellView<'v>, out: &mut CellWin)
    requires { a.now.mask.shape ≡ out.old.mask.shape }
    ensures place { SameWindow out.old out.new }
    ensures cells { (p : List ℕ) → IsPoint out.old.mask.shape p → cell_in out.new p ≡ elem Cast (win_kind out.old.cells) (cell_shown a.now p) None }
    ensures others { (cs : List ℕ) → IsPoint out.old.mask.whole cs → ((p : List ℕ) → IsPoint out.old.mask.shape p → ¬ (cs ≡ plus out.old.mask.low p)) → cell_held out.new cs ≡ cell_held out.old cs }
{
    cast_numbers(&a.cells, &mut out.cells);
    copy_mask(a, out);
}

/// Writes the cells of `a` where those of `cond` are true, those of `b` where they are false, and missing cells where they are missing.
pub fn choose<'v>(cond: &CellView<'v>, a: &CellView<'v>, b: &CellView<'v>, out: &mut CellWin)
    requires condition { view_kind cond.now.cells ≡ Bool }
    requires kinds { (view_kind a.now.cells ≡ win_kind out.old.cells) × (view_kind b.now.cells ≡ win_kind out.old.cells) }
    requires shapes { (cond.now.mask.shape ≡ out.old.mask.shape) × (a.now.mask.shape ≡ out.old.mask.shape) × (b.now.mask.shape ≡ out.old.mask.shape) }
    ensures place { SameWindow out.old out.new }
    ensures cells { (p : List ℕ) → IsPoint out.old.mask.shape p → cell_in out.new p ≡ chosen (cell_shown cond.now p) (cell_shown a.now p) (cell_shown b.now p) }
    ensures others { (cs : List ℕ) → IsPoint out.old.mask.whole cs → ((p : List ℕ) → IsPoint out.old.mask.shape p → ¬ (cs ≡ plus out.old.mask.low p)) → cell_held out.new cs ≡ cell_held out.old cs }
{
    let by = bools(&cond.cells);
    pick_numbers(&b.cells, &a.cells, by, &mut out.cells);
    choose_masks(cond, by, a, b, out);
}

/// Writes one cell everywhere.
pub fn fill(cell: Option<i128>, out: &mut CellWin)
    requires { IsCell (win_kind out.old.cells) cell }
    ensures place { SameWindow out.old out.new }
    ensures cells { (p : List ℕ) → IsPoint out.old.mask.shape p → cell_in out.new p ≡ cell }
    ensures others { (cs : List ℕ) → IsPoint out.old.mask.whole cs → ((p : List ℕ) → IsPoint out.old.mask.shape p → ¬ (cs ≡ plus out.old.mask.low p)) → cell_held out.new cs ≡ cell_held out.old cs }
{
    out.fill(cell);
}
