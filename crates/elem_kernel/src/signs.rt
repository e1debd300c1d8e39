//! Unary `-` and `~` of the numbers of typed cells.
ghost use Rattle.std.specs.Prelude.{◌≡◌, ◌≢◌, ℕ, List, Some, None};
ghost use Rattle.xr_types.specs.declared.kind.DType.TheVariants.{Bool};
ghost use Rattle.xr_types.specs.Points.{IsPoint};
ghost use Rattle.xr_arrays.specs.Elements.{elem};
ghost use Rattle.xr_types.specs.declared.operation.OpKind.TheVariants.{Negate, Invert};
ghost use Rattle.strided_block.specs.Boxes.{plus};
ghost use Rattle.strided_block.specs.Views.{Cut, KeptOutside, shown, cell_at};
ghost use Rattle.strided_block.specs.Typed.{truth, view_kind, view_shape, number_shown, win_kind, win_box, number_held};
ghost use Rattle.elem_kernel.specs.Conditions.{IsOnIntegers, IsSign};
ghost use Rattle.elem_kernel.specs.Numbers.{HoldsOne};
ghost use Rattle.elem_kernel.specs.Pairs.{Maps};

use crate::number::{inversion, negation};
use crate::pairs::map_cells;
use crate::truths::invert_truths;
use crate::typed::{bools, bytes, chars, ints, longs, shorts, ubytes, uints, ulongs, ushorts};
use strided_block::{TypedView, TypedWin, View, Win};
use xr_types::{Elem, OpKind};

// Writes the negated cells, or those with all bits turned.
fn turn_cells<'v, T: Elem + Drop>(op: OpKind, a: &View<'v, T>, out: &mut Win<T>)
    requires op { IsSign op }
    requires shape { a.now.shape ≡ out.old.shape }
    ensures place { Cut out.old out.new out.old.low out.old.shape }
    ensures cells { (p : List ℕ) → IsPoint out.old.shape p → Maps (λ x z. Some (T.number z) ≡ elem op T.kind (Some (T.number x)) None) (shown a.now p) (cell_at out.new p) }
    ensures others { KeptOutside out.old out.new }
{
    match op {
        OpKind::Negate => map_cells(
            |x: T| -> T
                ensures { Some (T.number result) ≡ elem Negate T.kind (Some (T.number x)) None }
            { negation(x) },
            a,
            out,
        ),
        OpKind::Invert => map_cells(
            |x: T| -> T
                ensures { Some (T.number result) ≡ elem Invert T.kind (Some (T.number x)) None }
            { inversion(x) },
            a,
            out,
        ),
        _ => unreachable!(),
    }
}

// Writes the opposite truth values; `-` has none.
fn turn_truths<'v>(op: OpKind, a: &View<'v, u8>, out: &mut Win<u8>)
    requires op { (IsSign op) × (IsOnIntegers op → ⊥) }
    requires shape { a.now.shape ≡ out.old.shape }
    ensures place { Cut out.old out.new out.old.low out.old.shape }
    ensures cells { (p : List ℕ) → IsPoint out.old.shape p → Maps (λ x z. Some (truth z) ≡ elem op Bool (Some (truth x)) None) (shown a.now p) (cell_at out.new p) }
    ensures others { KeptOutside out.old out.new }
{
    match op {
        OpKind::Invert => invert_truths(a, out),
        _ => unreachable!(),
    }
}

/// Writes the negated numbers, or those with all bits turned.
pub(crate) fn turn_numbers<'v>(op: OpKind, a: &TypedView<'v>, out: &mut TypedWin)
    requires op { IsSign op }
    requires kind { view_kind a.now ≡ win_kind out.old }
    requires integers { IsOnIntegers op → win_kind out.old ≢ Bool }
    requires shape { view_shape a.now ≡ (win_box out.old).shape }
    ensures kind { win_kind out.new ≡ win_kind out.old }
    ensures place { win_box out.new ≡ win_box out.old }
    ensures cells { (p : List ℕ) → IsPoint (win_box out.old).shape p → HoldsOne op (win_kind out.old) (number_shown a.now p) (number_held out.new (plus (win_box out.old).low p)) }
    ensures others { (cs : List ℕ) → IsPoint (win_box out.old).whole cs → ((p : List ℕ) → IsPoint (win_box out.old).shape p → ¬ (cs ≡ plus (win_box out.old).low p)) → number_held out.new cs ≡ number_held out.old cs }
{
    match out {
        TypedWin::Bool(w) => turn_truths(op, bools(a), w),
        TypedWin::Char(w) => turn_cells(op, chars(a), w),
        TypedWin::Int8(w) => turn_cells(op, bytes(a), w),
        TypedWin::Int16(w) => turn_cells(op, shorts(a), w),
        TypedWin::Int32(w) => turn_cells(op, ints(a), w),
        TypedWin::Int64(w) => turn_cells(op, longs(a), w),
        TypedWin::UInt8(w) => turn_cells(op, ubytes(a), w),
        TypedWin::UInt16(w) => turn_cells(op, ushorts(a), w),
        TypedWin::UInt32(w) => turn_cells(op, uints(a), w),
        TypedWin::UInt64(w) => turn_cells(op, ulongs(a), w),
    }
}
