//! Operations of two operands on the numbers of typed cells.
ghost use Rattle.std.specs.Prelude.{◌≡◌, ◌≢◌, ℕ, List};
ghost use Rattle.xr_types.specs.declared.kind.DType.TheVariants.{Bool};
ghost use Rattle.xr_types.specs.Points.{IsPoint};
ghost use Rattle.strided_block.specs.Boxes.{plus};
ghost use Rattle.strided_block.specs.Typed.{view_kind, view_shape, number_shown, win_kind, win_box, number_held};
ghost use Rattle.elem_kernel.specs.Conditions.{IsArithmetic, IsNumeric};
ghost use Rattle.elem_kernel.specs.Numbers.{HoldsNumber};

use crate::arithmetic::combine_cells;
use crate::truths::combine_truths;
use crate::typed::{bools, bytes, chars, ints, longs, shorts, ubytes, uints, ulongs, ushorts};
use strided_block::{TypedView, TypedWin};
use xr_types::OpKind;
/// Writes what an operation gives of the numbers of two views.
pub(crate) fn combine_numbers<'v>(
    op: OpKind,
    a: &TypedView<'v>,
    b: &TypedView<'v>,
    out: &mut TypedWin,
)
    requires op { IsNumeric op }
    requires kinds { (view_kind a.now ≡ win_kind out.old) × (view_kind b.now ≡ win_kind out.old) }
    requires integers { IsArithmetic op → win_kind out.old ≢ Bool }
    requires shapes { (view_shape a.now ≡ (win_box out.old).shape) × (view_shape b.now ≡ (win_box out.old).shape) }
    ensures kind { win_kind out.new ≡ win_kind out.old }
    ensures place { win_box out.new ≡ win_box out.old }
    ensures cells { (p : List ℕ) → IsPoint (win_box out.old).shape p → HoldsNumber op (win_kind out.old) (number_shown a.now p) (number_shown b.now p) (number_held out.new (plus (win_box out.old).low p)) }
    ensures others { (cs : List ℕ) → IsPoint (win_box out.old).whole cs → ((p : List ℕ) → IsPoint (win_box out.old).shape p → ¬ (cs ≡ plus (win_box out.old).low p)) → number_held out.new cs ≡ number_held out.old cs }
{
    match out {
        TypedWin::Bool(w) => combine_truths(op, bools(a), bools(b), w),
        TypedWin::Char(w) => combine_cells(op, chars(a), chars(b), w),
        TypedWin::Int8(w) => combine_cells(op, bytes(a), bytes(b), w),
        TypedWin::Int16(w) => combine_cells(op, shorts(a), shorts(b), w),
        TypedWin::Int32(w) => combine_cells(op, ints(a), ints(b), w),
        TypedWin::Int64(w) => combine_cells(op, longs(a), longs(b), w),
        TypedWin::UInt8(w) => combine_cells(op, ubytes(a), ubytes(b), w),
        TypedWin::UInt16(w) => combine_cells(op, ushorts(a), ushorts(b), w),
        TypedWin::UInt32(w) => combine_cells(op, uints(a), uints(b), w),
        TypedWin::UInt64(w) => combine_cells(op, ulongs(a), ulongs(b), w),
    }
}
