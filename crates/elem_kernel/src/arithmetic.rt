//! `+ - * // % & | ^` of the cells of two views.
ghost use Rattle.std.specs.Prelude.{◌≡◌, ℕ, List, Some};
ghost use Rattle.xr_types.specs.Points.{IsPoint};
ghost use Rattle.xr_arrays.specs.Elements.{elem};
ghost use Rattle.xr_types.specs.declared.operation.OpKind.TheVariants.{Add, Subtract, Multiply, FloorDivide, Remainder, And, Or, Xor};
ghost use Rattle.strided_block.specs.Views.{Cut, KeptOutside, shown, cell_at};
ghost use Rattle.elem_kernel.specs.Conditions.{IsArithmetic, IsBitwise, IsNumeric};
ghost use Rattle.elem_kernel.specs.Pairs.{Pairs};

use crate::bits::Bits;
use crate::number::{difference, product, quotient, remainder, sum};
use crate::pairs::zip_pairs;
use strided_block::{View, Win};
use xr_types::{Elem, OpKind};

// Writes what `+ - * // %` gives of the cells of two views.
fn calculate_cells<'v, T: Elem + Drop>(
    op: OpKind,
    a: &View<'v, T>,
    b: &View<'v, T>,
    out: &mut Win<T>,
)
    requires op { IsArithmetic op }
    requires shapes { (a.now.shape ≡ out.old.shape) × (b.now.shape ≡ out.old.shape) }
    ensures place { Cut out.old out.new out.old.low out.old.shape }
    ensures cells { (p : List ℕ) → IsPoint out.old.shape p → Pairs (λ x y z. Some (T.number z) ≡ elem op T.kind (Some (T.number x)) (Some (T.number y))) (shown a.now p) (shown b.now p) (cell_at out.new p) }
    ensures others { KeptOutside out.old out.new }
{
    match op {
        OpKind::Add => zip_pairs(
            |x: T, y: T| -> T
                ensures { Some (T.number result) ≡ elem Add T.kind (Some (T.number x)) (Some (T.number y)) }
            { sum(x, y) },
            a,
            b,
            out,
        ),
        OpKind::Subtract => zip_pairs(
            |x: T, y: T| -> T
                ensures { Some (T.number result) ≡ elem Subtract T.kind (Some (T.number x)) (Some (T.number y)) }
            { difference(x, y) },
            a,
            b,
            out,
        ),
        OpKind::Multiply => zip_pairs(
            |x: T, y: T| -> T
                ensures { Some (T.number result) ≡ elem Multiply T.kind (Some (T.number x)) (Some (T.number y)) }
            { product(x, y) },
            a,
            b,
            out,
        ),
        OpKind::FloorDivide => zip_pairs(
            |x: T, y: T| -> T
                ensures { Some (T.number result) ≡ elem FloorDivide T.kind (Some (T.number x)) (Some (T.number y)) }
            { quotient(x, y) },
            a,
            b,
            out,
        ),
        OpKind::Remainder => zip_pairs(
            |x: T, y: T| -> T
                ensures { Some (T.number result) ≡ elem Remainder T.kind (Some (T.number x)) (Some (T.number y)) }
            { remainder(x, y) },
            a,
            b,
            out,
        ),
        _ => unreachable!(),
    }
}

// Writes what `& | ^` gives of the cells of two views.
fn join_bits<'v, T: Bits + Drop>(op: OpKind, a: &View<'v, T>, b: &View<'v, T>, out: &mut Win<T>)
    requires op { IsBitwise op }
    requires shapes { (a.now.shape ≡ out.old.shape) × (b.now.shape ≡ out.old.shape) }
    ensures place { Cut out.old out.new out.old.low out.old.shape }
    ensures cells { (p : List ℕ) → IsPoint out.old.shape p → Pairs (λ x y z. Some (T.number z) ≡ elem op T.kind (Some (T.number x)) (Some (T.number y))) (shown a.now p) (shown b.now p) (cell_at out.new p) }
    ensures others { KeptOutside out.old out.new }
{
    match op {
        OpKind::And => zip_pairs(
            |x: T, y: T| -> T
                ensures { Some (T.number result) ≡ elem And T.kind (Some (T.number x)) (Some (T.number y)) }
            { x.both(y) },
            a,
            b,
            out,
        ),
        OpKind::Or => zip_pairs(
            |x: T, y: T| -> T
                ensures { Some (T.number result) ≡ elem Or T.kind (Some (T.number x)) (Some (T.number y)) }
            { x.either(y) },
            a,
            b,
            out,
        ),
        OpKind::Xor => zip_pairs(
            |x: T, y: T| -> T
                ensures { Some (T.number result) ≡ elem Xor T.kind (Some (T.number x)) (Some (T.number y)) }
            { x.one_of(y) },
            a,
            b,
            out,
        ),
        _ => unreachable!(),
    }
}

/// Writes what an operation gives of the cells of two views, on numbers other than truth values.
pub(crate) fn combine_cells<'v, T: Bits + Drop>(
    op: OpKind,
    a: &View<'v, T>,
    b: &View<'v, T>,
    out: &mut Win<T>,
)
    requires op { IsNumeric op }
    requires shapes { (a.now.shape ≡ out.old.shape) × (b.now.shape ≡ out.old.shape) }
    ensures place { Cut out.old out.new out.old.low out.old.shape }
    ensures cells { (p : List ℕ) → IsPoint out.old.shape p → Pairs (λ x y z. Some (T.number z) ≡ elem op T.kind (Some (T.number x)) (Some (T.number y))) (shown a.now p) (shown b.now p) (cell_at out.new p) }
    ensures others { KeptOutside out.old out.new }
{
    match op {
        OpKind::And | OpKind::Or | OpKind::Xor => join_bits(op, a, b, out),
        _ => calculate_cells(op, a, b, out),
    }
}
