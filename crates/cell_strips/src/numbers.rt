//! Operations of two operands on the numbers of rows.
ghost use Rattle.std.specs.Prelude.{◌≡◌, ◌<◌, ℕ, pos, length, get_or, Some, IfOk, IfSome, true};
ghost use Rattle.xr_arrays.specs.Elements.{elem};
ghost use Rattle.xr_types.specs.declared.operation.OpKind.TheVariants.{Add, Subtract, Multiply, FloorDivide, Remainder, And, Or, Xor, Equal, NotEqual, Less, LessEqual};
ghost use Rattle.elem_kernel.specs.Conditions.{IsArithmetic, IsBitwise, IsComparison, IsNumeric};
ghost use Rattle.cell_strips.specs.Rows.{IsOrdering};

use crate::rows::{map_row, zip_row};
use elem_kernel::{
    Bits, Divisor, at_most, difference, differs, equal, less, product, quotient, remainder, sum,
};
use std::alloc::{AllocError, Global};
use xr_types::{Elem, Items, OpKind};

// Whether each cell of a row holds the number of another cell. No cell ends the loop, so that many are compared at once.
fn all_are<T: Elem + Drop>(row: &[T], cell: T) -> bool
    ensures { result ≡ true → (i : ℕ) (y : T) → i < length row.now → T.number (get_or row.now i y) ≡ T.number cell }
{
    let mut same = true;
    for i in 0..row.len() {
        if row[i].widen() != cell.widen() {
            same = false;
        }
    }
    same
}

// The divisor of a row that holds one number in each cell, as that of a literal does.
fn divisor_of<T: Elem + Drop>(row: &[T]) -> Option<Divisor<T>>
    ensures { IfSome result (λ d. (i : ℕ) (y : T) → i < length row.now → T.number (get_or row.now i y) ≡ T.number d.by) }
{
    if row.is_empty() {
        return None;
    }
    let first = row[0];
    if !all_are(row, first) {
        return None;
    }
    Divisor::of(first)
}

// What `//` gives of the cells of two rows.
fn divide_row<T: Elem + Drop>(alloc: Global, a: &[T], b: &[T]) -> Result<Items<T>, AllocError>
    requires long { length b.now ≡ length a.now }
    ensures long { IfOk result (λ v. length v ≡ length a.now) }
    ensures cells { IfOk result (λ v. (i : ℕ) (x y z : T) → i < length a.now → Some (T.number (get_or v i z)) ≡ elem FloorDivide T.kind (Some (T.number (get_or a.now i x))) (Some (T.number (get_or b.now i y)))) }
{
    match divisor_of(b) {
        Some(divisor) => map_row(
            alloc,
            |x: T| -> T
                ensures { Some (T.number result) ≡ elem FloorDivide T.kind (Some (T.number x)) (Some (T.number divisor.by)) }
            { divisor.quotient(x) },
            a,
        ),
        None => zip_row(
            alloc,
            |x: T, y: T| -> T
                ensures { Some (T.number result) ≡ elem FloorDivide T.kind (Some (T.number x)) (Some (T.number y)) }
            { quotient(x, y) },
            a,
            b,
        ),
    }
}

// What `%` gives of the cells of two rows.
fn remainder_row<T: Elem + Drop>(alloc: Global, a: &[T], b: &[T]) -> Result<Items<T>, AllocError>
    requires long { length b.now ≡ length a.now }
    ensures long { IfOk result (λ v. length v ≡ length a.now) }
    ensures cells { IfOk result (λ v. (i : ℕ) (x y z : T) → i < length a.now → Some (T.number (get_or v i z)) ≡ elem Remainder T.kind (Some (T.number (get_or a.now i x))) (Some (T.number (get_or b.now i y)))) }
{
    match divisor_of(b) {
        Some(divisor) => map_row(
            alloc,
            |x: T| -> T
                ensures { Some (T.number result) ≡ elem Remainder T.kind (Some (T.number x)) (Some (T.number divisor.by)) }
            { divisor.remainder(x) },
            a,
        ),
        None => zip_row(
            alloc,
            |x: T, y: T| -> T
                ensures { Some (T.number result) ≡ elem Remainder T.kind (Some (T.number x)) (Some (T.number y)) }
            { remainder(x, y) },
            a,
            b,
        ),
    }
}

// What `+ - * // %` gives of the cells of two rows.
fn calculate_row<T: Elem + Drop>(
    alloc: Global,
    op: OpKind,
    a: &[T],
    b: &[T],
) -> Result<Items<T>, AllocError>
    requires op { IsArithmetic op }
    requires long { length b.now ≡ length a.now }
    ensures long { IfOk result (λ v. length v ≡ length a.now) }
    ensures cells { IfOk result (λ v. (i : ℕ) (x y z : T) → i < length a.now → Some (T.number (get_or v i z)) ≡ elem op T.kind (Some (T.number (get_or a.now i x))) (Some (T.number (get_or b.now i y)))) }
{
    match op {
        OpKind::Add => zip_row(
            alloc,
            |x: T, y: T| -> T
                ensures { Some (T.number result) ≡ elem Add T.kind (Some (T.number x)) (Some (T.number y)) }
            { sum(x, y) },
            a,
            b,
        ),
        OpKind::Subtract => zip_row(
            alloc,
            |x: T, y: T| -> T
                ensures { Some (T.number result) ≡ elem Subtract T.kind (Some (T.number x)) (Some (T.number y)) }
            { difference(x, y) },
            a,
            b,
        ),
        OpKind::Multiply => zip_row(
            alloc,
            |x: T, y: T| -> T
                ensures { Some (T.number result) ≡ elem Multiply T.kind (Some (T.number x)) (Some (T.number y)) }
            { product(x, y) },
            a,
            b,
        ),
        OpKind::FloorDivide => divide_row(alloc, a, b),
        OpKind::Remainder => remainder_row(alloc, a, b),
        _ => unreachable!(),
    }
}

/// What `& | ^` gives of the cells of two rows.
pub(crate) fn join_row<T: Bits + Drop>(
    alloc: Global,
    op: OpKind,
    a: &[T],
    b: &[T],
) -> Result<Items<T>, AllocError>
    requires op { IsBitwise op }
    requires long { length b.now ≡ length a.now }
    ensures long { IfOk result (λ v. length v ≡ length a.now) }
    ensures cells { IfOk result (λ v. (i : ℕ) (x y z : T) → i < length a.now → Some (T.number (get_or v i z)) ≡ elem op T.kind (Some (T.number (get_or a.now i x))) (Some (T.number (get_or b.now i y)))) }
{
    match op {
        OpKind::And => zip_row(
            alloc,
            |x: T, y: T| -> T
                ensures { Some (T.number result) ≡ elem And T.kind (Some (T.number x)) (Some (T.number y)) }
            { x.both(y) },
            a,
            b,
        ),
        OpKind::Or => zip_row(
            alloc,
            |x: T, y: T| -> T
                ensures { Some (T.number result) ≡ elem Or T.kind (Some (T.number x)) (Some (T.number y)) }
            { x.either(y) },
            a,
            b,
        ),
        OpKind::Xor => zip_row(
            alloc,
            |x: T, y: T| -> T
                ensures { Some (T.number result) ≡ elem Xor T.kind (Some (T.number x)) (Some (T.number y)) }
            { x.one_of(y) },
            a,
            b,
        ),
        _ => unreachable!(),
    }
}

/// What an operation gives of the cells of two rows, on numbers other than truth values.
pub(crate) fn combine_row<T: Bits + Drop>(
    alloc: Global,
    op: OpKind,
    a: &[T],
    b: &[T],
) -> Result<Items<T>, AllocError>
    requires op { IsNumeric op }
    requires long { length b.now ≡ length a.now }
    ensures long { IfOk result (λ v. length v ≡ length a.now) }
    ensures cells { IfOk result (λ v. (i : ℕ) (x y z : T) → i < length a.now → Some (T.number (get_or v i z)) ≡ elem op T.kind (Some (T.number (get_or a.now i x))) (Some (T.number (get_or b.now i y)))) }
{
    match op {
        OpKind::And | OpKind::Or | OpKind::Xor => join_row(alloc, op, a, b),
        _ => calculate_row(alloc, op, a, b),
    }
}

#[tactic(auto, using(crate::proofs::Truths::as_number))]
fn same<T: Elem>(x: T, y: T) -> u8
    ensures { Some (pos result) ≡ elem Equal T.kind (Some (T.number x)) (Some (T.number y)) }
{
    equal(x, y)
}

#[tactic(auto, using(crate::proofs::Truths::as_number))]
fn different<T: Elem>(x: T, y: T) -> u8
    ensures { Some (pos result) ≡ elem NotEqual T.kind (Some (T.number x)) (Some (T.number y)) }
{
    differs(x, y)
}

#[tactic(auto, using(crate::proofs::Truths::as_number))]
fn below<T: Elem>(x: T, y: T) -> u8
    ensures { Some (pos result) ≡ elem Less T.kind (Some (T.number x)) (Some (T.number y)) }
{
    less(x, y)
}

#[tactic(auto, using(crate::proofs::Truths::as_number))]
fn not_above<T: Elem>(x: T, y: T) -> u8
    ensures { Some (pos result) ≡ elem LessEqual T.kind (Some (T.number x)) (Some (T.number y)) }
{
    at_most(x, y)
}

fn order_row<T: Elem + Drop>(
    alloc: Global,
    op: OpKind,
    a: &[T],
    b: &[T],
) -> Result<Items<u8>, AllocError>
    requires op { IsOrdering op }
    requires long { length b.now ≡ length a.now }
    ensures long { IfOk result (λ v. length v ≡ length a.now) }
    ensures cells { IfOk result (λ v. (i : ℕ) (x y : T) (z : ℕ) → i < length a.now → Some (pos (get_or v i z)) ≡ elem op T.kind (Some (T.number (get_or a.now i x))) (Some (T.number (get_or b.now i y)))) }
{
    match op {
        OpKind::Equal => zip_row(
            alloc,
            |x: T, y: T| -> u8
                ensures { Some (pos result) ≡ elem Equal T.kind (Some (T.number x)) (Some (T.number y)) }
            { same(x, y) },
            a,
            b,
        ),
        OpKind::NotEqual => zip_row(
            alloc,
            |x: T, y: T| -> u8
                ensures { Some (pos result) ≡ elem NotEqual T.kind (Some (T.number x)) (Some (T.number y)) }
            { different(x, y) },
            a,
            b,
        ),
        OpKind::Less => zip_row(
            alloc,
            |x: T, y: T| -> u8
                ensures { Some (pos result) ≡ elem Less T.kind (Some (T.number x)) (Some (T.number y)) }
            { below(x, y) },
            a,
            b,
        ),
        OpKind::LessEqual => zip_row(
            alloc,
            |x: T, y: T| -> u8
                ensures { Some (pos result) ≡ elem LessEqual T.kind (Some (T.number x)) (Some (T.number y)) }
            { not_above(x, y) },
            a,
            b,
        ),
        _ => unreachable!(),
    }
}

/// Whether the comparison holds of the cells of two rows, as truth values.
pub(crate) fn compare_row<T: Elem + Drop>(
    alloc: Global,
    op: OpKind,
    a: &[T],
    b: &[T],
) -> Result<Items<u8>, AllocError>
    requires op { IsComparison op }
    requires long { length b.now ≡ length a.now }
    ensures long { IfOk result (λ v. length v ≡ length a.now) }
    ensures cells { IfOk result (λ v. (i : ℕ) (x y : T) (z : ℕ) → i < length a.now → Some (pos (get_or v i z)) ≡ elem op T.kind (Some (T.number (get_or a.now i x))) (Some (T.number (get_or b.now i y)))) }
{
    match op {
        OpKind::Greater => order_row(alloc, OpKind::Less, b, a),
        OpKind::GreaterEqual => order_row(alloc, OpKind::LessEqual, b, a),
        _ => order_row(alloc, op, a, b),
    }
}
