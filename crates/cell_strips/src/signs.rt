//! Operations of one operand on the numbers of rows, and cells that are picked from two rows.
ghost use Rattle.std.specs.Prelude.{◌≡◌, ◌<◌, ℕ, pos, length, get_or, Some, None, IfOk};
ghost use Rattle.xr_types.specs.Kinds.{wrap_to};
ghost use Rattle.xr_types.specs.declared.kind.DType.TheVariants.{Bool};
ghost use Rattle.xr_types.specs.declared.operation.OpKind.TheVariants.{Negate, Invert};
ghost use Rattle.xr_arrays.specs.Elements.{elem, cast_to};
ghost use Rattle.elem_kernel.specs.Conditions.{IsSign};
ghost use Rattle.elem_kernel.specs.Masks.{first_at_zero};

use crate::rows::{map_row, zip_three};
use elem_kernel::{cast_cell, first_or_second, inversion, negation, test_cell};
use std::alloc::{AllocError, Global};
use xr_types::{Elem, Items, OpKind};

/// The negated cells of a row, or those with all bits turned, on numbers other than truth values.
pub(crate) fn turn_row<T: Elem + Drop>(
    alloc: Global,
    op: OpKind,
    a: &[T],
) -> Result<Items<T>, AllocError>
    requires op { IsSign op }
    ensures long { IfOk result (λ v. length v ≡ length a.now) }
    ensures cells { IfOk result (λ v. (i : ℕ) (x z : T) → i < length a.now → Some (T.number (get_or v i z)) ≡ elem op T.kind (Some (T.number (get_or a.now i x))) None) }
{
    match op {
        OpKind::Negate => map_row(
            alloc,
            |x: T| -> T
                ensures { Some (T.number result) ≡ elem Negate T.kind (Some (T.number x)) None }
            { negation(x) },
            a,
        ),
        OpKind::Invert => map_row(
            alloc,
            |x: T| -> T
                ensures { Some (T.number result) ≡ elem Invert T.kind (Some (T.number x)) None }
            { inversion(x) },
            a,
        ),
        _ => unreachable!(),
    }
}

#[tactic(auto, using(crate::proofs::Truths::turned_truth))]
fn opposite(x: u8) -> u8
    ensures { x < 2 → Some (pos result) ≡ elem Invert Bool (Some (pos x)) None }
{
    u8::from(x == 0)
}

/// The opposite truth values.
pub(crate) fn opposites(alloc: Global, a: &[u8]) -> Result<Items<u8>, AllocError>
    ensures long { IfOk result (λ v. length v ≡ length a.now) }
    ensures cells { IfOk result (λ v. (i x z : ℕ) → i < length a.now → get_or a.now i x < 2 → Some (pos (get_or v i z)) ≡ elem Invert Bool (Some (pos (get_or a.now i x))) None) }
{
    map_row(
        alloc,
        |x: u8| -> u8
            ensures { x < 2 → Some (pos result) ≡ elem Invert Bool (Some (pos x)) None }
        { opposite(x) },
        a,
    )
}

/// What a kind leaves of the numbers of another.
pub(crate) fn cast_row<A: Elem + Drop, T: Elem + Drop>(
    alloc: Global,
    a: &[A],
) -> Result<Items<T>, AllocError>
    ensures long { IfOk result (λ v. length v ≡ length a.now) }
    ensures cells { IfOk result (λ v. (i : ℕ) (x : A) (z : T) → i < length a.now → T.number (get_or v i z) ≡ wrap_to T.kind (A.number (get_or a.now i x))) }
{
    map_row(
        alloc,
        |x: A| -> T
            ensures { T.number result ≡ wrap_to T.kind (A.number x) }
        { cast_cell(x) },
        a,
    )
}

#[tactic(auto, using(crate::proofs::Truths::as_test))]
fn tested<A: Elem>(x: A) -> u8
    ensures { pos result ≡ cast_to Bool (A.number x) }
{
    test_cell(x)
}

/// Whether the numbers of a row aren't 0, as truth values.
pub(crate) fn test_row<A: Elem + Drop>(alloc: Global, a: &[A]) -> Result<Items<u8>, AllocError>
    ensures long { IfOk result (λ v. length v ≡ length a.now) }
    ensures cells { IfOk result (λ v. (i : ℕ) (x : A) (z : ℕ) → i < length a.now → pos (get_or v i z) ≡ cast_to Bool (A.number (get_or a.now i x))) }
{
    map_row(
        alloc,
        |x: A| -> u8
            ensures { pos result ≡ cast_to Bool (A.number x) }
        { tested(x) },
        a,
    )
}

/// The cells of the first row where the byte of `by` is 0, else those of the second.
pub(crate) fn pick_row<T: Elem + Drop>(
    alloc: Global,
    by: &[u8],
    a: &[T],
    b: &[T],
) -> Result<Items<T>, AllocError>
    requires long { (length a.now ≡ length by.now) × (length b.now ≡ length by.now) }
    ensures long { IfOk result (λ v. length v ≡ length by.now) }
    ensures cells { IfOk result (λ v. (i k : ℕ) (x y z : T) → i < length by.now → get_or v i z ≡ first_at_zero (get_or by.now i k) (get_or a.now i x) (get_or b.now i y)) }
{
    zip_three(
        alloc,
        |by: u8, x: T, y: T| -> T
            ensures { result ≡ first_at_zero by x y }
        { first_or_second(x, y, by) },
        by,
        a,
        b,
    )
}
