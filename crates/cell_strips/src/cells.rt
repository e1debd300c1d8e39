//! Operations on the numbers of cells of one kind.
ghost use Rattle.std.specs.Prelude.{◌≡◌, ◌≢◌, ◌<◌, ℕ, pos, length, get_or, Some, None, IfOk};
ghost use Rattle.xr_types.specs.Kinds.{wrap_to};
ghost use Rattle.xr_types.specs.declared.kind.DType.TheVariants as kinds;
ghost use Rattle.xr_types.specs.declared.operation.OpKind.TheVariants.{Cast};
ghost use Rattle.xr_arrays.specs.Arrays.{kind_of, InKind};
ghost use Rattle.xr_arrays.specs.Elements.{elem, cast_to};
ghost use Rattle.elem_kernel.specs.Conditions.{IsArithmetic, IsBitwise, IsComparison, IsNumeric, IsOnIntegers, IsSign};
ghost use Rattle.cell_strips.specs.Rows.{count, number_at, OfOne, OfTwo, Picked};

use crate::numbers::{combine_row, compare_row, join_row};
use crate::signs::{cast_row, opposites, pick_row, test_row, turn_row};
use std::alloc::{AllocError, Global};
use xr_arrays::Cells;
use xr_types::{DType, Elem, Items, OpKind};

/// How many cells there are.
pub(crate) fn count(cells: &Cells) -> usize
    ensures { result ≡ count cells.now }
{
    match cells {
        Cells::Bool(v) => v.as_slice().len(),
        Cells::Char(v) => v.as_slice().len(),
        Cells::Int8(v) => v.as_slice().len(),
        Cells::Int16(v) => v.as_slice().len(),
        Cells::Int32(v) => v.as_slice().len(),
        Cells::Int64(v) => v.as_slice().len(),
        Cells::UInt8(v) => v.as_slice().len(),
        Cells::UInt16(v) => v.as_slice().len(),
        Cells::UInt32(v) => v.as_slice().len(),
        Cells::UInt64(v) => v.as_slice().len(),
    }
}

/// What `+ - * // % & | ^` gives of the numbers of two lists of cells of one kind.
pub(crate) fn combine_cells(
    alloc: Global,
    op: OpKind,
    a: &Cells,
    b: &Cells,
) -> Result<Cells, AllocError>
    requires op { IsNumeric op }
    requires kinds { kind_of b.now ≡ kind_of a.now }
    requires integers { IsArithmetic op → kind_of a.now ≢ kinds.Bool }
    requires long { count b.now ≡ count a.now }
    ensures kind { IfOk result (λ c. kind_of c ≡ kind_of a.now) }
    ensures long { IfOk result (λ c. count c ≡ count a.now) }
    ensures cells { IfOk result (OfTwo op (kind_of a.now) a.now b.now) }
{
    match (a, b) {
        (Cells::Bool(a), Cells::Bool(b)) => Ok(Cells::Bool(join_row(
            alloc,
            op,
            a.as_slice(),
            b.as_slice(),
        )?)),
        (Cells::Char(a), Cells::Char(b)) => Ok(Cells::Char(combine_row(
            alloc,
            op,
            a.as_slice(),
            b.as_slice(),
        )?)),
        (Cells::Int8(a), Cells::Int8(b)) => Ok(Cells::Int8(combine_row(
            alloc,
            op,
            a.as_slice(),
            b.as_slice(),
        )?)),
        (Cells::Int16(a), Cells::Int16(b)) => Ok(Cells::Int16(combine_row(
            alloc,
            op,
            a.as_slice(),
            b.as_slice(),
        )?)),
        (Cells::Int32(a), Cells::Int32(b)) => Ok(Cells::Int32(combine_row(
            alloc,
            op,
            a.as_slice(),
            b.as_slice(),
        )?)),
        (Cells::Int64(a), Cells::Int64(b)) => Ok(Cells::Int64(combine_row(
            alloc,
            op,
            a.as_slice(),
            b.as_slice(),
        )?)),
        (Cells::UInt8(a), Cells::UInt8(b)) => Ok(Cells::UInt8(combine_row(
            alloc,
            op,
            a.as_slice(),
            b.as_slice(),
        )?)),
        (Cells::UInt16(a), Cells::UInt16(b)) => Ok(Cells::UInt16(combine_row(
            alloc,
            op,
            a.as_slice(),
            b.as_slice(),
        )?)),
        (Cells::UInt32(a), Cells::UInt32(b)) => Ok(Cells::UInt32(combine_row(
            alloc,
            op,
            a.as_slice(),
            b.as_slice(),
        )?)),
        (Cells::UInt64(a), Cells::UInt64(b)) => Ok(Cells::UInt64(combine_row(
            alloc,
            op,
            a.as_slice(),
            b.as_slice(),
        )?)),
        _ => unreachable!(),
    }
}

// Whether a comparison holds of the numbers of two lists of cells of one kind.
fn compare_numbers(alloc: Global, op: OpKind, a: &Cells, b: &Cells) -> Result<Items<u8>, AllocError>
    requires op { IsComparison op }
    requires kinds { kind_of b.now ≡ kind_of a.now }
    requires long { count b.now ≡ count a.now }
    ensures long { IfOk result (λ v. length v ≡ count a.now) }
    ensures cells { IfOk result (λ v. (i : ℕ) → i < count a.now → Some (pos (get_or v i 0)) ≡ elem op (kind_of a.now) (Some (number_at a.now i)) (Some (number_at b.now i))) }
{
    match (a, b) {
        (Cells::Bool(a), Cells::Bool(b)) => compare_row(alloc, op, a.as_slice(), b.as_slice()),
        (Cells::Char(a), Cells::Char(b)) => compare_row(alloc, op, a.as_slice(), b.as_slice()),
        (Cells::UInt8(a), Cells::UInt8(b)) => compare_row(alloc, op, a.as_slice(), b.as_slice()),
        (Cells::Int8(a), Cells::Int8(b)) => compare_row(alloc, op, a.as_slice(), b.as_slice()),
        (Cells::Int16(a), Cells::Int16(b)) => compare_row(alloc, op, a.as_slice(), b.as_slice()),
        (Cells::Int32(a), Cells::Int32(b)) => compare_row(alloc, op, a.as_slice(), b.as_slice()),
        (Cells::Int64(a), Cells::Int64(b)) => compare_row(alloc, op, a.as_slice(), b.as_slice()),
        (Cells::UInt16(a), Cells::UInt16(b)) => compare_row(alloc, op, a.as_slice(), b.as_slice()),
        (Cells::UInt32(a), Cells::UInt32(b)) => compare_row(alloc, op, a.as_slice(), b.as_slice()),
        (Cells::UInt64(a), Cells::UInt64(b)) => compare_row(alloc, op, a.as_slice(), b.as_slice()),
        _ => unreachable!(),
    }
}

/// Whether a comparison holds of the numbers of two lists of cells of one kind, as truth values.
pub(crate) fn compare_cells(
    alloc: Global,
    op: OpKind,
    a: &Cells,
    b: &Cells,
) -> Result<Cells, AllocError>
    requires op { IsComparison op }
    requires kinds { kind_of b.now ≡ kind_of a.now }
    requires long { count b.now ≡ count a.now }
    ensures kind { IfOk result (λ c. kind_of c ≡ kinds.Bool) }
    ensures long { IfOk result (λ c. count c ≡ count a.now) }
    ensures cells { IfOk result (OfTwo op (kind_of a.now) a.now b.now) }
{
    Ok(Cells::Bool(compare_numbers(alloc, op, a, b)?))
}

/// The negated numbers of cells, or those with all bits turned.
pub(crate) fn turn_cells(alloc: Global, op: OpKind, a: &Cells) -> Result<Cells, AllocError>
    requires op { IsSign op }
    requires range { InKind a.now }
    requires integers { IsOnIntegers op → kind_of a.now ≢ kinds.Bool }
    ensures kind { IfOk result (λ c. kind_of c ≡ kind_of a.now) }
    ensures long { IfOk result (λ c. count c ≡ count a.now) }
    ensures cells { IfOk result (OfOne op (kind_of a.now) a.now) }
{
    match a {
        Cells::Bool(a) => Ok(Cells::Bool(opposites(alloc, a.as_slice())?)),
        Cells::Char(a) => Ok(Cells::Char(turn_row(alloc, op, a.as_slice())?)),
        Cells::Int8(a) => Ok(Cells::Int8(turn_row(alloc, op, a.as_slice())?)),
        Cells::Int16(a) => Ok(Cells::Int16(turn_row(alloc, op, a.as_slice())?)),
        Cells::Int32(a) => Ok(Cells::Int32(turn_row(alloc, op, a.as_slice())?)),
        Cells::Int64(a) => Ok(Cells::Int64(turn_row(alloc, op, a.as_slice())?)),
        Cells::UInt8(a) => Ok(Cells::UInt8(turn_row(alloc, op, a.as_slice())?)),
        Cells::UInt16(a) => Ok(Cells::UInt16(turn_row(alloc, op, a.as_slice())?)),
        Cells::UInt32(a) => Ok(Cells::UInt32(turn_row(alloc, op, a.as_slice())?)),
        Cells::UInt64(a) => Ok(Cells::UInt64(turn_row(alloc, op, a.as_slice())?)),
    }
}

fn cast_into<T: Elem + Drop>(alloc: Global, a: &Cells) -> Result<Items<T>, AllocError>
    ensures long { IfOk result (λ v. length v ≡ count a.now) }
    ensures cells { IfOk result (λ v. (i : ℕ) (z : T) → i < count a.now → T.number (get_or v i z) ≡ wrap_to T.kind (number_at a.now i)) }
{
    match a {
        Cells::Bool(a) | Cells::Char(a) | Cells::UInt8(a) => cast_row(alloc, a.as_slice()),
        Cells::Int8(a) => cast_row(alloc, a.as_slice()),
        Cells::Int16(a) => cast_row(alloc, a.as_slice()),
        Cells::Int32(a) => cast_row(alloc, a.as_slice()),
        Cells::Int64(a) => cast_row(alloc, a.as_slice()),
        Cells::UInt16(a) => cast_row(alloc, a.as_slice()),
        Cells::UInt32(a) => cast_row(alloc, a.as_slice()),
        Cells::UInt64(a) => cast_row(alloc, a.as_slice()),
    }
}

fn test_numbers(alloc: Global, a: &Cells) -> Result<Items<u8>, AllocError>
    ensures long { IfOk result (λ v. length v ≡ count a.now) }
    ensures cells { IfOk result (λ v. (i z : ℕ) → i < count a.now → pos (get_or v i z) ≡ cast_to kinds.Bool (number_at a.now i)) }
{
    match a {
        Cells::Bool(a) | Cells::Char(a) | Cells::UInt8(a) => test_row(alloc, a.as_slice()),
        Cells::Int8(a) => test_row(alloc, a.as_slice()),
        Cells::Int16(a) => test_row(alloc, a.as_slice()),
        Cells::Int32(a) => test_row(alloc, a.as_slice()),
        Cells::Int64(a) => test_row(alloc, a.as_slice()),
        Cells::UInt16(a) => test_row(alloc, a.as_slice()),
        Cells::UInt32(a) => test_row(alloc, a.as_slice()),
        Cells::UInt64(a) => test_row(alloc, a.as_slice()),
    }
}

/// What a kind leaves of the numbers of cells.
pub(crate) fn cast_cells(alloc: Global, kind: DType, a: &Cells) -> Result<Cells, AllocError>
    ensures kind { IfOk result (λ c. kind_of c ≡ kind) }
    ensures long { IfOk result (λ c. count c ≡ count a.now) }
    ensures cells { IfOk result (OfOne Cast kind a.now) }
{
    match kind {
        DType::Bool => Ok(Cells::Bool(test_numbers(alloc, a)?)),
        DType::Char => Ok(Cells::Char(cast_into(alloc, a)?)),
        DType::Int8 => Ok(Cells::Int8(cast_into(alloc, a)?)),
        DType::Int16 => Ok(Cells::Int16(cast_into(alloc, a)?)),
        DType::Int32 => Ok(Cells::Int32(cast_into(alloc, a)?)),
        DType::Int64 => Ok(Cells::Int64(cast_into(alloc, a)?)),
        DType::UInt8 => Ok(Cells::UInt8(cast_into(alloc, a)?)),
        DType::UInt16 => Ok(Cells::UInt16(cast_into(alloc, a)?)),
        DType::UInt32 => Ok(Cells::UInt32(cast_into(alloc, a)?)),
        DType::UInt64 => Ok(Cells::UInt64(cast_into(alloc, a)?)),
    }
}

/// The numbers of the first cells where the byte is 0, else those of the second, of one kind.
pub(crate) fn pick_cells(
    alloc: Global,
    by: &[u8],
    a: &Cells,
    b: &Cells,
) -> Result<Cells, AllocError>
    requires kinds { kind_of b.now ≡ kind_of a.now }
    requires long { (count b.now ≡ count a.now) × (length by.now ≡ count a.now) }
    ensures kind { IfOk result (λ c. kind_of c ≡ kind_of a.now) }
    ensures long { IfOk result (λ c. count c ≡ count a.now) }
    ensures cells { IfOk result (Picked (λ i. get_or by.now i 0) a.now b.now) }
{
    match (a, b) {
        (Cells::Bool(a), Cells::Bool(b)) => Ok(Cells::Bool(pick_row(
            alloc,
            by,
            a.as_slice(),
            b.as_slice(),
        )?)),
        (Cells::Char(a), Cells::Char(b)) => Ok(Cells::Char(pick_row(
            alloc,
            by,
            a.as_slice(),
            b.as_slice(),
        )?)),
        (Cells::Int8(a), Cells::Int8(b)) => Ok(Cells::Int8(pick_row(
            alloc,
            by,
            a.as_slice(),
            b.as_slice(),
        )?)),
        (Cells::Int16(a), Cells::Int16(b)) => Ok(Cells::Int16(pick_row(
            alloc,
            by,
            a.as_slice(),
            b.as_slice(),
        )?)),
        (Cells::Int32(a), Cells::Int32(b)) => Ok(Cells::Int32(pick_row(
            alloc,
            by,
            a.as_slice(),
            b.as_slice(),
        )?)),
        (Cells::Int64(a), Cells::Int64(b)) => Ok(Cells::Int64(pick_row(
            alloc,
            by,
            a.as_slice(),
            b.as_slice(),
        )?)),
        (Cells::UInt8(a), Cells::UInt8(b)) => Ok(Cells::UInt8(pick_row(
            alloc,
            by,
            a.as_slice(),
            b.as_slice(),
        )?)),
        (Cells::UInt16(a), Cells::UInt16(b)) => Ok(Cells::UInt16(pick_row(
            alloc,
            by,
            a.as_slice(),
            b.as_slice(),
        )?)),
        (Cells::UInt32(a), Cells::UInt32(b)) => Ok(Cells::UInt32(pick_row(
            alloc,
            by,
            a.as_slice(),
            b.as_slice(),
        )?)),
        (Cells::UInt64(a), Cells::UInt64(b)) => Ok(Cells::UInt64(pick_row(
            alloc,
            by,
            a.as_slice(),
            b.as_slice(),
        )?)),
        _ => unreachable!(),
    }
}
