//! Cells as numbers, and numbers as cells of a kind.
ghost use Rattle.std.specs.Prelude.{◌≡◌, ◌==◌, ℤ, length, map, zip, Option, Some, None, All, IfOk, IfSome, option_map, is_none, if◌then◌else◌};
ghost use Rattle.std.specs.List.{list_any};
ghost use Rattle.xr_types.specs.Kinds.{InRange};
ghost use Rattle.xr_types.specs.declared.kind.DType.TheVariants.{Bool};
ghost use Rattle.xr_types.specs.Points.{size};
ghost use Rattle.xr_arrays.specs.Arrays.{hidden, cell, kind_of, wide, IsCell, InKind};
ghost use Rattle.plan_core.specs.Arrangements.{filling, gap};

use std::alloc::{AllocError, Global};
use stored_cells::{Typed, as_typed};
use xr_arrays::{ArrayValue, Cells};
use xr_types::{DType, Elem, Items};

fn present<T: Elem>(cell: T) -> Option<i128>
    ensures cell { result ≡ Some (T.number cell) }
    ensures range { IsCell T.kind result }
{
    Some(cell.widen())
}

fn widened<T: Elem>(alloc: Global, cells: &[T]) -> Result<Vec<Option<i128>>, AllocError>
    ensures cells { IfOk result (λ v. v.items ≡ map Some (map T.number cells.now)) }
    ensures range { IfOk result (λ v. All (IsCell T.kind) v.items) }
{
    let mut numbers = Vec::with_capacity(alloc, cells.len())?;
    for i in 0..cells.len() {
        numbers.push(present(cells[i]))?;
    }
    Ok(numbers)
}

// A number, unless its byte in the mask isn't 0.
fn shown<T: Elem>(cell: T, byte: u8) -> Option<i128>
    ensures cell { result ≡ (if byte == 0 then Some (T.number cell) else None) }
    ensures range { IsCell T.kind result }
{
    if byte == 0 { Some(cell.widen()) } else { None }
}

fn widened_masked<T: Elem>(
    alloc: Global,
    cells: &[T],
    mask: &[u8],
) -> Result<Vec<Option<i128>>, AllocError>
    requires { length mask.now ≡ length cells.now }
    ensures cells { IfOk result (λ v. v.items ≡ map cell (zip (map T.number cells.now) mask.now)) }
    ensures range { IfOk result (λ v. All (IsCell T.kind) v.items) }
{
    let mut numbers = Vec::with_capacity(alloc, cells.len())?;
    for i in 0..cells.len() {
        numbers.push(shown(cells[i], mask[i]))?;
    }
    Ok(numbers)
}

fn numbers_in<T: Elem>(
    alloc: Global,
    cells: &[T],
    mask: Option<&Items<u8>>,
) -> Result<Vec<Option<i128>>, AllocError>
    requires { IfSome mask (λ m. length m.now ≡ length cells.now) }
    ensures cells { IfOk result (λ v. v.items ≡ hidden (map T.number cells.now) (option_map (λ m. m.now) mask.entry)) }
    ensures range { IfOk result (λ v. All (IsCell T.kind) v.items) }
{
    match mask {
        Some(mask) => widened_masked(alloc, cells, mask.as_slice()),
        None => widened(alloc, cells),
    }
}

fn typed_numbers(alloc: Global, typed: &Typed) -> Result<Vec<Option<i128>>, AllocError>
    ensures cells { IfOk result (λ v. v.items ≡ typed.now.cells) }
    ensures range { IfOk result (λ v. All (IsCell typed.now.kind) v.items) }
{
    let (cells, mask) = typed.parts();
    match cells {
        Cells::Bool(v) => numbers_in(alloc, v.as_slice(), mask),
        Cells::Char(v) => numbers_in(alloc, v.as_slice(), mask),
        Cells::Int8(v) => numbers_in(alloc, v.as_slice(), mask),
        Cells::Int16(v) => numbers_in(alloc, v.as_slice(), mask),
        Cells::Int32(v) => numbers_in(alloc, v.as_slice(), mask),
        Cells::Int64(v) => numbers_in(alloc, v.as_slice(), mask),
        Cells::UInt8(v) => numbers_in(alloc, v.as_slice(), mask),
        Cells::UInt16(v) => numbers_in(alloc, v.as_slice(), mask),
        Cells::UInt32(v) => numbers_in(alloc, v.as_slice(), mask),
        Cells::UInt64(v) => numbers_in(alloc, v.as_slice(), mask),
    }
}

/// The cells of an array.
pub fn numbers_of(alloc: Global, a: &ArrayValue) -> Result<Vec<Option<i128>>, AllocError>
    ensures cells { IfOk result (λ v. v.items ≡ a.now.cells) }
    ensures range { IfOk result (λ v. All (IsCell a.now.kind) v.items) }
{
    let typed = as_typed(alloc, a)?;
    typed_numbers(alloc, &typed)
}

// A number's cell, or that of 0 where there is none.
fn narrow<T: Elem>(cell: Option<i128>) -> T
    requires { IsCell T.kind cell }
    ensures { T.number result ≡ filling cell }
{
    match cell {
        Some(number) => T::wrap_from(number),
        None => T::wrap_from(0),
    }
}

fn narrowed<T: Elem>(alloc: Global, cells: &[Option<i128>]) -> Result<Items<T>, AllocError>
    requires { All (IsCell T.kind) cells.now }
    ensures { IfOk result (λ v. map T.number v ≡ map filling cells.now) }
{
    let mut all = Vec::with_capacity(alloc, cells.len())?;
    for i in 0..cells.len() {
        all.push(narrow(cells[i]))?;
    }
    Ok(Items::of(all))
}

fn byte(cell: Option<i128>) -> u8
    ensures { result ≡ gap cell }
{
    match cell {
        Some(_) => 0,
        None => 1,
    }
}

fn has_missing(cells: &[Option<i128>]) -> bool
    ensures { result ≡ list_any is_none cells.now }
{
    for cell in cells {
        if cell.is_none() {
            return true;
        }
    }
    false
}

// A byte for each cell, where one is missing.
fn mask_of(alloc: Global, cells: &[Option<i128>]) -> Result<Option<Items<u8>>, AllocError>
    ensures { IfOk result (λ m. m ≡ (if list_any is_none cells.now then Some (map gap cells.now) else None)) }
{
    if !has_missing(cells) {
        return Ok(None);
    }
    let mut mask = Vec::with_capacity(alloc, cells.len())?;
    for cell in cells {
        mask.push(byte(*cell))?;
    }
    Ok(Some(Items::of(mask)))
}

// The numbers at the width of a kind.
fn typed(alloc: Global, kind: DType, cells: &[Option<i128>]) -> Result<Cells, AllocError>
    requires { All (IsCell kind) cells.now }
    ensures kind { IfOk result (λ c. kind_of c ≡ kind) }
    ensures numbers { IfOk result (λ c. wide c ≡ map filling cells.now) }
    ensures range { IfOk result InKind }
{
    match kind {
        DType::Bool => Ok(Cells::Bool(narrowed(alloc, cells)?)),
        DType::Char => Ok(Cells::Char(narrowed(alloc, cells)?)),
        DType::Int8 => Ok(Cells::Int8(narrowed(alloc, cells)?)),
        DType::Int16 => Ok(Cells::Int16(narrowed(alloc, cells)?)),
        DType::Int32 => Ok(Cells::Int32(narrowed(alloc, cells)?)),
        DType::Int64 => Ok(Cells::Int64(narrowed(alloc, cells)?)),
        DType::UInt8 => Ok(Cells::UInt8(narrowed(alloc, cells)?)),
        DType::UInt16 => Ok(Cells::UInt16(narrowed(alloc, cells)?)),
        DType::UInt32 => Ok(Cells::UInt32(narrowed(alloc, cells)?)),
        DType::UInt64 => Ok(Cells::UInt64(narrowed(alloc, cells)?)),
    }
}

/// The array of these cells: one for each point of the shape, each missing or a number of the kind.
pub fn array_of(
    alloc: Global,
    kind: DType,
    shape: Items<u64>,
    cells: &[Option<i128>],
) -> Result<ArrayValue, AllocError>
    requires whole { length cells.now ≡ size shape }
    requires range { All (IsCell kind) cells.now }
    ensures { IfOk result (λ a. a ≡ record { kind = kind; shape = shape; cells = cells.now }) }
{
    let mask = mask_of(alloc, cells)?;
    let typed = typed(alloc, kind, cells)?;
    Ok(ArrayValue::of(shape, typed, mask))
}
