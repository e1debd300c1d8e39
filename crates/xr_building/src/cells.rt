//! Cells of a kind from numbers and holes.
ghost use Rattle.std.specs.Prelude.{◌≡◌, ◌≢◌, List, map, length, All, IfOk, MatchOption, ⊤};
ghost use Rattle.std.specs.List.{list_all};
ghost use Rattle.xr_types.specs.declared.kind.DType.TheVariants as kinds;
ghost use Rattle.xr_arrays.specs.Arrays.{IsCell, kind_of, wide};
ghost use Rattle.xr_defs.specs.Building as of;
ghost use Rattle.xr_defs.specs.Meanings.{Value};
ghost use Rattle.xr_types.specs.Points.{size};
ghost use Rattle.xr_defs.specs.WellFormed.{AreSeen};
ghost use Rattle.xr_building.specs.Gathered.{gathered, number_or_zero, mask_byte};

use crate::elements::Elements;
use std::alloc::{AllocError, Global};
use xr_arrays::{ArrayValue, Cells};
use xr_formulas::fits;
use xr_types::{DType, Elem, Items};

fn cell_fits(kind: DType, cell: Option<i128>) -> bool
    ensures { result ≡ of.fits_kind kind cell }
{
    match cell {
        None => true,
        Some(n) => fits(kind, n),
    }
}

/// Whether each number is one of the kind.
pub fn all_fit(kind: DType, cells: &[Option<i128>]) -> bool
    ensures { result ≡ list_all (of.fits_kind kind) cells.now }
{
    cells.iter().all(|cell| cell_fits(kind, *cell))
}

/// The kind that is given, or that of the elements.
pub fn kind_for(elements: &Elements, given: Option<DType>) -> DType
    requires { MatchOption given ⊤ (λ k. k ≢ kinds.Char) }
    ensures kind { (vs : List Value) → elements.now ≡ gathered vs → result ≡ of.kind_for vs given }
    ensures number { result ≢ kinds.Char }
{
    match given {
        Some(kind) => kind,
        None => {
            if elements.whole {
                DType::Int64
            } else {
                DType::Bool
            }
        }
    }
}

/// Whether the elements can have the kind.
pub fn suits(kind: DType, elements: &Elements) -> bool
    ensures { (vs : List Value) → elements.now ≡ gathered vs → result ≡ of.suits kind vs }
{
    match kind {
        DType::Bool => elements.truths,
        DType::Char
        | DType::Int8
        | DType::Int16
        | DType::Int32
        | DType::Int64
        | DType::UInt8
        | DType::UInt16
        | DType::UInt32
        | DType::UInt64 => elements.whole,
    }
}

fn number_or_zero(cell: Option<i128>) -> i128
    ensures { result ≡ number_or_zero cell }
{
    match cell {
        Some(n) => n,
        None => 0,
    }
}

// The numbers that a type's cells keep, 0 for a hole.
fn numbers<T: Elem + Drop>(alloc: Global, cells: &[Option<i128>]) -> Result<Items<T>, AllocError>
    requires { All (IsCell T.kind) cells.now }
    ensures { IfOk result (λ v. map T.number v ≡ map number_or_zero cells.now) }
{
    let mut out = Items::new(alloc);
    for cell in cells {
        out.push(T::wrap_from(number_or_zero(*cell)))?;
    }
    Ok(out)
}

#[tactic(auto, using(crate::proofs::Kept::bytes_of_truths, crate::proofs::Kept::same_ints))]
fn typed(alloc: Global, kind: DType, cells: &[Option<i128>]) -> Result<Cells, AllocError>
    requires kind { kind ≢ kinds.Char }
    requires range { All (IsCell kind) cells.now }
    ensures kind { IfOk result (λ v. kind_of v ≡ kind) }
    ensures numbers { IfOk result (λ v. wide v ≡ map number_or_zero cells.now) }
{
    Ok(match kind {
        DType::Bool => Cells::Bool(numbers(alloc, cells)?),
        DType::Char => Cells::Char(numbers(alloc, cells)?),
        DType::Int8 => Cells::Int8(numbers(alloc, cells)?),
        DType::Int16 => Cells::Int16(numbers(alloc, cells)?),
        DType::Int32 => Cells::Int32(numbers(alloc, cells)?),
        DType::Int64 => Cells::Int64(numbers(alloc, cells)?),
        DType::UInt8 => Cells::UInt8(numbers(alloc, cells)?),
        DType::UInt16 => Cells::UInt16(numbers(alloc, cells)?),
        DType::UInt32 => Cells::UInt32(numbers(alloc, cells)?),
        DType::UInt64 => Cells::UInt64(numbers(alloc, cells)?),
    })
}

// A byte for each cell, 0 for a present one.
fn mask_of(alloc: Global, cells: &[Option<i128>]) -> Result<Items<u8>, AllocError>
    ensures { IfOk result (λ m. m ≡ map mask_byte cells.now) }
{
    let mut out = Items::new(alloc);
    for cell in cells {
        match cell {
            Some(_) => out.push(0)?,
            None => out.push(1)?,
        }
    }
    Ok(out)
}

/// The array of these cells. A mask is kept where cells may be missing.
#[tactic(auto, using(crate::proofs::Kept::in_kind, crate::proofs::Kept::masked_are, crate::proofs::Kept::seen_are))]
pub fn array_value(
    alloc: Global,
    kind: DType,
    shape: Items<u64>,
    masked: bool,
    cells: &[Option<i128>],
) -> Result<ArrayValue, AllocError>
    requires kind { kind ≢ kinds.Char }
    requires range { All (IsCell kind) cells.now }
    requires whole { length cells.now ≡ size shape }
    requires seen { AreSeen masked cells.now }
    ensures { IfOk result (λ a. a ≡ record { kind = kind; shape = shape; cells = cells.now }) }
{
    let values = typed(alloc, kind, cells)?;
    if masked {
        let mask = mask_of(alloc, cells)?;
        Ok(ArrayValue::of(shape, values, Some(mask)))
    } else {
        Ok(ArrayValue::of(shape, values, None))
    }
}
