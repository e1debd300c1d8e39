//! Lists of cells as cells of a kind.
ghost use Rattle.std.specs.Prelude.{◌≡◌, pos, Some, map, length, All, IfOk};
ghost use Rattle.xr_types.specs.Kinds.{InRange};
ghost use Rattle.xr_types.specs.Points.{size};
ghost use Rattle.xr_types.specs.declared.kind.DType.{DType};
ghost use Rattle.xr_types.specs.declared.kind.DType.TheVariants.{Int8, Int16, Int32, Int64, UInt16, UInt32, UInt64};
ghost use Rattle.xr_arrays.specs.Arrays.{kind_of, wide, InKind, IsCell};
ghost use Rattle.plan_core.specs.Concats.{IsBytes};
ghost use Rattle.row_folds.specs.Rows.{array_of};

use crate::outcome::{Outcome, mask, numbers};
use std::alloc::{AllocError, Global};
use xr_arrays::{ArrayValue, Cells};
use xr_types::{DType, Elem, Items};

/// A cell's type, as lists of cells have it.
pub trait Celled: Elem {
    /// The kinds whose cells are of this type.
    ghost Keeps: { DType → Type 0 };

    /// Cells of such a kind.
    fn cells(kind: DType, items: Vec<Self>) -> Cells
        requires kind { Keeps kind }
        requires range { All (InRange kind) (map Self.number items.items) }
        ensures kind { kind_of result ≡ kind }
        ensures numbers { wide result ≡ map Self.number items.items }
        ensures range { InKind result };
}

impl Celled for u8 {
    ghost Keeps = { IsBytes };

    #[tactic(auto, using(crate::proofs::Results::truths_small))]
    fn cells(kind: DType, items: Vec<u8>) -> Cells
        requires kind { IsBytes kind }
        requires range { All (InRange kind) (map (λ x. pos x) items.items) }
        ensures kind { kind_of result ≡ kind }
        ensures numbers { wide result ≡ map (λ x. pos x) items.items }
        ensures range { InKind result }
    {
        match kind {
            DType::Bool => Cells::Bool(Items::of(items)),
            DType::Char => Cells::Char(Items::of(items)),
            _ => Cells::UInt8(Items::of(items)),
        }
    }
}

impl Celled for i8 {
    ghost Keeps = { λ t. t ≡ Int8 };

    fn cells(kind: DType, items: Vec<i8>) -> Cells
        requires kind { kind ≡ Int8 }
        requires range { All (InRange kind) (map (λ x. x) items.items) }
        ensures kind { kind_of result ≡ kind }
        ensures numbers { wide result ≡ map (λ x. x) items.items }
        ensures range { InKind result }
    {
        Cells::Int8(Items::of(items))
    }
}

impl Celled for i16 {
    ghost Keeps = { λ t. t ≡ Int16 };

    fn cells(kind: DType, items: Vec<i16>) -> Cells
        requires kind { kind ≡ Int16 }
        requires range { All (InRange kind) (map (λ x. x) items.items) }
        ensures kind { kind_of result ≡ kind }
        ensures numbers { wide result ≡ map (λ x. x) items.items }
        ensures range { InKind result }
    {
        Cells::Int16(Items::of(items))
    }
}

impl Celled for i32 {
    ghost Keeps = { λ t. t ≡ Int32 };

    fn cells(kind: DType, items: Vec<i32>) -> Cells
        requires kind { kind ≡ Int32 }
        requires range { All (InRange kind) (map (λ x. x) items.items) }
        ensures kind { kind_of result ≡ kind }
        ensures numbers { wide result ≡ map (λ x. x) items.items }
        ensures range { InKind result }
    {
        Cells::Int32(Items::of(items))
    }
}

impl Celled for i64 {
    ghost Keeps = { λ t. t ≡ Int64 };

    fn cells(kind: DType, items: Vec<i64>) -> Cells
        requires kind { kind ≡ Int64 }
        requires range { All (InRange kind) (map (λ x. x) items.items) }
        ensures kind { kind_of result ≡ kind }
        ensures numbers { wide result ≡ map (λ x. x) items.items }
        ensures range { InKind result }
    {
        Cells::Int64(Items::of(items))
    }
}

impl Celled for u16 {
    ghost Keeps = { λ t. t ≡ UInt16 };

    fn cells(kind: DType, items: Vec<u16>) -> Cells
        requires kind { kind ≡ UInt16 }
        requires range { All (InRange kind) (map (λ x. pos x) items.items) }
        ensures kind { kind_of result ≡ kind }
        ensures numbers { wide result ≡ map (λ x. pos x) items.items }
        ensures range { InKind result }
    {
        Cells::UInt16(Items::of(items))
    }
}

impl Celled for u32 {
    ghost Keeps = { λ t. t ≡ UInt32 };

    fn cells(kind: DType, items: Vec<u32>) -> Cells
        requires kind { kind ≡ UInt32 }
        requires range { All (InRange kind) (map (λ x. pos x) items.items) }
        ensures kind { kind_of result ≡ kind }
        ensures numbers { wide result ≡ map (λ x. pos x) items.items }
        ensures range { InKind result }
    {
        Cells::UInt32(Items::of(items))
    }
}

impl Celled for u64 {
    ghost Keeps = { λ t. t ≡ UInt64 };

    fn cells(kind: DType, items: Vec<u64>) -> Cells
        requires kind { kind ≡ UInt64 }
        requires range { All (InRange kind) (map (λ x. pos x) items.items) }
        ensures kind { kind_of result ≡ kind }
        ensures numbers { wide result ≡ map (λ x. pos x) items.items }
        ensures range { InKind result }
    {
        Cells::UInt64(Items::of(items))
    }
}

/// The array of the cells of a result: one for each point of the shape, each missing or a number of the kind.
pub fn array<O: Celled, R: Outcome<O>>(
    alloc: Global,
    kind: DType,
    shape: &[u64],
    cells: R,
) -> Result<ArrayValue, AllocError>
    requires kind { O.Keeps kind }
    requires whole { length (R.cells cells) ≡ size shape.now }
    requires range { All (IsCell kind) (R.cells cells) }
    ensures { IfOk result (λ a. a ≡ array_of kind shape.now (R.cells cells)) }
{
    let mask = mask(alloc, cells)?;
    let numbers = numbers(alloc, cells)?;
    let shape = Items::from_slice(alloc, shape)?;
    Ok(ArrayValue::of(shape, O::cells(kind, numbers), mask))
}

/// The array of these numbers, one for each point of the shape, none of which is missing.
pub fn whole_array<O: Celled>(
    alloc: Global,
    kind: DType,
    shape: &[u64],
    numbers: Vec<O>,
) -> Result<ArrayValue, AllocError>
    requires kind { O.Keeps kind }
    requires whole { length numbers.items ≡ size shape.now }
    requires range { All (InRange kind) (map O.number numbers.items) }
    ensures { IfOk result (λ a. a ≡ array_of kind shape.now (map (λ x. Some (O.number x)) numbers.items)) }
{
    let shape = Items::from_slice(alloc, shape)?;
    Ok(ArrayValue::of(shape, O::cells(kind, numbers), None))
}
