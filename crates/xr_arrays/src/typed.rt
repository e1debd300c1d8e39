//! Arrays whose cells stand at the width of their kind.
ghost use Rattle.std.specs.Prelude.{◌≡◌, length, Option, Some, None, MatchOption, IfOk};
ghost use Rattle.xr_types.specs.Points.{size};
ghost use Rattle.xr_arrays.specs.Arrays.{kind_of, wide, hidden, InKind, Array};

use std::alloc::{AllocError, Global};
use std::marker::Model;
use xr_types::{DType, Items};

/// Cells of one kind, in row order. Truth values are 0 and 1.
#[derive(Drop)]
pub enum Cells {
    Bool(Items<u8>),
    Char(Items<u8>),
    Int8(Items<i8>),
    Int16(Items<i16>),
    Int32(Items<i32>),
    Int64(Items<i64>),
    UInt8(Items<u8>),
    UInt16(Items<u16>),
    UInt32(Items<u32>),
    UInt64(Items<u64>),
}

/// An array with its cells at the width of their kind. Where it has a mask, the mask has a byte for each cell, and 0 marks a
/// present one.
#[derive(Drop)]
pub struct TypedArray {
    shape: Items<u64>,
    cells: Cells,
    mask: Option<Items<u8>>,
}

impl Model for TypedArray {
    ghost use Rattle.xr_arrays.specs.Arrays.{Array, seen, AreWhole};

    ghost Value = { Array };

    ghost view = { λ a. seen a.shape a.cells a.mask };

    ghost invariant = { λ a. AreWhole a.shape a.cells a.mask };
}

impl TypedArray {
    /// The array of these cells: one for each point of the shape, each in the range of its kind.
    pub fn of(shape: Items<u64>, cells: Cells, mask: Option<Items<u8>>) -> TypedArray
        requires cells { length (wide cells) ≡ size shape }
        requires range { InKind cells }
        requires mask { MatchOption mask (length (wide cells) ≡ size shape) (λ m. length m ≡ size shape) }
        ensures { result ≡ record { kind = kind_of cells; shape = shape; cells = hidden (wide cells) mask } }
    {
        TypedArray { shape, cells, mask }
    }

    pub fn kind(&self) -> DType
        ensures { result ≡ self.now.kind }
    {
        match &self.cells {
            Cells::Bool(_) => DType::Bool,
            Cells::Char(_) => DType::Char,
            Cells::Int8(_) => DType::Int8,
            Cells::Int16(_) => DType::Int16,
            Cells::Int32(_) => DType::Int32,
            Cells::Int64(_) => DType::Int64,
            Cells::UInt8(_) => DType::UInt8,
            Cells::UInt16(_) => DType::UInt16,
            Cells::UInt32(_) => DType::UInt32,
            Cells::UInt64(_) => DType::UInt64,
        }
    }

    pub fn shape(&self) -> &[u64]
        ensures { result.now ≡ self.now.shape }
    {
        self.shape.as_slice()
    }

    /// The cells as they are kept, and the mask where there is one.
    pub fn parts(&self) -> (&Cells, Option<&Items<u8>>)
        ensures kind { kind_of result.0.now ≡ self.now.kind }
        ensures range { InKind result.0.now }
        ensures cells { MatchOption result.1 (self.now.cells ≡ hidden (wide result.0.now) None) (λ m. self.now.cells ≡ hidden (wide result.0.now) (Some m.now)) }
        ensures whole { length (wide result.0.now) ≡ size self.now.shape }
        ensures mask { MatchOption result.1 (length (wide result.0.now) ≡ size self.now.shape) (λ m. length m.now ≡ size self.now.shape) }
    {
        match &self.mask {
            Some(mask) => (&self.cells, Some(mask)),
            None => (&self.cells, None),
        }
    }

    /// An equal array in new memory.
    pub fn copy(&self, alloc: Global) -> Result<TypedArray, AllocError>
        ensures { IfOk result (λ a. a ≡ self.now) }
    {
        let shape = Items::from_slice(alloc, self.shape.as_slice())?;
        let cells = copy_cells(alloc, &self.cells)?;
        let mask = match &self.mask {
            Some(mask) => Some(Items::from_slice(alloc, mask.as_slice())?),
            None => None,
        };
        Ok(TypedArray { shape, cells, mask })
    }
}

fn copy_cells(alloc: Global, cells: &Cells) -> Result<Cells, AllocError>
    ensures { IfOk result (λ copy. copy ≡ cells.now) }
{
    Ok(match cells {
        Cells::Bool(v) => Cells::Bool(Items::from_slice(alloc, v.as_slice())?),
        Cells::Char(v) => Cells::Char(Items::from_slice(alloc, v.as_slice())?),
        Cells::Int8(v) => Cells::Int8(Items::from_slice(alloc, v.as_slice())?),
        Cells::Int16(v) => Cells::Int16(Items::from_slice(alloc, v.as_slice())?),
        Cells::Int32(v) => Cells::Int32(Items::from_slice(alloc, v.as_slice())?),
        Cells::Int64(v) => Cells::Int64(Items::from_slice(alloc, v.as_slice())?),
        Cells::UInt8(v) => Cells::UInt8(Items::from_slice(alloc, v.as_slice())?),
        Cells::UInt16(v) => Cells::UInt16(Items::from_slice(alloc, v.as_slice())?),
        Cells::UInt32(v) => Cells::UInt32(Items::from_slice(alloc, v.as_slice())?),
        Cells::UInt64(v) => Cells::UInt64(Items::from_slice(alloc, v.as_slice())?),
    })
}
