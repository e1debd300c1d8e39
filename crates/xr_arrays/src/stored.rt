//! Arrays whose cells stand as a file has them.
ghost use Rattle.std.specs.Prelude.{◌≡◌, IfOk};
ghost use Rattle.xr_arrays.specs.Numbers.{cells_kind};
ghost use Rattle.xr_arrays.specs.Pieces.{together, values_in, AreInside};
ghost use Rattle.xr_arrays.specs.Stored.{stored_array, IsStored};
ghost use Rattle.xr_types.specs.Points.{size};

use crate::pieces::Pieces;
use bytes::Bytes;
use std::alloc::{AllocError, Global};
use std::marker::Model;
use xr_types::{DType, Items, NcType};

/// An array whose cells stand as a classic file has them: big-endian numbers of a type of whole numbers, in row order, in pieces
/// of bytes that others may share. A cell that holds one of the fill numbers is missing.
#[derive(Drop)]
pub struct StoredArray {
    shape: Items<u64>,
    kind: NcType,
    pieces: Pieces,
    fills: Items<i128>,
}

impl Model for StoredArray {
    ghost use Rattle.xr_arrays.specs.Arrays.{Array};
    ghost use Rattle.xr_arrays.specs.Pieces.{together};
    ghost use Rattle.xr_arrays.specs.Stored.{stored_array, IsStoredIn};

    ghost Value = { Array };

    ghost view = { λ a. stored_array a.shape a.kind (together a.kind a.pieces) a.fills };

    ghost invariant = { λ a. IsStoredIn a.shape a.kind a.pieces };
}

/// What an array is in a file: the type of its numbers, where they stand, and the numbers that stand for missing cells.
#[derive(Clone, Copy)]
pub struct StoredParts<'a> {
    pub kind: NcType,
    pub pieces: &'a Pieces,
    pub fills: &'a [i128],
}

impl StoredArray {
    /// The array of these bytes: a value for each point of the shape.
    #[tactic(auto, using(crate::proofs::Together::whole_values))]
    pub fn of(shape: Items<u64>, kind: NcType, bytes: Bytes, fills: Items<i128>) -> StoredArray
        requires { IsStored shape kind bytes }
        ensures { result ≡ stored_array shape kind bytes fills }
    {
        StoredArray {
            shape,
            kind,
            pieces: Pieces::whole(kind, bytes),
            fills,
        }
    }

    /// The array of these pieces: a value for each point of the shape.
    pub fn in_pieces(
        shape: Items<u64>,
        kind: NcType,
        pieces: Pieces,
        fills: Items<i128>,
    ) -> StoredArray
        requires inside { AreInside kind pieces }
        requires stored { IsStored shape kind (together kind pieces) }
        ensures { result ≡ stored_array shape kind (together kind pieces) fills }
    {
        StoredArray {
            shape,
            kind,
            pieces,
            fills,
        }
    }

    pub fn kind(&self) -> DType
        ensures { result ≡ self.now.kind }
    {
        match self.kind {
            NcType::Byte => DType::Int8,
            NcType::Char => DType::Char,
            NcType::Short => DType::Int16,
            NcType::Int | NcType::Float | NcType::Double => DType::Int32,
            NcType::UByte => DType::UInt8,
            NcType::UShort => DType::UInt16,
            NcType::UInt => DType::UInt32,
            NcType::Int64 => DType::Int64,
            NcType::UInt64 => DType::UInt64,
        }
    }

    pub fn shape(&self) -> &[u64]
        ensures { result.now ≡ self.now.shape }
    {
        self.shape.as_slice()
    }

    /// The type, the pieces and the fill numbers.
    #[tactic(auto, using(crate::proofs::Together::many))]
    pub fn parts(&self) -> StoredParts<'_>
        ensures is { self.now ≡ stored_array self.now.shape result.kind (together result.kind result.pieces.now) result.fills.now }
        ensures whole { IsStored self.now.shape result.kind (together result.kind result.pieces.now) }
        ensures inside { AreInside result.kind result.pieces.now }
        ensures many { values_in result.pieces.now ≡ size self.now.shape }
    {
        StoredParts {
            kind: self.kind,
            pieces: &self.pieces,
            fills: self.fills.as_slice(),
        }
    }

    /// An equal array that shares the bytes.
    pub fn copy(&self, alloc: Global) -> Result<StoredArray, AllocError>
        ensures { IfOk result (λ a. a ≡ self.now) }
    {
        Ok(StoredArray {
            shape: Items::from_slice(alloc, self.shape.as_slice())?,
            kind: self.kind,
            pieces: self.pieces.share()?,
            fills: Items::from_slice(alloc, self.fills.as_slice())?,
        })
    }
}
