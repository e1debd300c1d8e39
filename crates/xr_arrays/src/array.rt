//! Arrays, which contracts see as numbers or holes in row order, however they are kept.
ghost use Rattle.std.specs.Prelude.{◌≡◌, length, MatchOption, IfOk};
ghost use Rattle.xr_types.specs.Points.{size};
ghost use Rattle.xr_arrays.specs.Arrays.{kind_of, wide, hidden, InKind};
ghost use Rattle.xr_arrays.specs.Forms.{Shows};

use crate::stored::StoredArray;
use crate::typed::{Cells, TypedArray};
use std::alloc::{AllocError, Global};
use std::marker::Model;
use xr_types::{DType, Items};

/// An array in one of its forms.
#[derive(Drop)]
pub enum Held {
    Typed(TypedArray),
    Stored(StoredArray),
}

/// The form of an array.
#[derive(Clone, Copy)]
pub enum Form<'a> {
    Typed(&'a TypedArray),
    Stored(&'a StoredArray),
}

/// An array, with its cells at the width of their kind or as they stand in a file.
#[derive(Drop)]
pub struct ArrayValue {
    held: Held,
}

impl Model for ArrayValue {
    ghost use Rattle.xr_arrays.specs.Arrays.{Array};
    ghost use Rattle.xr_arrays.specs.Forms.{held_array};

    ghost Value = { Array };

    ghost view = { λ a. held_array a.held };
}

impl ArrayValue {
    /// The array of these cells: one for each point of the shape, each in the range of its kind.
    pub fn of(shape: Items<u64>, cells: Cells, mask: Option<Items<u8>>) -> ArrayValue
        requires cells { length (wide cells) ≡ size shape }
        requires range { InKind cells }
        requires mask { MatchOption mask (length (wide cells) ≡ size shape) (λ m. length m ≡ size shape) }
        ensures { result ≡ record { kind = kind_of cells; shape = shape; cells = hidden (wide cells) mask } }
    {
        ArrayValue {
            held: Held::Typed(TypedArray::of(shape, cells, mask)),
        }
    }

    /// An array as it stands in a file.
    pub fn stored(array: StoredArray) -> ArrayValue
        ensures { result ≡ array }
    {
        ArrayValue {
            held: Held::Stored(array),
        }
    }

    pub fn kind(&self) -> DType
        ensures { result ≡ self.now.kind }
    {
        match &self.held {
            Held::Typed(array) => array.kind(),
            Held::Stored(array) => array.kind(),
        }
    }

    pub fn shape(&self) -> &[u64]
        ensures { result.now ≡ self.now.shape }
    {
        match &self.held {
            Held::Typed(array) => array.shape(),
            Held::Stored(array) => array.shape(),
        }
    }

    /// The form in which it is kept.
    pub fn form(&self) -> Form<'_>
        ensures { Shows result self.now }
    {
        match &self.held {
            Held::Typed(array) => Form::Typed(array),
            Held::Stored(array) => Form::Stored(array),
        }
    }

    /// An equal array. Bytes of a file are shared, and typed cells stand in new memory.
    pub fn copy(&self, alloc: Global) -> Result<ArrayValue, AllocError>
        ensures { IfOk result (λ a. a ≡ self.now) }
    {
        let held = match &self.held {
            Held::Typed(array) => Held::Typed(array.copy(alloc)?),
            Held::Stored(array) => Held::Stored(array.copy(alloc)?),
        };
        Ok(ArrayValue { held })
    }
}
