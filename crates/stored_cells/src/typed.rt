//! Arrays with their cells at the width of their kind, whatever the form in which they are kept.
ghost use Rattle.std.specs.Prelude.{◌≡◌, length, None, Some, MatchOption, IfOk};
ghost use Rattle.xr_types.specs.Points.{size};
ghost use Rattle.xr_arrays.specs.Arrays.{kind_of, wide, hidden, InKind};

use crate::decode::decoded_cells;
use crate::kept::Kept;
use crate::masks::mask_for;
use std::alloc::{AllocError, Global};
use std::marker::Model;
use xr_arrays::{ArrayValue, Cells, Form, StoredArray, TypedArray};
use xr_types::Items;

/// An array with its cells at the width of their kind.
#[derive(Drop)]
pub struct Typed<'a> {
    kept: Kept<'a>,
}

impl<'a> Model for Typed<'a> {
    ghost use Rattle.xr_arrays.specs.Arrays.{Array};
    ghost use Rattle.stored_cells.specs.Typed.{kept_array};

    ghost Value = { Array };

    ghost view = { λ t. kept_array t.kept };
}

impl<'a> Typed<'a> {
    /// The cells, and the mask where there is one.
    pub fn parts(&self) -> (&Cells, Option<&Items<u8>>)
        ensures kind { kind_of result.0.now ≡ self.now.kind }
        ensures range { InKind result.0.now }
        ensures cells { MatchOption result.1 (self.now.cells ≡ hidden (wide result.0.now) None) (λ m. self.now.cells ≡ hidden (wide result.0.now) (Some m.now)) }
        ensures whole { length (wide result.0.now) ≡ size self.now.shape }
        ensures mask { MatchOption result.1 (length (wide result.0.now) ≡ size self.now.shape) (λ m. length m.now ≡ size self.now.shape) }
    {
        match &self.kept {
            Kept::Lent(array) => array.parts(),
            Kept::Owned(array) => array.parts(),
        }
    }
}

/// The array with its cells decoded into new memory.
pub fn decoded(alloc: Global, array: &StoredArray) -> Result<TypedArray, AllocError>
    ensures { IfOk result (λ a. a ≡ array.now) }
{
    let parts = array.parts();
    let bytes = parts.pieces.bytes(alloc, parts.kind)?;
    let cells = decoded_cells(alloc, parts.kind, bytes.as_slice())?;
    let mask = mask_for(alloc, &cells, parts.fills)?;
    let shape = Items::from_slice(alloc, array.shape())?;
    Ok(TypedArray::of(shape, cells, mask))
}

/// An array with typed cells: as it is kept, or decoded into new memory.
pub fn as_typed(alloc: Global, array: &ArrayValue) -> Result<Typed<'_>, AllocError>
    ensures { IfOk result (λ t. t ≡ array.now) }
{
    let kept = match array.form() {
        Form::Typed(array) => Kept::Lent(array),
        Form::Stored(array) => Kept::Owned(decoded(alloc, array)?),
    };
    Ok(Typed { kept })
}
