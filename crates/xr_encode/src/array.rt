//! The cells of an array: what holds them, which equal a number, and their bytes.
ghost use Rattle.std.specs.Prelude.{◌≡◌, true, false, map, option_copied, All, IfOk};
ghost use Rattle.std.specs.List.{list_all, list_any};
ghost use Rattle.xr_arrays.specs.Arrays.{hidden, wide, IsCell};
ghost use Rattle.xr_defs.specs.Encoding.{holds_cell, type_of};
ghost use Rattle.xr_encode.specs.Rows.{cells_bytes, are_held, is_number};

use crate::number::{holds_all, type_of};
use crate::run::{Masked, Whole, are_held, bytes_in, has_number};
use crate::stored::{is_hidden, shared_bytes};
use bytes::Bytes;
use std::alloc::{AllocError, Global};
use stored_cells::as_typed;
use xr_arrays::{ArrayValue, Cells, Form};
use xr_types::{Elem, Items, NcType};

fn are_typed_held<T: Elem>(kind: NcType, cells: &[T], mask: Option<&Items<u8>>) -> bool
    ensures { result ≡ list_all (holds_cell kind) (hidden (map T.number cells.now) (option_copied mask.entry)) }
{
    match mask {
        Some(mask) => are_held(
            kind,
            Masked {
                cells,
                mask: mask.as_slice(),
            },
        ),
        None => are_held(kind, Whole { cells }),
    }
}

fn has_typed_number<T: Elem>(cells: &[T], mask: Option<&Items<u8>>, number: i128) -> bool
    ensures { result ≡ list_any (is_number number) (hidden (map T.number cells.now) (option_copied mask.entry)) }
{
    match mask {
        Some(mask) => has_number(
            Masked {
                cells,
                mask: mask.as_slice(),
            },
            number,
        ),
        None => has_number(Whole { cells }, number),
    }
}

fn typed_bytes<T: Elem>(
    alloc: Global,
    kind: NcType,
    cells: &[T],
    mask: Option<&Items<u8>>,
    fill: i128,
) -> Result<Bytes, AllocError>
    requires { are_held kind fill (hidden (map T.number cells.now) (option_copied mask)) ≡ true }
    ensures { IfOk result (λ raw. raw ≡ cells_bytes kind fill (hidden (map T.number cells.now) (option_copied mask.entry))) }
{
    match mask {
        Some(mask) => bytes_in(
            alloc,
            kind,
            Masked {
                cells,
                mask: mask.as_slice(),
            },
            fill,
        ),
        None => bytes_in(alloc, kind, Whole { cells }, fill),
    }
}

#[tactic(auto, using(crate::proofs::Runs::themselves))]
fn cells_hold(kind: NcType, cells: &Cells, mask: Option<&Items<u8>>) -> bool
    ensures { result ≡ list_all (holds_cell kind) (hidden (wide cells.now) (option_copied mask.entry)) }
{
    match cells {
        Cells::Bool(cells) => are_typed_held(kind, cells.as_slice(), mask),
        Cells::Char(cells) => are_typed_held(kind, cells.as_slice(), mask),
        Cells::Int8(cells) => are_typed_held(kind, cells.as_slice(), mask),
        Cells::Int16(cells) => are_typed_held(kind, cells.as_slice(), mask),
        Cells::Int32(cells) => are_typed_held(kind, cells.as_slice(), mask),
        Cells::Int64(cells) => are_typed_held(kind, cells.as_slice(), mask),
        Cells::UInt8(cells) => are_typed_held(kind, cells.as_slice(), mask),
        Cells::UInt16(cells) => are_typed_held(kind, cells.as_slice(), mask),
        Cells::UInt32(cells) => are_typed_held(kind, cells.as_slice(), mask),
        Cells::UInt64(cells) => are_typed_held(kind, cells.as_slice(), mask),
    }
}

#[tactic(auto, using(crate::proofs::Runs::themselves))]
fn cells_have(cells: &Cells, mask: Option<&Items<u8>>, number: i128) -> bool
    ensures { result ≡ list_any (is_number number) (hidden (wide cells.now) (option_copied mask.entry)) }
{
    match cells {
        Cells::Bool(cells) => has_typed_number(cells.as_slice(), mask, number),
        Cells::Char(cells) => has_typed_number(cells.as_slice(), mask, number),
        Cells::Int8(cells) => has_typed_number(cells.as_slice(), mask, number),
        Cells::Int16(cells) => has_typed_number(cells.as_slice(), mask, number),
        Cells::Int32(cells) => has_typed_number(cells.as_slice(), mask, number),
        Cells::Int64(cells) => has_typed_number(cells.as_slice(), mask, number),
        Cells::UInt8(cells) => has_typed_number(cells.as_slice(), mask, number),
        Cells::UInt16(cells) => has_typed_number(cells.as_slice(), mask, number),
        Cells::UInt32(cells) => has_typed_number(cells.as_slice(), mask, number),
        Cells::UInt64(cells) => has_typed_number(cells.as_slice(), mask, number),
    }
}

#[tactic(auto, using(crate::proofs::Runs::themselves))]
fn cells_bytes(
    alloc: Global,
    kind: NcType,
    cells: &Cells,
    mask: Option<&Items<u8>>,
    fill: i128,
) -> Result<Bytes, AllocError>
    requires { are_held kind fill (hidden (wide cells.now) (option_copied mask)) ≡ true }
    ensures { IfOk result (λ raw. raw ≡ cells_bytes kind fill (hidden (wide cells.now) (option_copied mask.entry))) }
{
    match cells {
        Cells::Bool(cells) => typed_bytes(alloc, kind, cells.as_slice(), mask, fill),
        Cells::Char(cells) => typed_bytes(alloc, kind, cells.as_slice(), mask, fill),
        Cells::Int8(cells) => typed_bytes(alloc, kind, cells.as_slice(), mask, fill),
        Cells::Int16(cells) => typed_bytes(alloc, kind, cells.as_slice(), mask, fill),
        Cells::Int32(cells) => typed_bytes(alloc, kind, cells.as_slice(), mask, fill),
        Cells::Int64(cells) => typed_bytes(alloc, kind, cells.as_slice(), mask, fill),
        Cells::UInt8(cells) => typed_bytes(alloc, kind, cells.as_slice(), mask, fill),
        Cells::UInt16(cells) => typed_bytes(alloc, kind, cells.as_slice(), mask, fill),
        Cells::UInt32(cells) => typed_bytes(alloc, kind, cells.as_slice(), mask, fill),
        Cells::UInt64(cells) => typed_bytes(alloc, kind, cells.as_slice(), mask, fill),
    }
}

/// Whether the type in which a version writes an array's kind holds each of its numbers.
#[tactic(auto, using(crate::proofs::Ranges::cells_hold))]
pub fn array_holds(alloc: Global, version: u8, array: &ArrayValue) -> Result<bool, AllocError>
    requires { All (IsCell array.now.kind) array.now.cells }
    ensures { IfOk result (λ b. b ≡ list_all (holds_cell (type_of version array.now.kind)) array.now.cells) }
{
    let kind = array.kind();
    if holds_all(version, kind) {
        return Ok(true);
    }
    let typed = as_typed(alloc, array)?;
    let (cells, mask) = typed.parts();
    Ok(cells_hold(type_of(version, kind), cells, mask))
}

// Whether an array keeps its cells as a file has them, where this number stands for missing ones.
fn hides(array: &ArrayValue, number: i128) -> bool
    ensures { result ≡ true → list_any (is_number number) array.now.cells ≡ false }
{
    match array.form() {
        Form::Typed(_) => false,
        Form::Stored(stored) => is_hidden(stored, number),
    }
}

/// Whether a cell that is there has this number.
pub fn array_has(alloc: Global, array: &ArrayValue, number: i128) -> Result<bool, AllocError>
    ensures { IfOk result (λ b. b ≡ list_any (is_number number) array.now.cells) }
{
    if hides(array, number) {
        return Ok(false);
    }
    let typed = as_typed(alloc, array)?;
    let (cells, mask) = typed.parts();
    Ok(cells_have(cells, mask, number))
}

// The bytes of an array's cells in memory of their own.
fn written_bytes(
    alloc: Global,
    kind: NcType,
    array: &ArrayValue,
    fill: i128,
) -> Result<Bytes, AllocError>
    requires { are_held kind fill array.now.cells ≡ true }
    ensures { IfOk result (λ raw. raw ≡ cells_bytes kind fill array.now.cells) }
{
    let typed = as_typed(alloc, array)?;
    let (cells, mask) = typed.parts();
    cells_bytes(alloc, kind, cells, mask, fill)
}

/// The bytes of an array's cells in a type, with a number for each missing one. Those of a stored array are shared where
/// they are the same.
pub fn array_bytes(
    alloc: Global,
    kind: NcType,
    array: &ArrayValue,
    fill: i128,
) -> Result<Bytes, AllocError>
    requires { are_held kind fill array.now.cells ≡ true }
    ensures { IfOk result (λ raw. raw ≡ cells_bytes kind fill array.now.cells) }
{
    if let Form::Stored(stored) = array.form() {
        if let Some(raw) = shared_bytes(alloc, kind, stored, fill)? {
            return Ok(raw);
        }
    }
    written_bytes(alloc, kind, array, fill)
}
