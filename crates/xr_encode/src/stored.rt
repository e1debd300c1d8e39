//! Arrays that keep their cells as a file has them: which numbers no cell has, and their bytes.
ghost use Rattle.std.specs.Prelude.{◌≡◌, ◌<◌, ℕ, true, false, get_or, ⊤, MatchOption, IfOk};
ghost use Rattle.std.specs.List.{list_all, list_any};
ghost use Rattle.std.specs.Ordering.{int_eq};
ghost use Rattle.xr_arrays.specs.Stored.{is_fill};
ghost use Rattle.xr_encode.specs.Rows.{cells_bytes, is_number};

use bytes::Bytes;
use std::alloc::{AllocError, Global};
use xr_arrays::StoredArray;
use xr_types::NcType;

fn is_fill(fills: &[i128], number: i128) -> bool
    ensures { result ≡ is_fill fills.now number }
{
    for fill in fills {
        if number == *fill {
            return true;
        }
    }
    false
}

/// Whether a number stands for missing cells, so that no cell that is there has it.
pub fn is_hidden(array: &StoredArray, number: i128) -> bool
    ensures { result ≡ true → list_any (is_number number) array.now.cells ≡ false }
{
    let parts = array.parts();
    is_fill(parts.fills, number)
}

fn are_all(fills: &[i128], number: i128) -> bool
    ensures { result ≡ list_all (int_eq number) fills.now }
{
    for fill in fills {
        if number != *fill {
            return false;
        }
    }
    true
}

fn is_same(a: NcType, b: NcType) -> bool
    ensures { result ≡ true → a ≡ b }
{
    match (a, b) {
        (NcType::Byte, NcType::Byte) => true,
        (NcType::Char, NcType::Char) => true,
        (NcType::Short, NcType::Short) => true,
        (NcType::Int, NcType::Int) => true,
        (NcType::Float, NcType::Float) => true,
        (NcType::Double, NcType::Double) => true,
        (NcType::UByte, NcType::UByte) => true,
        (NcType::UShort, NcType::UShort) => true,
        (NcType::UInt, NcType::UInt) => true,
        (NcType::Int64, NcType::Int64) => true,
        (NcType::UInt64, NcType::UInt64) => true,
        _ => false,
    }
}

// What a slice holds are bytes.
fn read_bytes(raw: &[u8])
    ensures { (i : ℕ) → get_or raw.now i 0 < 256 }
{}

/// The bytes of a stored array, shared where they stand in one piece, if they are of the type and each number that stands for
/// missing cells is the one that is written for them.
pub fn shared_bytes(
    alloc: Global,
    kind: NcType,
    array: &StoredArray,
    fill: i128,
) -> Result<Option<Bytes>, AllocError>
    ensures { IfOk result (λ found. MatchOption found ⊤ (λ raw. raw ≡ cells_bytes kind fill array.now.cells)) }
{
    let parts = array.parts();
    if !is_same(parts.kind, kind) {
        return Ok(None);
    }
    if !are_all(parts.fills, fill) {
        return Ok(None);
    }
    let raw = parts.pieces.bytes(alloc, parts.kind)?;
    read_bytes(raw.as_slice());
    Ok(Some(raw))
}
