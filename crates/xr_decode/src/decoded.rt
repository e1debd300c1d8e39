//! The cells and attributes of a variable.
ghost use Rattle.std.specs.Prelude.{◌≡◌, ◌==◌, not, length, true, false, Bool, IfOk};
ghost use Rattle.xr_defs.specs.Decoding.{is_bool, is_masked};
ghost use Rattle.xr_arrays.specs.Numbers.{is_whole};
ghost use Rattle.xr_decode.specs.Cells.{fills_used, attrs_as, array_in, IsDecoded};
ghost use Rattle.xr_decode.specs.Readable.{IsReadableVar};

use crate::attributes::{attr_says, copy_without};
use crate::dims::var_shape;
use crate::fills::fill_numbers;
use crate::kinds::{is_byte, is_char};
use crate::stored::{Source, StoredVar};
use crate::truths::as_truths;
use std::alloc::{AllocError, Global};
use stored_cells::{decoded_cells, mask_for};
use xr_arrays::{ArrayValue, StoredArray};
use xr_types::{Attr, Items, NoMemory};

/// The cells of a variable, whether missing ones may stand among them, and the attributes that are kept.
#[derive(Drop)]
pub struct Decoded {
    pub array: ArrayValue,
    pub masked: bool,
    pub attrs: Items<Attr>,
}

// Whether bytes are truth values.
fn is_bool(var: &StoredVar<'_>) -> bool
    ensures { result ≡ is_bool var.now }
{
    is_byte(var.kind()) && attr_says("dtype", "bool", var.attrs())
}

// The numbers that stand for missing cells, where missing cells are asked for.
fn fills_used(alloc: Global, var: &StoredVar<'_>, mask: bool) -> Result<Items<i128>, NoMemory>
    ensures fills { IfOk result (λ ns. ns ≡ fills_used mask var.now) }
    ensures masked { IfOk result (λ ns. is_masked mask var.now ≡ not (length ns == 0)) }
{
    if !mask || is_char(var.kind()) {
        return Ok(Items::new(alloc));
    }
    fill_numbers(alloc, var.attrs())
}

// The array of a variable of truth values, with its cells in new memory. Those that hold one of the fill numbers are missing.
fn truths_in(
    alloc: Global,
    source: &Source<'_>,
    var: &StoredVar<'_>,
    fills: &[i128],
) -> Result<ArrayValue, NoMemory>
    requires readable { IsReadableVar source.now var.now }
    requires truths { is_bool var.now ≡ true }
    ensures { IfOk result (λ a. (mask : Bool) → fills.now ≡ fills_used mask var.now → a ≡ array_in source.now mask var.now) }
{
    let raw = var.raw(alloc)?;
    let numbers = decoded_cells(alloc, var.kind(), raw.as_slice())?;
    let mask = mask_for(alloc, &numbers, fills)?;
    let cells = as_truths(alloc, &numbers)?;
    let shape = var_shape(alloc, source, var)?;
    Ok(ArrayValue::of(shape, cells, mask))
}

// The array of a variable of other whole numbers, as they stand in the file.
fn numbers_in(
    alloc: Global,
    source: &Source<'_>,
    var: &StoredVar<'_>,
    fills: Items<i128>,
) -> Result<ArrayValue, NoMemory>
    requires readable { IsReadableVar source.now var.now }
    requires whole { is_whole var.now.kind ≡ true }
    requires numbers { is_bool var.now ≡ false }
    ensures { IfOk result (λ a. (mask : Bool) → fills ≡ fills_used mask var.now → a ≡ array_in source.now mask var.now) }
{
    let pieces = var.pieces(alloc)?;
    let shape = var_shape(alloc, source, var)?;
    let array = StoredArray::in_pieces(shape, var.kind(), pieces, fills);
    Ok(ArrayValue::stored(array))
}

// The cells of a variable. Those that hold one of the fill numbers are missing.
fn array_in(
    alloc: Global,
    source: &Source<'_>,
    var: &StoredVar<'_>,
    fills: Items<i128>,
) -> Result<ArrayValue, NoMemory>
    requires readable { IsReadableVar source.now var.now }
    requires whole { is_whole var.now.kind ≡ true }
    ensures { IfOk result (λ a. (mask : Bool) → fills ≡ fills_used mask var.now → a ≡ array_in source.now mask var.now) }
{
    if is_bool(var) {
        truths_in(alloc, source, var, fills.as_slice())
    } else {
        numbers_in(alloc, source, var, fills)
    }
}

// The attributes that a variable keeps.
fn attrs_of(alloc: Global, var: &StoredVar<'_>) -> Result<Items<Attr>, AllocError>
    ensures { IfOk result (λ s. s ≡ attrs_as (is_bool var.now) var.now) }
{
    let attrs = copy_without(alloc, "coordinates", var.attrs())?;
    if !is_bool(var) {
        return Ok(attrs);
    }
    copy_without(alloc, "dtype", attrs.as_slice())
}

/// The cells and attributes of a variable of whole numbers.
pub(crate) fn decode_var(
    alloc: Global,
    source: &Source<'_>,
    var: &StoredVar<'_>,
    mask: bool,
) -> Result<Decoded, NoMemory>
    requires readable { IsReadableVar source.now var.now }
    requires whole { is_whole var.now.kind ≡ true }
    ensures { IfOk result (IsDecoded source.now mask var.now) }
{
    let fills = fills_used(alloc, var, mask)?;
    let masked = !fills.as_slice().is_empty();
    let array = array_in(alloc, source, var, fills)?;
    Ok(Decoded {
        array,
        masked,
        attrs: attrs_of(alloc, var)?,
    })
}
