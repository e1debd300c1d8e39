//! Variables of arrays: their cells are checked and then written.
ghost use Rattle.std.specs.Prelude.{◌≡◌, Ok, All, IfOk};
ghost use Rattle.std.specs.List.{list_any};
ghost use Rattle.xr_types.specs.Results.{Answers};
ghost use Rattle.xr_arrays.specs.Arrays.{IsCell};
ghost use Rattle.xr_defs.specs.Encoding.{check_cells, check_fit, fills_in_use, is_fill_cell};
ghost use Rattle.xr_defs.specs.WellFormed.{AreSeen};
ghost use Rattle.xr_encode.specs.Outlines.{filled_with, without_cells};
ghost use Rattle.xr_encode.specs.Rows.{has_any};
ghost use Rattle.xr_encode.specs.Walk.{var_checked, written_bytes};

use crate::array::{array_bytes, array_has, array_holds};
use crate::check::refuse_unless;
use crate::fill::{fill_for, fill_numbers, uses_option};
use crate::frame::var_with;
use crate::number::type_of;
use crate::outline::Outline;
use bytes::Bytes;
use std::alloc::{AllocError, Global};
use xr_arrays::ArrayValue;
use xr_defs::WriteOptions;
use xr_files::{CdfDim, CdfVar};
use xr_types::{CallFault, Fault};

fn has_any(alloc: Global, array: &ArrayValue, numbers: &[i128]) -> Result<bool, AllocError>
    ensures { IfOk result (λ b. b ≡ has_any numbers.now array.now.cells) }
{
    for number in numbers {
        if array_has(alloc, array, *number)? {
            return Ok(true);
        }
    }
    Ok(false)
}

// Whether a cell that is there would read as missing.
#[tactic(auto, using(crate::proofs::Ranges::lone_fill, crate::proofs::Ranges::fills_found))]
fn collides(
    alloc: Global,
    options: &WriteOptions,
    outline: &Outline,
    array: &ArrayValue,
) -> Result<bool, AllocError>
    ensures { IfOk result (λ b. b ≡ list_any (is_fill_cell (fills_in_use options.now (without_cells outline.now))) array.now.cells) }
{
    let fills = fill_numbers(alloc, outline.attrs.as_slice())?;
    if uses_option(options, outline, fills.as_slice()) {
        array_has(alloc, array, options.fill.unwrap_or(0))
    } else {
        has_any(alloc, array, fills.as_slice())
    }
}

// The type holds each number, and no number that is there reads as missing.
#[tactic(auto, unfolding(xr_defs::specs::Encoding::check_cells, xr_types::specs::Results::unless))]
fn check_array(
    alloc: Global,
    options: &WriteOptions,
    outline: &Outline,
    array: &ArrayValue,
) -> Result<(), CallFault>
    requires kind { array.now.kind ≡ outline.now.kind }
    requires range { All (IsCell array.now.kind) array.now.cells }
    ensures { Answers (λ u. u) result (check_cells options.now (filled_with array.now.cells outline.now)) }
{
    refuse_unless(
        array_holds(alloc, options.version, array)?,
        Fault::CannotHold,
    )?;
    if !outline.masked {
        return Ok(());
    }
    refuse_unless(
        !collides(alloc, options, outline, array)?,
        Fault::FillCollides,
    )
}

// The bytes of cells that were checked.
fn checked_bytes(
    alloc: Global,
    options: &WriteOptions,
    outline: &Outline,
    array: &ArrayValue,
) -> Result<Bytes, AllocError>
    requires kind { array.now.kind ≡ outline.now.kind }
    requires seen { AreSeen outline.now.masked array.now.cells }
    requires fit { check_fit options.now (without_cells outline.now) ≡ Ok tt }
    requires cells { check_cells options.now (filled_with array.now.cells outline.now) ≡ Ok tt }
    ensures { IfOk result (λ raw. raw ≡ written_bytes options.now (filled_with array.now.cells outline.now)) }
{
    let fills = fill_numbers(alloc, outline.attrs.as_slice())?;
    let fill = fill_for(options, outline, fills.as_slice()).unwrap_or(0);
    array_bytes(alloc, type_of(options.version, array.kind()), array, fill)
}

/// A variable with the cells of an array, which are written where the file is small.
#[tactic(auto, unfolding(crate::specs::Walk::var_checked))]
pub fn array_var(
    alloc: Global,
    dims: &[CdfDim],
    options: &WriteOptions,
    outline: &Outline,
    array: &ArrayValue,
    small: bool,
) -> Result<CdfVar, CallFault>
    requires kind { array.now.kind ≡ outline.now.kind }
    requires range { All (IsCell array.now.kind) array.now.cells }
    requires seen { AreSeen outline.now.masked array.now.cells }
    requires fit { check_fit options.now (without_cells outline.now) ≡ Ok tt }
    ensures { Answers (λ v. v) result (var_checked small dims.now options.now (filled_with array.now.cells outline.now)) }
{
    check_array(alloc, options, outline, array)?;
    if !small {
        return Ok(var_with(alloc, dims, options, outline, Bytes::new())?);
    }
    let raw = checked_bytes(alloc, options, outline, array)?;
    Ok(var_with(alloc, dims, options, outline, raw)?)
}
