//! Variables without missing cells: numbers, times and texts.
ghost use Rattle.std.specs.Prelude.{◌≡◌, true, false, map, Some, is_some, All};
ghost use Rattle.xr_types.specs.declared.kind.DType.TheVariants as kinds;
ghost use Rattle.xr_types.specs.Results.{Answers};
ghost use Rattle.xr_defs.specs.Encoding.{text_cells};
ghost use Rattle.xr_encode.specs.Outlines.{filled_with};
ghost use Rattle.xr_encode.specs.Walk.{var_checked};

use crate::frame::var_with;
use crate::number::type_of;
use crate::outline::Outline;
use crate::run::{Run, Whole, are_held, bytes_in};
use crate::text::{read_texts, texts_bytes};
use bytes::Bytes;
use std::alloc::Global;
use xr_defs::WriteOptions;
use xr_files::{CdfDim, CdfVar};
use xr_types::{CallFault, Fault, Integers, IntegersForm, TextBytes};

/// A variable of cells none of which is missing, which are written where the file is small.
pub fn run_var<R: Run>(
    alloc: Global,
    dims: &[CdfDim],
    options: &WriteOptions,
    outline: &Outline,
    run: R,
    small: bool,
) -> Result<CdfVar, CallFault>
    requires plain { outline.now.masked ≡ false }
    requires seen { All (λ c. is_some c ≡ true) (R.cells run) }
    ensures { Answers (λ v. v) result (var_checked small dims.now options.now (filled_with (R.cells run) outline.now)) }
{
    let kind = type_of(options.version, outline.kind);
    if !are_held(kind, run) {
        return Err(CallFault::Refused(Fault::CannotHold));
    }
    if !small {
        return Ok(var_with(alloc, dims, options, outline, Bytes::new())?);
    }
    let raw = bytes_in(alloc, kind, run, 0)?;
    Ok(var_with(alloc, dims, options, outline, raw)?)
}

/// A variable of whole numbers, which are written where the file is small.
pub fn integers_var(
    alloc: Global,
    dims: &[CdfDim],
    options: &WriteOptions,
    outline: &Outline,
    labels: &Integers,
    small: bool,
) -> Result<CdfVar, CallFault>
    requires { outline.now.masked ≡ false }
    ensures { Answers (λ v. v) result (var_checked small dims.now options.now (filled_with (map Some labels.now) outline.now)) }
{
    match labels.form() {
        IntegersForm::Signed(cells) => {
            run_var(alloc, dims, options, outline, Whole { cells }, small)
        }
        IntegersForm::Unsigned(cells) => {
            run_var(alloc, dims, options, outline, Whole { cells }, small)
        }
    }
}

/// A variable of texts, which are written where the file is small.
pub fn texts_var(
    alloc: Global,
    dims: &[CdfDim],
    options: &WriteOptions,
    outline: &Outline,
    texts: &[TextBytes],
    small: bool,
) -> Result<CdfVar, CallFault>
    requires plain { outline.now.masked ≡ false }
    requires kind { outline.now.kind ≡ kinds.Char }
    ensures { Answers (λ v. v) result (var_checked small dims.now options.now (filled_with (text_cells texts.now) outline.now)) }
{
    read_texts(texts);
    if !small {
        return Ok(var_with(alloc, dims, options, outline, Bytes::new())?);
    }
    let raw = texts_bytes(alloc, texts)?;
    Ok(var_with(alloc, dims, options, outline, raw)?)
}
