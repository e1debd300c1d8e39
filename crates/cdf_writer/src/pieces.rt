//! The bytes of values as pieces: those of fixed variables, and then the records. Values that stand in the file as they do in memory
//! are shared.
ghost use Rattle.std.specs.Prelude.{◌≡◌, ◌++◌, length, flat_map, true, OnOk, IfOk};
ghost use Rattle.xr_files.specs.Classic.{padding};
ghost use Rattle.std.specs.List.{range_with_len};
ghost use Rattle.xr_files.specs.Canonical.{IsFile, can_hold, filling, fixed_vars, record_text, record_vars, values_text, with_filling};

use crate::room::is_record;
use crate::size::padding;
use crate::values::{put_each_record, put_filling, record_vars};
use bytes::{Bytes, BytesQueue};
use std::alloc::{AllocError, Global};
use xr_files::{CdfFile, CdfVar};

fn filling_piece(alloc: Global, var: &CdfVar, n: usize) -> Result<Bytes, AllocError>
    ensures { IfOk result (λ piece. piece ≡ filling var.now n) }
{
    let mut out = Vec::new(alloc);
    put_filling(&mut out, var, n)?;
    Ok(Bytes::from_vec(out)?)
}

// a variable's values, shared, and the padding behind them
fn push_padded(alloc: Global, out: &mut BytesQueue, var: &CdfVar) -> Result<(), AllocError>
    ensures { OnOk result (out.new ≡ out.old ++ (var.now.raw ++ filling var.now (padding (length var.now.raw)))) }
{
    out.push(var.raw.slice(..)?)?;
    match padding(var.raw.len() as u64) {
        0 => Ok(()),
        n => Ok(out.push(filling_piece(alloc, var, n as usize)?)?),
    }
}

fn push_fixed(alloc: Global, out: &mut BytesQueue, file: &CdfFile) -> Result<(), AllocError>
    requires file { IsFile file.now }
    requires held { can_hold file.now ≡ true }
    ensures { OnOk result (out.new ≡ out.old ++ flat_map (λ v. with_filling file.now v v.raw) (fixed_vars file.now)) }
{
    for var in file.vars.as_slice() {
        if !is_record(file, var) {
            push_padded(alloc, out, var)?;
        }
    }
    Ok(())
}

// the records of no variable are empty, those of a lone one stand as its values do, and those of several are put together
fn records_piece(alloc: Global, file: &CdfFile, size: usize) -> Result<Bytes, AllocError>
    requires file { IsFile file.now }
    requires held { can_hold file.now ≡ true }
    ensures { IfOk result (λ piece. piece ≡ flat_map (λ r. flat_map (record_text file.now r) (record_vars file.now)) (range_with_len 0 file.now.numrecs)) }
{
    let vars = record_vars(alloc, file)?;
    match vars.as_slice() {
        [] => Ok(Bytes::new()),
        [var] => var.raw.slice(..),
        several => {
            let mut out = Vec::with_capacity(alloc, size)?;
            put_each_record(&mut out, file, several)?;
            Ok(Bytes::from_vec(out)?)
        }
    }
}

/// Appends the values of a file that its version can hold, whose records take so many bytes.
pub fn push_values(
    alloc: Global,
    out: &mut BytesQueue,
    file: &CdfFile,
    records: usize,
) -> Result<(), AllocError>
    requires file { IsFile file.now }
    requires held { can_hold file.now ≡ true }
    ensures { OnOk result (out.new ≡ out.old ++ values_text file.now) }
{
    push_fixed(alloc, out, file)?;
    Ok(out.push(records_piece(alloc, file, records)?)?)
}
