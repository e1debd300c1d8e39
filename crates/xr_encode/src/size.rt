//! How large a file is, whatever its values are. The greatest number of 64 bits stands for all sizes that are larger.
ghost use Rattle.std.specs.Prelude.{◌≡◌, ◌==◌, length};
ghost use Rattle.xr_files.specs.Classic.{dim_at};
ghost use Rattle.xr_files.specs.Files.{positions};
ghost use Rattle.xr_files.specs.Canonical.{fixed_size, is_record, is_small, record_vars, recsize, room, slab};
ghost use Rattle.cdf_writer.specs.Sizes.{capped};

use cdf_writer::{header_size, padded_size, width};
use xr_files::{CdfDim, CdfFile, CdfVar};
use xr_types::MOST_FILE_BYTES;

// How many positions the dimension of a number has in one record.
fn positions(dims: &[CdfDim], number: u64) -> u64
    ensures { result ≡ positions 1 (dim_at dims.now number) }
{
    match dims.get(number as usize) {
        Some(dim) => { if dim.len == 0 { 1 } else { dim.len } }
        None => 1,
    }
}

fn is_record(file: &CdfFile, var: &CdfVar) -> bool
    ensures { result ≡ is_record file.now var.now }
{
    match var.dims.as_slice() {
        [] => false,
        [first, ..] => match file.dims.as_slice().get(*first as usize) {
            Some(dim) => dim.len == 0,
            None => false,
        },
    }
}

// Bytes of a variable's values, of a record variable per record.
fn slab(file: &CdfFile, var: &CdfVar) -> u64
    ensures { result ≡ capped (slab file.now.dims var.now) }
{
    let mut size = width(var.kind);
    for number in var.dims.as_slice() {
        size = size.saturating_mul(positions(file.dims.as_slice(), *number));
    }
    size
}

fn has_lone_record(file: &CdfFile) -> bool
    ensures { result ≡ (length (record_vars file.now) == 1) }
{
    let mut count: usize = 0;
    for var in file.vars.as_slice() {
        if is_record(file, var) {
            count += 1;
        }
    }
    count == 1
}

// The bytes that a variable takes: a lone record variable has no padding.
fn room(file: &CdfFile, var: &CdfVar, lone: bool) -> u64
    requires { lone ≡ (length (record_vars file.now) == 1) }
    ensures { result ≡ capped (room file.now var.now) }
{
    let size = slab(file, var);
    if is_record(file, var) && lone {
        size
    } else {
        padded_size(size)
    }
}

fn fixed_size(file: &CdfFile, lone: bool) -> u64
    requires { lone ≡ (length (record_vars file.now) == 1) }
    ensures { result ≡ capped (fixed_size file.now) }
{
    let mut total: u64 = 0;
    for var in file.vars.as_slice() {
        if !is_record(file, var) {
            total = total.saturating_add(room(file, var, lone));
        }
    }
    total
}

fn record_size(file: &CdfFile, lone: bool) -> u64
    requires { lone ≡ (length (record_vars file.now) == 1) }
    ensures { result ≡ capped (recsize file.now) }
{
    let mut total: u64 = 0;
    for var in file.vars.as_slice() {
        if is_record(file, var) {
            total = total.saturating_add(room(file, var, lone));
        }
    }
    total
}

/// Whether neither a file nor a record of it is larger than a file may be.
pub fn is_small(file: &CdfFile) -> bool
    ensures { result ≡ is_small file.now }
{
    let lone = has_lone_record(file);
    let record = record_size(file, lone);
    let records = record.saturating_mul(file.numrecs);
    let whole = header_size(file)
        .saturating_add(fixed_size(file, lone))
        .saturating_add(records);
    whole <= MOST_FILE_BYTES as u64 && record <= MOST_FILE_BYTES as u64
}
