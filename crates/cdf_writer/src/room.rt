//! The bytes that variables take among the fixed values and in each record. The greatest number of 64 bits stands
//! for all that are larger.
ghost use Rattle.std.specs.Prelude.{◌≡◌, ◌==◌, length};
ghost use Rattle.xr_types.specs.Widths.{width};
ghost use Rattle.xr_files.specs.Classic.{dim_at};
ghost use Rattle.xr_files.specs.Files.{positions};
ghost use Rattle.xr_files.specs.Canonical.{IsVar, IsFile, fixed_size, is_record, record_vars, recsize, room, slab};
ghost use Rattle.cdf_writer.specs.Sizes.{capped};

use crate::size::padded_size;
use xr_files::{CdfDim, CdfFile, CdfVar};
use xr_types::NcType;

/// Bytes of a value.
pub fn width(kind: NcType) -> u64
    ensures { result ≡ width kind }
{
    match kind {
        NcType::Byte | NcType::Char | NcType::UByte => 1,
        NcType::Short | NcType::UShort => 2,
        NcType::Int | NcType::Float | NcType::UInt => 4,
        NcType::Double | NcType::Int64 | NcType::UInt64 => 8,
    }
}

/// Whether a variable has records.
pub fn is_record(file: &CdfFile, var: &CdfVar) -> bool
    requires { IsVar file.now var.now }
    ensures { result ≡ is_record file.now var.now }
{
    match var.dims.as_slice() {
        [] => false,
        [first, ..] => file.dims.as_slice()[*first as usize].len == 0,
    }
}

// how many positions a dimension has in one record
fn positions(dim: &CdfDim) -> u64
    ensures { result ≡ positions 1 dim.now }
{
    if dim.len == 0 { 1 } else { dim.len }
}

/// Bytes of a variable's values, of a record variable per record.
pub fn slab(file: &CdfFile, var: &CdfVar) -> u64
    requires { IsVar file.now var.now }
    ensures { result ≡ capped (slab file.now.dims var.now) }
{
    let dims = file.dims.as_slice();
    let mut size = width(var.kind);
    for number in var.dims.as_slice() {
        size = size.saturating_mul(positions(&dims[*number as usize]));
    }
    size
}

/// Whether just one variable has records.
pub fn has_lone_record(file: &CdfFile) -> bool
    requires { IsFile file.now }
    ensures { result ≡ (length (record_vars file.now) == 1) }
{
    let mut count: usize = 0;
    for var in file.vars.as_slice() {
        if is_record(file, var) {
            count += 1;
        }
    }
    count == 1
}

/// The bytes that a variable takes: a lone record variable has no padding.
pub fn room(file: &CdfFile, var: &CdfVar, lone: bool) -> u64
    requires var { IsVar file.now var.now }
    requires lone { lone ≡ (length (record_vars file.now) == 1) }
    ensures { result ≡ capped (room file.now var.now) }
{
    let size = slab(file, var);
    if is_record(file, var) && lone {
        size
    } else {
        padded_size(size)
    }
}

/// What the fixed variables take together.
pub fn fixed_size(file: &CdfFile, lone: bool) -> u64
    requires file { IsFile file.now }
    requires lone { lone ≡ (length (record_vars file.now) == 1) }
    ensures { result ≡ capped (fixed_size file.now) }
{
    let mut total: u64 = 0;
    for var in file.vars.as_slice() {
        if !is_record(file, var) {
            total = total.saturating_add(room(file, var, lone));
        }
    }
    total
}

/// What the record variables take in each record.
pub fn record_size(file: &CdfFile, lone: bool) -> u64
    requires file { IsFile file.now }
    requires lone { lone ≡ (length (record_vars file.now) == 1) }
    ensures { result ≡ capped (recsize file.now) }
{
    let mut total: u64 = 0;
    for var in file.vars.as_slice() {
        if is_record(file, var) {
            total = total.saturating_add(room(file, var, lone));
        }
    }
    total
}
