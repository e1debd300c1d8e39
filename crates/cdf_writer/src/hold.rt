//! Whether a version can hold a file: it has each type, and there is one record dimension at most, which stands first
//! only.
ghost use Rattle.std.specs.Prelude.{◌≡◌, ◌<◌, length, not};
ghost use Rattle.std.specs.List.{list_all, AllByRecursion};
ghost use Rattle.xr_files.specs.Classic.{dim_at, has_type, is_record_dim};
ghost use Rattle.xr_files.specs.Canonical.{IsFile, IsVar, can_hold, can_hold_var, count_record_dims, has_types, in_place};

use xr_files::{CdfDim, CdfFile, CdfVar};
use xr_types::{Attr, NcType};

fn has_type(version: u8, kind: NcType) -> bool
    ensures { result ≡ has_type version kind }
{
    match kind {
        NcType::Byte
        | NcType::Char
        | NcType::Short
        | NcType::Int
        | NcType::Float
        | NcType::Double => true,
        NcType::UByte | NcType::UShort | NcType::UInt | NcType::Int64 | NcType::UInt64 => {
            version == 5
        }
    }
}

fn has_types(version: u8, attrs: &[Attr]) -> bool
    ensures { result ≡ has_types version attrs.now }
{
    for attr in attrs {
        if !has_type(version, attr.kind) {
            return false;
        }
    }
    true
}

fn count_record_dims(dims: &[CdfDim]) -> usize
    ensures { result ≡ count_record_dims dims.now }
{
    dims.iter().filter(|dim| dim.len == 0).count()
}

fn have_no_record(dims: &[CdfDim], numbers: &[u64]) -> bool
    requires { AllByRecursion (λ i. i < length dims.now) numbers.now }
    ensures { result ≡ list_all (λ j. not (is_record_dim (dim_at dims.now j))) numbers.now }
{
    for number in numbers {
        if dims[*number as usize].len == 0 {
            return false;
        }
    }
    true
}

fn is_in_place(file: &CdfFile, var: &CdfVar) -> bool
    requires { IsVar file.now var.now }
    ensures { result ≡ in_place file.now.dims var.now.dims }
{
    match var.dims.as_slice() {
        [] => true,
        [_, rest @ ..] => have_no_record(file.dims.as_slice(), rest),
    }
}

fn can_hold_var(file: &CdfFile, var: &CdfVar) -> bool
    requires { IsVar file.now var.now }
    ensures { result ≡ can_hold_var file.now var.now }
{
    has_type(file.version, var.kind)
        && has_types(file.version, var.attrs.as_slice())
        && is_in_place(file, var)
}

fn can_hold_vars(file: &CdfFile) -> bool
    requires { IsFile file.now }
    ensures { result ≡ list_all (can_hold_var file.now) file.now.vars }
{
    for var in file.vars.as_slice() {
        if !can_hold_var(file, var) {
            return false;
        }
    }
    true
}

/// Whether the file's version can hold it.
pub fn can_hold(file: &CdfFile) -> bool
    requires { IsFile file.now }
    ensures { result ≡ can_hold file.now }
{
    count_record_dims(file.dims.as_slice()) <= 1
        && has_types(file.version, file.attrs.as_slice())
        && can_hold_vars(file)
}
