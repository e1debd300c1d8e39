//! How many bytes the parts of a header take. The greatest number of 64 bits stands for all that are larger.
ghost use Rattle.std.specs.Prelude.{◌≡◌, length, map, flat_map};
ghost use Rattle.xr_files.specs.Classic.{padding};
ghost use Rattle.xr_files.specs.Files.{padded};
ghost use Rattle.xr_files.specs.Canonical.{attr_text, dim_text, header_size, list_text, name_text, var_text};
ghost use Rattle.cdf_writer.specs.Sizes.{capped, count_bytes, place_bytes};

use xr_files::{CdfDim, CdfFile, CdfVar};
use xr_types::{Attr, Name};

/// How many bytes fill a text up to a multiple of four.
pub fn padding(n: u64) -> u64
    ensures { result ≡ padding n }
{
    (4 - n % 4) % 4
}

/// A size with the padding behind it.
pub fn padded_size(n: u64) -> u64
    ensures { result ≡ capped (padded n) }
{
    n.saturating_add(padding(n))
}

fn count_bytes(version: u8) -> u64
    ensures { result ≡ count_bytes version }
{
    if version == 5 { 8 } else { 4 }
}

fn name_size(version: u8, name: &Name) -> u64
    ensures { result ≡ capped (length (name_text version name.now)) }
{
    padded_size(name.as_bytes().len() as u64).saturating_add(count_bytes(version))
}

fn dim_size(version: u8, dim: &CdfDim) -> u64
    ensures { result ≡ capped (length (dim_text version dim.now)) }
{
    name_size(version, &dim.name).saturating_add(count_bytes(version))
}

fn dims_size(version: u8, dims: &[CdfDim]) -> u64
    ensures { result ≡ capped (length (list_text version 10 (dim_text version) dims.now)) }
{
    let mut total: u64 = 4 + count_bytes(version);
    for dim in dims {
        total = total.saturating_add(dim_size(version, dim));
    }
    total
}

fn attr_size(version: u8, attr: &Attr) -> u64
    ensures { result ≡ capped (length (attr_text version attr.now)) }
{
    let values = padded_size(attr.raw.as_slice().len() as u64);
    name_size(version, &attr.name)
        .saturating_add(values)
        .saturating_add(4 + count_bytes(version))
}

fn attrs_size(version: u8, attrs: &[Attr]) -> u64
    ensures { result ≡ capped (length (list_text version 12 (attr_text version) attrs.now)) }
{
    let mut total: u64 = 4 + count_bytes(version);
    for attr in attrs {
        total = total.saturating_add(attr_size(version, attr));
    }
    total
}

fn place_bytes(version: u8) -> u64
    ensures { result ≡ place_bytes version }
{
    if version == 1 { 4 } else { 8 }
}

fn var_size(file: &CdfFile, var: &CdfVar) -> u64
    ensures { result ≡ capped (length (var_text file.now.version file.now.dims (var.now, 0))) }
{
    let version = file.version;
    let count = count_bytes(version);
    let numbers = (var.dims.as_slice().len() as u64).saturating_mul(count);
    let rest = attrs_size(version, var.attrs.as_slice()).saturating_add(
        4 + 2 * count + place_bytes(version),
    );
    name_size(version, &var.name)
        .saturating_add(numbers)
        .saturating_add(rest)
}

fn vars_size(file: &CdfFile) -> u64
    ensures { result ≡ capped (length (list_text file.now.version 11 (var_text file.now.version file.now.dims) (map (λ v. (v, 0)) file.now.vars))) }
{
    let mut total: u64 = 4 + count_bytes(file.version);
    for var in file.vars.as_slice() {
        total = total.saturating_add(var_size(file, var));
    }
    total
}

/// The length of a file's header.
pub fn header_size(file: &CdfFile) -> u64
    ensures { result ≡ capped (header_size file.now) }
{
    let dims = dims_size(file.version, file.dims.as_slice());
    let attrs = attrs_size(file.version, file.attrs.as_slice());
    dims.saturating_add(attrs)
        .saturating_add(vars_size(file))
        .saturating_add(4 + count_bytes(file.version))
}
