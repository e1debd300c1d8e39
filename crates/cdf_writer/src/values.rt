//! The bytes of fillings and of records.
ghost use Rattle.std.specs.Prelude.{◌≡◌, ◌≢◌, ◌*◌, ◌-◌, ◌<◌, ◌++◌, length, map, flat_map, take, drop, true, OnOk, IfOk};
ghost use Rattle.xr_files.specs.Classic.{padding};
ghost use Rattle.std.specs.List.{range_with_len};
ghost use Rattle.xr_files.specs.Canonical.{IsFile, can_hold, default_fill, fill_of, filling, is_own_fill, record_text, record_vars, slab};

use crate::room::{is_record, width};
use crate::size::padding;
use std::alloc::{AllocError, Global};
use xr_files::{CdfFile, CdfVar};
use xr_types::{Attr, NcType};

fn default_fill(kind: NcType) -> &'static [u8]
    ensures { result.now ≡ default_fill kind }
{
    match kind {
        NcType::Byte => &[0x81],
        NcType::Char => &[0],
        NcType::Short => &[0x80, 0x01],
        NcType::UByte => &[0xff],
        NcType::UShort => &[0xff, 0xff],
        NcType::Int
        | NcType::Float
        | NcType::Double
        | NcType::UInt
        | NcType::Int64
        | NcType::UInt64 => &[],
    }
}

// whether an attribute is the fill value of a variable of a type
fn is_own_fill(kind: NcType, attr: &Attr) -> bool
    ensures { result ≡ is_own_fill kind attr.now }
{
    attr.name.as_str() == "_FillValue"
        && attr.kind == kind
        && attr.raw.as_slice().len() as u64 == width(kind)
}

fn fill_of(var: &CdfVar) -> &[u8]
    ensures { result.now ≡ fill_of var.now }
{
    for attr in var.attrs.as_slice() {
        if is_own_fill(var.kind, attr) {
            return attr.raw.as_slice();
        }
    }
    default_fill(var.kind)
}

// the first n bytes of the fill, and how many are still wanted
fn put_front(out: &mut Vec<u8>, fill: &[u8], n: usize) -> Result<usize, AllocError>
    ensures bytes { OnOk result (out.new.items ≡ out.old.items ++ take n fill.now) }
    ensures left { IfOk result (λ left. left ≡ n - length fill.now) }
{
    let count = n.min(fill.len());
    out.extend_from_slice(&fill[..count])?;
    Ok(n - count)
}

/// Up to three bytes that repeat the variable's fill.
pub fn put_filling(out: &mut Vec<u8>, var: &CdfVar, n: usize) -> Result<(), AllocError>
    ensures { OnOk result (out.new.items ≡ out.old.items ++ filling var.now n) }
{
    let fill = fill_of(var);
    let left = put_front(out, fill, n)?;
    let left = put_front(out, fill, left)?;
    put_front(out, fill, left)?;
    Ok(())
}

// values and the padding behind them
fn put_padded(out: &mut Vec<u8>, var: &CdfVar, raw: &[u8]) -> Result<(), AllocError>
    ensures { OnOk result (out.new.items ≡ out.old.items ++ (raw.now ++ filling var.now (padding (length raw.now)))) }
{
    out.extend_from_slice(raw)?;
    match padding(raw.len() as u64) {
        0 => Ok(()),
        n => put_filling(out, var, n as usize),
    }
}

/// The variables that have records.
pub fn record_vars<'a>(alloc: Global, file: &'a CdfFile) -> Result<Vec<&'a CdfVar>, AllocError>
    requires { IsFile file.now }
    ensures { IfOk result (λ vars. map (λ v. v.now) vars.items ≡ record_vars file.now) }
{
    let mut vars = Vec::new(alloc);
    for var in file.vars.as_slice() {
        if is_record(file, var) {
            vars.push(var)?;
        }
    }
    Ok(vars)
}

// the values of a variable in one record
fn record_values<'a>(file: &CdfFile, var: &'a CdfVar, index: u64) -> &'a [u8]
    requires size { length var.now.raw ≡ file.now.numrecs * slab file.now.dims var.now }
    requires index { index < file.now.numrecs }
    ensures { result.now ≡ take (slab file.now.dims var.now) (drop (index * slab file.now.dims var.now) var.now.raw) }
{
    let raw = var.raw.as_slice();
    let size = raw.len() / file.numrecs as usize;
    let (_, rest) = raw.split_at(index as usize * size);
    let (values, _) = rest.split_at(size);
    values
}

fn put_record(
    out: &mut Vec<u8>,
    file: &CdfFile,
    vars: &[&CdfVar],
    index: u64,
) -> Result<(), AllocError>
    requires file { IsFile file.now }
    requires held { can_hold file.now ≡ true }
    requires vars { map (λ v. v.now) vars.now ≡ record_vars file.now }
    requires many { length (record_vars file.now) ≢ 1 }
    requires index { index < file.now.numrecs }
    ensures { OnOk result (out.new.items ≡ out.old.items ++ flat_map (record_text file.now index) (record_vars file.now)) }
{
    for var in vars {
        put_padded(out, var, record_values(file, var, index))?;
    }
    Ok(())
}

/// The records of several variables, one behind the other.
pub fn put_each_record(
    out: &mut Vec<u8>,
    file: &CdfFile,
    vars: &[&CdfVar],
) -> Result<(), AllocError>
    requires file { IsFile file.now }
    requires held { can_hold file.now ≡ true }
    requires vars { map (λ v. v.now) vars.now ≡ record_vars file.now }
    requires many { length (record_vars file.now) ≢ 1 }
    ensures { OnOk result (out.new.items ≡ out.old.items ++ flat_map (λ r. flat_map (record_text file.now r) (record_vars file.now)) (range_with_len 0 file.now.numrecs)) }
{
    for index in 0..file.numrecs {
        put_record(out, file, vars, index)?;
    }
    Ok(())
}
