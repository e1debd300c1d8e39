//! The bytes of a header.
ghost use Rattle.std.specs.Prelude.{◌≡◌, ◌<◌, ◌≤◌, ◌+◌, ◌^◌, ◌++◌, length, map, flat_map, true, OnOk, OnErr, IfErr};
ghost use Rattle.std.specs.Int.{to_be_bytes};
ghost use Rattle.std.specs.List.{AllByRecursion};
ghost use Rattle.xr_files.specs.Classic.{most_count, number_of, place_width};
ghost use Rattle.xr_files.specs.Files.{padded};
ghost use Rattle.xr_files.specs.Canonical.{AreAttrs, Fits, IsAttr, IsDim, IsFile, IsName, IsVar, attr_text, count_text, dim_text, header_text, is_small, list_text, name_text, number_text, placed, slab, var_text, zeros};
ghost use Rattle.cdf_writer.specs.Sizes.{list_front};

use crate::answer::WriteFault;
use crate::room::{slab, width};
use crate::size::{padded_size, padding};
use std::alloc::AllocError;
use xr_files::{CdfDim, CdfFile, CdfVar};
use xr_types::{Attr, Name, NcType};

fn put_number(out: &mut Vec<u8>, n: u64) -> Result<(), AllocError>
    requires { n < 2 ^ 32 }
    ensures { OnOk result (out.new.items ≡ out.old.items ++ number_text n) }
{
    out.extend_from_slice(&(n as u32).to_be_bytes())
}

// a count takes four bytes, and eight in version 5
fn put_count(out: &mut Vec<u8>, version: u8, n: u64) -> Result<(), AllocError>
    requires { n ≤ most_count version }
    ensures { OnOk result (out.new.items ≡ out.old.items ++ count_text version n) }
{
    if version == 5 {
        out.extend_from_slice(&n.to_be_bytes())
    } else {
        put_number(out, n)
    }
}

fn put_zeros(out: &mut Vec<u8>, n: u64) -> Result<(), AllocError>
    requires { n < 4 }
    ensures { OnOk result (out.new.items ≡ out.old.items ++ zeros n) }
{
    out.extend_from_slice(&[0u8; 4][..n as usize])
}

// a place takes four bytes in version 1, and eight in the others
fn put_place(out: &mut Vec<u8>, version: u8, place: u64) -> Result<(), AllocError>
    requires { place < 2 ^ 32 }
    ensures { OnOk result (out.new.items ≡ out.old.items ++ to_be_bytes (place_width version) place) }
{
    if version == 1 {
        put_number(out, place)
    } else {
        out.extend_from_slice(&place.to_be_bytes())
    }
}

fn put_name(out: &mut Vec<u8>, version: u8, name: &Name) -> Result<(), AllocError>
    requires { IsName version name.now }
    ensures { OnOk result (out.new.items ≡ out.old.items ++ name_text version name.now) }
{
    let text = name.as_bytes();
    let count = text.len() as u64;
    put_count(out, version, count)?;
    out.extend_from_slice(text)?;
    put_zeros(out, padding(count))
}

fn put_list_front(out: &mut Vec<u8>, version: u8, tag: u64, count: usize) -> Result<(), AllocError>
    requires tag { tag < 2 ^ 32 }
    requires count { count ≤ most_count version }
    ensures { OnOk result (out.new.items ≡ out.old.items ++ list_front version tag count) }
{
    put_number(out, if count == 0 { 0 } else { tag })?;
    put_count(out, version, count as u64)
}

fn put_dim(out: &mut Vec<u8>, version: u8, dim: &CdfDim) -> Result<(), AllocError>
    requires { IsDim version dim.now }
    ensures { OnOk result (out.new.items ≡ out.old.items ++ dim_text version dim.now) }
{
    put_name(out, version, &dim.name)?;
    put_count(out, version, dim.len)
}

fn put_dims(out: &mut Vec<u8>, file: &CdfFile) -> Result<(), AllocError>
    requires { IsFile file.now }
    ensures { OnOk result (out.new.items ≡ out.old.items ++ list_text file.now.version 10 (dim_text file.now.version) file.now.dims) }
{
    let dims = file.dims.as_slice();
    put_list_front(out, file.version, 10, dims.len())?;
    for dim in dims {
        put_dim(out, file.version, dim)?;
    }
    Ok(())
}

fn type_number(kind: NcType) -> u64
    ensures { result ≡ number_of kind }
{
    match kind {
        NcType::Byte => 1,
        NcType::Char => 2,
        NcType::Short => 3,
        NcType::Int => 4,
        NcType::Float => 5,
        NcType::Double => 6,
        NcType::UByte => 7,
        NcType::UShort => 8,
        NcType::UInt => 9,
        NcType::Int64 => 10,
        NcType::UInt64 => 11,
    }
}

fn put_attr(out: &mut Vec<u8>, version: u8, attr: &Attr) -> Result<(), AllocError>
    requires { IsAttr version attr.now }
    ensures { OnOk result (out.new.items ≡ out.old.items ++ attr_text version attr.now) }
{
    let raw = attr.raw.as_slice();
    let size = raw.len() as u64;
    put_name(out, version, &attr.name)?;
    put_number(out, type_number(attr.kind))?;
    put_count(out, version, size / width(attr.kind))?;
    out.extend_from_slice(raw)?;
    put_zeros(out, padding(size))
}

fn put_attrs(out: &mut Vec<u8>, version: u8, attrs: &[Attr]) -> Result<(), AllocError>
    requires { AreAttrs version attrs.now }
    ensures { OnOk result (out.new.items ≡ out.old.items ++ list_text version 12 (attr_text version) attrs.now) }
{
    put_list_front(out, version, 12, attrs.len())?;
    for attr in attrs {
        put_attr(out, version, attr)?;
    }
    Ok(())
}

fn put_dim_numbers(out: &mut Vec<u8>, version: u8, numbers: &[u64]) -> Result<(), AllocError>
    requires { AllByRecursion (λ n. n ≤ most_count version) numbers.now }
    ensures { OnOk result (out.new.items ≡ out.old.items ++ flat_map (count_text version) numbers.now) }
{
    for number in numbers {
        put_count(out, version, *number)?;
    }
    Ok(())
}

// a variable whose values begin at a place
#[tactic(auto, using(xr_files::proofs::Counts::small_fits))]
fn put_var(out: &mut Vec<u8>, file: &CdfFile, var: &CdfVar, begin: u64) -> Result<(), AllocError>
    requires var { IsVar file.now var.now }
    requires dims { Fits file.now.version (length file.now.dims) }
    requires size { padded (slab file.now.dims var.now) < 2 ^ 32 }
    requires begin { begin < 2 ^ 32 }
    ensures { OnOk result (out.new.items ≡ out.old.items ++ var_text file.now.version file.now.dims (var.now, begin)) }
{
    let version = file.version;
    let numbers = var.dims.as_slice();
    put_name(out, version, &var.name)?;
    put_count(out, version, numbers.len() as u64)?;
    put_dim_numbers(out, version, numbers)?;
    put_attrs(out, version, var.attrs.as_slice())?;
    put_number(out, type_number(var.kind))?;
    put_count(out, version, padded_size(slab(file, var)))?;
    put_place(out, version, begin)
}

fn put_vars(out: &mut Vec<u8>, file: &CdfFile, begins: &[u64]) -> Result<(), AllocError>
    requires file { IsFile file.now }
    requires small { is_small file.now ≡ true }
    requires begins { begins.now ≡ map (λ x. x.1) (placed file.now) }
    ensures { OnOk result (out.new.items ≡ out.old.items ++ list_text file.now.version 11 (var_text file.now.version file.now.dims) (placed file.now)) }
{
    let vars = file.vars.as_slice();
    put_list_front(out, file.version, 11, vars.len())?;
    for i in 0..vars.len() {
        put_var(out, file, &vars[i], begins[i])?;
    }
    Ok(())
}

/// The header of a small file whose variables begin at their places.
pub fn put_header(out: &mut Vec<u8>, file: &CdfFile, begins: &[u64]) -> Result<(), AllocError>
    requires file { IsFile file.now }
    requires small { is_small file.now ≡ true }
    requires begins { begins.now ≡ map (λ x. x.1) (placed file.now) }
    ensures { OnOk result (out.new.items ≡ out.old.items ++ header_text file.now (placed file.now)) }
{
    out.extend_from_slice(&[b'C', b'D', b'F', file.version])?;
    put_count(out, file.version, file.numrecs)?;
    put_dims(out, file)?;
    put_attrs(out, file.version, file.attrs.as_slice())?;
    put_vars(out, file, begins)
}
