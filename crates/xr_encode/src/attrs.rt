//! The attributes of a variable as they are written.
ghost use Rattle.std.specs.Prelude.{◌≡◌, ◌∷◌, ◌++◌, true, map, Ok, IfOk, IfSome, OnOk};
ghost use Rattle.std.specs.List.{join_with_byte, list_all};
ghost use Rattle.xr_defs.specs.Decoding.{fill_numbers};
ghost use Rattle.xr_defs.specs.Encoding.{holds, type_of, text_attr, dtype_added, coordinates_added, attrs_of, check_fit};
ghost use Rattle.xr_encode.specs.Outlines.{without_cells};
ghost use Rattle.xr_encode.specs.Attributes.{fill_of_type, fill_in_use, written_anew, option_in_use, fill_given, is_typed};

use crate::fill::{fill_numbers, is_attr, own_fill, uses_option};
use crate::number::{has_type, push_value, type_of};
use crate::outline::Outline;
use std::alloc::{AllocError, Global};
use xr_defs::WriteOptions;
use xr_types::{Attr, ByteList, DType, DeepCopy, Items, Name, NcType};

/// An attribute of a text.
pub fn text_attr(alloc: Global, name: &str, text: ByteList) -> Result<Attr, AllocError>
    ensures { IfOk result (λ a. a ≡ text_attr name.now text) }
{
    Ok(Attr {
        name: Name::from_str(alloc, name)?,
        kind: NcType::Char,
        raw: text,
    })
}

// The attribute `_FillValue` of a type.
fn fill_attr(alloc: Global, kind: NcType, n: i128) -> Result<Attr, AllocError>
    requires { holds kind n ≡ true }
    ensures { IfOk result (λ a. a ≡ fill_of_type kind n) }
{
    let mut raw = Vec::new(alloc);
    push_value(&mut raw, kind, n)?;
    Ok(Attr {
        name: Name::from_str(alloc, "_FillValue")?,
        kind,
        raw: Items::of(raw),
    })
}

/// The number of a `_FillValue` that is in use.
pub fn fill_in_use(alloc: Global, outline: &Outline) -> Result<Option<i128>, AllocError>
    ensures { IfOk result (λ n. n ≡ fill_in_use outline.now) }
{
    if !outline.masked {
        return Ok(None);
    }
    let fills = own_fill(alloc, outline.attrs.as_slice())?;
    match fills.as_slice() {
        [] => Ok(None),
        [fill, ..] => Ok(Some(*fill)),
    }
}

// A copy of an attribute, written anew where it is the `_FillValue` that is in use.
fn own_attr(
    alloc: Global,
    kind: NcType,
    fill: Option<i128>,
    attr: &Attr,
) -> Result<Attr, AllocError>
    requires { IfSome fill (λ n. holds kind n ≡ true) }
    ensures { IfOk result (λ a. a ≡ written_anew kind fill attr.now) }
{
    match fill {
        Some(n) => {
            if is_attr("_FillValue", attr) {
                fill_attr(alloc, kind, n)
            } else {
                attr.deep_copy(alloc)
            }
        }
        None => attr.deep_copy(alloc),
    }
}

fn push_own(
    alloc: Global,
    attrs: &mut Items<Attr>,
    kind: NcType,
    fill: Option<i128>,
    own: &[Attr],
) -> Result<(), AllocError>
    requires { IfSome fill (λ n. holds kind n ≡ true) }
    ensures { OnOk result (attrs.new ≡ attrs.old ++ map (written_anew kind fill) own.now) }
{
    for attr in own {
        attrs.push(own_attr(alloc, kind, fill, attr)?)?;
    }
    Ok(())
}

fn push_dtype(alloc: Global, attrs: &mut Items<Attr>, kind: DType) -> Result<(), AllocError>
    ensures { OnOk result (attrs.new ≡ attrs.old ++ dtype_added kind) }
{
    match kind {
        DType::Bool => {
            let text = Items::from_slice(alloc, "bool".as_bytes())?;
            attrs.push(text_attr(alloc, "dtype", text)?)
        }
        DType::Char | DType::Int8 | DType::Int16 | DType::Int32 | DType::Int64 => Ok(()),
        DType::UInt8 | DType::UInt16 | DType::UInt32 | DType::UInt64 => Ok(()),
    }
}

// The option's number where missing cells are written as it.
fn option_in_use(
    alloc: Global,
    options: &WriteOptions,
    outline: &Outline,
) -> Result<Option<i128>, AllocError>
    ensures { IfOk result (λ n. n ≡ option_in_use options.now outline.now) }
{
    let fills = fill_numbers(alloc, outline.attrs.as_slice())?;
    if uses_option(options, outline, fills.as_slice()) {
        Ok(options.fill)
    } else {
        Ok(None)
    }
}

fn push_fill(
    alloc: Global,
    attrs: &mut Items<Attr>,
    kind: NcType,
    fill: Option<i128>,
) -> Result<(), AllocError>
    requires { IfSome fill (λ n. holds kind n ≡ true) }
    ensures { OnOk result (attrs.new ≡ attrs.old ++ fill_given kind fill) }
{
    match fill {
        Some(n) => attrs.push(fill_attr(alloc, kind, n)?),
        None => Ok(()),
    }
}

// Names with a blank between.
fn joined(alloc: Global, first: &Name, rest: &[Name]) -> Result<ByteList, AllocError>
    ensures { IfOk result (λ text. text ≡ join_with_byte 32 (first.now ∷ rest.now)) }
{
    let mut text = Vec::from_slice(alloc, first.as_bytes())?;
    for name in rest {
        text.push(b' ')?;
        text.extend_from_slice(name.as_bytes())?;
    }
    Ok(Items::of(text))
}

/// Adds the attribute that lists coordinates, where there are any.
pub fn push_coordinates(
    alloc: Global,
    attrs: &mut Items<Attr>,
    names: &[Name],
) -> Result<(), AllocError>
    ensures { OnOk result (attrs.new ≡ attrs.old ++ coordinates_added names.now) }
{
    match names {
        [] => Ok(()),
        [first, rest @ ..] => {
            let text = joined(alloc, first, rest)?;
            attrs.push(text_attr(alloc, "coordinates", text)?)
        }
    }
}

/// The attributes of a variable: its own in order, then those that are added.
pub fn attrs_of(
    alloc: Global,
    options: &WriteOptions,
    outline: &Outline,
) -> Result<Items<Attr>, AllocError>
    requires { check_fit options.now (without_cells outline.now) ≡ Ok tt }
    ensures { IfOk result (λ attrs. attrs ≡ attrs_of options.now (without_cells outline.now)) }
{
    let kind = type_of(options.version, outline.kind);
    let own = fill_in_use(alloc, outline)?;
    let option = option_in_use(alloc, options, outline)?;
    let mut attrs = Items::new(alloc);
    push_own(alloc, &mut attrs, kind, own, outline.attrs.as_slice())?;
    push_own(alloc, &mut attrs, kind, None, outline.coding.as_slice())?;
    push_dtype(alloc, &mut attrs, outline.kind)?;
    push_fill(alloc, &mut attrs, kind, option)?;
    push_coordinates(alloc, &mut attrs, outline.lists.as_slice())?;
    Ok(attrs)
}

// Whether a version has the type of an attribute as it is written, given the number of a `_FillValue` in use.
fn is_typed(version: u8, fill: Option<i128>, attr: &Attr) -> bool
    ensures { result ≡ is_typed version fill attr.now }
{
    (fill.is_some() && is_attr("_FillValue", attr)) || has_type(version, attr.kind)
}

/// Whether a version has the type of each of these attributes as they are written, given the number of a `_FillValue`
/// in use.
pub fn are_typed(version: u8, fill: Option<i128>, attrs: &[Attr]) -> bool
    ensures { result ≡ list_all (is_typed version fill) attrs.now }
{
    for attr in attrs {
        if !is_typed(version, fill, attr) {
            return false;
        }
    }
    true
}
