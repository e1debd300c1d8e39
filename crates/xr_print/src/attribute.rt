//! The lines of attributes.
ghost use Rattle.std.specs.Prelude.{◌≡◌, ◌++◌, [], ◌∷◌, flat_map, OnOk};
ghost use Rattle.xr_defs.specs.Text.{after_blanks};
ghost use Rattle.xr_defs.specs.Printing.{type_name, attr_line, chars_text};
ghost use Rattle.xr_print.specs.Pieces.{unread_text, items_of};

use crate::chars::push_chars;
use crate::grid::push_numbers;
use crate::names::push_name;
use itoa::Buffer;
use std::alloc::AllocError;
use xr_types::{Attr, NcType};

fn type_name(kind: NcType) -> &'static str
    ensures { result.now ≡ type_name kind }
{
    match kind {
        NcType::Byte => "byte",
        NcType::Char => "char",
        NcType::Short => "short",
        NcType::Int => "int",
        NcType::Float => "float",
        NcType::Double => "double",
        NcType::UByte => "ubyte",
        NcType::UShort => "ushort",
        NcType::UInt => "uint",
        NcType::Int64 => "int64",
        NcType::UInt64 => "uint64",
    }
}

// Appends the number of values, which aren't read.
#[tactic(auto, using(crate::proofs::Items::one_item))]
fn push_unread(out: &mut Vec<u8>, digits: &mut Buffer, count: usize) -> Result<(), AllocError>
    ensures { OnOk result (out.new.items ≡ out.old.items ++ after_blanks (unread_text count ∷ [])) }
{
    out.push(b' ')?;
    out.extend_from_slice(digits.format(count).as_bytes())?;
    out.extend_from_slice(b" unread")
}

#[tactic(auto, using(crate::proofs::Items::one_item))]
fn push_text_item(out: &mut Vec<u8>, text: &[u8]) -> Result<(), AllocError>
    ensures { OnOk result (out.new.items ≡ out.old.items ++ after_blanks (chars_text text.now ∷ [])) }
{
    out.push(b' ')?;
    push_chars(out, text)
}

// Appends the values, a blank before each.
fn push_items(
    out: &mut Vec<u8>,
    digits: &mut Buffer,
    kind: NcType,
    raw: &[u8],
) -> Result<(), AllocError>
    ensures { OnOk result (out.new.items ≡ out.old.items ++ after_blanks (items_of kind raw.now)) }
{
    match kind {
        NcType::Char => push_text_item(out, raw),
        NcType::Byte | NcType::Short | NcType::Int | NcType::Int64 => {
            push_numbers(out, digits, kind, raw)
        }
        NcType::UByte | NcType::UShort | NcType::UInt | NcType::UInt64 => {
            push_numbers(out, digits, kind, raw)
        }
        NcType::Float => push_unread(out, digits, raw.len() / 4),
        NcType::Double => push_unread(out, digits, raw.len() / 8),
    }
}

#[tactic(auto, using(crate::proofs::Items::items_of_attr))]
fn push_attr(out: &mut Vec<u8>, digits: &mut Buffer, attr: &Attr) -> Result<(), AllocError>
    ensures { OnOk result (out.new.items ≡ out.old.items ++ attr_line attr.now) }
{
    out.extend_from_slice(b"attr ")?;
    push_name(out, attr.name.as_bytes())?;
    out.push(b' ')?;
    out.extend_from_slice(type_name(attr.kind).as_bytes())?;
    out.push(b':')?;
    push_items(out, digits, attr.kind, attr.raw.as_slice())?;
    Ok(out.push(b'\n')?)
}

/// Appends the lines of attributes.
pub(crate) fn push_attrs(
    out: &mut Vec<u8>,
    digits: &mut Buffer,
    attrs: &[Attr],
) -> Result<(), AllocError>
    ensures { OnOk result (out.new.items ≡ out.old.items ++ flat_map attr_line attrs.now) }
{
    for attr in attrs {
        push_attr(out, digits, attr)?;
    }
    Ok(())
}
