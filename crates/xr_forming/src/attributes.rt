//! Attributes.
ghost use Rattle.std.specs.Prelude.{◌≡◌, true};
ghost use Rattle.xr_files.specs.Classic.{attr_names};
ghost use Rattle.xr_types.specs.Names.{among};
ghost use Rattle.xr_types.specs.Widths.{width};
ghost use Rattle.xr_defs.specs.WellFormed.{AreAttributes, IsAttribute};

use crate::names::is_named;
use xr_types::{Attr, Name, NcType};

fn width(kind: NcType) -> usize
    ensures { result ≡ width kind }
{
    match kind {
        NcType::Byte | NcType::Char | NcType::UByte => 1,
        NcType::Short | NcType::UShort => 2,
        NcType::Int | NcType::UInt | NcType::Float => 4,
        NcType::Int64 | NcType::UInt64 | NcType::Double => 8,
    }
}

fn is_attribute(attr: &Attr) -> bool
    ensures { result ≡ true → IsAttribute attr.now }
{
    let width = width(attr.kind);
    let count = attr.raw.as_slice().len() / width;
    is_named(&attr.name) && count * width == attr.raw.as_slice().len()
}

fn has_attribute(attrs: &[Attr], name: &Name) -> bool
    ensures { result ≡ among (attr_names attrs.now) name.now }
{
    match attrs {
        [] => false,
        [attr, rest @ ..] => name.is(&attr.name) || has_attribute(rest, name),
    }
}

/// Whether the attributes have names that differ, and whole values of their types.
#[tactic(auto, using(crate::proofs::More::attribute_more))]
pub(crate) fn are_attributes(attrs: &[Attr]) -> bool
    ensures { result ≡ true → AreAttributes attrs.now }
{
    match attrs {
        [] => true,
        [attr, rest @ ..] => {
            is_attribute(attr) && !has_attribute(rest, &attr.name) && are_attributes(rest)
        }
    }
}
