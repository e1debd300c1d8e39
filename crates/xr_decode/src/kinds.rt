//! Kinds of types of values.
ghost use Rattle.std.specs.Prelude.{◌≡◌};
ghost use Rattle.xr_defs.specs.Decoding.{is_byte, is_char, is_integer};
ghost use Rattle.xr_arrays.specs.Numbers.{cells_kind, is_whole};

use xr_types::{DType, NcType};

pub(crate) fn is_whole(kind: NcType) -> bool
    ensures { result ≡ is_whole kind }
{
    match kind {
        NcType::Float | NcType::Double => false,
        NcType::Byte | NcType::Char | NcType::Short | NcType::Int | NcType::Int64 => true,
        NcType::UByte | NcType::UShort | NcType::UInt | NcType::UInt64 => true,
    }
}

pub(crate) fn is_char(kind: NcType) -> bool
    ensures { result ≡ is_char kind }
{
    matches!(kind, NcType::Char)
}

pub(crate) fn is_byte(kind: NcType) -> bool
    ensures { result ≡ is_byte kind }
{
    matches!(kind, NcType::Byte)
}

/// Whether the values are whole numbers, which texts aren't.
pub(crate) fn is_integer(kind: NcType) -> bool
    ensures { result ≡ is_integer kind }
{
    match kind {
        NcType::Byte | NcType::Short | NcType::Int | NcType::Int64 => true,
        NcType::UByte | NcType::UShort | NcType::UInt | NcType::UInt64 => true,
        NcType::Char | NcType::Float | NcType::Double => false,
    }
}

/// The kind of the cells that hold a type's numbers.
pub(crate) fn cells_kind(kind: NcType) -> DType
    ensures { result ≡ cells_kind kind }
{
    match kind {
        NcType::Byte => DType::Int8,
        NcType::Char => DType::Char,
        NcType::Short => DType::Int16,
        NcType::Int | NcType::Float | NcType::Double => DType::Int32,
        NcType::UByte => DType::UInt8,
        NcType::UShort => DType::UInt16,
        NcType::UInt => DType::UInt32,
        NcType::Int64 => DType::Int64,
        NcType::UInt64 => DType::UInt64,
    }
}
