//! The types of files for kinds of cells, and numbers as the bytes of values.
ghost use Rattle.std.specs.Prelude.{◌≡◌, ◌++◌, true, OnOk};
ghost use Rattle.xr_types.specs.declared.attr.NcType.{NcType as FileType};
ghost use Rattle.xr_types.specs.declared.attr.NcType.TheVariants as types;
ghost use Rattle.xr_files.specs.Classic.{has_type};
ghost use Rattle.xr_defs.specs.Decoding.{is_integer};
ghost use Rattle.xr_defs.specs.Encoding.{classic_type, own_type, holds, may_fill, type_of, value_bytes};
ghost use Rattle.xr_encode.specs.Rows.{holds_all};

use std::alloc::AllocError;
use xr_types::{DType, NcType};

fn classic_type(kind: DType) -> NcType
    ensures { result ≡ classic_type kind }
{
    match kind {
        DType::Bool | DType::Int8 | DType::UInt8 => NcType::Byte,
        DType::Char => NcType::Char,
        DType::Int16 | DType::UInt16 => NcType::Short,
        DType::Int32 | DType::Int64 | DType::UInt32 | DType::UInt64 => NcType::Int,
    }
}

fn own_type(kind: DType) -> NcType
    ensures { result ≡ own_type kind }
{
    match kind {
        DType::Bool | DType::Int8 => NcType::Byte,
        DType::Char => NcType::Char,
        DType::Int16 => NcType::Short,
        DType::Int32 => NcType::Int,
        DType::Int64 => NcType::Int64,
        DType::UInt8 => NcType::UByte,
        DType::UInt16 => NcType::UShort,
        DType::UInt32 => NcType::UInt,
        DType::UInt64 => NcType::UInt64,
    }
}

/// The type in which a version writes a kind.
pub fn type_of(version: u8, kind: DType) -> NcType
    ensures { result ≡ type_of version kind }
{
    if version == 5 {
        own_type(kind)
    } else {
        classic_type(kind)
    }
}

/// Whether a version has a type.
pub fn has_type(version: u8, kind: NcType) -> bool
    ensures { result ≡ has_type version kind }
{
    match kind {
        NcType::Byte
        | NcType::Char
        | NcType::Short
        | NcType::Int
        | NcType::Float
        | NcType::Double => true,
        NcType::UByte | NcType::UShort | NcType::UInt | NcType::Int64 | NcType::UInt64 => {
            version == 5
        }
    }
}

/// Whether a type holds a number.
pub fn holds(kind: NcType, n: i128) -> bool
    ensures { result ≡ holds kind n }
{
    match kind {
        NcType::Byte => n >= -128 && n <= 127,
        NcType::Char | NcType::UByte => n >= 0 && n <= 255,
        NcType::Short => n >= -32_768 && n <= 32_767,
        NcType::Int => n >= -2_147_483_648 && n <= 2_147_483_647,
        NcType::Float | NcType::Double => false,
        NcType::UShort => n >= 0 && n <= 65_535,
        NcType::UInt => n >= 0 && n <= 4_294_967_295,
        NcType::Int64 => n >= -9_223_372_036_854_775_808 && n <= 9_223_372_036_854_775_807,
        NcType::UInt64 => n >= 0 && n <= 18_446_744_073_709_551_615,
    }
}

/// Whether a type that a version writes for a kind holds all numbers of the kind, as that of version 5 always does.
pub fn holds_all(version: u8, kind: DType) -> bool
    ensures { result ≡ holds_all version kind }
{
    match kind {
        DType::Bool | DType::Char | DType::Int8 | DType::Int16 | DType::Int32 => true,
        DType::Int64 | DType::UInt8 | DType::UInt16 | DType::UInt32 | DType::UInt64 => version == 5,
    }
}

/// Whether a number may stand for a missing cell of a kind; truth values are written as bytes.
#[tactic(auto, using(crate::proofs::Ranges::may_fill_is))]
pub fn may_fill(kind: DType, n: i128) -> bool
    ensures { result ≡ may_fill kind n }
{
    holds(own_type(kind), n)
}

/// A type of whole numbers in memory, as the type of a file that it is written in, in N bytes each. `u8` serves `char` and `ubyte`.
pub trait Written<const N: usize> {
    /// The type of the file.
    ghost kind: { FileType };

    /// The bytes of a number.
    fn bytes(n: i128) -> [u8; N]
        requires { holds kind n ≡ true }
        ensures { result ≡ value_bytes kind n };
}

impl Written<1> for u8 {
    ghost kind = { types.Char };

    fn bytes(n: i128) -> [u8; 1] {
        (n as u8).to_be_bytes()
    }
}

impl Written<1> for i8 {
    ghost kind = { types.Byte };

    fn bytes(n: i128) -> [u8; 1] {
        (n as i8).to_be_bytes()
    }
}

impl Written<2> for i16 {
    ghost kind = { types.Short };

    fn bytes(n: i128) -> [u8; 2] {
        (n as i16).to_be_bytes()
    }
}

impl Written<4> for i32 {
    ghost kind = { types.Int };

    fn bytes(n: i128) -> [u8; 4] {
        (n as i32).to_be_bytes()
    }
}

impl Written<2> for u16 {
    ghost kind = { types.UShort };

    fn bytes(n: i128) -> [u8; 2] {
        (n as u16).to_be_bytes()
    }
}

impl Written<4> for u32 {
    ghost kind = { types.UInt };

    fn bytes(n: i128) -> [u8; 4] {
        (n as u32).to_be_bytes()
    }
}

impl Written<8> for i64 {
    ghost kind = { types.Int64 };

    fn bytes(n: i128) -> [u8; 8] {
        (n as i64).to_be_bytes()
    }
}

impl Written<8> for u64 {
    ghost kind = { types.UInt64 };

    fn bytes(n: i128) -> [u8; 8] {
        (n as u64).to_be_bytes()
    }
}

/// Appends the bytes of a number in a type that holds it.
pub fn push_value(out: &mut Vec<u8>, kind: NcType, n: i128) -> Result<(), AllocError>
    requires { holds kind n ≡ true }
    ensures { OnOk result (out.new.items ≡ out.old.items ++ value_bytes kind n) }
{
    match kind {
        NcType::Byte => out.extend_from_slice(&i8::bytes(n)),
        NcType::Char | NcType::UByte => out.extend_from_slice(&u8::bytes(n)),
        NcType::Short => out.extend_from_slice(&i16::bytes(n)),
        NcType::Int => out.extend_from_slice(&i32::bytes(n)),
        // these hold none
        NcType::Float | NcType::Double => Ok(()),
        NcType::UShort => out.extend_from_slice(&u16::bytes(n)),
        NcType::UInt => out.extend_from_slice(&u32::bytes(n)),
        NcType::Int64 => out.extend_from_slice(&i64::bytes(n)),
        NcType::UInt64 => out.extend_from_slice(&u64::bytes(n)),
    }
}

/// Whether a type is one of whole numbers; char is none.
pub fn is_integer(kind: NcType) -> bool
    ensures { result ≡ is_integer kind }
{
    match kind {
        NcType::Byte | NcType::Short | NcType::Int => true,
        NcType::UByte | NcType::UShort | NcType::UInt | NcType::Int64 | NcType::UInt64 => true,
        NcType::Char | NcType::Float | NcType::Double => false,
    }
}
