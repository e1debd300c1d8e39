//! Attributes of a file, a dataset, a variable or a coordinate, by the classic format's types.
ghost use Rattle.std.specs.Prelude.{◌≡◌};

use crate::items::{ByteList, DeepCopy, Items};
use crate::text::Name;
use std::alloc::{AllocError, Global};

/// A type of values in a classic file (Unidata, "The NetCDF Classic Format Specification"). Those from `UByte` on stand in
/// version 5 alone.
#[derive(Clone, Copy, PartialEq, Eq)]
pub enum NcType {
    Byte,
    Char,
    Short,
    Int,
    Float,
    Double,
    UByte,
    UShort,
    UInt,
    Int64,
    UInt64,
}

/// An attribute: its values as their bytes, big-endian and without padding.
#[derive(Drop)]
pub struct Attr {
    pub name: Name,
    pub kind: NcType,
    pub raw: ByteList,
}

impl DeepCopy for Attr {
    fn deep_copy(&self, alloc: Global) -> Result<Attr, AllocError> {
        Ok(Attr {
            name: self.name.deep_copy(alloc)?,
            kind: self.kind,
            raw: Items::from_slice(alloc, self.raw.as_slice())?,
        })
    }
}
