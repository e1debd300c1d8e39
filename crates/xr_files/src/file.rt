//! A classic file as its header lists it (Unidata, "The NetCDF Classic Format Specification").
use bytes::Bytes;
use xr_types::{Attr, Items, Name, NcType};

/// A dimension. The length 0 marks the record dimension.
#[derive(Drop)]
pub struct CdfDim {
    pub name: Name,
    pub len: u64,
}

/// What the header says of a variable: its dimensions by their numbers, counted from 0 in the order of the
/// list, and the byte at which its values begin.
#[derive(Drop)]
pub struct VarHead {
    pub name: Name,
    pub dims: Items<u64>,
    pub attrs: Items<Attr>,
    pub kind: NcType,
    pub begin: u64,
}

/// A variable with its values in row order, big-endian and without padding. Other variables and arrays may share the bytes.
#[derive(Drop)]
pub struct CdfVar {
    pub name: Name,
    pub dims: Items<u64>,
    pub attrs: Items<Attr>,
    pub kind: NcType,
    pub raw: Bytes,
}

/// A whole file. `numrecs` is the number of records; of a streamed file, those that lie in it.
#[derive(Drop)]
pub struct CdfFile {
    pub version: u8,
    pub numrecs: u64,
    pub dims: Items<CdfDim>,
    pub attrs: Items<Attr>,
    pub vars: Items<CdfVar>,
}
