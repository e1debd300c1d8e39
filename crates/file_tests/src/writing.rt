//! Files whose bytes were worked out by hand from the format's text.
ghost use Rattle.std.specs.Prelude.{◌≡◌, IfOk, true};
ghost use Rattle.xr_files.specs.Files.{is_version};
ghost use Rattle.xr_files.specs.Canonical.{IsFile};

use bytes::{Bytes, BytesQueue};
use cdf_writer::*;
use std::alloc::{AllocError, Global};
use std::test::*;
use xr_files::{CdfDim, CdfFile, CdfVar};
use xr_types::{Items, Name, NcType};

// a variable `v` over `x` that holds 1, 2 and 3
fn three_ints(alloc: Global, version: u8) -> Result<CdfFile, AllocError>
    requires { is_version version ≡ true }
    ensures { IfOk result IsFile }
{
    let mut dims = Items::new(alloc);
    dims.push(CdfDim {
        name: Name::from_str(alloc, "x")?,
        len: 3,
    })?;
    let mut vars = Items::new(alloc);
    vars.push(CdfVar {
        name: Name::from_str(alloc, "v")?,
        dims: Items::from_slice(alloc, &[0])?,
        attrs: Items::new(alloc),
        kind: NcType::Int,
        raw: Bytes::copy_from_slice(alloc, &[0, 0, 0, 1, 0, 0, 0, 2, 0, 0, 0, 3])?,
    })?;
    Ok(CdfFile {
        version,
        numrecs: 0,
        dims,
        attrs: Items::new(alloc),
        vars,
    })
}

// the bytes by the format's text
const THREE_INTS: [u8; 92] = [
    67, 68, 70, 1, 0, 0, 0, 0, 0, 0, 0, 10, 0, 0, 0, 1, 0, 0, 0, 1, 120, 0, 0, 0, 0, 0, 0, 3, 0, 0,
    0, 0, 0, 0, 0, 0, 0, 0, 0, 11, 0, 0, 0, 1, 0, 0, 0, 1, 118, 0, 0, 0, 0, 0, 0, 1, 0, 0, 0, 0, 0,
    0, 0, 0, 0, 0, 0, 0, 0, 0, 0, 4, 0, 0, 0, 12, 0, 0, 0, 80, 0, 0, 0, 1, 0, 0, 0, 2, 0, 0, 0, 3,
];

// those of version 5
const WIDE_INTS: [u8; 140] = [
    67, 68, 70, 5, 0, 0, 0, 0, 0, 0, 0, 0, 0, 0, 0, 10, 0, 0, 0, 0, 0, 0, 0, 1, 0, 0, 0, 0, 0, 0,
    0, 1, 120, 0, 0, 0, 0, 0, 0, 0, 0, 0, 0, 3, 0, 0, 0, 0, 0, 0, 0, 0, 0, 0, 0, 0, 0, 0, 0, 11, 0,
    0, 0, 0, 0, 0, 0, 1, 0, 0, 0, 0, 0, 0, 0, 1, 118, 0, 0, 0, 0, 0, 0, 0, 0, 0, 0, 1, 0, 0, 0, 0,
    0, 0, 0, 0, 0, 0, 0, 0, 0, 0, 0, 0, 0, 0, 0, 0, 0, 0, 0, 4, 0, 0, 0, 0, 0, 0, 0, 12, 0, 0, 0,
    0, 0, 0, 0, 128, 0, 0, 0, 1, 0, 0, 0, 2, 0, 0, 0, 3,
];

// the same from a function with no contract, so that no proof reads them
fn written() -> &'static [u8] {
    &THREE_INTS
}

fn written_wide() -> &'static [u8] {
    &WIDE_INTS
}

#[test]
fn writes_ints_in_version_5(rt: HostRuntime) -> Result<(), Fail> {
    let file = three_ints(rt.alloc(), 5)?;
    match write(rt.alloc(), &file) {
        Ok(bytes) => assert_eq!(rt; bytes.as_slice(), written_wide()),
        Err(_) => assert!(rt; false),
    }
    Ok(())
}

#[test]
fn writes_ints(rt: HostRuntime) -> Result<(), Fail> {
    let file = three_ints(rt.alloc(), 1)?;
    match write(rt.alloc(), &file) {
        Ok(bytes) => assert_eq!(rt; bytes.as_slice(), written()),
        Err(_) => assert!(rt; false),
    }
    Ok(())
}

#[test]
fn ints_have_their_places(rt: HostRuntime) -> Result<(), Fail> {
    let file = three_ints(rt.alloc(), 1)?;
    match layout(rt.alloc(), &file) {
        Ok(places) => {
            assert_eq!(rt; places.header, 80);
            assert_eq!(rt; places.begins.as_slice(), [80].as_slice());
            assert_eq!(rt; places.length, 92);
        }
        Err(_) => assert!(rt; false),
    }
    Ok(())
}

// whether there are two pieces, which hold these bytes, and the second is shared
fn are_header_and_shared_values(pieces: BytesQueue, header: &[u8], values: &[u8]) -> bool {
    let mut pieces = pieces;
    match (pieces.pop(), pieces.pop()) {
        (Some(first), Some(second)) => {
            first.as_slice() == header
                && second.as_slice() == values
                && !second.is_unique()
                && pieces.is_empty()
        }
        _ => false,
    }
}

#[test]
fn values_are_a_piece_that_is_shared(rt: HostRuntime) -> Result<(), Fail> {
    let file = three_ints(rt.alloc(), 1)?;
    let (header, values) = written().split_at_checked(80).ok_or("80 bytes")?;
    match write_pieces(rt.alloc(), &file) {
        Ok(pieces) => {
            assert_eq!(rt; pieces.len(), 92);
            assert!(rt; are_header_and_shared_values(pieces, header, values));
        }
        Err(_) => assert!(rt; false),
    }
    Ok(())
}
