//! Values that are gathered from the records of files, whose answers were worked out by hand.
//!
//! A record of the long files takes 4,096 bytes, so that 64 of them are gone through at a time.
use bytes::Bytes;
use cdf_reader::{gathered_values, read_head, values_in_pieces};
use std::alloc::{AllocError, Global};
use std::test::*;
use xr_types::NcType;

/// The header of the long files behind the number of records: the bytes `b` over `t` and `x`, 4,089 in each record and three more that
/// fill it up, and the int `i` over `t`.
const LONG: [u8; 124] = [
    0, 0, 0, 10, 0, 0, 0, 2, 0, 0, 0, 1, 116, 0, 0, 0, 0, 0, 0, 0, 0, 0, 0, 1, 120, 0, 0, 0, 0, 0,
    15, 249, 0, 0, 0, 0, 0, 0, 0, 0, 0, 0, 0, 11, 0, 0, 0, 2, 0, 0, 0, 1, 98, 0, 0, 0, 0, 0, 0, 2,
    0, 0, 0, 0, 0, 0, 0, 1, 0, 0, 0, 0, 0, 0, 0, 0, 0, 0, 0, 1, 0, 0, 15, 252, 0, 0, 0, 132, 0, 0,
    0, 1, 105, 0, 0, 0, 0, 0, 0, 1, 0, 0, 0, 0, 0, 0, 0, 0, 0, 0, 0, 0, 0, 0, 0, 4, 0, 0, 0, 4, 0,
    0, 16, 128,
];

/// Three records of the lone short `s`.
const LONE: [u8; 86] = [
    67, 68, 70, 1, 0, 0, 0, 3, 0, 0, 0, 10, 0, 0, 0, 1, 0, 0, 0, 1, 116, 0, 0, 0, 0, 0, 0, 0, 0, 0,
    0, 0, 0, 0, 0, 0, 0, 0, 0, 11, 0, 0, 0, 1, 0, 0, 0, 1, 115, 0, 0, 0, 0, 0, 0, 1, 0, 0, 0, 0, 0,
    0, 0, 0, 0, 0, 0, 0, 0, 0, 0, 3, 0, 0, 0, 4, 0, 0, 0, 80, 0, 1, 0, 2, 0, 3,
];

/// Three records of the byte `b`, which is filled up, and the int `i`.
const RECORDS: [u8; 140] = [
    67, 68, 70, 1, 0, 0, 0, 3, 0, 0, 0, 10, 0, 0, 0, 1, 0, 0, 0, 1, 116, 0, 0, 0, 0, 0, 0, 0, 0, 0,
    0, 0, 0, 0, 0, 0, 0, 0, 0, 11, 0, 0, 0, 2, 0, 0, 0, 1, 98, 0, 0, 0, 0, 0, 0, 1, 0, 0, 0, 0, 0,
    0, 0, 0, 0, 0, 0, 0, 0, 0, 0, 1, 0, 0, 0, 4, 0, 0, 0, 116, 0, 0, 0, 1, 105, 0, 0, 0, 0, 0, 0,
    1, 0, 0, 0, 0, 0, 0, 0, 0, 0, 0, 0, 0, 0, 0, 0, 4, 0, 0, 0, 4, 0, 0, 0, 120, 1, 9, 9, 9, 0, 0,
    0, 10, 2, 9, 9, 9, 0, 0, 0, 20, 3, 9, 9, 9, 0, 0, 0, 30,
];

fn lone() -> &'static [u8] {
    &LONE
}

fn records() -> &'static [u8] {
    &RECORDS
}

fn long_header() -> &'static [u8] {
    &LONG
}

/// So many bytes more.
fn push_same(out: &mut Vec<u8>, count: usize, byte: u8) -> Result<(), AllocError> {
    out.resize(out.len().saturating_add(count), byte)
}

/// A long file of so many records: in each the bytes are the number of the record, and the int is 256 more.
fn long_file(alloc: Global, numrecs: u8) -> Result<Vec<u8>, AllocError> {
    let mut file = Vec::new(alloc);
    file.extend_from_slice(&[67, 68, 70, 1, 0, 0, 0, numrecs])?;
    file.extend_from_slice(long_header())?;
    for record in 0..numrecs {
        push_same(&mut file, 4089, record)?;
        push_same(&mut file, 3, 255)?;
        file.extend_from_slice(&[0, 0, 1, record])?;
    }
    Ok(file)
}

/// The bytes and the ints of a long file.
fn long_values(alloc: Global, numrecs: u8) -> Result<(Vec<u8>, Vec<u8>), AllocError> {
    let mut bytes = Vec::new(alloc);
    let mut ints = Vec::new(alloc);
    for record in 0..numrecs {
        push_same(&mut bytes, 4089, record)?;
        ints.extend_from_slice(&[0, 0, 1, record])?;
    }
    Ok((bytes, ints))
}

/// The values of variables of a file, which are given by their numbers.
fn gathered(alloc: Global, file: &Bytes, numbers: &[usize]) -> Result<Vec<Bytes>, Fail> {
    match read_head(alloc, file.as_slice()) {
        Ok(head) => {
            let heads = head.vars.as_slice();
            let mut vars = Vec::new(alloc);
            for number in numbers {
                vars.push(heads.get(*number).ok_or("no variable")?)?;
            }
            Ok(gathered_values(alloc, file, &head, vars.as_slice())?)
        }
        Err(_) => Err("no head".into()),
    }
}

/// Whether values are these.
fn are(found: &[Bytes], values: &[&[u8]]) -> bool {
    if found.len() != values.len() {
        return false;
    }
    for (raw, value) in found.iter().zip(values) {
        if raw.as_slice() != *value {
            return false;
        }
    }
    true
}

/// Files of as many records as are gone through at a time, one less and one more, and of one.
#[test]
fn long_records(rt: HostRuntime) -> Result<(), Fail> {
    let alloc = rt.alloc();
    for numrecs in [0u8, 1, 63, 64, 65, 128, 129] {
        let file = Bytes::from_vec(long_file(alloc, numrecs)?)
            .ok()
            .ok_or("memory")?;
        let (bytes, ints) = long_values(alloc, numrecs)?;
        let both = gathered(alloc, &file, &[0, 1])?;
        assert!(rt;
            are(&both, &[bytes.as_slice(), ints.as_slice()]),
            "{numrecs} records"
        );
        let turned = gathered(alloc, &file, &[1, 0, 1])?;
        assert!(rt;
            are(
                &turned,
                &[ints.as_slice(), bytes.as_slice(), ints.as_slice()]
            ),
            "{numrecs} records, turned"
        );
        let one = gathered(alloc, &file, &[1])?;
        assert!(rt;
            are(&one, &[ints.as_slice()]),
            "{numrecs} records, the ints alone"
        );
    }
    Ok(())
}

/// A lone short has no bytes between its records, and a byte beside another variable has three.
#[test]
fn short_records(rt: HostRuntime) -> Result<(), Fail> {
    let alloc = rt.alloc();
    let shorts = gathered(alloc, &Bytes::from_static(lone()), &[0])?;
    assert!(rt; are(&shorts, &[&[0, 1, 0, 2, 0, 3]]));
    let both = gathered(alloc, &Bytes::from_static(records()), &[0, 1])?;
    assert!(rt;
        are(
            &both,
            &[&[1, 2, 3], &[0, 0, 0, 10, 0, 0, 0, 20, 0, 0, 0, 30]]
        )
    );
    let none = gathered(alloc, &Bytes::from_static(records()), &[])?;
    assert!(rt; none.is_empty());
    Ok(())
}

/// The values of a variable of a file as they lie, put together.
fn as_they_lie(alloc: Global, file: &Bytes, number: usize) -> Result<Bytes, Fail> {
    match read_head(alloc, file.as_slice()) {
        Ok(head) => {
            let heads = head.vars.as_slice();
            let var = heads.get(number).ok_or("no variable")?;
            let pieces = values_in_pieces(alloc, NcType::Byte, file, &head, var)?;
            Ok(pieces.bytes(alloc, NcType::Byte)?)
        }
        Err(_) => Err("no head".into()),
    }
}

/// Values in records of other ones too, of a lone variable, and of a file without records.
#[test]
fn values_lie_in_pieces(rt: HostRuntime) -> Result<(), Fail> {
    let alloc = rt.alloc();
    for numrecs in [0u8, 1, 2, 65] {
        let file = Bytes::from_vec(long_file(alloc, numrecs)?)
            .ok()
            .ok_or("memory")?;
        let (bytes, ints) = long_values(alloc, numrecs)?;
        let found = [as_they_lie(alloc, &file, 0)?, as_they_lie(alloc, &file, 1)?];
        assert!(rt;
            are(&found, &[bytes.as_slice(), ints.as_slice()]),
            "{numrecs} records"
        );
    }
    let shorts = [as_they_lie(alloc, &Bytes::from_static(lone()), 0)?];
    assert!(rt; are(&shorts, &[&[0, 1, 0, 2, 0, 3]]));
    Ok(())
}
