//! Files whose answers were worked out by hand from the format's specification.
//!
//! The bytes of each file come from a function with no contract, so that no proof reads them.
ghost use Rattle.std.specs.Prelude.{◌≡◌, length, IfOk};
ghost use Rattle.xr_types.specs.declared.attr.NcType.TheVariants.{Short};

use bytes::Bytes;
use cdf_reader::{
    CdfFault, FileHead, copied_values, is_record, numbers, read, read_head, shared_values,
    values_at,
};
use std::alloc::{AllocError, Global};
use std::test::*;
use stored_cells::sum;
use xr_arrays::Cells;
use xr_files::{CdfFile, CdfVar};
use xr_types::{Items, NcType, TextBytes};

const ONE: [u8; 92] = [
    67, 68, 70, 1, 0, 0, 0, 0, 0, 0, 0, 10, 0, 0, 0, 1, 0, 0, 0, 1, 120, 0, 0, 0, 0, 0, 0, 3, 0, 0,
    0, 0, 0, 0, 0, 0, 0, 0, 0, 11, 0, 0, 0, 1, 0, 0, 0, 1, 118, 0, 0, 0, 0, 0, 0, 1, 0, 0, 0, 0, 0,
    0, 0, 0, 0, 0, 0, 0, 0, 0, 0, 4, 0, 0, 0, 12, 0, 0, 0, 80, 0, 0, 0, 1, 0, 0, 0, 2, 0, 0, 0, 3,
];

const RECORDS: [u8; 140] = [
    67, 68, 70, 1, 0, 0, 0, 3, 0, 0, 0, 10, 0, 0, 0, 1, 0, 0, 0, 1, 116, 0, 0, 0, 0, 0, 0, 0, 0, 0,
    0, 0, 0, 0, 0, 0, 0, 0, 0, 11, 0, 0, 0, 2, 0, 0, 0, 1, 98, 0, 0, 0, 0, 0, 0, 1, 0, 0, 0, 0, 0,
    0, 0, 0, 0, 0, 0, 0, 0, 0, 0, 1, 0, 0, 0, 4, 0, 0, 0, 116, 0, 0, 0, 1, 105, 0, 0, 0, 0, 0, 0,
    1, 0, 0, 0, 0, 0, 0, 0, 0, 0, 0, 0, 0, 0, 0, 0, 4, 0, 0, 0, 4, 0, 0, 0, 120, 1, 9, 9, 9, 0, 0,
    0, 10, 2, 9, 9, 9, 0, 0, 0, 20, 3, 9, 9, 9, 0, 0, 0, 30,
];

const LONE: [u8; 86] = [
    67, 68, 70, 1, 0, 0, 0, 3, 0, 0, 0, 10, 0, 0, 0, 1, 0, 0, 0, 1, 116, 0, 0, 0, 0, 0, 0, 0, 0, 0,
    0, 0, 0, 0, 0, 0, 0, 0, 0, 11, 0, 0, 0, 1, 0, 0, 0, 1, 115, 0, 0, 0, 0, 0, 0, 1, 0, 0, 0, 0, 0,
    0, 0, 0, 0, 0, 0, 0, 0, 0, 0, 3, 0, 0, 0, 4, 0, 0, 0, 80, 0, 1, 0, 2, 0, 3,
];

/// The same file as the first one, in version 5.
const WIDE: [u8; 140] = [
    67, 68, 70, 5, 0, 0, 0, 0, 0, 0, 0, 0, 0, 0, 0, 10, 0, 0, 0, 0, 0, 0, 0, 1, 0, 0, 0, 0, 0, 0,
    0, 1, 120, 0, 0, 0, 0, 0, 0, 0, 0, 0, 0, 3, 0, 0, 0, 0, 0, 0, 0, 0, 0, 0, 0, 0, 0, 0, 0, 11, 0,
    0, 0, 0, 0, 0, 0, 1, 0, 0, 0, 0, 0, 0, 0, 1, 118, 0, 0, 0, 0, 0, 0, 0, 0, 0, 0, 1, 0, 0, 0, 0,
    0, 0, 0, 0, 0, 0, 0, 0, 0, 0, 0, 0, 0, 0, 0, 0, 0, 0, 0, 4, 0, 0, 0, 0, 0, 0, 0, 12, 0, 0, 0,
    0, 0, 0, 0, 128, 0, 0, 0, 1, 0, 0, 0, 2, 0, 0, 0, 3,
];

/// The variable `v` over `x`, which holds 1, 2 and 3.
fn one() -> &'static [u8] {
    &ONE
}

/// The same in version 5.
fn wide() -> &'static [u8] {
    &WIDE
}

/// Three records of the byte `b` and the int `i`.
fn records() -> &'static [u8] {
    &RECORDS
}

/// Three records of the lone short `s`.
fn lone() -> &'static [u8] {
    &LONE
}

/// The first bytes of a file, as many as there are.
fn cut(file: &[u8], length: usize) -> &[u8] {
    file.get(..length).unwrap_or(file)
}

/// The word for the fault and its byte; of a file no word and its number of records.
fn answer(alloc: Global, bytes: &[u8]) -> (&'static str, u64) {
    match read(alloc, bytes) {
        Ok(file) => ("", file.numrecs),
        Err(CdfFault::At(kind, offset)) => (kind.words(), offset),
        Err(CdfFault::NoMemory) => ("no memory", 0),
    }
}

/// The answer at a file of which some bytes are others, each with its place.
fn answer_changed(
    alloc: Global,
    file: &[u8],
    changes: &[(usize, u8)],
) -> Result<(&'static str, u64), AllocError> {
    let mut bytes = Vec::from_slice(alloc, file)?;
    for (place, byte) in changes {
        if let Some(old) = bytes.get_mut(*place) {
            *old = *byte;
        }
    }
    Ok(answer(alloc, bytes.as_slice()))
}

#[test]
fn cut_files(rt: HostRuntime) {
    let alloc = rt.alloc();
    for n in 0..92 {
        let want = if n < 4 {
            ("BadMagic", 0)
        } else if n < 80 {
            ("CutHeader", n as u64)
        } else {
            ("CutData", n as u64)
        };
        assert_eq!(rt; answer(alloc, cut(one(), n)), want, "cut at {n}");
    }
}

#[test]
fn cut_files_of_version_5(rt: HostRuntime) {
    let alloc = rt.alloc();
    for n in 0..140 {
        let want = if n < 4 {
            ("BadMagic", 0)
        } else if n < 128 {
            ("CutHeader", n as u64)
        } else {
            ("CutData", n as u64)
        };
        assert_eq!(rt; answer(alloc, cut(wide(), n)), want, "cut at {n}");
    }
}

/// Fronts of files, and the answers.
const FRONTS: [(&[u8], &str, u64); 6] = [
    (
        &[67, 68, 70, 1, 0, 0, 0, 0, 0, 0, 0, 10, 255, 255, 255, 254],
        "CutHeader",
        16,
    ),
    (&[67, 68, 70, 1, 0, 0, 0, 0, 0, 0, 0, 11], "BadTag", 8),
    (
        &[67, 68, 70, 1, 0, 0, 0, 0, 0, 0, 0, 0, 0, 0, 0, 5],
        "BadTag",
        12,
    ),
    (
        &[
            67, 68, 70, 1, 0, 0, 0, 0, 0, 0, 0, 10, 0, 0, 0, 1, 255, 255, 255, 255, 120, 0, 0, 0,
        ],
        "CutHeader",
        24,
    ),
    // more dimensions than a number of 64 bits counts bytes
    (
        &[
            67, 68, 70, 5, 0, 0, 0, 0, 0, 0, 0, 0, 0, 0, 0, 10, 255, 255, 255, 255, 255, 255, 255,
            255,
        ],
        "CutHeader",
        24,
    ),
    // an attribute of 2 ^ 61 + 1 doubles
    (
        &[
            67, 68, 70, 5, 0, 0, 0, 0, 0, 0, 0, 0, 0, 0, 0, 0, 0, 0, 0, 0, 0, 0, 0, 0, 0, 0, 0, 12,
            0, 0, 0, 0, 0, 0, 0, 1, 0, 0, 0, 0, 0, 0, 0, 1, 97, 0, 0, 0, 0, 0, 0, 6, 32, 0, 0, 0,
            0, 0, 0, 1,
        ],
        "CutHeader",
        60,
    ),
];

fn fronts() -> &'static [(&'static [u8], &'static str, u64)] {
    &FRONTS
}

#[test]
fn damaged_fronts(rt: HostRuntime) {
    for (bytes, word, offset) in fronts() {
        assert_eq!(rt; answer(rt.alloc(), bytes), (*word, *offset));
    }
}

/// The file of 92 bytes with one byte changed: which, to what, and the answer.
const CHANGES: [(usize, u8, &str, u64); 17] = [
    (3, 3, "BadMagic", 0),
    (11, 11, "BadTag", 8),
    (15, 2, "BadName", 28),
    (20, 255, "BadName", 16),
    (24, 127, "CutData", 92),
    (31, 10, "BadTag", 28),
    (35, 1, "BadTag", 32),
    (43, 2, "CutHeader", 92),
    (47, 0, "BadName", 44),
    (55, 2, "BadTag", 68),
    (55, 0, "BadType", 64),
    (59, 1, "BadDimension", 56),
    (63, 11, "BadTag", 60),
    (71, 0, "BadType", 68),
    (71, 7, "BadType", 68),
    (76, 255, "CutData", 92),
    // vsize is ignored
    (74, 255, "", 0),
];

fn changes() -> &'static [(usize, u8, &'static str, u64)] {
    &CHANGES
}

#[test]
fn changed_bytes(rt: HostRuntime) -> Result<(), Fail> {
    for (place, byte, word, offset) in changes() {
        let found = answer_changed(rt.alloc(), one(), &[(*place, *byte)])?;
        assert_eq!(rt; found, (*word, *offset), "byte {place} is {byte}");
    }
    Ok(())
}

/// The file of version 5 with one byte changed: which, to what, and the answer.
const WIDE_CHANGES: [(usize, u8, &str, u64); 16] = [
    (3, 2, "BadTag", 12),
    (3, 4, "BadMagic", 0),
    (16, 255, "BadName", 44),
    (24, 255, "CutHeader", 140),
    (31, 0, "BadName", 24),
    (36, 1, "CutData", 140),
    (55, 1, "BadTag", 48),
    (80, 128, "BadDimension", 104),
    (95, 1, "BadDimension", 88),
    (111, 0, "BadType", 108),
    (111, 7, "", 0),
    (111, 11, "CutData", 140),
    (111, 12, "BadType", 108),
    (120, 255, "CutData", 140),
    // vsize is ignored
    (112, 255, "", 0),
    (11, 7, "", 7),
];

fn wide_changes() -> &'static [(usize, u8, &'static str, u64)] {
    &WIDE_CHANGES
}

#[test]
fn changed_bytes_of_version_5(rt: HostRuntime) -> Result<(), Fail> {
    for (place, byte, word, offset) in wide_changes() {
        let found = answer_changed(rt.alloc(), wide(), &[(*place, *byte)])?;
        assert_eq!(rt; found, (*word, *offset), "byte {place} is {byte}");
    }
    Ok(())
}

/// The number of records has all bits set in a streamed file, in version 5 all 64.
#[test]
fn streamed_files_of_version_5(rt: HostRuntime) -> Result<(), Fail> {
    let half: &[(usize, u8)] = &[(8, 255), (9, 255), (10, 255), (11, 255)];
    let whole: &[(usize, u8)] = &[
        (4, 255),
        (5, 255),
        (6, 255),
        (7, 255),
        (8, 255),
        (9, 255),
        (10, 255),
        (11, 255),
    ];
    assert_eq!(rt;
        answer_changed(rt.alloc(), wide(), half)?,
        ("", 4_294_967_295)
    );
    assert_eq!(rt; answer_changed(rt.alloc(), wide(), whole)?, ("", 0));
    Ok(())
}

#[test]
fn changed_counts_of_records(rt: HostRuntime) -> Result<(), Fail> {
    let streamed: &[(usize, u8)] = &[(4, 255), (5, 255), (6, 255), (7, 255)];
    let table: [(&[u8], &[(usize, u8)], &str, u64); 4] = [
        // the fewest records
        (cut(records(), 133), streamed, "", 2),
        (records(), &[(7, 4)], "CutData", 140),
        (records(), &[(84, 98)], "Repeated", 80),
        (lone(), &[(7, 4)], "CutData", 86),
    ];
    for (file, changes, word, offset) in table {
        let found = answer_changed(rt.alloc(), file, changes)?;
        assert_eq!(rt; found, (word, offset));
    }
    Ok(())
}

fn raw_of(file: &CdfFile, place: usize) -> &[u8] {
    match file.vars.as_slice().get(place) {
        Some(var) => var.raw.as_slice(),
        None => &[],
    }
}

/// Whether these are the values of a file's variable.
fn has_values(alloc: Global, file: &[u8], place: usize, values: &[u8]) -> bool {
    match read(alloc, file) {
        Ok(file) => raw_of(&file, place) == values,
        Err(_) => false,
    }
}

#[test]
fn whole_files(rt: HostRuntime) {
    let table: [(&[u8], usize, &[u8]); 5] = [
        (wide(), 0, &[0, 0, 0, 1, 0, 0, 0, 2, 0, 0, 0, 3]),
        (one(), 0, &[0, 0, 0, 1, 0, 0, 0, 2, 0, 0, 0, 3]),
        (records(), 0, &[1, 2, 3]),
        (records(), 1, &[0, 0, 0, 10, 0, 0, 0, 20, 0, 0, 0, 30]),
        (lone(), 0, &[0, 1, 0, 2, 0, 3]),
    ];
    for (file, place, values) in table {
        assert!(rt; has_values(rt.alloc(), file, place, values));
    }
}

#[test]
fn values_are_summed(rt: HostRuntime) {
    match read(rt.alloc(), one()) {
        Ok(file) => assert_eq!(rt; sum(NcType::Int, raw_of(&file, 0), &[]), 6),
        Err(_) => assert!(rt; false),
    }
}

/// Whether a head lists one variable that is no record variable, and these are its values in the file.
fn has_fixed_values(file: &[u8], head: &FileHead, values: &[u8]) -> bool {
    match head.vars.as_slice() {
        [var] => {
            !is_record(head.dims.as_slice(), var.dims.as_slice())
                && values_at(file, head, var) == values
        }
        _ => false,
    }
}

#[test]
fn values_where_they_lie(rt: HostRuntime) {
    match read_head(rt.alloc(), one()) {
        Ok(head) => {
            assert_eq!(rt; head.numrecs, 0);
            let values = [0, 0, 0, 1, 0, 0, 0, 2, 0, 0, 0, 3];
            assert!(rt; has_fixed_values(one(), &head, &values));
        }
        Err(_) => assert!(rt; false),
    }
}

/// The values of the first variable of a file's head, shared with bytes.
fn shared_first(alloc: Global, file: &[u8], bytes: &'static [u8]) -> Result<Bytes, Fail> {
    let head = read_head(alloc, file).ok().ok_or("no head")?;
    let var = head.vars.as_slice().first().ok_or("no variable")?;
    Ok(shared_values(&Bytes::from_static(bytes), &head, var)?)
}

/// The values of a file that was cut are those that are left.
#[test]
fn values_are_shared(rt: HostRuntime) -> Result<(), Fail> {
    let table: [(usize, &[u8]); 3] = [
        (92, &[0, 0, 0, 1, 0, 0, 0, 2, 0, 0, 0, 3]),
        (86, &[0, 0, 0, 1, 0, 0]),
        (40, &[]),
    ];
    for (length, values) in table {
        let shared = shared_first(rt.alloc(), one(), cut(one(), length))?;
        assert_eq!(rt; shared.as_slice(), values, "cut at {length}");
    }
    Ok(())
}

/// The values of one of a file's two variables in new memory, and whether it is a record variable.
fn copied(alloc: Global, file: &[u8], second: bool) -> Result<(Bytes, bool), Fail> {
    match read_head(alloc, file) {
        Ok(head) => match head.vars.as_slice() {
            [a, b] => {
                let var = if second { b } else { a };
                let is_record = is_record(head.dims.as_slice(), var.dims.as_slice());
                Ok((copied_values(alloc, file, &head, var)?, is_record))
            }
            _ => Err("not two variables".into()),
        },
        Err(_) => Err("no head".into()),
    }
}

#[test]
fn records_are_put_together(rt: HostRuntime) -> Result<(), Fail> {
    let table: [(bool, &[u8]); 2] = [
        (false, &[1, 2, 3]),
        (true, &[0, 0, 0, 10, 0, 0, 0, 20, 0, 0, 0, 30]),
    ];
    for (second, values) in table {
        let (raw, is_record) = copied(rt.alloc(), records(), second)?;
        assert!(rt; is_record);
        assert_eq!(rt; raw.as_slice(), values);
    }
    Ok(())
}

/// The shorts -2 and 256.
fn two_shorts(alloc: Global) -> Result<CdfVar, AllocError>
    ensures kind { IfOk result (λ v. v.kind ≡ Short) }
    ensures values { IfOk result (λ v. length v.raw ≡ 4) }
{
    Ok(CdfVar {
        name: TextBytes::from_str(alloc, "s")?,
        dims: Items::new(alloc),
        attrs: Items::new(alloc),
        kind: NcType::Short,
        raw: Bytes::copy_from_slice(alloc, &[255, 254, 1, 0])?,
    })
}

#[test]
fn numbers_of_shorts(rt: HostRuntime) -> Result<(), Fail> {
    let var = two_shorts(rt.alloc())?;
    let numbers = numbers(rt.alloc(), &var).ok().ok_or("memory")?;
    let Cells::Int16(cells) = numbers.cells else {
        return Err("kind".into());
    };
    assert_eq!(rt; cells.as_slice(), [-2, 256].as_slice());
    Ok(())
}
