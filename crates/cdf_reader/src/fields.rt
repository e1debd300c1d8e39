//! The fields of a header.
ghost use Rattle.std.specs.Prelude.{◌≡◌, ◌*◌, ◌<◌, ◌^◌, length, IfOk, MatchOption, true, false};
ghost use Rattle.std.specs.Str.{is_utf8};
ghost use Rattle.std.specs.Int.{w64};
ghost use Rattle.xr_files.specs.Format.{chars, number, via};
ghost use Rattle.xr_types.specs.Widths.{width};
ghost use Rattle.xr_files.specs.Classic.{word, count, most_count, counted, place_width, padding, is_name, name, nc_type, is_type, type_of};
ghost use Rattle.cdf_reader.specs.Answers.{Reads};

use xr_files::Stop;
use xr_types::{CdfKind, NcType};

const CUT_HEADER: Stop = Stop {
    kind: CdfKind::CutHeader,
    left: 0,
};

/// A number of four bytes.
pub(crate) fn word_at(bytes: &[u8]) -> Result<(u32, &[u8]), Stop>
    ensures { Reads (λ x. (x.0, x.1.now)) result (word.reads bytes.now) }
{
    if bytes.len() < 4 {
        return Err(CUT_HEADER);
    }
    let (front, rest) = bytes.split_at(4);
    let n = u32::from_be_bytes([front[0], front[1], front[2], front[3]]);
    Ok((n, rest))
}

fn long_at(bytes: &[u8]) -> Result<(u64, &[u8]), Stop>
    ensures { Reads (λ x. (x.0, x.1.now)) result ((number w64).reads bytes.now) }
{
    if bytes.len() < 8 {
        return Err(CUT_HEADER);
    }
    let (front, rest) = bytes.split_at(8);
    let n = u64::from_be_bytes([
        front[0], front[1], front[2], front[3], front[4], front[5], front[6], front[7],
    ]);
    Ok((n, rest))
}

/// A count, a length, a number of a dimension or a size.
pub(crate) fn count_at(version: u8, bytes: &[u8]) -> Result<(u64, &[u8]), Stop>
    ensures { Reads (λ x. (x.0, x.1.now)) result ((count version).reads bytes.now) }
{
    if version == 5 {
        return long_at(bytes);
    }
    let (n, rest) = word_at(bytes)?;
    Ok((u64::from(n), rest))
}

fn most_count(version: u8) -> u64
    ensures { result ≡ most_count version }
{
    if version == 5 {
        u64::MAX
    } else {
        u64::from(u32::MAX)
    }
}

fn counted(version: u8, n: u64) -> Option<u64>
    ensures { result ≡ counted version n }
{
    if n == most_count(version) {
        None
    } else {
        Some(n)
    }
}

/// The number of records, none of a streamed file.
pub(crate) fn numrecs_at(version: u8, bytes: &[u8]) -> Result<(Option<u64>, &[u8]), Stop>
    ensures { Reads (λ x. (x.0, x.1.now)) result ((via (counted version) (count version)).reads bytes.now) }
{
    let (n, rest) = count_at(version, bytes)?;
    Ok((counted(version, n), rest))
}

/// A place in the file.
pub(crate) fn place_at(version: u8, bytes: &[u8]) -> Result<(u64, &[u8]), Stop>
    ensures { Reads (λ x. (x.0, x.1.now)) result ((number (place_width version)).reads bytes.now) }
{
    if version == 1 {
        let (n, rest) = word_at(bytes)?;
        Ok((u64::from(n), rest))
    } else {
        long_at(bytes)
    }
}

/// So many bytes.
pub(crate) fn chars_at(bytes: &[u8], n: usize) -> Result<(&[u8], &[u8]), Stop>
    ensures { Reads (λ x. (x.0.now, x.1.now)) result ((chars n).reads bytes.now) }
{
    if bytes.len() < n {
        return Err(CUT_HEADER);
    }
    Ok(bytes.split_at(n))
}

/// How many bytes fill a text up to a multiple of four.
pub(crate) fn padding_of(n: usize) -> usize
    ensures { result ≡ padding n }
{
    (4 - n % 4) % 4
}

fn text_of(text: &[u8]) -> Option<&str>
    ensures { MatchOption result (is_utf8 text.now ≡ false) (λ s. (is_utf8 text.now ≡ true) × (s.now ≡ text.now)) }
{
    match std::str::from_utf8(text) {
        Ok(text) => Some(text),
        Err(_) => None,
    }
}

fn name_of(text: &[u8]) -> Option<&str>
    ensures { MatchOption result (is_name text.now ≡ false) (λ s. (is_name text.now ≡ true) × (s.now ≡ text.now)) }
{
    if text.is_empty() {
        return None;
    }
    text_of(text)
}

/// A name, and its padding.
#[tactic(auto, unfolding(xr_files::specs::Classic::name))]
pub(crate) fn name_at(version: u8, bytes: &[u8]) -> Result<(&str, &[u8]), Stop>
    ensures { Reads (λ x. (x.0.now, x.1.now)) result ((name version).reads bytes.now) }
{
    let (count, rest) = count_at(version, bytes)?;
    let count = count as usize;
    let (text, rest) = chars_at(rest, count)?;
    let (_, rest) = chars_at(rest, padding_of(count))?;
    match name_of(text) {
        Some(name) => Ok((name, rest)),
        None => Err(Stop {
            kind: CdfKind::BadName,
            left: bytes.len(),
        }),
    }
}

fn is_type(version: u8, n: u32) -> bool
    ensures { result ≡ is_type version n }
{
    0 < n && n < if version == 5 { 12 } else { 7 }
}

// The type of a number from 1 to 11.
fn type_of(n: u32) -> NcType
    ensures { result ≡ type_of n }
{
    match n {
        1 => NcType::Byte,
        2 => NcType::Char,
        3 => NcType::Short,
        4 => NcType::Int,
        5 => NcType::Float,
        6 => NcType::Double,
        7 => NcType::UByte,
        8 => NcType::UShort,
        9 => NcType::UInt,
        10 => NcType::Int64,
        _ => NcType::UInt64,
    }
}

/// A type.
#[tactic(auto, unfolding(xr_files::specs::Classic::nc_type))]
pub(crate) fn type_at(version: u8, bytes: &[u8]) -> Result<(NcType, &[u8]), Stop>
    ensures { Reads (λ x. (x.0, x.1.now)) result ((nc_type version).reads bytes.now) }
{
    let (n, rest) = word_at(bytes)?;
    if !is_type(version, n) {
        return Err(Stop {
            kind: CdfKind::BadType,
            left: bytes.len(),
        });
    }
    Ok((type_of(n), rest))
}

/// Bytes of a value.
pub(crate) fn width_of(kind: NcType) -> u64
    ensures { result ≡ width kind }
{
    match kind {
        NcType::Byte | NcType::Char | NcType::UByte => 1,
        NcType::Short | NcType::UShort => 2,
        NcType::Int | NcType::Float | NcType::UInt => 4,
        NcType::Double | NcType::Int64 | NcType::UInt64 => 8,
    }
}

/// The bytes of so many values. A count past the file's end is refused, also where the bytes are more than a number
/// of 64 bits tells.
pub(crate) fn raw_values(count: u64, kind: NcType, bytes: &[u8]) -> Result<(&[u8], &[u8]), Stop>
    ensures read { Reads (λ x. (x.0.now, x.1.now)) result ((chars (count * width kind)).reads bytes.now) }
    ensures size { IfOk result (λ x. length x.0.now ≡ count * width kind) }
{
    match count.checked_mul(width_of(kind)) {
        Some(size) => chars_at(bytes, size as usize),
        None => Err(CUT_HEADER),
    }
}
