//! Values that stand in the records of a file, gathered in one pass over them.
ghost use Rattle.std.specs.Prelude.{◌≡◌, ◌≤◌, ◌++◌, ℕ, List, All, length, map, take, min, IfOk, OnOk};
ghost use Rattle.xr_files.specs.Files.{most_bytes};
ghost use Rattle.xr_arrays.specs.Pieces.{pieces};
ghost use Rattle.cdf_reader.specs.Strips.{strip_values};
ghost use Rattle.cdf_reader.specs.declared.strips.Strip.{Strip as AStrip};
ghost use Rattle.cdf_reader.specs.declared.gather.Column.{Column as AColumn};
ghost use Rattle.cdf_reader.specs.Gathered.{apart, strip_of, Holds, IsFull};

use crate::data::{rest_at, shared_front_at};
use crate::strips::Strip;
use bytes::Bytes;
use std::alloc::{AllocError, Global};

// A strip, and the bytes that were gathered of it.
#[derive(Drop)]
struct Column {
    strip: Strip,
    raw: Vec<u8>,
}

// How many bytes of a file's records are gone through at a time. What is read of them stays near the processor until each column has
// its pieces.
const BLOCK_BYTES: u64 = 1 << 18;

// How many pieces of a strip are gathered.
fn apart_of(strip: Strip) -> u64
    ensures { result ≡ apart strip }
{
    if strip.count == 1 { 0 } else { strip.count }
}

// Appends the first bytes, as many as there are.
#[inline(always)]
fn push_front(raw: &mut Vec<u8>, bytes: &[u8], n: u64) -> Result<(), AllocError>
    ensures { OnOk result (raw.new.items ≡ raw.old.items ++ take n bytes.now) }
{
    let n = n as usize;
    if bytes.len() < n {
        raw.extend_from_slice(bytes)
    } else {
        raw.extend_from_slice(&bytes[..n])
    }
}

// Appends pieces of so many bytes each, those of the records from one up to another.
#[inline(always)]
fn push_run(
    raw: &mut Vec<u8>,
    bytes: &[u8],
    begin: u64,
    step: u64,
    n: u64,
    from: u64,
    to: u64,
) -> Result<(), AllocError>
    requires short { length bytes.now ≤ most_bytes }
    requires order { from ≤ to }
    requires before { raw.old.items ≡ pieces bytes.now begin step n from }
    ensures { OnOk result (raw.new.items ≡ pieces bytes.now begin step n to) }
{
    let mut rest = rest_at(bytes, begin.saturating_add(from.saturating_mul(step)));
    for r in from..to {
        push_front(raw, rest, n)?;
        rest = rest_at(rest, step);
    }
    Ok(())
}

// Appends the pieces of the records from one up to another. Numbers are copied as such, without a call for each.
fn push_pieces(
    raw: &mut Vec<u8>,
    bytes: &[u8],
    step: u64,
    strip: Strip,
    from: u64,
    to: u64,
) -> Result<(), AllocError>
    requires short { length bytes.now ≤ most_bytes }
    requires order { from ≤ to }
    requires before { raw.old.items ≡ pieces bytes.now strip.begin step strip.size from }
    ensures { OnOk result (raw.new.items ≡ pieces bytes.now strip.begin step strip.size to) }
{
    let begin = strip.begin;
    match strip.size {
        1 => push_run(raw, bytes, begin, step, 1, from, to),
        2 => push_run(raw, bytes, begin, step, 2, from, to),
        4 => push_run(raw, bytes, begin, step, 4, from, to),
        8 => push_run(raw, bytes, begin, step, 8, from, to),
        size => push_run(raw, bytes, begin, step, size, from, to),
    }
}

// A column with the pieces of some more records.
fn with_pieces(
    column: Column,
    bytes: &[u8],
    step: u64,
    from: u64,
    to: u64,
) -> Result<Column, AllocError>
    requires short { length bytes.now ≤ most_bytes }
    requires order { from ≤ to }
    requires before { Holds bytes.now step from column }
    ensures strip { IfOk result (λ c. c.strip ≡ column.strip) }
    ensures held { IfOk result (λ c. Holds bytes.now step to c) }
{
    let Column { strip, mut raw } = column;
    let count = apart_of(strip);
    push_pieces(&mut raw, bytes, step, strip, from.min(count), to.min(count))?;
    Ok(Column { strip, raw })
}

// The columns with the pieces of some more records.
fn with_records(
    alloc: Global,
    columns: Vec<Column>,
    bytes: &[u8],
    step: u64,
    from: u64,
    to: u64,
) -> Result<Vec<Column>, AllocError>
    requires short { length bytes.now ≤ most_bytes }
    requires order { from ≤ to }
    requires before { All (Holds bytes.now step from) columns.items }
    ensures strips { IfOk result (λ more. map strip_of more.items ≡ map strip_of columns.items) }
    ensures held { IfOk result (λ more. All (Holds bytes.now step to) more.items) }
{
    let mut columns = columns;
    let mut more = Vec::with_capacity(alloc, columns.len())?;
    while let Some(column) = columns.pop() {
        more.push(with_pieces(column, bytes, step, from, to)?)?;
    }
    more.reverse();
    Ok(more)
}

// A column for each strip, with memory for all that is gathered of it.
fn columns_of(alloc: Global, strips: &[Strip]) -> Result<Vec<Column>, AllocError>
    ensures strips { IfOk result (λ columns. map strip_of columns.items ≡ strips.now) }
    ensures held { IfOk result (λ columns. (bytes : List ℕ) (step : ℕ) → All (Holds bytes step 0) columns.items) }
{
    let mut columns = Vec::with_capacity(alloc, strips.len())?;
    for strip in strips {
        let room = apart_of(*strip).saturating_mul(strip.size);
        let raw = Vec::with_capacity(alloc, room as usize)?;
        columns.push(Column { strip: *strip, raw })?;
    }
    Ok(columns)
}

// The greatest count of the strips.
fn most_records(strips: &[Strip]) -> u64
    ensures { All (λ (s : AStrip). s.count ≤ result) strips.now }
{
    let mut most: u64 = 0;
    for strip in strips {
        most = most.max(strip.count);
    }
    most
}

// How many records are gone through at a time.
fn records_at_once(step: u64) -> u64
    ensures { 1 ≤ result }
{
    (BLOCK_BYTES / step.max(1)).max(1)
}

// The values of a column that has all its pieces.
fn values_of(bytes: &Bytes, column: Column) -> Result<Bytes, AllocError>
    ensures { IfOk result (λ raw. (step : ℕ) → IsFull bytes.now step column → raw ≡ strip_values bytes.now step column.strip) }
{
    let Column { strip, raw } = column;
    if strip.count == 1 {
        return shared_front_at(bytes, strip.begin, strip.size);
    }
    Ok(Bytes::from_vec(raw)?)
}

// The values of columns that have all their pieces.
fn all_values(alloc: Global, bytes: &Bytes, columns: Vec<Column>) -> Result<Vec<Bytes>, AllocError>
    ensures { IfOk result (λ raws. (step : ℕ) → All (IsFull bytes.now step) columns.items → raws.items ≡ map (λ (c : AColumn). strip_values bytes.now step c.strip) columns.items) }
{
    let mut columns = columns;
    let mut raws = Vec::with_capacity(alloc, columns.len())?;
    while let Some(column) = columns.pop() {
        raws.push(values_of(bytes, column)?)?;
    }
    raws.reverse();
    Ok(raws)
}

/// The values that strips of a file are. A single piece is shared with the file's bytes; the pieces of the others are gathered together,
/// in one pass over the records.
pub(crate) fn gather(
    alloc: Global,
    bytes: &Bytes,
    step: u64,
    strips: &[Strip],
) -> Result<Vec<Bytes>, AllocError>
    requires { length bytes.now ≤ most_bytes }
    ensures { IfOk result (λ raws. raws.items ≡ map (strip_values bytes.now step) strips.now) }
{
    let all = bytes.as_slice();
    let records = most_records(strips);
    let at_once = records_at_once(step);
    let mut columns = columns_of(alloc, strips)?;
    let mut from: u64 = 0;
    while from < records {
        let to = records.min(from.saturating_add(at_once));
        columns = with_records(alloc, columns, all, step, from, to)?;
        from = to;
    }
    all_values(alloc, bytes, columns)
}
