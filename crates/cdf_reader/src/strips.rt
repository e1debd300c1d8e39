//! Where the values of a variable stand in its file.
ghost use Rattle.std.specs.Prelude.{◌≡◌, ◌≤◌, ℕ, List, length, map, IfOk, IfSome};
ghost use Rattle.xr_files.specs.Classic.{Header};
ghost use Rattle.xr_files.specs.Files.{most_bytes, recsize, raw_of};
ghost use Rattle.cdf_reader.specs.Sizes.{capped};
ghost use Rattle.xr_arrays.specs.Pieces.{pieces, together, AreInside};
ghost use Rattle.cdf_reader.specs.Strips.{strip_values};

use crate::data::Places;
use crate::sizes::{head_size_of, is_record};
use bytes::Bytes;
use std::alloc::{AllocError, Global};
use xr_arrays::Pieces;
use xr_files::VarHead;
use xr_types::NcType;

/// Pieces of a file's bytes: so many, of so many bytes each, the first from a byte on, and one each step.
#[derive(Clone, Copy)]
pub(crate) struct Strip {
    pub begin: u64,
    pub size: u64,
    pub count: u64,
}

// Where the values of a record variable stand: in one piece where nothing stands between its records.
fn records_at(places: Places<'_>, begin: u64, size: u64) -> Strip
    ensures { (bytes : List ℕ) → length bytes ≤ most_bytes → strip_values bytes places.entry.distance result ≡ pieces bytes begin places.entry.distance size places.entry.numrecs }
{
    let numrecs = places.numrecs;
    if size == places.distance {
        return Strip {
            begin,
            size: size.saturating_mul(numrecs),
            count: 1,
        };
    }
    Strip {
        begin,
        size,
        count: numrecs,
    }
}

/// Where the values of a variable stand.
pub(crate) fn strip_at(places: Places<'_>, var: &VarHead) -> Strip
    ensures { (bytes : List ℕ) (h : Header) → length bytes ≤ most_bytes → h.dims ≡ places.entry.dims.now → places.entry.distance ≡ capped (recsize h) → strip_values bytes places.entry.distance result ≡ raw_of bytes h places.entry.numrecs var.now }
{
    let size = head_size_of(places.dims, var);
    if is_record(places.dims, var.dims.as_slice()) {
        records_at(places, var.begin, size)
    } else {
        Strip {
            begin: var.begin,
            size,
            count: 1,
        }
    }
}

/// Where the values of variables stand.
pub(crate) fn strips_at(
    alloc: Global,
    places: Places<'_>,
    vars: &[&VarHead],
) -> Result<Vec<Strip>, AllocError>
    ensures { IfOk result (λ strips. (bytes : List ℕ) (h : Header) → length bytes ≤ most_bytes → h.dims ≡ places.entry.dims.now → places.entry.distance ≡ capped (recsize h) → map (strip_values bytes places.entry.distance) strips.items ≡ map (λ v. raw_of bytes h places.entry.numrecs v.now) vars.now) }
{
    let mut strips = Vec::with_capacity(alloc, vars.len())?;
    for var in vars {
        strips.push(strip_at(places, var))?;
    }
    Ok(strips)
}

// How far the pieces of a strip lie apart. A single one lies apart from none.
fn step_of(strip: Strip, distance: u64) -> u64
    ensures { (bytes : List ℕ) → pieces bytes strip.begin result strip.size strip.count ≡ strip_values bytes distance strip }
{
    if strip.count == 1 {
        strip.size
    } else {
        distance
    }
}

/// The values of a variable where they lie, if each piece holds whole numbers of the type and they lie apart.
pub(crate) fn pieces_at(
    kind: NcType,
    bytes: &Bytes,
    places: Places<'_>,
    var: &VarHead,
) -> Result<Option<Pieces>, AllocError>
    requires { length bytes.now ≤ most_bytes }
    ensures values { (h : Header) → h.dims ≡ places.entry.dims.now → places.entry.distance ≡ capped (recsize h) → IfOk result (λ found. IfSome found (λ p. together kind p ≡ raw_of bytes.now h places.entry.numrecs var.now)) }
    ensures inside { IfOk result (λ found. IfSome found (AreInside kind)) }
{
    let strip = strip_at(places, var);
    let step = step_of(strip, places.distance);
    let shared = bytes.slice(..)?;
    Ok(Pieces::apart(kind, shared, strip.begin, step, strip.size, strip.count))
}
