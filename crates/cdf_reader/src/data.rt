//! The values of variables, behind the header.
ghost use Rattle.std.specs.Prelude.{◌≡◌, ◌<◌, ◌≤◌, ◌+◌, ◌*◌, ◌^◌, [], ℕ, List, length, map, take, drop, IfOk};
ghost use Rattle.std.specs.List.{list_all};
ghost use Rattle.xr_files.specs.declared.file.VarHead.{VarHead};
ghost use Rattle.xr_files.specs.Classic.{Header};
ghost use Rattle.xr_files.specs.Files.{most_bytes, head_size, recsize, end_of, is_inside, raw_of, var_of};
ghost use Rattle.cdf_reader.specs.Sizes.{capped};
ghost use Rattle.xr_arrays.specs.Pieces.{pieces};

use crate::sizes::{cells_of, head_size_of, is_record};
use bytes::Bytes;
use std::alloc::{AllocError, Global};
use xr_files::{CdfDim, CdfVar, VarHead};
/// Where values stand: the dimensions, how many records there are, and how far they lie apart.
#[derive(Clone, Copy)]
pub(crate) struct Places<'a> {
    pub dims: &'a [CdfDim],
    pub numrecs: u64,
    pub distance: u64,
}

/// The bytes from a place on.
pub(crate) fn rest_at(bytes: &[u8], begin: u64) -> &[u8]
    ensures { result.now ≡ drop begin bytes.now }
{
    let begin = begin as usize;
    if begin > bytes.len() {
        return &[];
    }
    let (_, rest) = bytes.split_at(begin);
    rest
}

// The bytes of the file from a place on, as many as there are.
fn front_at(bytes: &[u8], begin: u64, n: u64) -> &[u8]
    ensures front { result.now ≡ take n (drop begin bytes.now) }
    ensures short { length bytes.now < 2 ^ 64 }
{
    let begin = begin as usize;
    if begin > bytes.len() {
        return &[];
    }
    let (_, rest) = bytes.split_at(begin);
    let n = n as usize;
    if n > rest.len() {
        return rest;
    }
    let (front, _) = rest.split_at(n);
    front
}

/// The bytes of the file from a place on, as many as there are, shared with the file's.
#[tactic(auto, using(crate::proofs::Placed::front_within))]
pub(crate) fn shared_front_at(bytes: &Bytes, begin: u64, n: u64) -> Result<Bytes, AllocError>
    ensures front { IfOk result (λ front. front ≡ take n (drop begin bytes.now)) }
    ensures short { length bytes.now < 2 ^ 64 }
{
    let start = bytes.len().min(begin as usize);
    let count = (bytes.len() - start).min(n as usize);
    bytes.slice(start..start + count)
}

// The pieces of a variable, one each step.
fn gathered(
    alloc: Global,
    bytes: &[u8],
    begin: u64,
    step: u64,
    n: u64,
    count: u64,
) -> Result<Bytes, AllocError>
    requires { length bytes.now ≤ most_bytes }
    ensures { IfOk result (λ raw. raw ≡ pieces bytes.now begin step n count) }
{
    let mut raw = Vec::with_capacity(alloc, count.saturating_mul(n) as usize)?;
    for r in 0..count {
        let at = begin.saturating_add(r.saturating_mul(step));
        raw.extend_from_slice(front_at(bytes, at, n))?;
    }
    Ok(Bytes::from_vec(raw)?)
}

// Behind the last value of a variable.
fn end_at(places: Places<'_>, var: &VarHead) -> u64
    ensures { (h : Header) → h.dims ≡ places.entry.dims.now → places.entry.distance ≡ capped (recsize h) → result ≡ capped (end_of h places.entry.numrecs var.now) }
{
    let size = head_size_of(places.dims, var);
    if is_record(places.dims, var.dims.as_slice()) {
        let before = places
            .numrecs
            .saturating_sub(1)
            .saturating_mul(places.distance);
        var.begin.saturating_add(before).saturating_add(size)
    } else {
        var.begin.saturating_add(size)
    }
}

/// Whether a variable has no cells, or its last value ends within the bytes.
pub(crate) fn is_var_inside(places: Places<'_>, bytes: usize, var: &VarHead) -> bool
    requires { bytes ≤ most_bytes }
    ensures { (h : Header) → h.dims ≡ places.entry.dims.now → places.entry.distance ≡ capped (recsize h) → result ≡ is_inside h places.entry.numrecs bytes var.now }
{
    if cells_of(places.dims, places.numrecs, var.dims.as_slice()) == 0 {
        return true;
    }
    end_at(places, var) <= bytes as u64
}

/// The values of a variable that is no record variable, where they lie.
pub(crate) fn fixed_values<'a>(bytes: &'a [u8], dims: &[CdfDim], var: &VarHead) -> &'a [u8]
    ensures { result.now ≡ take (head_size dims.now var.now) (drop var.now.begin bytes.now) }
{
    front_at(bytes, var.begin, head_size_of(dims, var))
}

/// The values of a variable that is no record variable, shared with the file's bytes.
pub(crate) fn shared_fixed(
    bytes: &Bytes,
    dims: &[CdfDim],
    var: &VarHead,
) -> Result<Bytes, AllocError>
    ensures { IfOk result (λ raw. raw ≡ take (head_size dims.now var.now) (drop var.now.begin bytes.now)) }
{
    shared_front_at(bytes, var.begin, head_size_of(dims, var))
}

/// The values of a variable.
pub(crate) fn raw_at(
    alloc: Global,
    places: Places<'_>,
    bytes: &[u8],
    var: &VarHead,
) -> Result<Bytes, AllocError>
    requires { length bytes.now ≤ most_bytes }
    ensures { IfOk result (λ raw. (h : Header) → h.dims ≡ places.entry.dims.now → places.entry.distance ≡ capped (recsize h) → raw ≡ raw_of bytes.now h places.entry.numrecs var.now) }
{
    if is_record(places.dims, var.dims.as_slice()) {
        let size = head_size_of(places.dims, var);
        gathered(
            alloc,
            bytes,
            var.begin,
            places.distance,
            size,
            places.numrecs,
        )
    } else {
        Bytes::copy_from_slice(alloc, fixed_values(bytes, places.dims, var))
    }
}
