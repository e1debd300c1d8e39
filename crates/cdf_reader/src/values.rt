//! All variables of a file with their values.
ghost use Rattle.std.specs.Prelude.{◌≡◌, ◌≤◌, ℕ, List, length, map, IfOk};
ghost use Rattle.std.specs.List.{list_all};
ghost use Rattle.xr_files.specs.Classic.{Header};
ghost use Rattle.xr_files.specs.Files.{most_bytes, recsize, is_inside, var_of};
ghost use Rattle.cdf_reader.specs.Sizes.{capped};

use crate::data::{Places, is_var_inside, raw_at};
use std::alloc::{AllocError, Global};
use xr_files::{CdfVar, VarHead};
use xr_types::{Items, NoMemory};

/// Whether each variable has no cells, or ends within the bytes.
pub(crate) fn are_inside(places: Places<'_>, bytes: usize, vars: &[VarHead]) -> bool
    requires { bytes ≤ most_bytes }
    ensures { (h : Header) → h.dims ≡ places.entry.dims.now → places.entry.distance ≡ capped (recsize h) → result ≡ list_all (is_inside h places.entry.numrecs bytes) vars.now }
{
    for var in vars {
        if !is_var_inside(places, bytes, var) {
            return false;
        }
    }
    true
}

fn var_at(
    alloc: Global,
    places: Places<'_>,
    bytes: &[u8],
    head: VarHead,
) -> Result<CdfVar, AllocError>
    requires { length bytes.now ≤ most_bytes }
    ensures { IfOk result (λ var. (h : Header) → h.dims ≡ places.entry.dims.now → places.entry.distance ≡ capped (recsize h) → var ≡ var_of bytes.now h places.entry.numrecs head) }
{
    let raw = raw_at(alloc, places, bytes, &head)?;
    Ok(CdfVar {
        name: head.name,
        dims: head.dims,
        attrs: head.attrs,
        kind: head.kind,
        raw,
    })
}

/// The variables with their values.
pub(crate) fn vars_of(
    alloc: Global,
    places: Places<'_>,
    bytes: &[u8],
    heads: Vec<VarHead>,
) -> Result<Items<CdfVar>, NoMemory>
    requires { length bytes.now ≤ most_bytes }
    ensures { IfOk result (λ vars. (h : Header) → h.dims ≡ places.entry.dims.now → places.entry.distance ≡ capped (recsize h) → vars ≡ map (var_of bytes.now h places.entry.numrecs) heads.items) }
{
    let mut heads = heads;
    let mut vars = Vec::with_capacity(alloc, heads.len())?;
    while let Some(head) = heads.pop() {
        vars.push(var_at(alloc, places, bytes, head)?)?;
    }
    vars.reverse();
    Ok(Items::of(vars))
}
