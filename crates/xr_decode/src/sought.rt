//! The values of a file that are found when it is opened.
ghost use Rattle.std.specs.Prelude.{◌≡◌, ◌≤◌, ◌∷◌, ℕ, List, length, map, filter, reverse, IfOk, IfSome};
ghost use Rattle.xr_files.specs.declared.file.VarHead.{VarHead as AHead};
ghost use Rattle.xr_files.specs.Files.{most_bytes};
ghost use Rattle.xr_decode.specs.Sought.{is_sought, values_seen};

use crate::kinds::is_whole;
use crate::shapes::size;
use bytes::Bytes;
use cdf_reader::{FileHead, gathered_values};
use std::alloc::{AllocError, Global};
use xr_files::VarHead;
use xr_types::MOST_CELLS;

// The values of a record variable with more of them in a record stay where they lie.
const MOST_IN_A_RECORD: u64 = 2048;

/// Whether the values of a variable are looked for: they are whole numbers or texts, not more than an array may have, and few in
/// each record.
fn is_sought(head: &FileHead, var: &VarHead) -> bool
    ensures { result ≡ is_sought head.now var.now }
{
    let count = size(head.dims.as_slice(), head.numrecs, var.dims.as_slice());
    is_whole(var.kind)
        && count <= MOST_CELLS
        && count <= head.numrecs.saturating_mul(MOST_IN_A_RECORD)
}

// The variables of which the values are looked for.
fn sought_in<'a>(alloc: Global, head: &'a FileHead) -> Result<Vec<&'a VarHead>, AllocError>
    ensures { IfOk result (λ vars. map (λ v. v.now) vars.items ≡ filter (is_sought head.now) head.now.vars) }
{
    let heads = head.vars.as_slice();
    let mut sought = Vec::new(alloc);
    for var in heads {
        if is_sought(head, var) {
            sought.push(var)?;
        }
    }
    Ok(sought)
}

/// The values that are looked for, those of the last variable first: found in one pass over the file.
pub(crate) fn found_in(
    alloc: Global,
    bytes: &Bytes,
    head: &FileHead,
) -> Result<Vec<Bytes>, AllocError>
    requires { length bytes.now ≤ most_bytes }
    ensures { IfOk result (λ found. reverse found.items ≡ map (values_seen bytes.now head.now) (filter (is_sought head.now) head.now.vars)) }
{
    let sought = sought_in(alloc, head)?;
    let mut found = gathered_values(alloc, bytes, head, sought.as_slice())?;
    found.reverse();
    Ok(found)
}

/// The values of a variable where they are looked for, taken from the end of those that were found and belong to it and the variables
/// behind it.
pub(crate) fn next_found(head: &FileHead, var: &VarHead, found: &mut Vec<Bytes>) -> Option<Bytes>
    ensures { (bytes : List ℕ) (rest : List AHead) → reverse found.old.items ≡ map (values_seen bytes head.now) (filter (is_sought head.now) (var.now ∷ rest)) → IfSome result (λ raw. raw ≡ values_seen bytes head.now var.now) × (reverse found.new.items ≡ map (values_seen bytes head.now) (filter (is_sought head.now) rest)) }
{
    if is_sought(head, var) {
        found.pop()
    } else {
        None
    }
}
