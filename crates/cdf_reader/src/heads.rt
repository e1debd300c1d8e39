//! A file without its values.
ghost use Rattle.std.specs.Prelude.{◌≡◌, ◌≤◌, ◌%◌, length, map, take, drop, false, IfOk};
ghost use Rattle.xr_files.specs.Files.{most_bytes, head_size, is_record_var};
ghost use Rattle.xr_types.specs.Widths.{width};
ghost use Rattle.xr_arrays.specs.Pieces.{together, AreInside};
ghost use Rattle.cdf_reader.specs.Heads.{var_seen};

use crate::data::{Places, fixed_values, raw_at, shared_fixed};
use crate::gather::gather;
use crate::sizes::distance_of;
use crate::strips::{pieces_at, strips_at};
use bytes::Bytes;
use std::alloc::{AllocError, Global};
use xr_arrays::Pieces;
use xr_files::{CdfDim, VarHead};
use xr_types::{Attr, Items, NcType};

/// What the header of a file lists. `numrecs` is the number of records; of a streamed file, those that lie in it.
#[derive(Drop)]
pub struct FileHead {
    pub version: u8,
    pub numrecs: u64,
    pub dims: Items<CdfDim>,
    pub attrs: Items<Attr>,
    pub vars: Items<VarHead>,
}

/// The values of a variable that is no record variable, where they lie in the file's bytes. Of a record variable
/// they are the first record's.
pub fn values_at<'a>(bytes: &'a [u8], head: &FileHead, var: &VarHead) -> &'a [u8]
    ensures place { result.now ≡ take (head_size head.now.dims var.now) (drop var.now.begin bytes.now) }
    ensures fixed { is_record_var head.now.dims var.now.dims ≡ false → result.now ≡ (var_seen bytes.now head.now var.now).raw }
{
    fixed_values(bytes, head.dims.as_slice(), var)
}

/// The values of a variable that is no record variable, shared with the file's bytes, so that none is copied. Of a
/// record variable they are the first record's.
///
/// # Errors
/// Want of memory.
pub fn shared_values(bytes: &Bytes, head: &FileHead, var: &VarHead) -> Result<Bytes, AllocError>
    ensures place { IfOk result (λ raw. raw ≡ take (head_size head.now.dims var.now) (drop var.now.begin bytes.now)) }
    ensures fixed { is_record_var head.now.dims var.now.dims ≡ false → IfOk result (λ raw. raw ≡ (var_seen bytes.now head.now var.now).raw) }
{
    shared_fixed(bytes, head.dims.as_slice(), var)
}

/// The values of a variable in new memory, a record variable's record by record.
///
/// # Errors
/// Want of memory.
pub fn copied_values(
    alloc: Global,
    bytes: &[u8],
    head: &FileHead,
    var: &VarHead,
) -> Result<Bytes, AllocError>
    requires { length bytes.now ≤ most_bytes }
    ensures { IfOk result (λ raw. raw ≡ (var_seen bytes.now head.now var.now).raw) }
{
    let dims = head.dims.as_slice();
    let places = Places {
        dims,
        numrecs: head.numrecs,
        distance: distance_of(dims, head.vars.as_slice()),
    };
    raw_at(alloc, places, bytes, var)
}

/// The values of variables. Those that lie together are shared with the file's bytes, so that none is copied: those of a variable that
/// is no record variable, and those of one that has the records to itself. All others are gathered from the records in one pass over
/// them, into new memory.
///
/// # Errors
/// Want of memory.
pub fn gathered_values(
    alloc: Global,
    bytes: &Bytes,
    head: &FileHead,
    vars: &[&VarHead],
) -> Result<Vec<Bytes>, AllocError>
    requires { length bytes.now ≤ most_bytes }
    ensures { IfOk result (λ raws. raws.items ≡ map (λ v. (var_seen bytes.now head.now v.now).raw) vars.now) }
{
    let dims = head.dims.as_slice();
    let places = Places {
        dims,
        numrecs: head.numrecs,
        distance: distance_of(dims, head.vars.as_slice()),
    };
    let strips = strips_at(alloc, places, vars)?;
    gather(alloc, bytes, places.distance, strips.as_slice())
}

/// The values of a variable where they lie: they share the file's bytes, a record variable's in a piece for each record. Values that
/// don't hold whole numbers of the type in each piece are put together in new memory.
///
/// # Errors
/// Want of memory.
pub fn values_in_pieces(
    alloc: Global,
    kind: NcType,
    bytes: &Bytes,
    head: &FileHead,
    var: &VarHead,
) -> Result<Pieces, AllocError>
    requires short { length bytes.now ≤ most_bytes }
    requires whole { length (var_seen bytes.now head.now var.now).raw % width kind ≡ 0 }
    ensures values { IfOk result (λ p. together kind p ≡ (var_seen bytes.now head.now var.now).raw) }
    ensures inside { IfOk result (AreInside kind) }
{
    let dims = head.dims.as_slice();
    let places = Places {
        dims,
        numrecs: head.numrecs,
        distance: distance_of(dims, head.vars.as_slice()),
    };
    if let Some(pieces) = pieces_at(kind, bytes, places, var)? {
        return Ok(pieces);
    }
    let raw = copied_values(alloc, bytes.as_slice(), head, var)?;
    Ok(Pieces::whole(kind, raw))
}
