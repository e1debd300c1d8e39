//! The dimensions of a variable: their names and sizes.
ghost use Rattle.std.specs.Prelude.{◌≡◌, IfOk};
ghost use Rattle.xr_defs.specs.Decoding.{var_dims, var_shape};

use crate::shapes::{names_of, shape_of};
use crate::stored::{Source, StoredVar};
use std::alloc::{AllocError, Global};
use xr_types::{Items, Name};

pub(crate) fn var_dims(
    alloc: Global,
    source: &Source<'_>,
    var: &StoredVar<'_>,
) -> Result<Items<Name>, AllocError>
    ensures { IfOk result (λ s. s ≡ var_dims source.now var.now) }
{
    names_of(alloc, source.dims(), var.dims())
}

pub(crate) fn var_shape(
    alloc: Global,
    source: &Source<'_>,
    var: &StoredVar<'_>,
) -> Result<Items<u64>, AllocError>
    ensures { IfOk result (λ s. s ≡ var_shape source.now var.now) }
{
    shape_of(alloc, source.dims(), source.numrecs(), var.dims())
}
