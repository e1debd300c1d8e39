//! Which variables aren't loaded.
ghost use Rattle.std.specs.Prelude.{◌≡◌, ◌++◌, drop, IfOk};
ghost use Rattle.xr_defs.specs.Decoding.{is_skipped, skipped_in};

use crate::kinds::is_whole;
use crate::shapes::{are_different, has_long, size};
use crate::stored::{Source, StoredVar};
use std::alloc::{AllocError, Global};
use xr_types::{DeepCopy, Items, MOST_CELLS, MOST_DIMENSIONS, Name};

/// Whether a variable isn't loaded: it holds floats, a dimension stands twice, or it has too many dimensions, cells or positions.
#[tactic(auto, unfolding(xr_defs::specs::Decoding::is_skipped))]
pub(crate) fn is_skipped(source: &Source<'_>, var: &StoredVar<'_>) -> bool
    ensures { result ≡ is_skipped source.now var.now }
{
    let dims = source.dims();
    let ids = var.dims();
    let numrecs = source.numrecs();
    !is_whole(var.kind())
        || ids.len() > MOST_DIMENSIONS
        || !are_different(ids)
        || size(dims, numrecs, ids) > MOST_CELLS
        || has_long(dims, numrecs, ids)
}

/// The names of the variables that aren't loaded.
pub(crate) fn skipped_in(
    alloc: Global,
    source: &Source<'_>,
    vars: &[StoredVar<'_>],
) -> Result<Items<Name>, AllocError>
    ensures { IfOk result (λ s. s ≡ skipped_in source.now vars.now) }
{
    let mut names = Items::new(alloc);
    for var in vars {
        if is_skipped(source, var) {
            names.push(var.name().deep_copy(alloc)?)?;
        }
    }
    Ok(names)
}
