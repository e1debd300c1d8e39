//! What a reduction leaves of axes and coordinates, and what it does with each dimension.
ghost use Rattle.std.specs.Prelude.{◌≡◌, IfOk};
ghost use Rattle.std.specs.List.{list_any};
ghost use Rattle.xr_types.specs.Names.{among, axis_names};
ghost use Rattle.xr_operations.specs.Reductions as calls;

use std::alloc::{AllocError, Global};
use xr_arrays::Feed;
use xr_defs::Coord;
use xr_parts::is_among;
use xr_types::{Axis, DeepCopy, Items, Name, TextBytes};
use xr_values::copy_coord;

/// The axes that aren't reduced.
pub fn axes_left(
    alloc: Global,
    names: &[TextBytes],
    axes: &[Axis],
) -> Result<Items<Axis>, AllocError>
    ensures { IfOk result (λ xs. xs ≡ calls.axes_left names.now axes.now) }
{
    let mut out = Items::new(alloc);
    for axis in axes {
        if !is_among(names, &axis.name) {
            out.push(axis.deep_copy(alloc)?)?;
        }
    }
    Ok(out)
}

/// The dimensions that aren't reduced.
pub fn names_left(
    alloc: Global,
    names: &[TextBytes],
    dims: &[Name],
) -> Result<Items<Name>, AllocError>
    ensures { IfOk result (λ ds. ds ≡ calls.names_left names.now dims.now) }
{
    let mut out = Items::new(alloc);
    for dim in dims {
        if !is_among(names, dim) {
            out.push(dim.deep_copy(alloc)?)?;
        }
    }
    Ok(out)
}

/// Whether some axis is reduced.
pub(crate) fn has_any_axis(names: &[TextBytes], axes: &[Axis]) -> bool
    ensures { result ≡ list_any (among names.now) (axis_names axes.now) }
{
    match axes {
        [] => false,
        [axis, rest @ ..] => is_among(names, &axis.name) || has_any_axis(names, rest),
    }
}

/// The coordinates that have no reduced dimension.
pub(crate) fn coords_left(
    alloc: Global,
    names: &[TextBytes],
    coords: &[Coord],
) -> Result<Items<Coord>, AllocError>
    ensures { IfOk result (λ cs. cs ≡ calls.coords_left names.now coords.now) }
{
    let mut out = Items::new(alloc);
    for coord in coords {
        if !has_any_axis(names, coord.axes.as_slice()) {
            out.push(copy_coord(alloc, coord)?)?;
        }
    }
    Ok(out)
}

fn feed_of(names: &[TextBytes], dim: &TextBytes) -> Feed
    ensures { result ≡ calls.feed_of names.now dim.now }
{
    if is_among(names, dim) {
        Feed::All
    } else {
        Feed::Keep
    }
}

/// What a fold does with each dimension.
pub(crate) fn feeds_of(
    alloc: Global,
    names: &[TextBytes],
    dims: &[Name],
) -> Result<Items<Feed>, AllocError>
    ensures { IfOk result (λ fs. fs ≡ calls.feeds names.now dims.now) }
{
    let mut out = Items::new(alloc);
    for dim in dims {
        out.push(feed_of(names, dim))?;
    }
    Ok(out)
}
