//! Axes, coordinates and feeds of dimensions whose positions are grouped.
ghost use Rattle.std.specs.Prelude.{◌≡◌, false, map, IfOk};
ghost use Rattle.std.specs.List.{list_any};
ghost use Rattle.xr_types.specs.Names.{among, axis_names};
ghost use Rattle.xr_groups.specs.Listed as of;
ghost use Rattle.xr_operations.specs.Reductions.{coords_left};

use std::alloc::{AllocError, Global};
use xr_arrays::Feed;
use xr_defs::Coord;
use xr_groups::Change;
use xr_types::{Axis, DeepCopy, Items, TextBytes};
use xr_values::copy_coord;

fn feed_by(alloc: Global, changes: &[Change], name: &TextBytes) -> Result<Feed, AllocError>
    ensures { IfOk result (λ f. f ≡ of.feed_by changes.now name.now) }
{
    match changes {
        [] => Ok(Feed::Keep),
        [change, rest @ ..] => {
            if name.is(&change.dimension) {
                Ok(Feed::By(change.lists.deep_copy(alloc)?))
            } else {
                feed_by(alloc, rest, name)
            }
        }
    }
}

/// What a fold does with each axis.
pub fn feeds_by(alloc: Global, changes: &[Change], axes: &[Axis]) -> Result<Items<Feed>, AllocError>
    ensures { IfOk result (λ fs. fs ≡ of.feeds_by changes.now (axis_names axes.now)) }
{
    let mut out = Items::new(alloc);
    for axis in axes {
        out.push(feed_by(alloc, changes, &axis.name)?)?;
    }
    Ok(out)
}

fn axis_by(alloc: Global, changes: &[Change], axis: &Axis) -> Result<Axis, AllocError>
    ensures { IfOk result (λ x. x ≡ of.axis_by changes.now axis.now) }
{
    match changes {
        [] => axis.deep_copy(alloc),
        [change, rest @ ..] => {
            if axis.name.is(&change.dimension) {
                change.axis.deep_copy(alloc)
            } else {
                axis_by(alloc, rest, axis)
            }
        }
    }
}

/// The axes afterwards.
pub fn axes_by(alloc: Global, changes: &[Change], axes: &[Axis]) -> Result<Items<Axis>, AllocError>
    ensures { IfOk result (λ xs. xs ≡ of.axes_by changes.now axes.now) }
{
    let mut out = Items::new(alloc);
    for axis in axes {
        out.push(axis_by(alloc, changes, axis)?)?;
    }
    Ok(out)
}

pub fn is_changed(changes: &[Change], name: &TextBytes) -> bool
    ensures { result ≡ among (of.dimensions changes.now) name.now }
{
    match changes {
        [] => false,
        [change, rest @ ..] => name.is(&change.dimension) || is_changed(rest, name),
    }
}

/// Whether some axis is grouped.
pub(crate) fn is_grouped(changes: &[Change], axes: &[Axis]) -> bool
    ensures { result ≡ of.is_grouped changes.now (axis_names axes.now) }
{
    match axes {
        [] => false,
        [axis, rest @ ..] => is_changed(changes, &axis.name) || is_grouped(changes, rest),
    }
}

/// The coordinates that have no grouped dimension.
pub fn coords_left(
    alloc: Global,
    changes: &[Change],
    coords: &[Coord],
) -> Result<Items<Coord>, AllocError>
    ensures { IfOk result (λ cs. cs ≡ of.coords_by false changes.now coords.now) }
{
    let mut out = Items::new(alloc);
    for coord in coords {
        if !is_grouped(changes, coord.axes.as_slice()) {
            out.push(copy_coord(alloc, coord)?)?;
        }
    }
    Ok(out)
}
