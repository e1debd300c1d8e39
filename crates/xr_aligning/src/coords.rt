//! Coordinates over joined axes.
ghost use Rattle.std.specs.Prelude.{◌≡◌, ◌++◌, [], map, IfOk, OnOk};
ghost use Rattle.xr_aligning.specs.Common.{AllByRecursion, IsCoordinate};
ghost use Rattle.xr_operations.specs.Alignment as alignment;
ghost use Rattle.xr_aligning.specs.Fits.{content_after, TakesFill};
ghost use Rattle.xr_aligning.specs.Fitted.{AreFitted, IsChange, IsContentAfter, IsFitted};

use crate::cells::cells_after;
use crate::fits::{Change, Fit, any_hole, is_within, joined_in, over_axes};
use std::alloc::{AllocError, Global};
use xr_defs::{Content, Coord};
use xr_types::{Axis, DeepCopy, Items, NoMemory};

/// Whether missing cells may stand in what has missing ones where a position has no source, unless a number fills it.
pub fn masked_with(masked: bool, fill: Option<i128>, hole: bool) -> bool
    ensures { result ≡ alignment.masked_with masked fill hole }
{
    match fill {
        None => masked || hole,
        Some(_) => masked,
    }
}

fn content_after(
    alloc: Global,
    fits: &[&Fit],
    fill: Option<i128>,
    content: &Content,
) -> Result<Content, NoMemory>
    ensures content { IfOk result (λ c. c ≡ content_after fill (map (λ f. f.now) fits.now) content.now) }
    ensures takes { IfOk result (λ c. TakesFill fill (map (λ f. f.now) fits.now) content.now) }
{
    match content {
        Content::Cells(cells, masked) => {
            let copy = cells.copy(alloc)?;
            let left = cells_after(alloc, copy, fits, fill)?;
            Ok(Content::Cells(left, masked_with(*masked, fill, any_hole(fits))))
        }
        Content::Text(text) => Ok(Content::Text(text.deep_copy(alloc)?)),
        Content::Time(coding, time) => Ok(Content::Time(coding.deep_copy(alloc)?, *time)),
    }
}

/// The joined axes of these, one by one.
pub fn axes_after(alloc: Global, joined: &[Axis], own: &[Axis]) -> Result<Items<Axis>, AllocError>
    ensures { IfOk result (λ xs. xs ≡ map (alignment.joined_in joined.now) own.now) }
{
    let mut axes = Items::new(alloc);
    for axis in own {
        axes.push(joined_in(joined, axis).deep_copy(alloc)?)?;
    }
    Ok(axes)
}

// The cells of more positions than a coordinate may have aren't made.
fn content_within(
    alloc: Global,
    change: &Change<'_>,
    axes: &[Axis],
    content: &Content,
) -> Result<Content, NoMemory>
    requires { IsChange change.now }
    ensures { IfOk result (IsContentAfter change.now axes.now content.now) }
{
    let own = over_axes(alloc, change, axes)?;
    let own = own.as_slice();
    if !is_within(own) {
        return Err(NoMemory);
    }
    let left = content_after(alloc, own, change.fill, content)?;
    Ok(left)
}

fn coord_after(alloc: Global, change: &Change<'_>, coord: &Coord) -> Result<Coord, NoMemory>
    requires { IsChange change.now }
    ensures { IsCoordinate change.now.own.now coord.now → IfOk result (IsFitted change.now.joined.now change.now.fill change.now.own.now coord.now) }
{
    let axes = coord.axes.as_slice();
    let content = content_within(alloc, change, axes, &coord.content)?;
    Ok(Coord {
        name: coord.name.deep_copy(alloc)?,
        axes: axes_after(alloc, change.joined, axes)?,
        attrs: coord.attrs.deep_copy(alloc)?,
        content,
    })
}

fn push_coords(
    alloc: Global,
    out: &mut Items<Coord>,
    change: &Change<'_>,
    coords: &[Coord],
) -> Result<(), NoMemory>
    requires { IsChange change.now }
    ensures { OnOk result (AllByRecursion (IsCoordinate change.now.own.now) coords.now → AreFitted change.now.joined.now change.now.fill change.now.own.now out.old coords.now out.new) }
{
    for coord in coords {
        let one = coord_after(alloc, change, coord)?;
        out.push(one)?;
    }
    Ok(())
}

/// Coordinates over joined axes.
pub fn coords_after(
    alloc: Global,
    change: &Change<'_>,
    coords: &[Coord],
) -> Result<Items<Coord>, NoMemory>
    requires { IsChange change.now }
    ensures { IfOk result (λ cs. AllByRecursion (IsCoordinate change.now.own.now) coords.now → AreFitted change.now.joined.now change.now.fill change.now.own.now [] coords.now cs) }
{
    let mut out = Items::new(alloc);
    push_coords(alloc, &mut out, change, coords)?;
    Ok(out)
}
