//! Arrays over joined axes.
ghost use Rattle.std.specs.Prelude.{◌≡◌, IfOk};
ghost use Rattle.xr_aligning.specs.Common.{Grows, IsArrayIn};
ghost use Rattle.xr_aligning.specs.Fitted.{IsArrayAfter, IsChange};
ghost use Rattle.xr_aligning.specs.Joined.{AreLoose};

use crate::cells::node_after;
use crate::coords::{axes_after, coords_after, masked_with};
use crate::fits::{Change, any_hole, fits_of, is_within, over_axes};
use plan_core::Plan;
use std::alloc::Global;
use xr_types::{Axis, DeepCopy, NoMemory};
use xr_values::DataArray;

/// The same, once it is known how its axes come to the joined ones.
pub fn array_by(
    alloc: Global,
    plan: &mut Plan,
    change: &Change<'_>,
    on: &DataArray,
) -> Result<DataArray, NoMemory>
    requires change { IsChange change.now }
    requires own { change.now.own.now ≡ on.now.axes }
    requires on { IsArrayIn plan.old on.now }
    ensures after { AreLoose change.now.joined.now → IfOk result (IsArrayAfter plan.old plan.new change.now.joined.now change.now.fill on.now) }
    ensures grows { Grows plan.old plan.new }
{
    let own = over_axes(alloc, change, on.axes.as_slice())?;
    let own = own.as_slice();
    if !is_within(own) {
        return Err(NoMemory);
    }
    let coords = coords_after(alloc, change, on.coords.as_slice())?;
    let node = node_after(alloc, plan, on.kind, on.node, own, change.fill)?;
    Ok(DataArray {
        name: on.name.deep_copy(alloc)?,
        axes: axes_after(alloc, change.joined, on.axes.as_slice())?,
        kind: on.kind,
        masked: masked_with(on.masked, change.fill, any_hole(own)),
        attrs: on.attrs.deep_copy(alloc)?,
        coords,
        node,
    })
}

/// An array over joined axes, with a fill where a position has no source. Its cells are those of nodes that are added. Limits that
/// it passes want memory.
pub fn array_after(
    alloc: Global,
    plan: &mut Plan,
    joined: &[Axis],
    fill: Option<i128>,
    on: &DataArray,
) -> Result<DataArray, NoMemory>
    requires { IsArrayIn plan.old on.now }
    ensures after { AreLoose joined.now → IfOk result (IsArrayAfter plan.old plan.new joined.now fill on.now) }
    ensures grows { Grows plan.old plan.new }
{
    let own = on.axes.as_slice();
    let fits = fits_of(alloc, joined, own)?;
    let change = Change {
        joined,
        own,
        fits: fits.as_slice(),
        fill,
    };
    array_by(alloc, plan, &change, on)
}
