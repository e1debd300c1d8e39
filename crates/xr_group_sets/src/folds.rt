//! Arrays whose lists of positions are folded, each.
ghost use Rattle.std.specs.Prelude.{◌≡◌, ◌*◌, [], false, ℤ, Option, IfOk};
ghost use Rattle.xr_arrays.specs.Added.{AddsAtMost};
ghost use Rattle.plan_core.specs.Plans.{Grows};
ghost use Rattle.xr_defs.specs.Room.{span};
ghost use Rattle.xr_groups.specs.Listed as lists;
ghost use Rattle.xr_groups.specs.Methods as methods;
ghost use Rattle.xr_groups.specs.declared.change.Least.TheVariants.{Never as never};
ghost use Rattle.xr_values.specs.Stands.{array_in, IsArrayIn};
ghost use Rattle.xr_formulas.specs.Mades.{IsArrayOf};
ghost use Rattle.xr_group_sets.specs.Listing.{IsListing};

use plan_core::Plan;
use std::alloc::Global;
use xr_formulas::{Step, one_step, push_chain};
use xr_grouping::{axes_by, feeds_by, folded_kind, masked_after};
use xr_groups::Change;
use xr_types::{DeepCopy, FoldKind, Items, NoMemory};
use xr_values::{DataArray, without_fills};

/// An array without coordinates, each of whose lists of positions has some and is folded.
pub(crate) fn folded_array(
    alloc: Global,
    plan: &mut Plan,
    fold: FoldKind,
    changes: &[Change],
    fill: Option<Option<i128>>,
    on: &DataArray,
) -> Result<DataArray, NoMemory>
    requires inside { IsArrayIn plan.old on.now }
    requires bare { on.now.coords ≡ [] }
    requires fits { IsListing fold never changes.now fill on.now.axes on.now.kind }
    ensures is { IfOk result (IsArrayOf plan.new (methods.array_listed fold never false changes.now fill (array_in plan.old on.now))) }
    ensures grows { Grows plan.old plan.new }
    ensures room { IfOk result (λ b. AddsAtMost plan.old plan.new (256 * span (lists.axes_by changes.now on.now.axes))) }
{
    let own = on.axes.as_slice();
    let feeds = feeds_by(alloc, changes, own)?;
    let chain = one_step(alloc, on.node, Step::Fold(fold, feeds))?;
    let axes = axes_by(alloc, changes, own)?;
    let name = on.name.deep_copy(alloc)?;
    let attrs = without_fills(alloc, on.attrs.as_slice())?;
    let node = push_chain(alloc, plan, &chain)?;
    Ok(DataArray {
        name,
        axes,
        kind: folded_kind(fold, on.kind),
        masked: masked_after(fold, on.masked),
        attrs,
        coords: Items::new(alloc),
        node,
    })
}
