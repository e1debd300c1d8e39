//! Arrays whose lists of positions are folded, with a fill where one is empty.
ghost use Rattle.std.specs.Prelude.{◌≡◌, ◌*◌, [], false, Some, IfOk};
ghost use Rattle.xr_arrays.specs.Added.{AddsAtMost};
ghost use Rattle.plan_core.specs.Plans.{Grows};
ghost use Rattle.xr_defs.specs.Room.{span};
ghost use Rattle.xr_groups.specs.Listed as lists;
ghost use Rattle.xr_groups.specs.Methods as methods;
ghost use Rattle.xr_groups.specs.declared.change.Least.TheVariants.{Empty as empty};
ghost use Rattle.xr_values.specs.Stands.{array_in, IsArrayIn};
ghost use Rattle.xr_formulas.specs.Mades.{IsArrayOf};
ghost use Rattle.xr_group_sets.specs.Listing.{IsListing};

use plan_core::Plan;
use std::alloc::Global;
use xr_formulas::push_chain;
use xr_grouping::{axes_by, folded_chain, folded_kind, masked_by};
use xr_groups::Change;
use xr_types::{DeepCopy, FoldKind, Items, NoMemory};
use xr_values::{DataArray, without_fills};

/// An array without coordinates, each of whose lists of positions is folded, and filled where it is empty.
pub(crate) fn filled_array(
    alloc: Global,
    plan: &mut Plan,
    fold: FoldKind,
    changes: &[Change],
    fill: Option<i128>,
    on: &DataArray,
) -> Result<DataArray, NoMemory>
    requires inside { IsArrayIn plan.old on.now }
    requires bare { on.now.coords ≡ [] }
    requires fits { IsListing fold empty changes.now (Some fill) on.now.axes on.now.kind }
    ensures is { IfOk result (IsArrayOf plan.new (methods.array_listed fold empty false changes.now (Some fill) (array_in plan.old on.now))) }
    ensures grows { Grows plan.old plan.new }
    ensures room { IfOk result (λ b. AddsAtMost plan.old plan.new (256 * span (lists.axes_by changes.now on.now.axes))) }
{
    let own = on.axes.as_slice();
    let chain = folded_chain(alloc, fold, changes, on, Some(fill))?;
    let axes = axes_by(alloc, changes, own)?;
    let name = on.name.deep_copy(alloc)?;
    let attrs = without_fills(alloc, on.attrs.as_slice())?;
    let node = push_chain(alloc, plan, &chain)?;
    Ok(DataArray {
        name,
        axes,
        kind: folded_kind(fold, on.kind),
        masked: masked_by(fold, on.masked, Some(fill)),
        attrs,
        coords: Items::new(alloc),
        node,
    })
}
