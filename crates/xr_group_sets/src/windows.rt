//! Arrays in windows.
ghost use Rattle.std.specs.Prelude.{◌≡◌, ◌*◌, [], false, IfOk};
ghost use Rattle.xr_arrays.specs.Added.{AddsAtMost};
ghost use Rattle.plan_core.specs.Plans.{Grows};
ghost use Rattle.xr_defs.specs.Room.{span};
ghost use Rattle.xr_groups.specs.Listed as lists;
ghost use Rattle.xr_groups.specs.Methods as methods;
ghost use Rattle.xr_groups.specs.declared.change.Least.TheVariants.{Fewer as fewer};
ghost use Rattle.xr_values.specs.Stands.{array_in, IsArrayIn};
ghost use Rattle.xr_formulas.specs.Mades.{IsArrayOf};
ghost use Rattle.xr_group_sets.specs.Listing.{IsListing};

use plan_core::Plan;
use std::alloc::{AllocError, Global};
use xr_grouping::{WindowsAsked, axes_by, window_folds};
use xr_groups::Change;
use xr_types::{DeepCopy, FoldKind, Items, NoMemory};
use xr_values::DataArray;

fn copy_changes(alloc: Global, changes: &[Change]) -> Result<Items<Change>, AllocError>
    ensures { IfOk result (λ cs. cs ≡ changes.now) }
{
    let mut out = Items::new(alloc);
    for change in changes {
        out.push(Change {
            dimension: change.dimension.deep_copy(alloc)?,
            lists: change.lists.deep_copy(alloc)?,
            axis: change.axis.deep_copy(alloc)?,
        })?;
    }
    Ok(out)
}

/// An array without coordinates, each of whose windows is folded, and filled where it has too few present cells.
pub(crate) fn windowed_array(
    alloc: Global,
    plan: &mut Plan,
    fold: FoldKind,
    least: u64,
    changes: &[Change],
    fill: Option<Option<i128>>,
    on: &DataArray,
) -> Result<DataArray, NoMemory>
    requires inside { IsArrayIn plan.old on.now }
    requires bare { on.now.coords ≡ [] }
    requires fits { IsListing fold (fewer least) changes.now fill on.now.axes on.now.kind }
    ensures is { IfOk result (IsArrayOf plan.new (methods.array_listed fold (fewer least) false changes.now fill (array_in plan.old on.now))) }
    ensures grows { Grows plan.old plan.new }
    ensures room { IfOk result (λ b. AddsAtMost plan.old plan.new (256 * span (lists.axes_by changes.now on.now.axes))) }
{
    let axes = axes_by(alloc, changes, on.axes.as_slice())?;
    let changes = copy_changes(alloc, changes)?;
    let asked = WindowsAsked {
        changes,
        fill,
        axes,
    };
    let array = window_folds(alloc, plan, fold, least, on, asked)?;
    Ok(array)
}
