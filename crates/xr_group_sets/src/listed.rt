//! Arrays whose lists of positions are folded, and filled where they have too few cells.
ghost use Rattle.std.specs.Prelude.{◌≡◌, ◌*◌, [], false, IfOk};
ghost use Rattle.xr_arrays.specs.Added.{AddsAtMost};
ghost use Rattle.plan_core.specs.Plans.{Grows};
ghost use Rattle.xr_defs.specs.Room.{span};
ghost use Rattle.xr_groups.specs.Listed as lists;
ghost use Rattle.xr_groups.specs.Methods as methods;
ghost use Rattle.xr_values.specs.Stands.{array_in, IsArrayIn};
ghost use Rattle.xr_formulas.specs.Mades.{IsArrayOf};
ghost use Rattle.xr_group_sets.specs.Listing.{IsListing};

use crate::fills::filled_array;
use crate::folds::folded_array;
use crate::windows::windowed_array;
use plan_core::Plan;
use std::alloc::Global;
use xr_groups::{Change, Least};
use xr_types::{FoldKind, NoMemory};
use xr_values::DataArray;

/// The array of folds of an array without coordinates.
pub(crate) fn listed_array(
    alloc: Global,
    plan: &mut Plan,
    fold: FoldKind,
    least: Least,
    changes: &[Change],
    fill: Option<Option<i128>>,
    on: &DataArray,
) -> Result<DataArray, NoMemory>
    requires inside { IsArrayIn plan.old on.now }
    requires bare { on.now.coords ≡ [] }
    requires fits { IsListing fold least changes.now fill on.now.axes on.now.kind }
    ensures is { IfOk result (IsArrayOf plan.new (methods.array_listed fold least false changes.now fill (array_in plan.old on.now))) }
    ensures grows { Grows plan.old plan.new }
    ensures room { IfOk result (λ b. AddsAtMost plan.old plan.new (256 * span (lists.axes_by changes.now on.now.axes))) }
{
    match least {
        Least::Never => folded_array(alloc, plan, fold, changes, fill, on),
        Least::Empty => match fill {
            None => folded_array(alloc, plan, fold, changes, None, on),
            Some(cell) => filled_array(alloc, plan, fold, changes, cell, on),
        },
        Least::Fewer(most) => windowed_array(alloc, plan, fold, most, changes, fill, on),
    }
}
