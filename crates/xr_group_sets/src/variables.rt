//! Data variables of a dataset in groups, bins, windows or blocks.
ghost use Rattle.std.specs.Prelude.{◌≡◌, ◌*◌, true, map, IfOk};
ghost use Rattle.std.specs.List.{AllByRecursion};
ghost use Rattle.xr_types.specs.Names.{are_distinct, axis_names};
ghost use Rattle.xr_arrays.specs.Added.{AddsAtMost};
ghost use Rattle.plan_core.specs.Plans.{Grows};
ghost use Rattle.xr_defs.specs.Parts.{axes_called};
ghost use Rattle.xr_defs.specs.Room.{span};
ghost use Rattle.xr_defs.specs.WellFormed.{AreDimensions};
ghost use Rattle.xr_groups.specs.Listed as lists;
ghost use Rattle.xr_values.specs.Stands.{variable_in};
ghost use Rattle.xr_group_sets.specs.Listing.{variable_at, vars_room, AreVarsIn, IsVarIn, IsVarListing};

use crate::groupings::is_grouped;
use crate::listed::listed_array;
use crate::own::{names_of, own_array};
use plan_core::Plan;
use std::alloc::Global;
use xr_groups::{Change, Least};
use xr_types::{Axis, DeepCopy, FoldKind, Items, NoMemory};
use xr_values::Variable;

// One that has none of the dimensions stays as it is.
fn variable_listed(
    alloc: Global,
    plan: &mut Plan,
    fold: FoldKind,
    least: Least,
    changes: &[Change],
    fill: Option<Option<i128>>,
    axes: &[Axis],
    var: &Variable,
) -> Result<Variable, NoMemory>
    requires dims { AreDimensions axes.now }
    requires distinct { are_distinct (axis_names (lists.axes_by changes.now axes.now)) ≡ true }
    requires fits { IsVarListing plan.old fold least changes.now fill axes.now var.now }
    ensures var { IfOk result (IsVarIn (lists.axes_by changes.now axes.now) plan.new (variable_at fold least changes.now fill axes.now (variable_in plan.old var.now))) }
    ensures grows { Grows plan.old plan.new }
    ensures cells { IfOk result (λ v. AddsAtMost plan.old plan.new (256 * span (lists.axes_by changes.now (axes_called axes.now var.now.dims)))) }
{
    if !is_grouped(changes, var.dims.as_slice()) {
        return Ok(var.deep_copy(alloc)?);
    }
    let array = own_array(alloc, axes, var)?;
    let grouped = listed_array(alloc, plan, fold, least, changes, fill, &array)?;
    Ok(Variable {
        name: var.name.deep_copy(alloc)?,
        dims: names_of(alloc, grouped.axes.as_slice())?,
        kind: grouped.kind,
        masked: grouped.masked,
        attrs: grouped.attrs,
        node: grouped.node,
    })
}

/// The variables of the plan, in their order.
pub(crate) fn variables_listed(
    alloc: Global,
    plan: &mut Plan,
    fold: FoldKind,
    least: Least,
    changes: &[Change],
    fill: Option<Option<i128>>,
    axes: &[Axis],
    vars: &[Variable],
) -> Result<Items<Variable>, NoMemory>
    requires dims { AreDimensions axes.now }
    requires distinct { are_distinct (axis_names (lists.axes_by changes.now axes.now)) ≡ true }
    requires fits { AllByRecursion (IsVarListing plan.old fold least changes.now fill axes.now) vars.now }
    ensures vars { IfOk result (AreVarsIn (lists.axes_by changes.now axes.now) plan.new (map (variable_at fold least changes.now fill axes.now) (map (variable_in plan.old) vars.now))) }
    ensures grows { Grows plan.old plan.new }
    ensures cells { IfOk result (λ vs. AddsAtMost plan.old plan.new (vars_room changes.now axes.now vars.now)) }
{
    let mut out = Items::new(alloc);
    for var in vars {
        let one = variable_listed(alloc, plan, fold, least, changes, fill, axes, var)?;
        out.push(one)?;
    }
    Ok(out)
}
