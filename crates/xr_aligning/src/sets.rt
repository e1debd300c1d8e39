//! Datasets over joined axes.
ghost use Rattle.std.specs.Prelude.{◌≡◌, IfOk, OnOk};
ghost use Rattle.xr_aligning.specs.Common.{AllByRecursion, Grows, IsDatasetIn};
ghost use Rattle.xr_aligning.specs.Fitted.{IsChange};
ghost use Rattle.xr_aligning.specs.Joined.{AreLoose};
ghost use Rattle.xr_aligning.specs.Sets.{ArePut, CanPut, IsSetAfter, IsVarAfter, IsVarHere, KeepsLabels};

use crate::cells::node_after;
use crate::coords::{axes_after, coords_after, masked_with};
use crate::fits::{Change, any_hole, are_short, is_within, over_axes, over_names};
use plan_core::Plan;
use std::alloc::Global;
use xr_types::{DeepCopy, NoMemory};
use xr_values::{Dataset, Variable, Variables};

// Limits that it passes want memory.
fn var_after(
    alloc: Global,
    plan: &mut Plan,
    change: &Change<'_>,
    var: &Variable,
) -> Result<Variable, NoMemory>
    requires change { IsChange change.now }
    requires var { IsVarHere plan.old change.now.own.now var.now }
    ensures after { IfOk result (IsVarAfter plan.old plan.new change.now.joined.now change.now.own.now change.now.fill var.now) }
    ensures grows { Grows plan.old plan.new }
{
    let own = over_names(alloc, change, var.dims.as_slice())?;
    let own = own.as_slice();
    if !is_within(own) {
        return Err(NoMemory);
    }
    let node = node_after(alloc, plan, var.kind, var.node, own, change.fill)?;
    Ok(Variable {
        name: var.name.deep_copy(alloc)?,
        dims: var.dims.deep_copy(alloc)?,
        kind: var.kind,
        masked: masked_with(var.masked, change.fill, any_hole(own)),
        attrs: var.attrs.deep_copy(alloc)?,
        node,
    })
}

/// Puts variables over joined axes among others. Limits that they pass want memory.
#[tactic(auto, using(plan_core::proofs::Plans::grows_by_none, plan_core::proofs::Plans::grows_on))]
pub fn put_vars(
    alloc: Global,
    plan: &mut Plan,
    out: &mut Variables,
    change: &Change<'_>,
    vars: &[Variable],
) -> Result<(), NoMemory>
    requires { CanPut plan.old change.now vars.now }
    ensures put { OnOk result (ArePut plan.old plan.new change.now.joined.now change.now.own.now change.now.fill out.old vars.now out.new) }
    ensures grows { Grows plan.old plan.new }
{
    match vars {
        [] => Ok(()),
        [var, rest @ ..] => {
            let one = var_after(alloc, plan, change, var)?;
            out.put(alloc, one)?;
            put_vars(alloc, plan, out, change, rest)
        }
    }
}

/// A dataset over joined axes, with a fill where a position has no source. Its cells are those of nodes that are added. Limits that
/// it passes want memory.
pub fn set_after(
    alloc: Global,
    plan: &mut Plan,
    change: &Change<'_>,
    set: &Dataset,
) -> Result<Dataset, NoMemory>
    requires change { IsChange change.now }
    requires own { change.now.own.now ≡ set.now.axes }
    requires set { IsDatasetIn plan.old set.now }
    ensures after { AreLoose change.now.joined.now → AllByRecursion (KeepsLabels change.now.joined.now) set.now.axes → IfOk result (IsSetAfter plan.old plan.new change.now.joined.now change.now.fill set.now) }
    ensures grows { Grows plan.old plan.new }
{
    let own = set.axes.as_slice();
    let fits = over_axes(alloc, change, own)?;
    if !are_short(fits.as_slice()) {
        return Err(NoMemory);
    }
    let axes = axes_after(alloc, change.joined, own)?;
    let coords = coords_after(alloc, change, set.coords.as_slice())?;
    let attrs = set.attrs.deep_copy(alloc)?;
    let skipped = set.skipped.deep_copy(alloc)?;
    let mut vars = Variables::new(alloc);
    put_vars(alloc, plan, &mut vars, change, set.vars.as_slice())?;
    Ok(Dataset {
        axes,
        coords,
        vars,
        attrs,
        skipped,
    })
}
