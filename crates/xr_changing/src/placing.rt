//! Arrays and datasets of a plan whose dimensions are given other positions.
ghost use Rattle.std.specs.Prelude.{◌≡◌, map, Ok, IfOk};
ghost use Rattle.std.specs.List.{AllByRecursion};
ghost use Rattle.xr_defs.specs.Selecting as limits;
ghost use Rattle.plan_core.specs.Plans.{Grows};
ghost use Rattle.xr_operations.specs.Changing as of;
ghost use Rattle.xr_values.specs.Stands.{array_in, dataset_in, IsArrayIn, IsDatasetIn};
ghost use Rattle.xr_changing.specs.Changed.{IsChanged, IsSetChanged};
ghost use Rattle.xr_changing.specs.Steps as steps;
ghost use Rattle.xr_changing.specs.Steps.{VarFits};

use crate::axes::new_axes;
use crate::coords::changed_coords;
use crate::limits::{sizes_named, sizes_over};
use crate::steps::{masked_along, steps_along};
use plan_core::Plan;
use std::alloc::Global;
use xr_formulas::{Chain, Start, push_chain};
use xr_operations::Change;
use xr_reducing::{SetMade, VarMade, names_of, realize_set};
use xr_types::{Axis, DeepCopy, Items, NoMemory};
use xr_values::{DataArray, Dataset, Variable};

/// The array where dimensions are given other positions, which isn't too large. Steps that a plan doesn't take want memory.
pub fn placed(
    alloc: Global,
    plan: &mut Plan,
    changes: &[Change],
    fill: Option<i128>,
    on: &DataArray,
) -> Result<DataArray, NoMemory>
    requires inside { IsArrayIn plan.old on.now }
    requires within { limits.check_array (of.changed_array changes.now fill (array_in plan.old on.now)) ≡ Ok tt }
    ensures is { IfOk result (IsChanged plan.old plan.new (of.changed_array changes.now fill (array_in plan.old on.now)) (array_in plan.old on.now)) }
    ensures grows { Grows plan.old plan.new }
{
    let own = on.axes.as_slice();
    let names = names_of(alloc, own)?;
    let names = names.as_slice();
    let axes = new_axes(alloc, changes, own)?;
    let coords = changed_coords(alloc, changes, axes.as_slice(), fill, on.coords.as_slice())?;
    let shape = sizes_over(alloc, &[], own)?;
    let steps = steps_along(alloc, changes, fill, names, shape.as_slice(), on.kind)?;
    let start = Start::Node(on.node);
    let node = push_chain(alloc, plan, &Chain { start, steps })?;
    Ok(DataArray {
        name: on.name.deep_copy(alloc)?,
        axes,
        kind: on.kind,
        masked: masked_along(changes, names, fill, on.masked),
        attrs: on.attrs.deep_copy(alloc)?,
        coords,
        node,
    })
}

// ---- datasets

// Steps that a plan doesn't take want memory.
#[tactic(auto, using(crate::proofs::NewAxes::fits_unchanged))]
fn var_made(
    alloc: Global,
    changes: &[Change],
    fill: Option<i128>,
    axes: &[Axis],
    var: &Variable,
) -> Result<VarMade, NoMemory>
    ensures is { IfOk result (λ m. m ≡ steps.var_made changes.now fill var.now) }
    ensures fits { IfOk result (λ m. VarFits changes.now fill axes.now var.now) }
{
    let dims = var.dims.as_slice();
    let shape = sizes_named(alloc, &[], axes, dims)?;
    let steps = steps_along(alloc, changes, fill, dims, shape.as_slice(), var.kind)?;
    let start = Start::Node(var.node);
    Ok(VarMade {
        name: var.name.deep_copy(alloc)?,
        dims: var.dims.deep_copy(alloc)?,
        kind: var.kind,
        masked: masked_along(changes, dims, fill, var.masked),
        attrs: var.attrs.deep_copy(alloc)?,
        cells: Chain { start, steps },
    })
}

// The variables at new labels, before a plan.
fn vars_made(
    alloc: Global,
    changes: &[Change],
    fill: Option<i128>,
    axes: &[Axis],
    vars: &[Variable],
) -> Result<Items<VarMade>, NoMemory>
    ensures is { IfOk result (λ ms. ms ≡ map (steps.var_made changes.now fill) vars.now) }
    ensures fits { IfOk result (λ ms. AllByRecursion (VarFits changes.now fill axes.now) vars.now) }
{
    let mut out = Items::new(alloc);
    for var in vars {
        out.push(var_made(alloc, changes, fill, axes, var)?)?;
    }
    Ok(out)
}

/// The dataset where dimensions are given other positions, which isn't too large.
pub fn set_placed(
    alloc: Global,
    plan: &mut Plan,
    changes: &[Change],
    fill: Option<i128>,
    on: &Dataset,
) -> Result<Dataset, NoMemory>
    requires inside { IsDatasetIn plan.old on.now }
    requires within { limits.check_set (of.changed_set changes.now fill (dataset_in plan.old on.now)) ≡ Ok tt }
    ensures is { IfOk result (IsSetChanged plan.old plan.new (of.changed_set changes.now fill (dataset_in plan.old on.now)) (dataset_in plan.old on.now)) }
    ensures grows { Grows plan.old plan.new }
{
    let (own, coords, vars) = (on.axes.as_slice(), on.coords.as_slice(), on.vars.as_slice());
    let axes = new_axes(alloc, changes, own)?;
    let coords = changed_coords(alloc, changes, axes.as_slice(), fill, coords)?;
    let vars = vars_made(alloc, changes, fill, own, vars)?;
    let made = SetMade {
        axes,
        coords,
        vars,
        attrs: on.attrs.deep_copy(alloc)?,
        skipped: on.skipped.deep_copy(alloc)?,
    };
    let set = realize_set(alloc, plan, made)?;
    Ok(set)
}
