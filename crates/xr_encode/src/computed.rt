//! The data variables: the cells of one at a time are computed, checked and written.
ghost use Rattle.std.specs.Prelude.{◌≡◌, ◌<◌, ℕ, List, length, map, Ok};
ghost use Rattle.std.specs.List.{AllByRecursion};
ghost use denote.Param.Send.{IsSync};
ghost use Rattle.xr_types.specs.Results.{all_of};
ghost use Rattle.xr_defs.specs.Encoding.{check_fit};
ghost use Rattle.xr_arrays.specs.declared.node.Node.{Node};
ghost use Rattle.xr_encode.specs.Outlines.{without_cells};
ghost use Rattle.xr_encode.specs.Sets.{variable_outline};
ghost use Rattle.xr_encode.specs.Encoded.{node_cells, computed_var, computed_from, IsReady, Follows, Adds};

use crate::filled::array_var;
use crate::set::variable_outline;
use plan_core::Compute;
use std::alloc::Global;
use std::thread::Threads;
use xr_arrays::ArrayValue;
use xr_defs::{Coord, WriteOptions};
use xr_files::{CdfDim, CdfVar};
use xr_types::{CallFault, ComputeFault, Items, NodeId};
use xr_values::{Cx, Variable};

#[tactic(auto, unfolding(crate::specs::Encoded::node_cells, xr_types::specs::Results::unless))]
fn node_cells<R: Threads + Sync, C: Compute>(
    rt: &R,
    alloc: Global,
    cx: &mut Cx<C>,
    node: NodeId,
) -> Result<ArrayValue, CallFault>
    requires sync { IsSync R.row }
    requires inside { node < length cx.old.plan }
    ensures told { Follows result (node_cells (C.declines cx.old.compute cx.old.plan) cx.old.plan node) }
    ensures plan { cx.new.plan ≡ cx.old.plan }
    ensures keeps { (nodes : List Node) (n : ℕ) → C.declines cx.new.compute nodes n ≡ C.declines cx.old.compute nodes n }
{
    match cx.compute.cells(rt, alloc, &cx.plan, node) {
        Ok(array) => Ok(array),
        Err(ComputeFault::Declined(node)) => Err(CallFault::Declined(node)),
        Err(ComputeFault::NoMemory) => Err(CallFault::NoMemory),
    }
}

#[tactic(auto, unfolding(crate::specs::Encoded::computed_var))]
fn computed_var<R: Threads + Sync, C: Compute>(
    rt: &R,
    alloc: Global,
    cx: &mut Cx<C>,
    dims: &[CdfDim],
    options: &WriteOptions,
    coords: &[Coord],
    variable: &Variable,
    small: bool,
) -> Result<CdfVar, CallFault>
    requires sync { IsSync R.row }
    requires ready { IsReady cx.old.plan variable.now }
    requires fit { check_fit options.now (without_cells (variable_outline coords.now variable.now)) ≡ Ok tt }
    ensures told { Follows result (computed_var (C.declines cx.old.compute cx.old.plan) cx.old.plan small dims.now options.now coords.now variable.now) }
    ensures plan { cx.new.plan ≡ cx.old.plan }
    ensures keeps { (nodes : List Node) (n : ℕ) → C.declines cx.new.compute nodes n ≡ C.declines cx.old.compute nodes n }
{
    let array = node_cells(rt, alloc, cx, variable.node)?;
    let outline = variable_outline(alloc, coords, variable)?;
    array_var(alloc, dims, options, &outline, &array, small)
}

/// Adds the data variables, each computed, checked and then written.
pub fn push_variables<R: Threads + Sync, C: Compute>(
    rt: &R,
    alloc: Global,
    cx: &mut Cx<C>,
    vars: &mut Items<CdfVar>,
    dims: &[CdfDim],
    options: &WriteOptions,
    coords: &[Coord],
    variables: &[Variable],
    small: bool,
) -> Result<(), CallFault>
    requires sync { IsSync R.row }
    requires ready { AllByRecursion (IsReady cx.old.plan) variables.now }
    requires fit { all_of (check_fit options.now) (map (λ v. without_cells (variable_outline coords.now v)) variables.now) ≡ Ok tt }
    ensures told { Adds result vars.new (computed_from (C.declines cx.old.compute cx.old.plan) cx.old.plan small dims.now options.now coords.now vars.old variables.now) }
    ensures plan { cx.new.plan ≡ cx.old.plan }
    ensures keeps { (nodes : List Node) (n : ℕ) → C.declines cx.new.compute nodes n ≡ C.declines cx.old.compute nodes n }
{
    for variable in variables {
        match computed_var(rt, alloc, cx, dims, options, coords, variable, small) {
            Ok(var) => vars.push(var)?,
            Err(fault) => return Err(fault),
        }
    }
    Ok(())
}
