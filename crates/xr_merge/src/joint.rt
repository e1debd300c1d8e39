//! The variables and coordinates of several datasets over their joined axes.
ghost use Rattle.std.specs.Prelude.{List, map, IfOk};
ghost use Rattle.std.specs.List.{AllByRecursion};
ghost use denote.Param.Send.{IsSync};
ghost use Rattle.xr_types.specs.Results.{Answers};
ghost use Rattle.xr_arrays.specs.declared.node.Node.{Node};
ghost use Rattle.xr_combination.specs.Merge as calls;
ghost use Rattle.xr_combination.specs.Pieces.{each_of};
ghost use Rattle.xr_values.specs.Stands.{dataset_in};
ghost use Rattle.xr_joint.specs.Fitting.{IsOpenIn};
ghost use Rattle.xr_joint.specs.Joint.{joint_in, parts_in, AllOver, AreReady, IsSound};
ghost use Rattle.xr_merge.specs.Merged.{parts_of};

use crate::variables::variables_merged;
use plan_core::Plan;
use std::alloc::Global;
use std::thread::Threads;
use xr_combination::Compat;
use xr_defs::Coord;
use xr_joint::{Joint, JointVariable, are_over};
use xr_merging::{all_coords, all_variables, coords_merged};
use xr_types::{Axis, CallFault, Items};
use xr_values::Dataset;

fn all_vars<R: Threads + Sync>(
    rt: &R,
    alloc: Global,
    plan: &Plan,
    compat: Compat,
    axes: &[Axis],
    over: &[Dataset],
) -> Result<Items<JointVariable>, CallFault>
    requires sync { IsSync R.row }
    requires over { AllOver plan.now axes.now over.now }
    ensures answers { Answers (map (joint_in plan.now)) result (each_of (calls.variable_merged compat (map (dataset_in plan.now) over.now)) (calls.all_variables (map (dataset_in plan.now) over.now))) }
    ensures ready { IfOk result (AreReady plan.now axes.now) }
{
    let names = all_variables(alloc, over)?;
    variables_merged(rt, alloc, plan, compat, axes, over, names.as_slice())
}

#[tactic(auto, using(crate::proofs::Sound::coords_sound, xr_joint::proofs::Over::coords_formed))]
fn joined_coords(
    alloc: Global,
    compat: Compat,
    axes: &[Axis],
    over: &[Dataset],
) -> Result<Items<Coord>, CallFault>
    ensures answers { (nodes : List Node) → Answers (λ cs. cs) result (each_of (calls.coord_merged compat axes.now (map (dataset_in nodes) over.now)) (calls.all_coords axes.now (map (dataset_in nodes) over.now))) }
    ensures sound { (nodes : List Node) → AllByRecursion (IsOpenIn nodes) over.now → IfOk result (AllByRecursion IsSound) }
{
    let names = all_coords(alloc, axes, over)?;
    let coords = coords_merged(alloc, compat, axes, over, names.as_slice())?;
    Ok(coords)
}

/// The variables of datasets over these joined axes, then their coordinates, name by name.
///
/// # Errors
/// Those of the first that can't be merged. Datasets whose variables have other sizes, of which there are none, want memory.
#[tactic(auto, unfolding(crate::specs::Merged::parts_of))]
pub(crate) fn joined_by_name<R: Threads + Sync>(
    rt: &R,
    alloc: Global,
    plan: &Plan,
    compat: Compat,
    axes: &[Axis],
    over: &[Dataset],
) -> Result<Joint, CallFault>
    requires sync { IsSync R.row }
    requires open { AllByRecursion (IsOpenIn plan.now) over.now }
    ensures answers { Answers (parts_in plan.now) result (parts_of compat axes.now (map (dataset_in plan.now) over.now)) }
    ensures ready { IfOk result (λ j. AreReady plan.now axes.now j.vars) }
    ensures sound { IfOk result (λ j. AllByRecursion IsSound j.coords) }
{
    if !are_over(axes, over) {
        return Err(CallFault::NoMemory);
    }
    let vars = all_vars(rt, alloc, plan, compat, axes, over)?;
    let coords = joined_coords(alloc, compat, axes, over)?;
    Ok(Joint { vars, coords })
}
