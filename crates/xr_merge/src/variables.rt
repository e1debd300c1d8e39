//! The data variables of several datasets, name by name.
ghost use Rattle.std.specs.Prelude.{◌≡◌, ◌<◌, ◌++◌, List, map, IfOk, OnOk};
ghost use denote.Param.Send.{IsSync};
ghost use Rattle.xr_types.specs.Results.{Answers};
ghost use Rattle.xr_types.specs.declared.axis.Axis.{Axis as AnAxis};
ghost use Rattle.xr_arrays.specs.declared.node.Node.{Node as ANode};
ghost use Rattle.xr_combination.specs.Merge as calls;
ghost use Rattle.xr_combination.specs.Pieces as pieces;
ghost use Rattle.xr_combination.specs.Pieces.{each_of};
ghost use Rattle.xr_forming.specs.Held.{IsHeld};
ghost use Rattle.xr_merging.specs.Each.{behind};
ghost use Rattle.xr_merging.specs.Held.{merged_piece};
ghost use Rattle.xr_merging.specs.Members as members;
ghost use Rattle.xr_values.specs.Carrying.{the_attrs};
ghost use Rattle.xr_values.specs.Stands.{dataset_in};
ghost use Rattle.xr_joint.specs.Joint.{joint_in, AllHeld, AllOver, AllPlaced, AreReady, IsReady};
ghost use Rattle.xr_merge.specs.Merged.{overriding, piece_called};

use plan_core::Plan;
use std::alloc::{AllocError, Global};
use std::thread::Threads;
use xr_combination::Compat;
use xr_joint::{JointVariable, Origin, of_cells, push_held, push_pieces};
use xr_merging::{Merged, joined_attrs, merged_or_own, variables_called, with_attrs};
use xr_types::{Attr, Axis, CallFault, DeepCopy, Items, Name, NoMemory};
use xr_values::{DataArray, Dataset, Variable};

// ---- one of several

fn own(alloc: Global, name: &Name, var: &Variable) -> Result<JointVariable, AllocError>
    ensures is { (nodes : List ANode) (axes : List AnAxis) → IsHeld nodes axes var.now → IfOk result (λ v. joint_in nodes v ≡ pieces.piece_variable name.now (members.piece_in nodes var.now)) }
    ensures ready { (nodes : List ANode) (axes : List AnAxis) → IsHeld nodes axes var.now → IfOk result (IsReady nodes axes) }
{
    Ok(JointVariable {
        name: name.deep_copy(alloc)?,
        dims: var.dims.deep_copy(alloc)?,
        kind: var.kind,
        masked: var.masked,
        attrs: var.attrs.deep_copy(alloc)?,
        cells: Origin::Node(var.node),
    })
}

fn push_attrs(
    alloc: Global,
    out: &mut Items<DataArray>,
    vars: &[&Variable],
) -> Result<(), AllocError>
    ensures { (nodes : List ANode) → OnOk result (the_attrs out.new ≡ the_attrs out.old ++ map (λ (p : pieces.Piece). p.attrs) (map (members.piece_in nodes) (map (λ v. v.now) vars.now))) }
{
    for var in vars {
        out.push(with_attrs(alloc, &var.attrs)?)?;
    }
    Ok(())
}

fn all_attrs(alloc: Global, vars: &[&Variable]) -> Result<Items<Attr>, NoMemory>
    ensures { (nodes : List ANode) → IfOk result (λ attrs. attrs ≡ pieces.all_attrs (map (members.piece_in nodes) (map (λ v. v.now) vars.now))) }
{
    let mut lists = Items::new(alloc);
    push_attrs(alloc, &mut lists, vars)?;
    let attrs = joined_attrs(alloc, lists.as_slice())?;
    Ok(attrs)
}

// Those that are compared, once their cells are at hand.
fn merged_cells<R: Threads + Sync>(
    rt: &R,
    alloc: Global,
    plan: &Plan,
    compat: Compat,
    vars: &[&Variable],
) -> Result<Merged, CallFault>
    requires sync { IsSync R.row }
    requires placed { AllPlaced plan.now (map (λ v. v.now) vars.now) }
    ensures answers { Answers merged_piece result (calls.merged_or_own compat (map (members.piece_in plan.now) (map (λ v. v.now) vars.now))) }
{
    let mut pieces = Items::new(alloc);
    push_pieces(rt, alloc, plan, &mut pieces, vars)?;
    let mut held = Items::new(alloc);
    push_held(alloc, &mut held, pieces.as_slice())?;
    let merged = merged_or_own(alloc, compat, held.as_slice())?;
    Ok(merged)
}

#[tactic(auto, using(crate::proofs::Arrays::merged_is_array, xr_joint::proofs::Members::those_placed))]
fn compared<R: Threads + Sync>(
    rt: &R,
    alloc: Global,
    plan: &Plan,
    compat: Compat,
    axes: &[Axis],
    name: &Name,
    vars: &[&Variable],
) -> Result<JointVariable, CallFault>
    requires sync { IsSync R.row }
    requires held { AllHeld plan.now axes.now (map (λ v. v.now) vars.now) }
    ensures answers { Answers (joint_in plan.now) result (piece_called name.now (calls.merged_or_own compat (map (members.piece_in plan.now) (map (λ v. v.now) vars.now)))) }
    ensures ready { IfOk result (IsReady plan.now axes.now) }
{
    // its nodes fit one another
    let _ = plan.nodes();
    let merged = merged_cells(rt, alloc, plan, compat, vars)?;
    let var = of_cells(alloc, axes, name, merged)?;
    Ok(var)
}

// The first, with the attributes that all have in common.
fn overridden(alloc: Global, name: &Name, vars: &[&Variable]) -> Result<JointVariable, NoMemory>
    ensures is { (nodes : List ANode) (axes : List AnAxis) → AllHeld nodes axes (map (λ v. v.now) vars.now) → IfOk result (λ v. joint_in nodes v ≡ overriding name.now (map (members.piece_in nodes) (map (λ v. v.now) vars.now))) }
    ensures ready { (nodes : List ANode) (axes : List AnAxis) → AllHeld nodes axes (map (λ v. v.now) vars.now) → IfOk result (IsReady nodes axes) }
{
    match vars {
        [] => Err(NoMemory),
        [first, ..] => {
            let attrs = all_attrs(alloc, vars)?;
            Ok(JointVariable {
                name: name.deep_copy(alloc)?,
                dims: first.dims.deep_copy(alloc)?,
                kind: first.kind,
                masked: first.masked,
                attrs,
                cells: Origin::Node(first.node),
            })
        }
    }
}

#[tactic(auto, unfolding(xr_combination::specs::Merge::merged_or_own, xr_combination::specs::Merge::merged_pieces))]
fn merged_of<R: Threads + Sync>(
    rt: &R,
    alloc: Global,
    plan: &Plan,
    compat: Compat,
    axes: &[Axis],
    name: &Name,
    vars: &[&Variable],
) -> Result<JointVariable, CallFault>
    requires sync { IsSync R.row }
    requires held { AllHeld plan.now axes.now (map (λ v. v.now) vars.now) }
    ensures answers { Answers (joint_in plan.now) result (piece_called name.now (calls.merged_or_own compat (map (members.piece_in plan.now) (map (λ v. v.now) vars.now)))) }
    ensures ready { IfOk result (IsReady plan.now axes.now) }
{
    match vars {
        // (some dataset has a variable of the name)
        [] => Err(CallFault::NoMemory),
        [one] => Ok(own(alloc, name, one)?),
        [_, _, ..] => match compat {
            Compat::Override => Ok(overridden(alloc, name, vars)?),
            Compat::NoConflicts => compared(rt, alloc, plan, compat, axes, name, vars),
            Compat::Equals => compared(rt, alloc, plan, compat, axes, name, vars),
        },
    }
}

// ---- name by name

#[tactic(auto, using(xr_joint::proofs::Members::pieces_over, xr_joint::proofs::Members::those_held), unfolding(xr_combination::specs::Merge::variable_merged))]
fn variable_merged<R: Threads + Sync>(
    rt: &R,
    alloc: Global,
    plan: &Plan,
    compat: Compat,
    axes: &[Axis],
    sets: &[Dataset],
    name: &Name,
) -> Result<JointVariable, CallFault>
    requires sync { IsSync R.row }
    requires over { AllOver plan.now axes.now sets.now }
    ensures answers { Answers (joint_in plan.now) result (calls.variable_merged compat (map (dataset_in plan.now) sets.now) name.now) }
    ensures ready { IfOk result (IsReady plan.now axes.now) }
{
    let vars = variables_called(alloc, sets, name)?;
    let merged = merged_of(rt, alloc, plan, compat, axes, name, vars.as_slice())?;
    Ok(merged)
}

fn push_merged<R: Threads + Sync>(
    rt: &R,
    alloc: Global,
    plan: &Plan,
    out: &mut Items<JointVariable>,
    compat: Compat,
    axes: &[Axis],
    sets: &[Dataset],
    names: &[Name],
) -> Result<(), CallFault>
    requires sync { IsSync R.row }
    requires over { AllOver plan.now axes.now sets.now }
    requires ready { AreReady plan.now axes.now out.old }
    ensures answers { Answers (λ u. map (joint_in plan.now) out.new) result (behind (map (joint_in plan.now) out.old) (each_of (calls.variable_merged compat (map (dataset_in plan.now) sets.now)) names.now)) }
    ensures ready { OnOk result (AreReady plan.now axes.now out.new) }
{
    for name in names {
        let var = variable_merged(rt, alloc, plan, compat, axes, sets, name)?;
        out.push(var)?;
    }
    Ok(())
}

/// The data variables of these names, each one of those that have it, over these axes. The cells of variables that are compared are
/// computed in their turns.
///
/// # Errors
/// `Conflict` where several may not stand beside one another; then `WrongKind` and `WouldPromote` for kinds that don't become one.
#[tactic(auto, using(xr_merging::proofs::Each::from_none))]
pub(crate) fn variables_merged<R: Threads + Sync>(
    rt: &R,
    alloc: Global,
    plan: &Plan,
    compat: Compat,
    axes: &[Axis],
    sets: &[Dataset],
    names: &[Name],
) -> Result<Items<JointVariable>, CallFault>
    requires sync { IsSync R.row }
    requires over { AllOver plan.now axes.now sets.now }
    ensures answers { Answers (map (joint_in plan.now)) result (each_of (calls.variable_merged compat (map (dataset_in plan.now) sets.now)) names.now) }
    ensures ready { IfOk result (AreReady plan.now axes.now) }
{
    let mut out = Items::new(alloc);
    push_merged(rt, alloc, plan, &mut out, compat, axes, sets, names)?;
    Ok(out)
}
