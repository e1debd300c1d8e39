//! Cells of variables at hand, and what is made of them before it stands in a plan.
ghost use Rattle.std.specs.Prelude.{◌≡◌, ◌<◌, ◌++◌, List, length, map, IfOk, OnOk};
ghost use denote.Param.Send.{IsSync};
ghost use Rattle.xr_arrays.specs.Arrays.{IsArray};
ghost use Rattle.xr_arrays.specs.declared.node.Node.{Node as ANode};
ghost use Rattle.xr_arrays.specs.Nodes.{value as value_of};
ghost use Rattle.xr_combination.specs.Pieces as pieces;
ghost use Rattle.xr_merging.specs.Held.{held_piece, merged_piece};
ghost use Rattle.xr_merging.specs.Members as members;
ghost use Rattle.xr_joint.specs.Joint.{joint_in, AllPlaced, IsReady};

use crate::cells::{are_seen, is_shaped};
use plan_core::{Compute, Plan};
use plan_whole::Whole;
use std::alloc::{AllocError, Global};
use std::thread::Threads;
use xr_arrays::ArrayValue;
use xr_defs::Coord;
use xr_merging::{Held, Merged};
use xr_types::{Attr, Axis, DType, DeepCopy, Items, Name, NoMemory, NodeId};
use xr_values::Variable;

/// Where the cells of a variable are.
#[derive(Drop)]
pub enum Origin {
    /// At a node of the plan.
    Node(NodeId),
    /// At hand.
    Held(ArrayValue),
}

/// A data variable before its cells stand in a plan.
#[derive(Drop)]
pub struct JointVariable {
    pub name: Name,
    pub dims: Items<Name>,
    pub kind: DType,
    /// Whether missing cells may stand in the variable.
    pub masked: bool,
    pub attrs: Items<Attr>,
    pub cells: Origin,
}

/// The variables and coordinates of a dataset, before it stands in a plan.
#[derive(Drop)]
pub struct Joint {
    pub vars: Items<JointVariable>,
    pub coords: Items<Coord>,
}

// ---- cells that are compared

/// The cells of a node. Those that can't be computed, as where no room is left, want memory.
pub fn computed<R: Threads + Sync>(
    rt: &R,
    alloc: Global,
    plan: &Plan,
    node: NodeId,
) -> Result<ArrayValue, NoMemory>
    requires sync { IsSync R.row }
    requires inside { node < length plan.now }
    ensures { IfOk result (λ a. a ≡ value_of plan.now node) }
{
    let mut whole = Whole;
    match whole.cells(rt, alloc, plan, node) {
        Ok(cells) => Ok(cells),
        Err(_) => Err(NoMemory),
    }
}

/// The cells of a variable, as one of its plan has them.
pub fn piece_of<R: Threads + Sync>(
    rt: &R,
    alloc: Global,
    plan: &Plan,
    var: &Variable,
) -> Result<Merged, NoMemory>
    requires sync { IsSync R.row }
    requires inside { var.now.node < length plan.now }
    ensures { IfOk result (λ m. merged_piece m ≡ members.piece_in plan.now var.now) }
{
    let cells = computed(rt, alloc, plan, var.node)?;
    Ok(Merged {
        dims: var.dims.deep_copy(alloc)?,
        cells,
        masked: var.masked,
        attrs: var.attrs.deep_copy(alloc)?,
    })
}

/// Adds the cells of variables, one after the other.
pub fn push_pieces<R: Threads + Sync>(
    rt: &R,
    alloc: Global,
    plan: &Plan,
    out: &mut Items<Merged>,
    vars: &[&Variable],
) -> Result<(), NoMemory>
    requires sync { IsSync R.row }
    requires placed { AllPlaced plan.now (map (λ v. v.now) vars.now) }
    ensures { OnOk result (map merged_piece out.new ≡ map merged_piece out.old ++ map (members.piece_in plan.now) (map (λ v. v.now) vars.now)) }
{
    for var in vars {
        let piece = piece_of(rt, alloc, plan, var)?;
        out.push(piece)?;
    }
    Ok(())
}

/// Adds cells at hand as those that are compared.
pub fn push_held<'a>(
    alloc: Global,
    out: &mut Items<Held<'a>>,
    pieces: &'a [Merged],
) -> Result<(), AllocError>
    ensures { OnOk result (map held_piece out.new ≡ map held_piece out.old ++ map merged_piece pieces.now) }
{
    for piece in pieces {
        let dims = piece.dims.deep_copy(alloc)?;
        out.push(Held {
            dims,
            cells: &piece.cells,
            masked: piece.masked,
            attrs: &piece.attrs,
        })?;
    }
    Ok(())
}

/// A variable of cells at hand. Cells over other sizes than those of these axes, or missing ones that aren't masked, want memory: there
/// are none.
pub fn of_cells(
    alloc: Global,
    axes: &[Axis],
    name: &Name,
    merged: Merged,
) -> Result<JointVariable, NoMemory>
    requires { IsArray merged.cells }
    ensures is { (nodes : List ANode) → IfOk result (λ v. joint_in nodes v ≡ pieces.piece_variable name.now (merged_piece merged)) }
    ensures ready { (nodes : List ANode) → IfOk result (IsReady nodes axes.now) }
{
    if !is_shaped(axes, merged.dims.as_slice(), merged.cells.shape()) {
        return Err(NoMemory);
    }
    if !are_seen(alloc, merged.masked, &merged.cells)? {
        return Err(NoMemory);
    }
    let kind = merged.cells.kind();
    Ok(JointVariable {
        name: name.deep_copy(alloc)?,
        dims: merged.dims,
        kind,
        masked: merged.masked,
        attrs: merged.attrs,
        cells: Origin::Held(merged.cells),
    })
}
