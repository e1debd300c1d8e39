//! Variables and coordinates as a dataset of a plan.
ghost use Rattle.std.specs.Prelude.{◌≡◌, ◌≤◌, ◌++◌, ◌∷◌, [], true, length, filter, IfOk, OnOk};
ghost use Rattle.std.specs.List.{AllByRecursion};
ghost use Rattle.xr_types.specs.Points.{size};
ghost use Rattle.xr_arrays.specs.Arrays.{IsArray};
ghost use Rattle.xr_arrays.specs.Nodes.{most_axes, most_node_cells};
ghost use Rattle.plan_core.specs.Plans.{Grows};
ghost use Rattle.xr_combining.specs.Placing.{IsNodeFor};
ghost use Rattle.xr_forming.specs.Held.{Holds, HoldsContent};
ghost use Rattle.xr_reducing.specs.Reduced.{is_busy};
ghost use Rattle.xr_values.specs.Answers.{AnswersSet};
ghost use Rattle.xr_values.specs.Stands.{dataset_in};
ghost use Rattle.xr_joint.specs.Joint.{array_at, parts_in, set_of, within_limits, AllInside, ArePlaced, AreReady, IsInside, IsPlaced, IsSound};

use crate::cells::{are_seen, are_sizes, have_sizes, is_small};
use crate::pieces::{Joint, JointVariable, Origin};
use plan_core::Plan;
use std::alloc::{AllocError, Global};
use xr_aligning::{is_held, is_set_within};
use xr_arrays::{ArrayValue, Node};
use xr_defs::{Content, Coord};
use xr_forming::is_formed;
use xr_joining::is_within;
use xr_types::{Attr, Axis, CallFault, DeepCopy, Fault, Items, Name, NoMemory, NodeId};
use xr_values::{Dataset, Variable, Variables};

// ---- variables

#[tactic(auto, using(plan_core::proofs::Fitting::source_fits, crate::proofs::Placing::source_is))]
fn push_cells(plan: &mut Plan, cells: ArrayValue) -> Result<NodeId, NoMemory>
    requires cells { IsArray cells }
    requires small { size cells.shape ≤ most_node_cells }
    requires low_rank { length cells.shape ≤ most_axes }
    ensures value { IfOk result (IsNodeFor plan.new cells) }
    ensures grows { Grows plan.old plan.new }
{
    let node = plan.push(Node::Source { cells })?;
    Ok(node)
}

// More cells and dimensions than a node has, which no variable has, want memory.
fn push_source(plan: &mut Plan, cells: ArrayValue) -> Result<NodeId, NoMemory>
    requires { IsArray cells }
    ensures value { IfOk result (IsNodeFor plan.new cells) }
    ensures grows { Grows plan.old plan.new }
{
    if !is_small(cells.shape()) {
        return Err(NoMemory);
    }
    push_cells(plan, cells)
}

#[tactic(auto, using(plan_core::proofs::Plans::grows_by_none))]
fn push_node(alloc: Global, plan: &mut Plan, cells: &Origin) -> Result<NodeId, NoMemory>
    requires { IsInside plan.old cells.now }
    ensures value { IfOk result (IsNodeFor plan.new (array_at plan.old cells.now)) }
    ensures grows { Grows plan.old plan.new }
{
    match cells {
        Origin::Node(node) => Ok(*node),
        Origin::Held(cells) => {
            let cells = cells.copy(alloc)?;
            push_source(plan, cells)
        }
    }
}

fn placed_variable(
    alloc: Global,
    plan: &mut Plan,
    merged: &JointVariable,
) -> Result<Variable, NoMemory>
    requires { IsInside plan.old merged.now.cells }
    ensures placed { IfOk result (IsPlaced plan.old plan.new merged.now) }
    ensures grows { Grows plan.old plan.new }
{
    let node = push_node(alloc, plan, &merged.cells)?;
    Ok(Variable {
        name: merged.name.deep_copy(alloc)?,
        dims: merged.dims.deep_copy(alloc)?,
        kind: merged.kind,
        masked: merged.masked,
        attrs: merged.attrs.deep_copy(alloc)?,
        node,
    })
}

// Behind the others. A name that is there already, which no two of them have, wants memory.
#[tactic(auto, using(crate::proofs::Placing::put_new))]
fn put_new(alloc: Global, out: &mut Variables, var: Variable) -> Result<(), NoMemory>
    ensures { OnOk result (out.new ≡ out.old ++ var ∷ []) }
{
    match out.named(&var.name) {
        Some(_) => Err(NoMemory),
        None => {
            out.put(alloc, var)?;
            Ok(())
        }
    }
}

#[tactic(auto, using(plan_core::proofs::Plans::grows_by_none, plan_core::proofs::Plans::grows_on))]
fn push_placed(
    alloc: Global,
    plan: &mut Plan,
    out: &mut Variables,
    vars: &[JointVariable],
) -> Result<(), NoMemory>
    requires { AllInside plan.old vars.now }
    ensures placed { OnOk result (ArePlaced plan.old plan.new vars.now out.old out.new) }
    ensures grows { Grows plan.old plan.new }
{
    for merged in vars {
        let var = placed_variable(alloc, plan, merged)?;
        put_new(alloc, out, var)?;
    }
    Ok(())
}

// ---- coordinates

fn holds_content(alloc: Global, coord: &Coord) -> Result<bool, AllocError>
    requires { IsSound coord.now }
    ensures { IfOk result (λ b. b ≡ true → HoldsContent coord.now) }
{
    let axes = coord.axes.as_slice();
    match &coord.content {
        Content::Cells(cells, masked) => {
            if !are_sizes(axes, cells.shape()) || !is_within(axes) {
                return Ok(false);
            }
            are_seen(alloc, *masked, cells)
        }
        Content::Text(_) => Ok(true),
        Content::Time(_, _) => Ok(true),
    }
}

fn hold_contents(alloc: Global, coords: &[Coord]) -> Result<bool, AllocError>
    requires { AllByRecursion IsSound coords.now }
    ensures { IfOk result (λ b. b ≡ true → AllByRecursion HoldsContent coords.now) }
{
    match coords {
        [] => Ok(true),
        [coord, rest @ ..] => {
            if !holds_content(alloc, coord)? {
                return Ok(false);
            }
            hold_contents(alloc, rest)
        }
    }
}

// ---- axes

fn push_held(
    alloc: Global,
    out: &mut Items<Axis>,
    coords: &[Coord],
    vars: &[Variable],
    axes: &[Axis],
) -> Result<(), AllocError>
    ensures { OnOk result (out.new ≡ out.old ++ filter (is_busy coords.now vars.now) axes.now) }
{
    match axes {
        [] => Ok(()),
        [axis, rest @ ..] => {
            if is_held(coords, vars, axis) {
                out.push(axis.deep_copy(alloc)?)?;
            }
            push_held(alloc, out, coords, vars, rest)
        }
    }
}

fn held_axes(
    alloc: Global,
    coords: &[Coord],
    vars: &[Variable],
    axes: &[Axis],
) -> Result<Items<Axis>, AllocError>
    ensures { IfOk result (λ xs. xs ≡ filter (is_busy coords.now vars.now) axes.now) }
{
    let mut out = Items::new(alloc);
    push_held(alloc, &mut out, coords, vars, axes)?;
    Ok(out)
}

// ---- the dataset

/// The dataset of these, without the axes that none of them has. Its cells are those of nodes, of which some are added. What no
/// values over joined axes give, as cells of another shape, wants memory.
#[tactic(auto, using(crate::proofs::Placing::all_inside, crate::proofs::Placing::set_placed, crate::proofs::Placing::set_holds))]
pub fn placed(
    alloc: Global,
    plan: &mut Plan,
    axes: &[Axis],
    joint: Joint,
    attrs: Items<Attr>,
    skipped: Items<Name>,
) -> Result<Dataset, NoMemory>
    requires ready { AreReady plan.old axes.now joint.vars }
    requires sound { AllByRecursion IsSound joint.coords }
    ensures is { IfOk result (λ s. dataset_in plan.new s ≡ set_of axes.now attrs skipped (parts_in plan.old joint)) }
    ensures holds { IfOk result (Holds plan.new) }
    ensures grows { Grows plan.old plan.new }
{
    let mut vars = Variables::new(alloc);
    push_placed(alloc, plan, &mut vars, joint.vars.as_slice())?;
    let held = held_axes(alloc, joint.coords.as_slice(), vars.as_slice(), axes)?;
    if !have_sizes(axes, held.as_slice(), vars.as_slice()) {
        return Err(NoMemory);
    }
    if !hold_contents(alloc, joint.coords.as_slice())? {
        return Err(NoMemory);
    }
    Ok(Dataset {
        axes: held,
        coords: joint.coords,
        vars,
        attrs,
        skipped,
    })
}

// ---- limits

/// A dataset within the limits. One that isn't as it has to be, of which there is none, wants memory.
///
/// # Errors
/// `TooLarge`.
#[tactic(auto, using(crate::proofs::Limited::set_checked, crate::proofs::Limited::set_refused))]
pub fn checked(plan: &Plan, set: Dataset) -> Result<Dataset, CallFault>
    requires { Holds plan.now set }
    ensures { AnswersSet plan.now result (within_limits (dataset_in plan.now set)) }
{
    if !is_set_within(&set) {
        return Err(CallFault::Refused(Fault::TooLarge));
    }
    if !is_formed(plan, &set) {
        return Err(CallFault::NoMemory);
    }
    Ok(set)
}
