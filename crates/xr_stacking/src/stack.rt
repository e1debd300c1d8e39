//! Parts one after the other along a dimension, as a node of the plan.
ghost use Rattle.std.specs.Prelude.{◌≡◌, ◌<◌, ◌≤◌, ◌++◌, false, length, map, All, IfOk, OnOk};
ghost use Rattle.std.specs.List.{AllByRecursion};
ghost use Rattle.xr_arrays.specs.Nodes.{concatenated, value};
ghost use Rattle.plan_core.specs.Plans.{Grows};
ghost use Rattle.xr_combining.specs.Placing.{CanJoin, IsNodeFor};
ghost use Rattle.xr_stacking.specs.Parts.{brought, order_of, steps_to, widening, AreBrought, AreThere, CanTurn, HasAll, IsPart};

use crate::parts::{Part, brought_shape, brought_shapes, order_of};
use crate::shapes::{joined_shape, same};
use plan_core::Plan;
use std::alloc::{AllocError, Global};
use xr_arrays::Node;
use xr_formulas::{Chain, Start, Step, push_chain};
use xr_types::{DType, Items, Name, NoMemory, NodeId, OpKind, Shape};

// ---- one part

fn push_widening(steps: &mut Items<Step>, front: bool) -> Result<(), AllocError>
    ensures { OnOk result (steps.new ≡ steps.old ++ widening front) }
{
    if front {
        steps.push(Step::Widen(0, 1))?;
    }
    Ok(())
}

fn steps_to(
    alloc: Global,
    kind: DType,
    front: bool,
    order: &[u64],
) -> Result<Items<Step>, AllocError>
    requires { length order.now ≤ 16 }
    ensures { IfOk result (λ steps. steps ≡ steps_to kind front order.now) }
{
    let mut steps = Items::new(alloc);
    steps.push(Step::Reorder(Shape::from_slice(order)))?;
    steps.push(Step::Unary(OpKind::Cast, kind))?;
    push_widening(&mut steps, front)?;
    Ok(steps)
}

fn push_part(
    alloc: Global,
    plan: &mut Plan,
    kind: DType,
    dims: &[Name],
    front: bool,
    part: &Part,
) -> Result<NodeId, NoMemory>
    requires part { IsPart plan.old part.now }
    requires turns { CanTurn front dims.now part.now }
    ensures node { IfOk result (IsNodeFor plan.new (brought plan.old kind dims.now front part.now)) }
    ensures grows { Grows plan.old plan.new }
{
    let order = order_of(alloc, dims, part)?;
    let steps = steps_to(alloc, kind, front, order.as_slice())?;
    let start = Start::Node(part.node);
    let chain = Chain { start, steps };
    let node = push_chain(alloc, plan, &chain)?;
    Ok(node)
}

// ---- all parts

#[tactic(auto, using(plan_core::proofs::Plans::grows_by_none, plan_core::proofs::Plans::grows_on))]
fn push_parts(
    alloc: Global,
    plan: &mut Plan,
    out: &mut Items<NodeId>,
    kind: DType,
    dims: &[Name],
    front: bool,
    parts: &[Part],
) -> Result<(), NoMemory>
    requires parts { AllByRecursion (IsPart plan.old) parts.now }
    requires turn { AllByRecursion (CanTurn front dims.now) parts.now }
    ensures nodes { OnOk result (AreBrought plan.old plan.new kind dims.now front parts.now out.old out.new) }
    ensures grows { Grows plan.old plan.new }
{
    match parts {
        [] => Ok(()),
        [part, rest @ ..] => {
            let node = push_part(alloc, plan, kind, dims, front, part)?;
            out.push(node)?;
            push_parts(alloc, plan, out, kind, dims, front, rest)
        }
    }
}

fn push_concat(plan: &mut Plan, inputs: Items<NodeId>, axis: usize) -> Result<NodeId, NoMemory>
    requires inside { All (λ n. n < length plan.old) inputs }
    requires joined { CanJoin axis (map (value plan.old) inputs) }
    ensures node { IfOk result (IsNodeFor plan.new (concatenated (map (value plan.old) inputs) axis)) }
    ensures grows { Grows plan.old plan.new }
{
    let node = plan.push(Node::Concat { inputs, axis })?;
    Ok(node)
}

/// The node of the cells of parts, each with its dimensions in this order and in this kind, one after the other along an axis. With
/// `front` a new dimension stands in front, along which each part has one position. Nodes are added. Cells over other sizes than these
/// want memory.
pub fn end_to_end(
    alloc: Global,
    plan: &mut Plan,
    kind: DType,
    dims: &[Name],
    front: bool,
    axis: usize,
    sizes: &[u64],
    parts: &[Part],
) -> Result<NodeId, NoMemory>
    requires { AllByRecursion (IsPart plan.old) parts.now }
    ensures node { IfOk result (IsNodeFor plan.new (concatenated (map (brought plan.old kind dims.now front) parts.now) axis)) }
    ensures shape { IfOk result (λ n. (concatenated (map (brought plan.old kind dims.now front) parts.now) axis).shape ≡ sizes.now) }
    ensures kind { IfOk result (λ n. (concatenated (map (brought plan.old kind dims.now front) parts.now) axis).kind ≡ kind) }
    ensures there { AllByRecursion (HasAll plan.old) parts.now → IfOk result (λ n. AreThere (concatenated (map (brought plan.old kind dims.now front) parts.now) axis).cells) }
    ensures grows { Grows plan.old plan.new }
{
    // its nodes fit one another
    let _ = plan.nodes();
    let shapes = brought_shapes(alloc, front, dims, parts)?;
    let shape = joined_shape(alloc, axis, shapes.as_slice())?;
    if !same(shape.as_slice(), sizes) {
        return Err(NoMemory);
    }
    let mut inputs = Items::new(alloc);
    push_parts(alloc, plan, &mut inputs, kind, dims, front, parts)?;
    let node = push_concat(plan, inputs, axis)?;
    Ok(node)
}

/// The node of the cells of a part with its dimensions in this order and in this kind. Nodes are added. Cells over other sizes than
/// these want memory.
pub fn in_kind(
    alloc: Global,
    plan: &mut Plan,
    kind: DType,
    dims: &[Name],
    sizes: &[u64],
    part: &Part,
) -> Result<NodeId, NoMemory>
    requires { IsPart plan.old part.now }
    ensures node { IfOk result (IsNodeFor plan.new (brought plan.old kind dims.now false part.now)) }
    ensures shape { IfOk result (λ n. (brought plan.old kind dims.now false part.now).shape ≡ sizes.now) }
    ensures there { HasAll plan.old part.now → IfOk result (λ n. AreThere (brought plan.old kind dims.now false part.now).cells) }
    ensures grows { Grows plan.old plan.new }
{
    // its nodes fit one another
    let _ = plan.nodes();
    let shape = brought_shape(alloc, false, dims, part)?;
    if !same(shape.as_slice(), sizes) {
        return Err(NoMemory);
    }
    push_part(alloc, plan, kind, dims, false, part)
}
