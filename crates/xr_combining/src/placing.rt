//! Cells of several nodes one after the other along a dimension.
ghost use Rattle.std.specs.Prelude.{◌≡◌, ◌<◌, ◌≤◌, ◌+◌, ◌++◌, length, map, All, IfOk};
ghost use Rattle.xr_types.specs.Points.{size};
ghost use Rattle.xr_arrays.specs.Nodes.{concatenated, most_axes, most_node_cells, reordered, value, widened};
ghost use Rattle.plan_core.specs.Plans.{Grows};
ghost use Rattle.xr_operations.specs.Reductions as calls;
ghost use Rattle.xr_combination.specs.Pieces.{as_kind};
ghost use Rattle.xr_combining.specs.Placing.{brought, wide, AreNodesFor, CanBring, CanJoin, IsNodeFor};

use plan_core::Plan;
use std::alloc::Global;
use xr_arrays::Node;
use xr_types::{DType, Items, Name, NoMemory, NodeId, OpKind, Shape};

/// Cells of one name, as one of several values has them: a node, and the names of its dimensions.
#[derive(Drop)]
pub struct Part {
    pub dims: Items<Name>,
    pub node: NodeId,
}

fn place_in(dims: &[Name], name: &Name) -> usize
    ensures place { result ≡ calls.place_in dims.now name.now }
    ensures inside { result ≤ length dims.now }
{
    match dims {
        [] => 0,
        [dim, rest @ ..] => {
            if name.is(dim) {
                0
            } else {
                place_in(rest, name) + 1
            }
        }
    }
}

fn push_places(order: &mut Shape, own: &[Name], dims: &[Name])
    requires { length order.old + length dims.now ≤ 16 }
    ensures { order.new ≡ order.old ++ map (calls.place_in own.now) dims.now }
{
    match dims {
        [] => {}
        [dim, rest @ ..] => {
            order.push(place_in(own, dim) as u64);
            push_places(order, own, rest);
        }
    }
}

fn order_of(own: &[Name], dims: &[Name]) -> Shape
    requires { length dims.now ≤ 16 }
    ensures { result ≡ map (calls.place_in own.now) dims.now }
{
    let mut order = Shape::new();
    push_places(&mut order, own, dims);
    order
}

// ---- one part

fn push_order(plan: &mut Plan, dims: &[Name], part: &Part) -> Result<NodeId, NoMemory>
    requires few { length dims.now ≤ 16 }
    requires can { CanBring plan.old dims.now part.now }
    ensures value { IfOk result (IsNodeFor plan.new (reordered (value plan.old part.now.node) (map (calls.place_in part.now.dims) dims.now))) }
    ensures grows { Grows plan.old plan.new }
{
    let order = order_of(part.dims.as_slice(), dims);
    let node = plan.push(Node::Reorder {
        input: part.node,
        order,
    })?;
    Ok(node)
}

fn push_kind(plan: &mut Plan, kind: DType, input: NodeId) -> Result<NodeId, NoMemory>
    requires inside { input < length plan.old }
    requires small { size (value plan.old input).shape ≤ most_node_cells }
    requires low { length (value plan.old input).shape ≤ most_axes }
    ensures value { IfOk result (IsNodeFor plan.new (as_kind kind (value plan.old input))) }
    ensures grows { Grows plan.old plan.new }
{
    let op = OpKind::Cast;
    let node = plan.push(Node::Unary { op, kind, input })?;
    Ok(node)
}

fn push_wide(plan: &mut Plan, front: bool, input: NodeId) -> Result<NodeId, NoMemory>
    requires inside { input < length plan.old }
    requires small { size (value plan.old input).shape ≤ most_node_cells }
    requires low { length (value plan.old input).shape < most_axes }
    ensures value { IfOk result (IsNodeFor plan.new (wide front (value plan.old input))) }
    ensures grows { Grows plan.old plan.new }
{
    if !front {
        return Ok(input);
    }
    let node = plan.push(Node::Widen {
        input,
        axis: 0,
        size: 1,
    })?;
    Ok(node)
}

fn push_part(
    plan: &mut Plan,
    kind: DType,
    dims: &[Name],
    front: bool,
    part: &Part,
) -> Result<NodeId, NoMemory>
    requires few { length dims.now ≤ 16 }
    requires can { CanBring plan.old dims.now part.now }
    ensures value { IfOk result (IsNodeFor plan.new (brought plan.old kind dims.now front part.now)) }
    ensures grows { Grows plan.old plan.new }
{
    let ordered = push_order(plan, dims, part)?;
    let cast = push_kind(plan, kind, ordered)?;
    let node = push_wide(plan, front, cast)?;
    Ok(node)
}

// ---- all parts

fn push_parts(
    alloc: Global,
    plan: &mut Plan,
    kind: DType,
    dims: &[Name],
    front: bool,
    parts: &[Part],
) -> Result<Items<NodeId>, NoMemory>
    requires few { length dims.now ≤ 16 }
    requires can { All (CanBring plan.old dims.now) parts.now }
    ensures nodes { IfOk result (AreNodesFor plan.new (map (brought plan.old kind dims.now front) parts.now)) }
    ensures grows { Grows plan.old plan.new }
{
    let mut nodes = Items::new(alloc);
    for part in parts {
        let node = push_part(plan, kind, dims, front, part)?;
        nodes.push(node)?;
    }
    Ok(nodes)
}

/// The node of the cells of parts, each with its dimensions in this order and in this kind, one after the other along an axis. With
/// `front` a new dimension stands in front, along which each part has one position. Nodes are added.
pub fn end_to_end(
    alloc: Global,
    plan: &mut Plan,
    kind: DType,
    dims: &[Name],
    front: bool,
    axis: usize,
    parts: &[Part],
) -> Result<NodeId, NoMemory>
    requires few { length dims.now ≤ 16 }
    requires parts { All (CanBring plan.old dims.now) parts.now }
    requires joined { CanJoin axis (map (brought plan.old kind dims.now front) parts.now) }
    ensures value { IfOk result (IsNodeFor plan.new (concatenated (map (brought plan.old kind dims.now front) parts.now) axis)) }
    ensures grows { Grows plan.old plan.new }
{
    let inputs = push_parts(alloc, plan, kind, dims, front, parts)?;
    let node = plan.push(Node::Concat { inputs, axis })?;
    Ok(node)
}
