//! Sorts of nodes.
ghost use Rattle.std.specs.Prelude.{◌≡◌, ◌<◌, ◌+◌, ◌^◌, [], length};
ghost use Rattle.xr_arrays.specs.Nodes.{AllFit};
ghost use Rattle.plan_needs.specs.Trees.{comes_in_strips, counts_from, is_each_cell, keeps_axes, takes_in_strips, takes_strips};

use crate::spread::is_spread;
use xr_arrays::Node;
use xr_types::Shape;

// Whether each number is one more than that before it, and the first is this one.
fn counts_from(first: u64, numbers: &[u64]) -> bool
    requires { first + length numbers.now < 2 ^ 64 }
    ensures { result ≡ counts_from first numbers.now }
{
    match numbers {
        [] => true,
        [number, rest @ ..] => *number == first && counts_from(first + 1, rest),
    }
}

// Whether each axis stays in its place.
fn keeps_axes(order: &Shape) -> bool
    ensures { result ≡ keeps_axes order.now }
{
    counts_from(0, order.as_slice())
}

// Whether each cell of a node comes from those at its place in its inputs.
fn is_each_cell(node: &Node) -> bool
    ensures { result ≡ is_each_cell node.now }
{
    match node {
        Node::Unary { .. } | Node::Binary { .. } | Node::Choose { .. } => true,
        Node::Reorder { order, .. } => keeps_axes(order),
        Node::Source { .. } | Node::Take { .. } => false,
        Node::Widen { .. } | Node::Fold { .. } | Node::Scan { .. } => false,
        Node::Concat { .. } | Node::Chunk { .. } => false,
    }
}

// Whether the inputs of a node may come strip by strip.
fn takes_strips(node: &Node) -> bool
    ensures { result ≡ takes_strips node.now }
{
    match node {
        Node::Unary { .. } | Node::Binary { .. } | Node::Choose { .. } => true,
        Node::Fold { .. } => true,
        Node::Reorder { order, .. } => keeps_axes(order),
        Node::Source { .. } | Node::Take { .. } => false,
        Node::Widen { .. } | Node::Scan { .. } => false,
        Node::Concat { .. } | Node::Chunk { .. } => false,
    }
}

/// Whether the cells of a node may come strip by strip: each from those at its place in the inputs, or all from one cell.
pub fn comes_in_strips(nodes: &[Node], at: usize) -> bool
    requires fit { AllFit [] nodes.now }
    requires inside { at < length nodes.now }
    ensures { result ≡ comes_in_strips nodes.now at }
{
    is_each_cell(&nodes[at]) || is_spread(nodes, at)
}

/// Whether the inputs of a node may come strip by strip.
pub fn takes_in_strips(nodes: &[Node], at: usize) -> bool
    requires fit { AllFit [] nodes.now }
    requires inside { at < length nodes.now }
    ensures { result ≡ takes_in_strips nodes.now at }
{
    takes_strips(&nodes[at]) || is_spread(nodes, at)
}
