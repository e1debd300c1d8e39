//! Nodes all of whose cells are one cell: that of a source without axes, to which axes were added.
ghost use Rattle.std.specs.Prelude.{◌≡◌, ◌<◌, ◌∷◌, [], length, take, drop, Some, IfSome, option_map};
ghost use Rattle.xr_types.specs.Points.{size};
ghost use Rattle.xr_arrays.specs.Nodes.{value, AllFit};
ghost use Rattle.plan_core.specs.Needs.{source_of};
ghost use Rattle.plan_needs.specs.Trees.{is_spread};
ghost use Rattle.plan_needs.specs.Spreads.{spread, widens, without_axes};

use crate::held::source;
use xr_arrays::{ArrayValue, Node};
use xr_types::NodeId;

// An array has no more axes.
const MOST_STEPS: usize = 16;

fn without_axes(node: &Node) -> Option<&ArrayValue>
    ensures { option_map (λ a. a.now) result ≡ without_axes (source_of node.now) }
{
    match source(node) {
        Some(cells) => if cells.shape().is_empty() {
            Some(cells)
        } else {
            None
        },
        None => None,
    }
}

// The node to which a node adds an axis.
fn widens(node: &Node) -> Option<NodeId>
    ensures { result ≡ widens node.now }
{
    match node {
        Node::Widen { input, .. } => Some(*input),
        Node::Source { .. } | Node::Take { .. } | Node::Reorder { .. } => None,
        Node::Unary { .. } | Node::Binary { .. } | Node::Choose { .. } => None,
        Node::Fold { .. } | Node::Scan { .. } => None,
        Node::Concat { .. } | Node::Chunk { .. } => None,
    }
}

fn spread_in(nodes: &[Node], at: usize, steps: usize) -> Option<&ArrayValue>
    requires fit { AllFit [] nodes.now }
    requires inside { at < length nodes.now }
    ensures { option_map (λ a. a.now) result ≡ spread steps nodes.now at }
{
    if steps == 0 {
        return None;
    }
    let Some(input) = widens(&nodes[at]) else {
        return None;
    };
    match without_axes(&nodes[input as usize]) {
        Some(cells) => Some(cells),
        None => spread_in(nodes, input as usize, steps - 1),
    }
}

/// The source whose one cell all cells of a node are, where the node is one that adds axes to such a source.
pub fn spread_cell(nodes: &[Node], at: usize) -> Option<&ArrayValue>
    requires fit { AllFit [] nodes.now }
    requires inside { at < length nodes.now }
    ensures { option_map (λ a. a.now) result ≡ spread 16 nodes.now at }
{
    spread_in(nodes, at, MOST_STEPS)
}

/// Whether all cells of a node are the one cell of a source, to which the node adds axes.
pub fn is_spread(nodes: &[Node], at: usize) -> bool
    requires fit { AllFit [] nodes.now }
    requires inside { at < length nodes.now }
    ensures { result ≡ is_spread nodes.now at }
{
    spread_cell(nodes, at).is_some()
}
