//! The nodes that a node is computed from, and what is held of them.
ghost use Rattle.std.specs.Prelude.{◌≡◌, ◌∷◌, [], map, Some, All, IfOk, IsSome, is_some, option_map};
ghost use Rattle.xr_arrays.specs.Nodes.{value};
ghost use Rattle.plan_core.specs.Needs.{inputs_of, source_of, IsHeld};

use std::alloc::{AllocError, Global};
use xr_arrays::{ArrayValue, Node};
use xr_types::NodeId;

fn one(alloc: Global, id: NodeId) -> Result<Vec<NodeId>, AllocError>
    ensures { IfOk result (λ v. v.items ≡ id ∷ []) }
{
    let mut ids = Vec::new(alloc);
    ids.push(id)?;
    Ok(ids)
}

/// The nodes that a node is computed from.
pub fn inputs_of(alloc: Global, node: &Node) -> Result<Vec<NodeId>, AllocError>
    ensures { IfOk result (λ v. v.items ≡ inputs_of node.now) }
{
    match node {
        Node::Source { .. } => Ok(Vec::new(alloc)),
        Node::Take { input, .. } => one(alloc, *input),
        Node::Reorder { input, .. } => one(alloc, *input),
        Node::Widen { input, .. } => one(alloc, *input),
        Node::Unary { input, .. } => one(alloc, *input),
        Node::Binary { a, b, .. } => Vec::from_slice(alloc, &[*a, *b]),
        Node::Choose { cond, a, b } => Vec::from_slice(alloc, &[*cond, *a, *b]),
        Node::Fold { input, .. } => one(alloc, *input),
        Node::Scan { input, .. } => one(alloc, *input),
        Node::Concat { inputs, .. } => Vec::from_slice(alloc, inputs.as_slice()),
        Node::Chunk { input, .. } => one(alloc, *input),
    }
}

/// The cells of a source.
pub fn source(node: &Node) -> Option<&ArrayValue>
    ensures { option_map (λ a. a.now) result ≡ source_of node.now }
{
    match node {
        Node::Source { cells } => Some(cells),
        Node::Take { .. } => None,
        Node::Reorder { .. } => None,
        Node::Widen { .. } => None,
        Node::Fold { .. } => None,
        Node::Concat { .. } => None,
        Node::Unary { .. } => None,
        Node::Binary { .. } => None,
        Node::Choose { .. } => None,
        Node::Scan { .. } => None,
        Node::Chunk { .. } => None,
    }
}

/// Whether a node is a source.
pub fn is_source(node: &Node) -> bool
    ensures { result ≡ is_some (source_of node.now) }
{
    source(node).is_some()
}

fn kept(done: &Option<ArrayValue>) -> &ArrayValue
    requires { IsSome done.now }
    ensures { Some result.now ≡ done.now }
{
    match done {
        Some(a) => a,
        None => unreachable!(),
    }
}

/// The value of a node that is held.
pub fn input<'a>(nodes: &'a [Node], done: &'a [Option<ArrayValue>], id: NodeId) -> &'a ArrayValue
    requires { IsHeld nodes.now done.now id }
    ensures { result.now ≡ value nodes.now id }
{
    match source(&nodes[id as usize]) {
        Some(cells) => cells,
        None => kept(&done[id as usize]),
    }
}

/// The values of nodes that are held.
pub fn inputs<'a>(
    alloc: Global,
    nodes: &'a [Node],
    done: &'a [Option<ArrayValue>],
    ids: &[NodeId],
) -> Result<Vec<&'a ArrayValue>, AllocError>
    requires { All (IsHeld nodes.now done.now) ids.now }
    ensures { IfOk result (λ v. map (λ a. a.now) v.items ≡ map (value nodes.now) ids.now) }
{
    let mut values = Vec::new(alloc);
    for id in ids {
        values.push(input(nodes, done, *id))?;
    }
    Ok(values)
}
