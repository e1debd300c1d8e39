//! The values of nodes strip by strip: no node between that of which strips are asked and those whose values stand there is
//! computed as a whole array.
ghost use Rattle.std.specs.Prelude.{◌≡◌, ◌≤◌, ◌+◌, true, length, get_or, insert, is_some, IfOk};
ghost use Rattle.xr_types.specs.Points.{size};
ghost use Rattle.xr_arrays.specs.Nodes.{value};
ghost use Rattle.cell_strips.specs.Strips.{strip};
ghost use Rattle.plan_needs.specs.Spreads.{widens};
ghost use Rattle.plan_needs.specs.Trees.{is_each_cell, IsStrand, IsTree};
ghost use Rattle.plan_whole.specs.Operations.{alike, BinaryTree, ChooseTree, UnaryTree};

use crate::standing::{leaves_cells, standing, unchanged_input};
use arrangement::points;
use cell_strips::{
    Strips, choose_cells, collect_strips, operate_one, operate_two, spread, strip_of,
};
use plan_needs::spread_cell;
use std::alloc::{AllocError, Global};
use xr_arrays::{ArrayValue, Node};
use xr_types::{DType, NodeId, OpKind};

// So many cells of a node's value in row order from a place on.
#[cycle(strips)]
fn strip_at(
    alloc: Global,
    nodes: &[Node],
    done: &[Option<ArrayValue>],
    at: usize,
    from: usize,
    n: usize,
) -> Result<ArrayValue, AllocError>
    requires strand { IsStrand nodes.now done.now at }
    requires inside { from + n ≤ size (value nodes.now at).shape }
    ensures { IfOk result (λ b. b ≡ strip from n (value nodes.now at)) }
{
    match standing(nodes, done, at) {
        Some(a) => strip_of(alloc, a, from, n),
        None => computed_strip(alloc, nodes, done, at, from, n),
    }
}

// The same, computed from the strips of the node's inputs.
#[cycle(strips)]
fn computed_strip(
    alloc: Global,
    nodes: &[Node],
    done: &[Option<ArrayValue>],
    at: usize,
    from: usize,
    n: usize,
) -> Result<ArrayValue, AllocError>
    requires tree { IsTree nodes.now done.now at }
    requires inside { from + n ≤ size (value nodes.now at).shape }
    ensures { IfOk result (λ b. b ≡ strip from n (value nodes.now at)) }
{
    match spread_cell(nodes, at) {
        Some(cell) => spread(alloc, cell, n),
        None => operated_strip(alloc, nodes, done, at, &nodes[at], from, n),
    }
}

// The same of a node whose cells come each from those at its place.
#[cycle(strips)]
fn operated_strip(
    alloc: Global,
    nodes: &[Node],
    done: &[Option<ArrayValue>],
    at: usize,
    node: &Node,
    from: usize,
    n: usize,
) -> Result<ArrayValue, AllocError>
    requires tree { IsTree nodes.now done.now at }
    requires node { node.now ≡ get_or nodes.now at node.now }
    requires each_cell { is_each_cell node.now ≡ true }
    requires inside { from + n ≤ size (value nodes.now at).shape }
    ensures { IfOk result (λ b. b ≡ strip from n (value nodes.now at)) }
{
    match node {
        Node::Unary { op, kind, input } => {
            unary_strip(alloc, nodes, done, at, *op, *kind, *input as usize, from, n)
        }
        Node::Binary { op, a, b } => {
            binary_strip(
                alloc,
                nodes,
                done,
                at,
                *op,
                *a as usize,
                *b as usize,
                from,
                n,
            )
        }
        Node::Choose { cond, a, b } => choose_strip(
            alloc,
            nodes,
            done,
            at,
            *cond as usize,
            *a as usize,
            *b as usize,
            from,
            n,
        ),
        // Its axes stay in their places.
        Node::Reorder { input, .. } => strip_at(alloc, nodes, done, *input as usize, from, n),
        Node::Source { .. } | Node::Take { .. } => unreachable!(),
        Node::Widen { .. } | Node::Fold { .. } | Node::Scan { .. } => unreachable!(),
        Node::Concat { .. } | Node::Chunk { .. } => unreachable!(),
    }
}

#[cycle(strips)]
fn unary_strip(
    alloc: Global,
    nodes: &[Node],
    done: &[Option<ArrayValue>],
    at: usize,
    op: OpKind,
    kind: DType,
    input: usize,
    from: usize,
    n: usize,
) -> Result<ArrayValue, AllocError>
    requires tree { UnaryTree nodes.now done.now at op kind input }
    requires inside { from + n ≤ size (value nodes.now at).shape }
    ensures { IfOk result (λ b. b ≡ strip from n (value nodes.now at)) }
{
    let a = strip_at(alloc, nodes, done, input, from, n)?;
    if leaves_cells(op, kind, a.kind()) {
        return Ok(a);
    }
    operate_one(alloc, op, kind, &a)
}

#[cycle(strips)]
fn binary_strip(
    alloc: Global,
    nodes: &[Node],
    done: &[Option<ArrayValue>],
    at: usize,
    op: OpKind,
    a: usize,
    b: usize,
    from: usize,
    n: usize,
) -> Result<ArrayValue, AllocError>
    requires tree { BinaryTree nodes.now done.now at op a b }
    requires inside { from + n ≤ size (value nodes.now at).shape }
    ensures { IfOk result (λ b. b ≡ strip from n (value nodes.now at)) }
{
    let first = strip_at(alloc, nodes, done, a, from, n)?;
    let second = strip_at(alloc, nodes, done, b, from, n)?;
    operate_two(alloc, op, &first, &second)
}

#[cycle(strips)]
fn choose_strip(
    alloc: Global,
    nodes: &[Node],
    done: &[Option<ArrayValue>],
    at: usize,
    cond: usize,
    a: usize,
    b: usize,
    from: usize,
    n: usize,
) -> Result<ArrayValue, AllocError>
    requires tree { ChooseTree nodes.now done.now at cond a b }
    requires inside { from + n ≤ size (value nodes.now at).shape }
    ensures { IfOk result (λ b. b ≡ strip from n (value nodes.now at)) }
{
    let tests = strip_at(alloc, nodes, done, cond, from, n)?;
    let first = strip_at(alloc, nodes, done, a, from, n)?;
    let second = strip_at(alloc, nodes, done, b, from, n)?;
    choose_cells(alloc, &tests, &first, &second)
}

// The sizes of a node's value.
#[cycle(sizes)]
fn sizes_at(
    alloc: Global,
    nodes: &[Node],
    done: &[Option<ArrayValue>],
    at: usize,
) -> Result<Vec<u64>, AllocError>
    requires { IsStrand nodes.now done.now at }
    ensures { IfOk result (λ v. v.items ≡ (value nodes.now at).shape) }
{
    match standing(nodes, done, at) {
        Some(a) => Vec::from_slice(alloc, a.shape()),
        None => computed_sizes(alloc, nodes, done, at),
    }
}

// The input whose sizes a node has, where it comes cell by cell.
fn alike(node: &Node) -> Option<NodeId>
    ensures { result ≡ alike node.now }
{
    match node {
        Node::Unary { input, .. } => Some(*input),
        Node::Binary { a, .. } => Some(*a),
        Node::Choose { a, .. } => Some(*a),
        Node::Reorder { input, .. } => Some(*input),
        Node::Source { .. } | Node::Take { .. } => None,
        Node::Widen { .. } | Node::Fold { .. } | Node::Scan { .. } => None,
        Node::Concat { .. } | Node::Chunk { .. } => None,
    }
}

// Sizes with one more before an axis.
fn with_axis(mut sizes: Vec<u64>, axis: usize, size: u64) -> Result<Vec<u64>, AllocError>
    requires { axis ≤ length sizes.items }
    ensures { IfOk result (λ v. v.items ≡ insert sizes.items axis size) }
{
    sizes.insert(axis, size)?;
    Ok(sizes)
}

// The sizes of a node that adds an axis.
#[cycle(sizes)]
fn widened_sizes(
    alloc: Global,
    nodes: &[Node],
    done: &[Option<ArrayValue>],
    at: usize,
    node: &Node,
) -> Result<Vec<u64>, AllocError>
    requires tree { IsTree nodes.now done.now at }
    requires node { node.now ≡ get_or nodes.now at node.now }
    requires widens { is_some (widens node.now) ≡ true }
    ensures { IfOk result (λ v. v.items ≡ (value nodes.now at).shape) }
{
    match node {
        Node::Widen { input, axis, size } => {
            let sizes = sizes_at(alloc, nodes, done, *input as usize)?;
            with_axis(sizes, *axis, *size)
        }
        Node::Unary { .. } | Node::Binary { .. } | Node::Choose { .. } => unreachable!(),
        Node::Source { .. } | Node::Take { .. } | Node::Reorder { .. } => unreachable!(),
        Node::Fold { .. } | Node::Scan { .. } => unreachable!(),
        Node::Concat { .. } | Node::Chunk { .. } => unreachable!(),
    }
}

/// The sizes of the value of a node that is computed from strips.
#[cycle(sizes)]
pub fn computed_sizes(
    alloc: Global,
    nodes: &[Node],
    done: &[Option<ArrayValue>],
    at: usize,
) -> Result<Vec<u64>, AllocError>
    requires { IsTree nodes.now done.now at }
    ensures { IfOk result (λ v. v.items ≡ (value nodes.now at).shape) }
{
    let node = &nodes[at];
    match alike(node) {
        Some(id) => sizes_at(alloc, nodes, done, id as usize),
        None => widened_sizes(alloc, nodes, done, at, node),
    }
}

/// A node that is computed from strips.
#[derive(Clone, Copy)]
pub struct Tree<'a> {
    pub nodes: &'a [Node],
    pub done: &'a [Option<ArrayValue>],
    pub at: usize,
}

impl<'a> Strips for Tree<'a> {
    ghost whole = { λ s. value s.nodes.now s.at };

    ghost Ready = { λ s. IsTree s.nodes.now s.done.now s.at };

    fn strip(&self, alloc: Global, from: usize, n: usize) -> Result<ArrayValue, AllocError> {
        computed_strip(alloc, self.nodes, self.done, self.at, from, n)
    }
}

/// The value of a node that is computed from strips, put together from them.
pub fn collect_cells(
    alloc: Global,
    nodes: &[Node],
    done: &[Option<ArrayValue>],
    at: usize,
) -> Result<ArrayValue, AllocError>
    requires { IsTree nodes.now done.now at }
    ensures { IfOk result (λ a. a ≡ value nodes.now at) }
{
    let sizes = computed_sizes(alloc, nodes, done, at)?;
    let total = points(&sizes) as usize;
    collect_strips(alloc, &Tree { nodes, done, at }, &sizes, total)
}

/// The value of a node that is computed from strips. Where no cell changes, it is a copy of the array that stands there, in the
/// form in which that is kept.
pub fn collect(
    alloc: Global,
    nodes: &[Node],
    done: &[Option<ArrayValue>],
    at: usize,
) -> Result<ArrayValue, AllocError>
    requires { IsTree nodes.now done.now at }
    ensures { IfOk result (λ a. a ≡ value nodes.now at) }
{
    match unchanged_input(nodes, done, at) {
        Some(a) => a.copy(alloc),
        None => collect_cells(alloc, nodes, done, at),
    }
}
