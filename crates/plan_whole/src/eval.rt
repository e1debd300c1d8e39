//! The value of a node from those of its inputs.
ghost use Rattle.std.specs.Prelude.{◌≡◌, ◌<◌, ◌≤◌, [], length, true, false, All, IfOk};
ghost use Rattle.xr_types.specs.Points.{size};
ghost use Rattle.xr_arrays.specs.Nodes.{value, node_of, folded, kept, most_node_cells, AllFit, AreFed};
ghost use Rattle.plan_core.specs.Needs.{inputs_at, IsHeld, IsReady};
ghost use Rattle.plan_needs.specs.Trees.{takes_in_strips, takes_strips, IsStrand, IsTree};

use crate::fold::{fold, sum_strips, sums_all};
use crate::standing::{standing, unchanged_input};
use crate::strips::{Tree, collect, collect_cells, computed_sizes};
use arrangement::{points, reorder, take, widen};
use plan_needs::{comes_in_strips, input, inputs};
use row_concat::concat;
use row_folds::scan;
use std::alloc::{AllocError, Global};
use xr_arrays::{ArrayValue, Feed, Node};
use xr_types::FoldKind;

// The value of a node whose inputs are held.
fn value_of(
    alloc: Global,
    nodes: &[Node],
    done: &[Option<ArrayValue>],
    node: &Node,
) -> Result<ArrayValue, AllocError>
    requires ready { IsReady nodes.now done.now node.now }
    requires whole { takes_strips node.now ≡ false }
    ensures { IfOk result (λ a. a ≡ node_of (value nodes.now) node.now) }
{
    match node {
        Node::Source { cells } => cells.copy(alloc),
        Node::Take {
            input: id,
            axis,
            from,
            fill,
            drop,
        } => take(
            alloc,
            input(nodes, done, *id),
            *axis,
            from.as_slice(),
            *fill,
            *drop,
        ),
        Node::Reorder { input: id, order } => {
            reorder(alloc, input(nodes, done, *id), order.as_slice())
        }
        Node::Widen {
            input: id,
            axis,
            size,
        } => widen(alloc, input(nodes, done, *id), *axis, *size),
        // The fold is the sum: no other may be asked for.
        Node::Scan {
            input: id,
            axis,
            ..
        } => scan(alloc, input(nodes, done, *id), *axis),
        Node::Concat { inputs: ids, axis } => {
            let arrays = inputs(alloc, nodes, done, ids.as_slice())?;
            concat(alloc, &arrays, *axis)
        }
        Node::Chunk { input: id, .. } => input(nodes, done, *id).copy(alloc),
        Node::Unary { .. } | Node::Binary { .. } => unreachable!(),
        Node::Choose { .. } | Node::Fold { .. } => unreachable!(),
    }
}

// The fold of a node from strips of its value: for the sum of all, no more than a strip of them is there at a time.
fn fold_strips(
    alloc: Global,
    nodes: &[Node],
    done: &[Option<ArrayValue>],
    kind: FoldKind,
    at: usize,
    feeds: &[Feed],
) -> Result<ArrayValue, AllocError>
    requires tree { IsTree nodes.now done.now at }
    requires feeds { length feeds.now ≡ length (value nodes.now at).shape }
    requires fed { AreFed feeds.now (value nodes.now at).shape }
    requires small { size (kept feeds.now (value nodes.now at).shape) ≤ most_node_cells }
    ensures { IfOk result (λ b. b ≡ folded kind feeds.now (value nodes.now at)) }
{
    let sizes = computed_sizes(alloc, nodes, done, at)?;
    let all = sums_all(alloc, kind, feeds, &sizes)?;
    if all {
        let count = points(&sizes) as usize;
        return sum_strips(alloc, &Tree { nodes, done, at }, count);
    }
    let a = collect_cells(alloc, nodes, done, at)?;
    fold(alloc, kind, &a, feeds)
}

// The fold of a node whose cells come strip by strip: of the array that stands there, where no cell changes.
fn fold_tree(
    alloc: Global,
    nodes: &[Node],
    done: &[Option<ArrayValue>],
    kind: FoldKind,
    at: usize,
    feeds: &[Feed],
) -> Result<ArrayValue, AllocError>
    requires tree { IsTree nodes.now done.now at }
    requires feeds { length feeds.now ≡ length (value nodes.now at).shape }
    requires fed { AreFed feeds.now (value nodes.now at).shape }
    requires small { size (kept feeds.now (value nodes.now at).shape) ≤ most_node_cells }
    ensures { IfOk result (λ b. b ≡ folded kind feeds.now (value nodes.now at)) }
{
    match unchanged_input(nodes, done, at) {
        Some(a) => fold(alloc, kind, a, feeds),
        None => fold_strips(alloc, nodes, done, kind, at, feeds),
    }
}

// The fold of a node whose cells may come strip by strip.
fn fold_of(
    alloc: Global,
    nodes: &[Node],
    done: &[Option<ArrayValue>],
    kind: FoldKind,
    at: usize,
    feeds: &[Feed],
) -> Result<ArrayValue, AllocError>
    requires strand { IsStrand nodes.now done.now at }
    requires feeds { length feeds.now ≡ length (value nodes.now at).shape }
    requires fed { AreFed feeds.now (value nodes.now at).shape }
    requires small { size (kept feeds.now (value nodes.now at).shape) ≤ most_node_cells }
    ensures { IfOk result (λ b. b ≡ folded kind feeds.now (value nodes.now at)) }
{
    match standing(nodes, done, at) {
        Some(a) => fold(alloc, kind, a, feeds),
        None => fold_tree(alloc, nodes, done, kind, at, feeds),
    }
}

/// The value of a node of a plan, where strips of its inputs can be computed, and its inputs are held unless it takes strips.
pub fn compute(
    alloc: Global,
    nodes: &[Node],
    done: &[Option<ArrayValue>],
    at: usize,
) -> Result<ArrayValue, AllocError>
    requires fit { AllFit [] nodes.now }
    requires inside { at < length nodes.now }
    requires strands { All (IsStrand nodes.now done.now) (inputs_at nodes.now at) }
    requires held { takes_in_strips nodes.now at ≡ false → All (IsHeld nodes.now done.now) (inputs_at nodes.now at) }
    ensures { IfOk result (λ a. a ≡ value nodes.now at) }
{
    if comes_in_strips(nodes, at) {
        return collect(alloc, nodes, done, at);
    }
    let node = &nodes[at];
    match node {
        Node::Fold {
            fold: kind,
            input: id,
            feeds,
        } => fold_of(alloc, nodes, done, *kind, *id as usize, feeds.as_slice()),
        _ => value_of(alloc, nodes, done, node),
    }
}
