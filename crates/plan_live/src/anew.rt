//! A plan without the cells of the nodes that aren't live.
ghost use Rattle.std.specs.Prelude.{◌≡◌, ◌<◌, ◌+◌, [], ◌∷◌, length, get_or, IfOk, OnOk};
ghost use Rattle.xr_arrays.specs.Nodes.{AllFit};
ghost use Rattle.plan_live.specs.Live.{forgotten, kept_at, IsClosed, AreKept, Agrees};

use plan_core::Plan;
use std::alloc::{AllocError, Global};
use xr_arrays::{ArrayValue, Cells, Node};
use xr_types::{DeepCopy, Items, NoMemory, Shape};

// A node again. What shares a file's bytes shares them again.
fn copy_node(alloc: Global, node: &Node) -> Result<Node, AllocError>
    ensures { IfOk result (λ n. n ≡ node.now) }
{
    Ok(match node {
        Node::Source { cells } => Node::Source {
            cells: cells.copy(alloc)?,
        },
        Node::Take {
            input,
            axis,
            from,
            fill,
            drop,
        } => Node::Take {
            input: *input,
            axis: *axis,
            from: Items::from_slice(alloc, from.as_slice())?,
            fill: *fill,
            drop: *drop,
        },
        Node::Reorder { input, order } => Node::Reorder {
            input: *input,
            order: Shape::from_slice(order.as_slice()),
        },
        Node::Widen { input, axis, size } => Node::Widen {
            input: *input,
            axis: *axis,
            size: *size,
        },
        Node::Unary { op, kind, input } => Node::Unary {
            op: *op,
            kind: *kind,
            input: *input,
        },
        Node::Binary { op, a, b } => Node::Binary {
            op: *op,
            a: *a,
            b: *b,
        },
        Node::Choose { cond, a, b } => Node::Choose {
            cond: *cond,
            a: *a,
            b: *b,
        },
        Node::Fold { fold, input, feeds } => Node::Fold {
            fold: *fold,
            input: *input,
            feeds: feeds.deep_copy(alloc)?,
        },
        Node::Scan { fold, input, axis } => Node::Scan {
            fold: *fold,
            input: *input,
            axis: *axis,
        },
        Node::Concat { inputs, axis } => Node::Concat {
            inputs: Items::from_slice(alloc, inputs.as_slice())?,
            axis: *axis,
        },
        Node::Chunk { input, sizes } => Node::Chunk {
            input: *input,
            sizes: Items::from_slice(alloc, sizes.as_slice())?,
        },
    })
}

fn empty_source(alloc: Global) -> Result<Node, AllocError>
    ensures { IfOk result (λ n. n ≡ forgotten) }
{
    let shape = Items::from_slice(alloc, &[0u64])?;
    let cells = ArrayValue::of(shape, Cells::Int64(Items::new(alloc)), None);
    Ok(Node::Source { cells })
}

fn node_kept(alloc: Global, nodes: &[Node], live: &[bool], at: usize) -> Result<Node, AllocError>
    requires inside { at < length nodes.now }
    requires long { length live.now ≡ length nodes.now }
    ensures { IfOk result (λ n. n ≡ kept_at live.now nodes.now at) }
{
    if live[at] {
        copy_node(alloc, &nodes[at])
    } else {
        empty_source(alloc)
    }
}

fn push_kept(
    alloc: Global,
    nodes: &[Node],
    live: &[bool],
    new: &mut Plan,
    at: usize,
) -> Result<(), NoMemory>
    requires fit { AllFit [] nodes.now }
    requires inside { at < length nodes.now }
    requires long { length live.now ≡ length nodes.now }
    requires closed { IsClosed nodes.now live.now }
    requires kept { AreKept live.now nodes.now at new.old }
    ensures kept { OnOk result (AreKept live.now nodes.now (at + 1) new.new) }
{
    let node = node_kept(alloc, nodes, live, at)?;
    new.push(node)?;
    Ok(())
}

/// The plan with an empty source in the place of each node that isn't live, so that node numbers stay as they are. The new
/// plan shares the bytes of files with the old one.
pub fn kept(alloc: Global, plan: &Plan, live: &[bool]) -> Result<Plan, NoMemory>
    requires long { length live.now ≡ length plan.now }
    requires closed { IsClosed plan.now live.now }
    ensures kept { IfOk result (AreKept live.now plan.now (length plan.now)) }
{
    let nodes = plan.nodes();
    let mut new = Plan::new(alloc);
    for at in 0..nodes.len() {
        push_kept(alloc, nodes, live, &mut new, at)?;
    }
    Ok(new)
}
