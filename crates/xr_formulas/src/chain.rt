//! Steps from the cells of one node to those of an array.
ghost use Rattle.std.specs.Prelude.{◌≡◌, ◌≤◌, [], ◌∷◌, length, IfOk};
ghost use Rattle.xr_types.specs.Kinds.{InRange};
ghost use Rattle.xr_types.specs.Points.{size};
ghost use Rattle.xr_arrays.specs.Added.{AddsAtMost};
ghost use Rattle.xr_arrays.specs.Arrays.{IsArray};
ghost use Rattle.xr_arrays.specs.Nodes.{most_axes, most_node_cells};
ghost use Rattle.plan_core.specs.Plans.{Grows};
ghost use Rattle.xr_formulas.specs.declared.chain.Start.TheVariants as starts;
ghost use Rattle.xr_formulas.specs.Chains.{chain_cells, chain_value, no_cells, one_cell, start_cells, start_value, step_node, ChainFits, IsValueOf, StartFits};

use plan_core::Plan;
use std::alloc::{AllocError, Global};
use xr_arrays::{ArrayValue, Cells, Feed, Node, Sources};
use xr_types::{DType, DeepCopy, FoldKind, Items, NoMemory, NodeId, OpKind, Shape};

/// Where a chain begins.
#[derive(Drop)]
pub enum Start {
    /// A node of the plan.
    Node(NodeId),
    /// One number of a kind, as an array without axes.
    Cell(DType, i128),
    /// An array without cells: one of the sizes is 0.
    Empty(DType, Shape),
}

/// A node without its input.
#[derive(Drop)]
pub enum Step {
    Unary(OpKind, DType),
    /// One more axis before a place, of this size.
    Widen(usize, u64),
    /// The axes in another order.
    Reorder(Shape),
    /// Positions of an axis, and `fill` where there is none. With `drop` the one position that there is, without the axis.
    Take {
        axis: usize,
        from: Sources,
        fill: Option<i128>,
        drop: bool,
    },
    Fold(FoldKind, Items<Feed>),
    /// The folds up to each position of an axis.
    Scan(FoldKind, usize),
}

/// The cells of its start, after some steps.
#[derive(Drop)]
pub struct Chain {
    pub start: Start,
    pub steps: Items<Step>,
}

impl Step {
    fn node(&self, alloc: Global, input: NodeId) -> Result<Node, AllocError>
        ensures { IfOk result (λ n. n ≡ step_node self.now input) }
    {
        match self {
            &Step::Unary(op, kind) => Ok(Node::Unary { op, kind, input }),
            &Step::Widen(axis, size) => Ok(Node::Widen { input, axis, size }),
            Step::Reorder(order) => {
                let order = Shape::from_slice(order.as_slice());
                Ok(Node::Reorder { input, order })
            }
            Step::Take {
                axis,
                from,
                fill,
                drop,
            } => Ok(Node::Take {
                input,
                axis: *axis,
                from: Items::from_slice(alloc, from.as_slice())?,
                fill: *fill,
                drop: *drop,
            }),
            Step::Fold(fold, feeds) => Ok(Node::Fold {
                fold: *fold,
                input,
                feeds: feeds.deep_copy(alloc)?,
            }),
            &Step::Scan(fold, axis) => Ok(Node::Scan { fold, input, axis }),
        }
    }
}

/// The cells of a node.
pub fn cells_of(alloc: Global, node: NodeId) -> Chain
    ensures { result ≡ record { start = starts.Node node; steps = [] } }
{
    Chain {
        start: Start::Node(node),
        steps: Items::new(alloc),
    }
}

/// The cells of a node after one step.
pub fn one_step(alloc: Global, node: NodeId, step: Step) -> Result<Chain, AllocError>
    ensures { IfOk result (λ c. c ≡ record { start = starts.Node node; steps = step ∷ [] }) }
{
    let mut steps = Items::new(alloc);
    steps.push(step)?;
    let start = Start::Node(node);
    Ok(Chain { start, steps })
}

// Cells of a kind: one, or none.
macro_rules! typed_cells {
    ($alloc:expr, $kind:expr, [$($n:expr)?]) => {
        match $kind {
            DType::Bool => Cells::Bool(Items::of(vec![in $alloc $(; $n as u8)?]?)),
            DType::Char => Cells::Char(Items::of(vec![in $alloc $(; $n as u8)?]?)),
            DType::Int8 => Cells::Int8(Items::of(vec![in $alloc $(; $n as i8)?]?)),
            DType::Int16 => Cells::Int16(Items::of(vec![in $alloc $(; $n as i16)?]?)),
            DType::Int32 => Cells::Int32(Items::of(vec![in $alloc $(; $n as i32)?]?)),
            DType::Int64 => Cells::Int64(Items::of(vec![in $alloc $(; $n as i64)?]?)),
            DType::UInt8 => Cells::UInt8(Items::of(vec![in $alloc $(; $n as u8)?]?)),
            DType::UInt16 => Cells::UInt16(Items::of(vec![in $alloc $(; $n as u16)?]?)),
            DType::UInt32 => Cells::UInt32(Items::of(vec![in $alloc $(; $n as u32)?]?)),
            DType::UInt64 => Cells::UInt64(Items::of(vec![in $alloc $(; $n as u64)?]?)),
        }
    };
}

// An array without axes, whose cell is this number.
fn one_cell(alloc: Global, kind: DType, n: i128) -> Result<ArrayValue, AllocError>
    requires { InRange kind n }
    ensures { IfOk result (λ a. a ≡ one_cell kind n) }
{
    let cells = typed_cells!(alloc, kind, [n]);
    Ok(ArrayValue::of(Items::new(alloc), cells, None))
}

// An array without cells.
fn no_cells(alloc: Global, kind: DType, sizes: &[u64]) -> Result<ArrayValue, AllocError>
    requires { size sizes.now ≡ 0 }
    ensures { IfOk result (λ a. a ≡ no_cells kind sizes.now) }
{
    let shape = Items::from_slice(alloc, sizes)?;
    let cells = typed_cells!(alloc, kind, []);
    Ok(ArrayValue::of(shape, cells, None))
}

// A node with these cells.
fn push_source(plan: &mut Plan, cells: ArrayValue) -> Result<NodeId, NoMemory>
    requires cells { IsArray cells }
    requires small { size cells.shape ≤ most_node_cells }
    requires low_rank { length cells.shape ≤ most_axes }
    ensures value { IfOk result (IsValueOf plan.new cells) }
    ensures grows { Grows plan.old plan.new }
    ensures cells { IfOk result (λ n. AddsAtMost plan.old plan.new (size cells.shape)) }
{
    let node = plan.push(Node::Source { cells })?;
    Ok(node)
}

fn push_start(alloc: Global, plan: &mut Plan, start: &Start) -> Result<NodeId, NoMemory>
    requires { StartFits plan.old start.now }
    ensures value { IfOk result (IsValueOf plan.new (start_value plan.old start.now)) }
    ensures grows { Grows plan.old plan.new }
    ensures cells { IfOk result (λ n. AddsAtMost plan.old plan.new (start_cells start.now)) }
{
    match start {
        Start::Node(node) => Ok(*node),
        Start::Cell(kind, n) => push_source(plan, one_cell(alloc, *kind, *n)?),
        Start::Empty(kind, shape) => push_source(plan, no_cells(alloc, *kind, shape.as_slice())?),
    }
}

/// The node after the steps of a chain, which are added to the plan.
pub fn push_chain(alloc: Global, plan: &mut Plan, chain: &Chain) -> Result<NodeId, NoMemory>
    requires { ChainFits plan.old chain.now }
    ensures value { IfOk result (IsValueOf plan.new (chain_value plan.old chain.now)) }
    ensures grows { Grows plan.old plan.new }
    ensures cells { IfOk result (λ n. AddsAtMost plan.old plan.new (chain_cells plan.old chain.now)) }
{
    let first = push_start(alloc, plan, &chain.start)?;
    let steps = chain.steps.as_slice();
    let mut node = first;
    for step in steps {
        let next = step.node(alloc, node)?;
        node = plan.push(next)?;
    }
    Ok(node)
}
