//! Nodes of a plan: how an array comes from earlier ones.
use crate::array::ArrayValue;
use crate::feeds::Feeds;
use std::alloc::{AllocError, Global};
use xr_types::{DType, DeepCopy, FoldKind, Items, NodeId, OpKind, Shape};

/// The position of the input that each position of a result shows. Where there is none, it shows the fill.
pub type Sources = Items<Option<u32>>;

/// What a fold does with an axis of its input.
#[derive(Drop)]
pub enum Feed {
    /// The result has it.
    Keep,
    /// All its positions are folded, and the result doesn't have it.
    All,
    /// Each position of the result folds these positions of the input.
    By(Feeds),
}

impl DeepCopy for Feed {
    fn deep_copy(&self, alloc: Global) -> Result<Feed, AllocError> {
        match self {
            Feed::Keep => Ok(Feed::Keep),
            Feed::All => Ok(Feed::All),
            Feed::By(feeds) => Ok(Feed::By(feeds.deep_copy(alloc)?)),
        }
    }
}

/// A node, whose inputs are earlier nodes of its plan.
#[derive(Drop)]
pub enum Node {
    /// Cells at hand.
    Source {
        cells: ArrayValue,
    },
    /// Positions of one axis of the input. `fill` stands where there is no position, none of it being a missing cell.
    /// With `drop` there is one position, and the result doesn't have the axis.
    Take {
        input: NodeId,
        axis: usize,
        from: Sources,
        fill: Option<i128>,
        drop: bool,
    },
    /// The axes in another order: for each axis of the result the input's, each once.
    Reorder {
        input: NodeId,
        order: Shape,
    },
    /// One more axis before `axis`, along which all positions show the same cell.
    Widen {
        input: NodeId,
        axis: usize,
        size: u64,
    },
    /// An operation on each cell, with the kind of the result.
    Unary {
        op: OpKind,
        kind: DType,
        input: NodeId,
    },
    /// An operation on the cells of two inputs of one shape and kind.
    Binary {
        op: OpKind,
        a: NodeId,
        b: NodeId,
    },
    /// The cells of `a` where the truth value is 1, and those of `b` where it is 0.
    Choose {
        cond: NodeId,
        a: NodeId,
        b: NodeId,
    },
    /// The fold of the cells that agree outside the axes that are folded: for each axis of the input what is done with it.
    Fold {
        fold: FoldKind,
        input: NodeId,
        feeds: Items<Feed>,
    },
    /// At each position of the axis the fold of the cells up to it.
    Scan {
        fold: FoldKind,
        input: NodeId,
        axis: usize,
    },
    /// The inputs one after the other along an axis.
    Concat {
        inputs: Items<NodeId>,
        axis: usize,
    },
    /// The input, to be computed in chunks of these sizes on the axes that have one.
    Chunk {
        input: NodeId,
        sizes: Items<Option<u64>>,
    },
}
