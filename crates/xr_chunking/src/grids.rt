//! Nodes whose cells are computed in pieces.
ghost use Rattle.std.specs.Prelude.{◌≡◌, IfOk};
ghost use Rattle.xr_types.specs.Points.{size};
ghost use Rattle.xr_arrays.specs.Added.{AddsAtMost};
ghost use Rattle.xr_arrays.specs.Nodes.{value};
ghost use Rattle.plan_core.specs.Plans.{Grows};
ghost use Rattle.xr_chunking.specs.Grids as grids;
ghost use Rattle.xr_chunking.specs.Grids.{CanCut, Follows};

use plan_core::Plan;
use xr_arrays::Node;
use xr_types::{Items, NoMemory, NodeId};

fn has_piece(pieces: &[Option<u64>]) -> bool
    ensures { result ≡ grids.has_piece pieces.now }
{
    match pieces {
        [] => false,
        [piece, rest @ ..] => piece.is_some() || has_piece(rest),
    }
}

/// The node that follows one and has pieces of these sizes. Where no axis has one it is the node itself.
#[tactic(auto, using(plan_core::proofs::Plans::grows_by_none, plan_core::proofs::Added::adds_none, crate::proofs::Cutting::stays, crate::proofs::Cutting::pushed, crate::proofs::Cutting::cut_fits, crate::proofs::Cutting::cut_adds))]
pub fn cut(plan: &mut Plan, node: NodeId, pieces: Items<Option<u64>>) -> Result<NodeId, NoMemory>
    requires { CanCut plan.old node pieces }
    ensures cut { IfOk result (Follows plan.old plan.new node pieces) }
    ensures grows { Grows plan.old plan.new }
    ensures cells { IfOk result (λ m. AddsAtMost plan.old plan.new (size (value plan.old node).shape)) }
{
    if has_piece(pieces.as_slice()) {
        let cut = plan.push(Node::Chunk {
            input: node,
            sizes: pieces,
        })?;
        Ok(cut)
    } else {
        Ok(node)
    }
}
