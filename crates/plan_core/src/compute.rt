//! What computes the cells of a node.
ghost use Rattle.std.specs.Prelude.{◌≡◌, ◌<◌, ◌++◌, ℕ, List, Bool, length};
ghost use denote.Param.Send.{IsSync};
ghost use Rattle.xr_arrays.specs.declared.node.Node.{Node};
ghost use Rattle.plan_core.specs.Plans.{CellsAre};

use crate::plan::Plan;
use std::alloc::Global;
use std::thread::Threads;
use xr_arrays::ArrayValue;
use xr_types::{ComputeFault, NodeId};

/// What computes the cells of a plan's nodes, or declines some of them.
pub trait Compute {
    /// Whether a node is declined.
    ghost declines: { Self → List Node → ℕ → Bool };

    /// The cells of a node, which are its value. The answer is `Declined` with the node exactly where it is declined, and
    /// want of memory may come at any time.
    fn cells<R: Threads + Sync>(
        &mut self,
        rt: &R,
        alloc: Global,
        plan: &Plan,
        node: NodeId,
    ) -> Result<ArrayValue, ComputeFault>
        requires sync { IsSync R.row }
        requires inside { node < length plan.now }
        ensures cells { CellsAre (declines self.old plan.now node) plan.now node result }
        ensures keeps { (nodes : List Node) (n : ℕ) → declines self.new nodes n ≡ declines self.old nodes n };

    /// Later nodes don't change what is declined.
    ghost early: { (s : Self) (nodes more : List Node) (n : ℕ) → n < length nodes → declines s (nodes ++ more) n ≡ declines s nodes n };
}
