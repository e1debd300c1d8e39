//! The cells of arrays that become coordinates.
ghost use Rattle.std.specs.Prelude.{◌≡◌, ◌<◌, ℕ, List, length, not, IfOk};
ghost use denote.Param.Send.{IsSync};
ghost use Rattle.xr_arrays.specs.declared.node.Node.{Node};
ghost use Rattle.xr_arrays.specs.Nodes.{value as value_of};
ghost use Rattle.xr_types.specs.declared.fault.CallFault.TheVariants as calls;
ghost use Rattle.xr_types.specs.Results.{unless};
ghost use Rattle.xr_building.specs.Entries.{Follows};

use plan_core::Compute;
use std::alloc::Global;
use std::thread::Threads;
use xr_arrays::ArrayValue;
use xr_types::{CallFault, ComputeFault, NodeId};
use xr_values::Cx;

/// The cells of a node, or the node itself where it is declined.
#[tactic(auto, unfolding(xr_types::specs::Results::unless))]
pub fn node_cells<R: Threads + Sync, C: Compute>(
    rt: &R,
    alloc: Global,
    cx: &mut Cx<C>,
    node: NodeId,
) -> Result<ArrayValue, CallFault>
    requires sync { IsSync R.row }
    requires inside { node < length cx.old.plan }
    ensures told { Follows (λ a. tt) result (unless (not (C.declines cx.old.compute cx.old.plan node)) (calls.Declined node)) }
    ensures cells { IfOk result (λ a. a ≡ value_of cx.old.plan node) }
    ensures plan { cx.new.plan ≡ cx.old.plan }
    ensures keeps { (nodes : List Node) (n : ℕ) → C.declines cx.new.compute nodes n ≡ C.declines cx.old.compute nodes n }
{
    match cx.compute.cells(rt, alloc, &cx.plan, node) {
        Ok(array) => Ok(array),
        Err(ComputeFault::Declined(node)) => Err(CallFault::Declined(node)),
        Err(ComputeFault::NoMemory) => Err(CallFault::NoMemory),
    }
}
