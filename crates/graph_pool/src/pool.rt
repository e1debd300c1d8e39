//! Computes the cells of nodes.
ghost use Rattle.std.specs.Prelude.{◌≡◌, ◌<◌, length, false, IfOk, refl};
ghost use denote.Param.Send.{IsSync};
ghost use Rattle.xr_arrays.specs.Nodes.{value};

use crate::gate::Gate;
use crate::settings::Settings;
use plan_core::{Compute, Plan};
use plan_whole::Whole;
use std::alloc::Global;
use std::thread::Threads;
use xr_arrays::ArrayValue;
use xr_types::{ComputeFault, NoMemory, NodeId};

// The cells of a node, on one thread.
fn computed<R: Threads + Sync>(
    rt: &R,
    alloc: Global,
    plan: &Plan,
    node: NodeId,
) -> Result<ArrayValue, NoMemory>
    requires sync { IsSync R.row }
    requires inside { node < length plan.now }
    ensures { IfOk result (λ a. a ≡ value plan.now node) }
{
    let mut whole = Whole;
    match whole.cells(rt, alloc, plan, node) {
        Ok(cells) => Ok(cells),
        Err(_) => Err(NoMemory),
    }
}

/// The cells of a node, which are its value, whatever the settings are. Want of memory may come at any time.
///
/// It computes on one thread, without chunks: no task enters the gate.
pub fn execute<R: Threads + Sync, G: Gate>(
    rt: &R,
    alloc: Global,
    plan: &Plan,
    node: NodeId,
    _settings: &Settings,
    _gate: &G,
) -> Result<ArrayValue, NoMemory>
    requires sync { IsSync R.row }
    requires inside { node < length plan.now }
    ensures { IfOk result (λ a. a ≡ value plan.now node) }
{
    computed(rt, alloc, plan, node)
}

/// Computes nodes as `execute` does, and declines none.
#[derive(Drop)]
pub struct Pool<'g, G> {
    pub settings: Settings,
    pub gate: &'g G,
}

impl<'g, G: Gate> Compute for Pool<'g, G> {
    ghost declines = { λ _ _ _. false };

    fn cells<R: Threads + Sync>(
        &mut self,
        rt: &R,
        alloc: Global,
        plan: &Plan,
        node: NodeId,
    ) -> Result<ArrayValue, ComputeFault> {
        match computed(rt, alloc, plan, node) {
            Ok(cells) => Ok(cells),
            Err(NoMemory) => Err(ComputeFault::NoMemory),
        }
    }

    ghost early = { λ s nodes more n lt. refl };
}
