//! Computes the cells of a node, and what it needs before it.
ghost use Rattle.std.specs.Prelude.{◌≡◌, ◌<◌, ◌≤◌, ◌+◌, ℕ, [], length, get_or, false, true, Some, None, All, OnOk, IfOk, refl};
ghost use Rattle.xr_arrays.specs.Nodes.{value, AllFit};
ghost use Rattle.plan_core.specs.Needs.{inputs_at, IsHeld};
ghost use Rattle.plan_needs.specs.Trees.{comes_in_strips, takes_in_strips, AreThere, IsNext, IsStrand, KeepFrom};

use crate::eval::compute;
use plan_core::{Compute, Plan};
use plan_needs::{comes_in_strips, is_source, mark_needed, release_inputs, whole_nodes};
use std::alloc::{AllocError, Global};
use std::thread::Threads;
use xr_arrays::{ArrayValue, Node};
use xr_types::{ComputeFault, NodeId};

/// Computes nodes on one thread, and declines none. Of the earlier nodes it computes those that the asked one needs. A node
/// that serves one other node cell by cell is computed with it, strip by strip; the others are computed as whole arrays, each
/// of which is kept as long as something needs it.
#[derive(Clone, Copy)]
pub struct Whole;

// Whether a node comes strip by strip.
fn is_passed(nodes: &[Node], whole: &[bool], at: usize) -> bool
    requires fit { AllFit [] nodes.now }
    requires inside { at < length nodes.now }
    requires whole_there { at < length whole.now }
    ensures passed { result ≡ true → get_or whole.now at true ≡ false }
    ensures comes { result ≡ true → comes_in_strips nodes.now at ≡ true }
{
    if whole[at] {
        false
    } else {
        comes_in_strips(nodes, at)
    }
}

// The value that is kept beside the plan: none for a node that isn't needed, none for a source, and none for a node that comes
// strip by strip.
fn next(
    alloc: Global,
    nodes: &[Node],
    done: &[Option<ArrayValue>],
    whole: &[bool],
    until: &[usize],
    at: usize,
) -> Result<Option<ArrayValue>, AllocError>
    requires fit { AllFit [] nodes.now }
    requires inside { at < length nodes.now }
    requires whole_there { at < length whole.now }
    requires until_there { at < length until.now }
    requires strands { 0 < get_or until.now at 0 → All (IsStrand nodes.now done.now) (inputs_at nodes.now at) }
    requires held { 0 < get_or until.now at 0 → takes_in_strips nodes.now at ≡ false → All (IsHeld nodes.now done.now) (inputs_at nodes.now at) }
    ensures { IfOk result (λ o. 0 < get_or until.now at 0 → IsNext nodes.now whole.now at o) }
{
    if until[at] == 0 {
        return Ok(None);
    }
    if is_source(&nodes[at]) {
        return Ok(None);
    }
    if is_passed(nodes, whole, at) {
        return Ok(None);
    }
    let value = compute(alloc, nodes, done, at)?;
    Ok(Some(value))
}

// Gives up what a node comes from, where it is computed itself.
fn release_after(
    alloc: Global,
    nodes: &[Node],
    done: &mut [Option<ArrayValue>],
    whole: &[bool],
    until: &[usize],
    at: usize,
) -> Result<(), AllocError>
    requires fit { AllFit [] nodes.now }
    requires inside { at < length nodes.now }
    requires done { at < length done.old }
    requires whole { at < length whole.now }
    requires until { at < length until.now }
    ensures long { length done.new ≡ length done.old }
    ensures kept { (m : ℕ) → at < get_or until.now m 0 → get_or done.new m None ≡ get_or done.old m None }
{
    if until[at] == 0 || !whole[at] {
        return Ok(());
    }
    release_inputs(alloc, nodes, done, whole, until, at, at)
}

fn step(
    alloc: Global,
    nodes: &[Node],
    whole: &[bool],
    until: &[usize],
    done: &mut Vec<Option<ArrayValue>>,
    at: usize,
) -> Result<(), AllocError>
    requires fit { AllFit [] nodes.now }
    requires inside { at < length nodes.now }
    requires whole_there { at < length whole.now }
    requires until_there { at < length until.now }
    requires keep { KeepFrom nodes.now whole.now until.now 0 }
    requires long { length done.old.items ≡ at }
    requires there { AreThere nodes.now done.old.items whole.now until.now at }
    ensures long { OnOk result (length done.new.items ≡ at + 1) }
    ensures there { OnOk result (AreThere nodes.now done.new.items whole.now until.now (at + 1)) }
{
    let value = next(alloc, nodes, done, whole, until, at)?;
    done.push(value)?;
    release_after(alloc, nodes, done, whole, until, at)
}

// The value of a node, where each node of which it is said so is computed as a whole array.
fn evaluate_by(
    alloc: Global,
    nodes: &[Node],
    whole: &mut [bool],
    node: usize,
) -> Result<ArrayValue, AllocError>
    requires fit { AllFit [] nodes.now }
    requires inside { node < length nodes.now }
    requires long { length whole.old ≡ node + 1 }
    requires root { get_or whole.old node true ≡ true }
    ensures { IfOk result (λ a. a ≡ value nodes.now node) }
{
    let until = mark_needed(alloc, nodes, whole, node)?;
    let mut done = Vec::new(alloc);
    for at in 0..node {
        step(alloc, nodes, whole, &until, &mut done, at)?;
    }
    compute(alloc, nodes, &done, node)
}

fn evaluate(alloc: Global, nodes: &[Node], node: usize) -> Result<ArrayValue, AllocError>
    requires fit { AllFit [] nodes.now }
    requires inside { node < length nodes.now }
    ensures { IfOk result (λ a. a ≡ value nodes.now node) }
{
    let mut whole = whole_nodes(alloc, nodes, node)?;
    evaluate_by(alloc, nodes, &mut whole, node)
}

impl Compute for Whole {
    ghost declines = { λ _ _ _. false };

    fn cells<R: Threads + Sync>(
        &mut self,
        _rt: &R,
        alloc: Global,
        plan: &Plan,
        node: NodeId,
    ) -> Result<ArrayValue, ComputeFault> {
        match evaluate(alloc, plan.nodes(), node as usize) {
            Ok(cells) => Ok(cells),
            Err(AllocError) => Err(ComputeFault::NoMemory),
        }
    }

    ghost early = { λ s nodes more n lt. refl };
}
