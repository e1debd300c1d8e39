//! How long the values of earlier nodes are kept for a node.
ghost use Rattle.std.specs.Prelude.{◌≡◌, ◌<◌, ◌≤◌, ◌+◌, ℕ, [], length, get_or, true, false, All, OnOk, IfOk};
ghost use Rattle.xr_arrays.specs.Nodes.{AllFit};
ghost use Rattle.plan_needs.specs.Trees.{last_use, takes_in_strips, AreMarked, KeepFrom};

use crate::held::inputs_of;
use crate::sorts::takes_in_strips;
use std::alloc::{AllocError, Global};
use xr_arrays::Node;
use xr_types::NodeId;

fn mark(until: &mut [usize], id: NodeId, user: usize)
    requires { id < length until.old }
    ensures long { length until.new ≡ length until.old }
    ensures marked { user ≤ get_or until.new id 0 }
    ensures grows { (k : ℕ) → get_or until.old k 0 ≤ get_or until.new k 0 }
    ensures others { (k : ℕ) → id < k → get_or until.new k 0 ≡ get_or until.old k 0 }
{
    let at = id as usize;
    if until[at] < user {
        until[at] = user;
    }
}

fn mark_all(until: &mut [usize], ids: &[NodeId], user: usize)
    requires { All (λ m. m < length until.old) ids.now }
    ensures long { length until.new ≡ length until.old }
    ensures marked { All (λ m. user ≤ get_or until.new m 0) ids.now }
    ensures grows { (k : ℕ) → get_or until.old k 0 ≤ get_or until.new k 0 }
    ensures others { (k : ℕ) → All (λ m. m < k) ids.now → get_or until.new k 0 ≡ get_or until.old k 0 }
{
    for id in ids {
        mark(until, *id, user);
    }
}

fn hold(whole: &mut [bool], id: NodeId)
    requires { id < length whole.old }
    ensures long { length whole.new ≡ length whole.old }
    ensures held { get_or whole.new id true ≡ true }
    ensures grows { (k : ℕ) → get_or whole.old k true ≡ true → get_or whole.new k true ≡ true }
    ensures others { (k : ℕ) → id < k → get_or whole.new k true ≡ get_or whole.old k true }
{
    whole[id as usize] = true;
}

fn hold_all(whole: &mut [bool], ids: &[NodeId])
    requires { All (λ m. m < length whole.old) ids.now }
    ensures long { length whole.new ≡ length whole.old }
    ensures held { All (λ m. get_or whole.new m true ≡ true) ids.now }
    ensures grows { (k : ℕ) → get_or whole.old k true ≡ true → get_or whole.new k true ≡ true }
    ensures others { (k : ℕ) → All (λ m. m < k) ids.now → get_or whole.new k true ≡ get_or whole.old k true }
{
    for id in ids {
        hold(whole, *id);
    }
}

// A node that doesn't take strips has its inputs computed whole.
fn hold_inputs(whole: &mut [bool], nodes: &[Node], at: usize, ids: &[NodeId])
    requires fit { AllFit [] nodes.now }
    requires inside { at < length nodes.now }
    requires there { All (λ m. m < length whole.old) ids.now }
    ensures long { length whole.new ≡ length whole.old }
    ensures held { takes_in_strips nodes.now at ≡ false → All (λ m. get_or whole.new m true ≡ true) ids.now }
    ensures grows { (k : ℕ) → get_or whole.old k true ≡ true → get_or whole.new k true ≡ true }
    ensures others { (k : ℕ) → All (λ m. m < k) ids.now → get_or whole.new k true ≡ get_or whole.old k true }
{
    if !takes_in_strips(nodes, at) {
        hold_all(whole, ids);
    }
}

// Until when a node that is kept so long needs its inputs.
fn last_use(whole: bool, until: usize, at: usize) -> usize
    ensures { result ≡ last_use whole until at }
{
    if whole || until < at { at } else { until }
}

// A node that is needed keeps its inputs.
fn mark_at(
    alloc: Global,
    nodes: &[Node],
    whole: &mut [bool],
    until: &mut [usize],
    at: usize,
) -> Result<(), AllocError>
    requires fit { AllFit [] nodes.now }
    requires inside { at < length nodes.now }
    requires whole_there { at < length whole.old }
    requires there { at < length until.old }
    requires keep { KeepFrom nodes.now whole.old until.old (at + 1) }
    ensures whole_long { OnOk result (length whole.new ≡ length whole.old) }
    ensures long { OnOk result (length until.new ≡ length until.old) }
    ensures keep { OnOk result (KeepFrom nodes.now whole.new until.new at) }
    ensures kept { OnOk result ((k : ℕ) → at ≤ k → get_or until.new k 0 ≡ get_or until.old k 0) }
    ensures whole_kept { OnOk result ((k : ℕ) → at ≤ k → get_or whole.new k true ≡ get_or whole.old k true) }
{
    if until[at] == 0 {
        return Ok(());
    }
    let ids = inputs_of(alloc, &nodes[at])?;
    let user = last_use(whole[at], until[at], at);
    mark_all(until, &ids, user);
    hold_inputs(whole, nodes, at, &ids);
    Ok(())
}

/// For each node up to this one the last node whose computing takes it, where this one needs it, and otherwise 0. More nodes
/// become such that are computed whole, as a node needs it.
pub fn mark_needed(
    alloc: Global,
    nodes: &[Node],
    whole: &mut [bool],
    node: usize,
) -> Result<Vec<usize>, AllocError>
    requires fit { AllFit [] nodes.now }
    requires inside { node < length nodes.now }
    requires long { length whole.old ≡ node + 1 }
    requires root { get_or whole.old node true ≡ true }
    ensures { IfOk result (λ v. AreMarked nodes.now node whole.new v.items) }
{
    let count = node + 1;
    let mut until = Vec::from_elem(alloc, 0usize, count)?;
    until[node] = count;
    for step in 0..count {
        mark_at(alloc, nodes, whole, &mut until, node - step)?;
    }
    Ok(until)
}
