//! Values that nothing needs any more.
ghost use Rattle.std.specs.Prelude.{◌≡◌, ◌<◌, ◌≤◌, ℕ, [], length, get_or, None};
ghost use Rattle.xr_arrays.specs.Nodes.{AllFit};

use crate::held::inputs_of;
use std::alloc::{AllocError, Global};
use xr_arrays::{ArrayValue, Node};
use xr_types::NodeId;

fn release(done: &mut [Option<ArrayValue>], until: &[usize], id: NodeId, user: usize)
    requires done { id < length done.old }
    requires until { id < length until.now }
    ensures long { length done.new ≡ length done.old }
    ensures kept { (m : ℕ) → user < get_or until.now m 0 → get_or done.new m None ≡ get_or done.old m None }
{
    let id = id as usize;
    if until[id] <= user {
        done[id] = None;
    }
}

/// Gives up the values that a node comes from and nothing behind its user needs: those of its inputs, and of what strips of
/// its inputs come from.
pub fn release_inputs(
    alloc: Global,
    nodes: &[Node],
    done: &mut [Option<ArrayValue>],
    whole: &[bool],
    until: &[usize],
    at: usize,
    user: usize,
) -> Result<(), AllocError>
    requires fit { AllFit [] nodes.now }
    requires inside { at < length nodes.now }
    requires done { at ≤ length done.old }
    requires whole { at ≤ length whole.now }
    requires until { at ≤ length until.now }
    ensures long { length done.new ≡ length done.old }
    ensures kept { (m : ℕ) → user < get_or until.now m 0 → get_or done.new m None ≡ get_or done.old m None }
{
    let ids = inputs_of(alloc, &nodes[at])?;
    for id in &ids {
        if !whole[*id as usize] {
            release_inputs(alloc, nodes, done, whole, until, *id as usize, user)?;
        }
        release(done, until, *id, user);
    }
    Ok(())
}
