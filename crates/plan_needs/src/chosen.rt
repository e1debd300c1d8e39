//! Which nodes are computed as whole arrays. Any choice gives the same values: this one decides how much memory and time they
//! take. A node comes strip by strip where its cells serve one other node alone, and it replaces no two arrays by one.
ghost use Rattle.std.specs.Prelude.{◌≡◌, ◌<◌, ◌≤◌, ◌+◌, ℕ, [], length, true, get_or, OnOk, IfOk};
ghost use Rattle.xr_arrays.specs.Nodes.{AllFit};

use crate::held::{inputs_of, is_source};
use crate::sorts::{comes_in_strips, takes_in_strips};
use crate::spread::is_spread;
use std::alloc::{AllocError, Global};
use xr_arrays::Node;
use xr_types::NodeId;

// How many nodes may stand above each other in what comes strip by strip: each of them is a call within another.
const MOST_DEEP: u8 = 64;

// The nodes that are needed and computed from a node.
#[derive(Clone, Copy)]
enum Users {
    Nobody,
    // one node, whose cells come from those at the same place
    Cells,
    // one fold
    Fold,
    Several,
}

// What strips of a node come from.
#[derive(Clone, Copy)]
struct Load {
    // arrays that are computed and kept for them
    arrays: u8,
    // nodes above each other
    deep: u8,
}

fn user(nodes: &[Node], at: usize) -> Users
    requires fit { AllFit [] nodes.now }
    requires inside { at < length nodes.now }
{
    if comes_in_strips(nodes, at) {
        Users::Cells
    } else if takes_in_strips(nodes, at) {
        Users::Fold
    } else {
        Users::Several
    }
}

fn add_user(users: &mut [Users], id: NodeId, user: Users)
    ensures { length users.new ≡ length users.old }
{
    let at = id as usize;
    if at < users.len() {
        users[at] = match users[at] {
            Users::Nobody => user,
            _ => Users::Several,
        };
    }
}

fn is_needed(users: Users) -> bool {
    match users {
        Users::Nobody => false,
        _ => true,
    }
}

fn add_users(
    alloc: Global,
    nodes: &[Node],
    users: &mut [Users],
    at: usize,
) -> Result<(), AllocError>
    requires fit { AllFit [] nodes.now }
    requires inside { at < length nodes.now }
    requires there { at < length users.old }
    ensures { length users.new ≡ length users.old }
{
    if is_needed(users[at]) {
        let by = user(nodes, at);
        for id in &inputs_of(alloc, &nodes[at])? {
            add_user(users, *id, by);
        }
    }
    Ok(())
}

fn users_of(alloc: Global, nodes: &[Node], node: usize) -> Result<Vec<Users>, AllocError>
    requires fit { AllFit [] nodes.now }
    requires inside { node < length nodes.now }
    ensures { IfOk result (λ v. length v.items ≡ node + 1) }
{
    let count = node + 1;
    let mut users = Vec::from_elem(alloc, Users::Nobody, count)?;
    users[node] = Users::Several;
    for step in 0..count {
        add_users(alloc, nodes, &mut users, node - step)?;
    }
    Ok(users)
}

fn load_at(loads: &[Load], id: NodeId) -> Load {
    let at = id as usize;
    if at < loads.len() {
        loads[at]
    } else {
        Load { arrays: 1, deep: 0 }
    }
}

fn both(a: Load, b: Load) -> Load {
    Load {
        arrays: a.arrays.saturating_add(b.arrays),
        deep: if a.deep < b.deep { b.deep } else { a.deep },
    }
}

// What strips of a node come from, where it isn't computed whole.
fn load_of(alloc: Global, node: &Node, loads: &[Load]) -> Result<Load, AllocError> {
    let mut load = Load { arrays: 0, deep: 0 };
    for id in &inputs_of(alloc, node)? {
        load = both(load, load_at(loads, *id));
    }
    load.deep = load.deep.saturating_add(1);
    Ok(load)
}

// Whether a node whose cells may come strip by strip is computed as a whole array.
fn is_whole(users: Users, load: Load) -> bool {
    if load.deep > MOST_DEEP {
        return true;
    }
    match users {
        Users::Nobody => true,
        Users::Cells => load.arrays > 1,
        Users::Fold => false,
        Users::Several => true,
    }
}

// Whether a node that is needed is computed as a whole array, and what strips of it come from then.
fn choice(
    alloc: Global,
    nodes: &[Node],
    at: usize,
    users: Users,
    loads: &[Load],
) -> Result<(bool, Load), AllocError>
    requires fit { AllFit [] nodes.now }
    requires inside { at < length nodes.now }
{
    let none = Load { arrays: 0, deep: 0 };
    let kept = Load { arrays: 1, deep: 0 };
    if is_source(&nodes[at]) {
        return Ok((true, none));
    }
    if is_spread(nodes, at) {
        return Ok((false, none));
    }
    if !comes_in_strips(nodes, at) {
        return Ok((true, kept));
    }
    let load = load_of(alloc, &nodes[at], loads)?;
    if is_whole(users, load) {
        Ok((true, kept))
    } else {
        Ok((false, load))
    }
}

// Says so of one node, if it is needed.
fn choose(
    alloc: Global,
    nodes: &[Node],
    at: usize,
    users: Users,
    loads: &mut [Load],
    whole: &mut [bool],
) -> Result<(), AllocError>
    requires fit { AllFit [] nodes.now }
    requires inside { at < length nodes.now }
    requires loads { at < length loads.old }
    requires whole { at < length whole.old }
    ensures loads { length loads.new ≡ length loads.old }
    ensures long { length whole.new ≡ length whole.old }
    ensures others { (k : ℕ) → at < k → get_or whole.new k true ≡ get_or whole.old k true }
{
    if !is_needed(users) {
        return Ok(());
    }
    let (is_whole, load) = choice(alloc, nodes, at, users, loads)?;
    loads[at] = load;
    whole[at] = is_whole;
    Ok(())
}

/// For each node up to this one whether it is computed as a whole array, as this one is.
pub fn whole_nodes(alloc: Global, nodes: &[Node], node: usize) -> Result<Vec<bool>, AllocError>
    requires fit { AllFit [] nodes.now }
    requires inside { node < length nodes.now }
    ensures long { IfOk result (λ v. length v.items ≡ node + 1) }
    ensures root { IfOk result (λ v. get_or v.items node true ≡ true) }
{
    let count = node + 1;
    let users = users_of(alloc, nodes, node)?;
    let mut loads = Vec::from_elem(alloc, Load { arrays: 0, deep: 0 }, count)?;
    let mut whole = Vec::from_elem(alloc, true, count)?;
    for at in 0..node {
        choose(alloc, nodes, at, users[at], &mut loads, &mut whole)?;
    }
    Ok(whole)
}
