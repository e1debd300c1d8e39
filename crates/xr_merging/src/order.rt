//! Held cells with their dimensions in another order.
ghost use Rattle.std.specs.Prelude.{◌≡◌, ◌==◌, ◌≤◌, ◌++◌, true, length, map, get_or, IfOk, OnOk};
ghost use Rattle.std.specs.List.{list_any};
ghost use Rattle.xr_types.specs.Points.{size};
ghost use Rattle.xr_arrays.specs.Nodes.{most_node_cells, reordered, IsOrder};
ghost use Rattle.xr_operations.specs.Reductions as calls;
ghost use Rattle.xr_merging.specs.Order.{CanReorder};

use arrangement::{points, reorder};
use std::alloc::{AllocError, Global};
use xr_arrays::ArrayValue;
use xr_types::{Items, Name, NoMemory};

// ---- numbers of axes

fn place_in(dims: &[Name], name: &Name) -> usize
    ensures place { result ≡ calls.place_in dims.now name.now }
    ensures inside { result ≤ length dims.now }
{
    match dims {
        [] => 0,
        [dim, rest @ ..] => {
            if name.is(dim) {
                0
            } else {
                place_in(rest, name) + 1
            }
        }
    }
}

fn push_places(order: &mut Items<u64>, own: &[Name], dims: &[Name]) -> Result<(), AllocError>
    ensures { OnOk result (order.new ≡ order.old ++ map (calls.place_in own.now) dims.now) }
{
    match dims {
        [] => Ok(()),
        [dim, rest @ ..] => {
            order.push(place_in(own, dim) as u64)?;
            push_places(order, own, rest)
        }
    }
}

fn has_place(order: &[u64], axis: u64) -> bool
    ensures { result ≡ list_any (λ o. o == axis) order.now }
{
    match order {
        [] => false,
        [one, rest @ ..] => *one == axis || has_place(rest, axis),
    }
}

fn is_order(rank: usize, order: &[u64]) -> bool
    ensures { result ≡ true → IsOrder rank order.now }
{
    if order.len() != rank {
        return false;
    }
    for axis in 0..rank {
        if !has_place(order, axis as u64) {
            return false;
        }
    }
    true
}

// ---- sizes

fn size_of(shape: &[u64], axis: u64) -> u64
    ensures { result ≡ get_or shape.now axis 0 }
{
    match shape.get(axis as usize) {
        Some(size) => *size,
        None => 0,
    }
}

fn push_sizes(sizes: &mut Items<u64>, shape: &[u64], order: &[u64]) -> Result<(), AllocError>
    ensures { OnOk result (sizes.new ≡ sizes.old ++ map (λ k. get_or shape.now k 0) order.now) }
{
    match order {
        [] => Ok(()),
        [axis, rest @ ..] => {
            sizes.push(size_of(shape, *axis))?;
            push_sizes(sizes, shape, rest)
        }
    }
}

/// Cells of a node of a plan.
const MOST_NODE_CELLS: u64 = 1 << 50;

fn is_small(shape: &[u64]) -> bool
    ensures { result ≡ true → size shape.now ≤ most_node_cells }
{
    points(shape) <= MOST_NODE_CELLS
}

fn can_reorder(shape: &[u64], order: &[u64], sizes: &[u64]) -> bool
    requires { sizes.now ≡ map (λ k. get_or shape.now k 0) order.now }
    ensures { result ≡ true → CanReorder shape.now order.now }
{
    order.len() <= 16 && is_order(shape.len(), order) && is_small(shape) && is_small(sizes)
}

/// Cells with their dimensions in this order. Dimensions that aren't the same, which none of one name have, want memory.
pub fn in_order(
    alloc: Global,
    dims: &[Name],
    own: &[Name],
    cells: &ArrayValue,
) -> Result<ArrayValue, NoMemory>
    ensures { IfOk result (λ a. a ≡ reordered cells.now (map (calls.place_in own.now) dims.now)) }
{
    let mut order = Items::new(alloc);
    push_places(&mut order, own, dims)?;
    let order = order.as_slice();
    let mut sizes = Items::new(alloc);
    push_sizes(&mut sizes, cells.shape(), order)?;
    if !can_reorder(cells.shape(), order, sizes.as_slice()) {
        return Err(NoMemory);
    }
    Ok(reorder(alloc, cells, order)?)
}
