//! Cells at nodes of a plan, and the order of their dimensions.
ghost use Rattle.std.specs.Prelude.{◌≡◌, ◌==◌, ◌≤◌, ◌++◌, [], true, length, map, IfOk, OnOk};
ghost use Rattle.std.specs.List.{list_any, AllByRecursion};
ghost use Rattle.xr_arrays.specs.Nodes.{IsOrder};
ghost use Rattle.xr_operations.specs.Reductions as calls;
ghost use Rattle.xr_stacking.specs.Parts.{brought_shape, order_of, sizes_in, wide_shape, CanTurn};

use crate::shapes::{is_small, size_of};
use std::alloc::{AllocError, Global};
use xr_types::{Items, MOST_DIMENSIONS, Name, NoMemory, NodeId};

/// Cells of one name, as one of several values has them: a node, its shape, and the names of its dimensions.
#[derive(Drop)]
pub struct Part {
    pub dims: Items<Name>,
    pub shape: Items<u64>,
    pub node: NodeId,
}

/// The place of a dimension among others, behind all where it isn't one of them.
pub fn place_in(dims: &[Name], name: &Name) -> usize
    ensures place { result ≡ calls.place_in dims.now name.now }
    ensures inside { result ≤ length dims.now }
{
    match dims {
        [] => 0,
        [dim, rest @ ..] => {
            if name.is(dim) {
                0
            } else {
                place_in(rest, name) + 1
            }
        }
    }
}

fn push_places(order: &mut Items<u64>, own: &[Name], dims: &[Name]) -> Result<(), AllocError>
    ensures { OnOk result (order.new ≡ order.old ++ map (calls.place_in own.now) dims.now) }
{
    match dims {
        [] => Ok(()),
        [dim, rest @ ..] => {
            order.push(place_in(own, dim) as u64)?;
            push_places(order, own, rest)
        }
    }
}

/// The numbers of a part's axes in the order of these dimensions.
pub(crate) fn order_of(alloc: Global, dims: &[Name], part: &Part) -> Result<Items<u64>, AllocError>
    ensures { IfOk result (λ order. order ≡ order_of dims.now part.now) }
{
    let mut order = Items::new(alloc);
    push_places(&mut order, part.dims.as_slice(), dims)?;
    Ok(order)
}

fn has_place(order: &[u64], axis: u64) -> bool
    ensures { result ≡ list_any (λ o. o == axis) order.now }
{
    match order {
        [] => false,
        [one, rest @ ..] => *one == axis || has_place(rest, axis),
    }
}

fn is_order(rank: usize, order: &[u64]) -> bool
    ensures { result ≡ true → IsOrder rank order.now }
{
    if order.len() != rank {
        return false;
    }
    for axis in 0..rank {
        if !has_place(order, axis as u64) {
            return false;
        }
    }
    true
}

fn push_sizes(sizes: &mut Items<u64>, shape: &[u64], order: &[u64]) -> Result<(), AllocError>
    ensures { OnOk result (sizes.new ≡ sizes.old ++ sizes_in shape.now order.now) }
{
    match order {
        [] => Ok(()),
        [axis, rest @ ..] => {
            sizes.push(size_of(shape, *axis as usize))?;
            push_sizes(sizes, shape, rest)
        }
    }
}

fn front_of(alloc: Global, front: bool) -> Result<Items<u64>, AllocError>
    ensures { IfOk result (λ s. s ≡ wide_shape front []) }
{
    let mut sizes = Items::new(alloc);
    if front {
        sizes.push(1)?;
    }
    Ok(sizes)
}

fn wide_sizes(
    alloc: Global,
    front: bool,
    shape: &[u64],
    order: &[u64],
) -> Result<Items<u64>, AllocError>
    ensures { IfOk result (λ s. s ≡ wide_shape front (sizes_in shape.now order.now)) }
{
    let mut sizes = front_of(alloc, front)?;
    push_sizes(&mut sizes, shape, order)?;
    Ok(sizes)
}

/// The sizes of a part with its dimensions in this order, with `front` behind a new one. Dimensions that aren't the same, which none of
/// one name have, and more of them or more cells than a node has want memory.
pub(crate) fn brought_shape(
    alloc: Global,
    front: bool,
    dims: &[Name],
    part: &Part,
) -> Result<Items<u64>, NoMemory>
    ensures shape { IfOk result (λ s. s ≡ brought_shape front dims.now part.now) }
    ensures turns { IfOk result (λ s. CanTurn front dims.now part.now) }
{
    let order = order_of(alloc, dims, part)?;
    let order = order.as_slice();
    let shape = part.shape.as_slice();
    if order.len() > MOST_DIMENSIONS || !is_order(shape.len(), order) {
        return Err(NoMemory);
    }
    let sizes = wide_sizes(alloc, front, shape, order)?;
    if sizes.as_slice().len() > MOST_DIMENSIONS || !is_small(sizes.as_slice()) {
        return Err(NoMemory);
    }
    Ok(sizes)
}

fn push_shapes(
    alloc: Global,
    out: &mut Items<Items<u64>>,
    front: bool,
    dims: &[Name],
    parts: &[Part],
) -> Result<(), NoMemory>
    ensures shapes { OnOk result (out.new ≡ out.old ++ map (brought_shape front dims.now) parts.now) }
    ensures turn { OnOk result (AllByRecursion (CanTurn front dims.now) parts.now) }
{
    match parts {
        [] => Ok(()),
        [part, rest @ ..] => {
            let shape = brought_shape(alloc, front, dims, part)?;
            out.push(shape)?;
            push_shapes(alloc, out, front, dims, rest)
        }
    }
}

/// The sizes of parts so.
pub(crate) fn brought_shapes(
    alloc: Global,
    front: bool,
    dims: &[Name],
    parts: &[Part],
) -> Result<Items<Items<u64>>, NoMemory>
    ensures shapes { IfOk result (λ ss. ss ≡ map (brought_shape front dims.now) parts.now) }
    ensures turn { IfOk result (λ ss. AllByRecursion (CanTurn front dims.now) parts.now) }
{
    let mut out = Items::new(alloc);
    push_shapes(alloc, &mut out, front, dims, parts)?;
    Ok(out)
}
