//! The bytes of arrays of files put together.
ghost use Rattle.std.specs.Prelude.{◌≡◌, ◌<◌, ◌≤◌, ◌-◌, ◌^◌, length, map, take, min, sum, get_or, slice_set, All, IfOk};
ghost use Rattle.xr_types.specs.Points.{size};
ghost use Rattle.xr_arrays.specs.Nodes.{Continues, concatenated, first_array, most_node_cells};
ghost use Rattle.xr_arrays.specs.Pieces.{together};
ghost use Rattle.row_concat.specs.Spelt.{AllSpell, AreValues};

use crate::blocks::{in_turn, total};
use crate::spelt::Values;
use arrangement::points;
use bytes::Bytes;
use std::alloc::{AllocError, Global};
use xr_arrays::{ArrayValue, StoredArray};
use xr_types::{Items, NcType};

// How many positions the arrays have along an axis. More than 64 bits count can't be held.
fn positions(inputs: &[&ArrayValue], axis: usize) -> Result<u64, AllocError>
    ensures { IfOk result (λ n. n ≡ sum (map (λ a. get_or a.now.shape axis 0) inputs.now)) }
{
    let mut total: u64 = 0;
    for a in inputs {
        let more = match a.shape().get(axis) {
            Some(more) => *more,
            None => 0,
        };
        total = match total.checked_add(more) {
            Some(total) => total,
            None => return Err(AllocError),
        };
    }
    Ok(total)
}

// The shape with another size of an axis.
fn resized(alloc: Global, shape: &[u64], axis: usize, count: u64) -> Result<Items<u64>, AllocError>
    requires { axis < length shape.now }
    ensures { IfOk result (λ s. s ≡ slice_set shape.now axis count) }
{
    let mut sizes = Vec::from_slice(alloc, shape)?;
    sizes[axis] = count;
    Ok(Items::of(sizes))
}

// How many blocks there are in front of an axis: none where there is no byte at all.
fn blocks_in_front(shape: &[u64], axis: usize, total: usize) -> usize
    requires { axis < length shape.now }
    ensures none { total ≡ 0 → result ≡ 0 }
    ensures some { 0 < total → result ≡ min (size (take axis shape.now)) (2 ^ 64 - 1) }
{
    if total == 0 {
        return 0;
    }
    let (front, _) = shape.split_at(axis);
    points(front) as usize
}

/// The array of these arrays along an axis, whose values these are, in new memory.
pub fn join(
    alloc: Global,
    inputs: &[&ArrayValue],
    axis: usize,
    kind: NcType,
    fills: &[i128],
    lists: &[Values<'_>],
) -> Result<ArrayValue, AllocError>
    requires some { 0 < length inputs.now }
    requires axis { axis < length (first_array (map (λ a. a.now) inputs.now)).shape }
    requires each { All (λ a. Continues axis (first_array (map (λ a. a.now) inputs.now)) a.now) inputs.now }
    requires small { size (concatenated (map (λ a. a.now) inputs.now) axis).shape ≤ most_node_cells }
    requires spelt { AllSpell kind fills.now (map (λ v. together kind v.pieces.now) lists.now) (map (λ a. a.now) inputs.now) }
    requires counted { All (AreValues kind) lists.now }
    ensures { IfOk result (λ b. b ≡ concatenated (map (λ a. a.now) inputs.now) axis) }
{
    let first = inputs[0].shape();
    let shape = resized(alloc, first, axis, positions(inputs, axis)?)?;
    let all = total(kind, lists)?;
    let outer = blocks_in_front(first, axis, all);
    let joined = Bytes::from_vec(in_turn(alloc, kind, lists, outer, all)?)?;
    let fills = Items::from_slice(alloc, fills)?;
    let stored = StoredArray::of(shape, kind, joined, fills);
    Ok(ArrayValue::stored(stored))
}
