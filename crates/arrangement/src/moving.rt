//! Axes in another order.
ghost use Rattle.std.specs.Prelude.{◌≡◌, ◌==◌, ◌≤◌, ◌^◌, ℕ, length, map, get_or, IfOk};
ghost use Rattle.std.specs.List.{position_or_len};
ghost use Rattle.xr_types.specs.Points.{size};
ghost use Rattle.xr_arrays.specs.Nodes.{IsOrder};
ghost use Rattle.plan_core.specs.Arrangements.{arranged};
ghost use Rattle.plan_core.specs.Strides.{moved_sizes, moved_point, AreMoved, IsMoving};

use crate::arrange::Arrangement;
use crate::shapes::{points, size_of};
use crate::stride::{own_strides, strided_cells};
use std::alloc::{AllocError, Global};
use xr_types::Items;

/// An array with these sizes, with its axes in this order.
#[derive(Clone, Copy)]
pub struct Moving<'a> {
    pub shape: &'a [u64],
    pub order: &'a [u64],
}

// The first place of an axis in the order.
fn position(order: &[u64], axis: u64) -> usize
    ensures { result ≡ position_or_len (λ o. o == axis) order.now }
{
    for i in 0..order.len() {
        if order[i] == axis {
            return i;
        }
    }
    order.len()
}

fn moved_shape(alloc: Global, shape: &[u64], order: &[u64]) -> Result<Items<u64>, AllocError>
    ensures { IfOk result (λ s. s ≡ moved_sizes order.now shape.now) }
{
    let mut sizes = Items::new(alloc);
    for axis in order {
        sizes.push(size_of(shape, *axis as usize))?;
    }
    Ok(sizes)
}

// For each axis in the order its stride in the input.
fn moved_strides(alloc: Global, order: &[u64], own: &[u64]) -> Result<Vec<u64>, AllocError>
    requires order { IsOrder (length own.now) order.now }
    requires axes { length order.now ≤ 16 }
    requires small { (k : ℕ) → get_or own.now k 0 ≤ 2 ^ 50 }
    ensures { IfOk result (λ v. AreMoved order.now own.now v.items) }
{
    let mut strides = Vec::from_elem(alloc, 0u64, order.len())?;
    for k in 0..own.len() {
        let at = position(order, k as u64);
        strides[at] += own[k];
    }
    Ok(strides)
}

fn move_cells<T: Copy>(
    alloc: Global,
    shape: &[u64],
    order: &[u64],
    cells: &[T],
) -> Result<Vec<T>, AllocError>
    requires moving { IsMoving shape.now order.now }
    requires whole { length cells.now ≡ size shape.now }
    ensures { (other : T) → IfOk result (λ v. v.items ≡ arranged shape.now (moved_sizes order.now shape.now) (moved_point order.now) other cells.now) }
{
    let sizes = moved_shape(alloc, shape, order)?;
    if points(sizes.as_slice()) == 0 {
        return Ok(Vec::new(alloc));
    }
    let own = own_strides(alloc, shape)?;
    let strides = moved_strides(alloc, order, &own)?;
    strided_cells(alloc, sizes.as_slice(), &strides, cells)
}

impl<'a> Arrangement for Moving<'a> {
    ghost from = { λ m. m.shape.now };

    ghost to = { λ m. moved_sizes m.order.now m.shape.now };

    ghost point = { λ m. moved_point m.order.now };

    ghost Fits = { λ m. IsMoving m.shape.now m.order.now };

    fn shape(&self, alloc: Global) -> Result<Items<u64>, AllocError> {
        moved_shape(alloc, self.shape, self.order)
    }

    fn has_holes(&self) -> bool {
        false
    }

    fn arrange<T: Copy>(&self, alloc: Global, cells: &[T], _hole: T) -> Result<Vec<T>, AllocError> {
        move_cells(alloc, self.shape, self.order, cells)
    }
}
