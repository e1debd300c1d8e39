//! Positions of one axis of an array at hand.
ghost use Rattle.std.specs.Prelude.{◌≡◌, ◌<◌, ◌≤◌, ℤ, true, length, take, All, Option, IfOk, IfSome, get_or, None};
ghost use Rattle.xr_types.specs.Points.{size};
ghost use Rattle.xr_arrays.specs.Nodes.{IsBelow, taken_or_picked, most_node_cells};
ghost use Rattle.xr_arrays.specs.Arrays.{IsCell};
ghost use Rattle.plan_core.specs.Takes.{taking_sizes, IsRun, IsTaking};

use crate::arrange::rearrange;
use crate::shapes::points;
use crate::taking::{Taking, run_start, taken_shape};
use std::alloc::{AllocError, Global};
use stored_cells::shared_block;
use xr_arrays::{ArrayValue, Form, StoredArray};
// The first of these positions, where their cells lie together: the positions are a run, and no axis in front has more than
// one.
fn block_start(shape: &[u64], axis: usize, from: &[Option<u32>]) -> Option<u32>
    requires { axis < length shape.now }
    ensures run { IfSome result (λ q. IsRun q from.now) }
    ensures front { IfSome result (λ q. size (take axis shape.now) ≡ 1) }
{
    let (front, _) = shape.split_at(axis);
    if points(front) == 1 {
        run_start(from)
    } else {
        None
    }
}

// The cells at a run of positions that lie together, which share the bytes.
fn share(
    alloc: Global,
    array: &StoredArray,
    axis: usize,
    from: &[Option<u32>],
    first: u32,
    drops: bool,
) -> Result<ArrayValue, AllocError>
    requires taking { IsTaking drops array.now.shape axis from.now }
    requires run { IsRun first from.now }
    requires front { size (take axis array.now.shape) ≡ 1 }
    ensures { (fill : Option ℤ) → IfOk result (λ b. b ≡ taken_or_picked drops array.now axis from.now fill) }
{
    let (_, behind) = array.shape().split_at(axis + 1);
    let row = points(behind) as usize;
    let shape = taken_shape(alloc, array.shape(), axis, from.len() as u64, drops)?;
    let block = shared_block(alloc, array, first as usize * row, from.len() * row, shape)?;
    Ok(ArrayValue::stored(block))
}

// The cells at these positions in new memory.
#[tactic(auto, using(plan_core::proofs::TakenValues::takes, plan_core::proofs::TakenValues::inside))]
fn gather(
    alloc: Global,
    a: &ArrayValue,
    axis: usize,
    from: &[Option<u32>],
    fill: Option<i128>,
    drops: bool,
) -> Result<ArrayValue, AllocError>
    requires taking { IsTaking drops a.now.shape axis from.now }
    requires fill { IsCell a.now.kind fill }
    ensures { IfOk result (λ b. b ≡ taken_or_picked drops a.now axis from.now fill) }
{
    let taking = Taking {
        shape: a.shape(),
        axis,
        from,
        drops,
    };
    rearrange(alloc, a, &taking, fill)
}

/// The cells at these positions of an axis, with the fill where there is no position. One that drops the axis takes one
/// position. Cells of a file that lie together share its bytes.
pub fn take(
    alloc: Global,
    a: &ArrayValue,
    axis: usize,
    from: &[Option<u32>],
    fill: Option<i128>,
    drops: bool,
) -> Result<ArrayValue, AllocError>
    requires taking { IsTaking drops a.now.shape axis from.now }
    requires fill { IsCell a.now.kind fill }
    ensures { IfOk result (λ b. b ≡ taken_or_picked drops a.now axis from.now fill) }
{
    match a.form() {
        Form::Stored(array) => match block_start(array.shape(), axis, from) {
            Some(first) => share(alloc, array, axis, from, first, drops),
            None => gather(alloc, a, axis, from, fill, drops),
        },
        Form::Typed(_) => gather(alloc, a, axis, from, fill, drops),
    }
}

/// The cells at these positions of an axis, with a missing one where there is no position. One that drops the axis takes
/// one position.
pub fn taken(
    alloc: Global,
    a: &ArrayValue,
    axis: usize,
    from: &[Option<u32>],
    drops: bool,
) -> Result<ArrayValue, AllocError>
    requires axis { axis < length a.now.shape }
    requires inside { All (IsBelow (get_or a.now.shape axis 0)) from.now }
    requires one { drops ≡ true → length from.now ≡ 1 }
    requires few { size a.now.shape ≤ most_node_cells }
    requires small { size (taking_sizes drops a.now.shape axis from.now) ≤ most_node_cells }
    ensures { IfOk result (λ b. b ≡ taken_or_picked drops a.now axis from.now None) }
{
    take(alloc, a, axis, from, None, drops)
}
