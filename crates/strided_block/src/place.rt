//! Counts of cells, and where the cells of points lie.
ghost use Rattle.std.specs.Prelude.{◌≡◌, ◌-◌, ◌%◌, ◌^◌, ◌<◌, ◌≤◌, [], min, length, get_or, IfOk};
ghost use Rattle.xr_types.specs.Points.{size, place, IsPoint};
ghost use Rattle.strided_block.specs.Boxes.{plus};
ghost use Rattle.strided_block.specs.Steps.{spot, row_steps};

use xr_types::{NoMemory, Shape};

/// How many points there are, or the greatest number where there are more.
#[tactic(auto, using(crate::proofs::Places::saturates))]
pub(crate) fn points(shape: &[u64]) -> u64
    ensures { result ≡ min (size shape.now) (2 ^ 64 - 1) }
{
    match shape {
        [] => 1,
        [n, rest @ ..] => n.saturating_mul(points(rest)),
    }
}

/// How many cells a block has, unless they are too many to be held.
pub(crate) fn count(shape: &Shape) -> Result<usize, NoMemory>
    ensures { IfOk result (λ n. (n ≡ size shape.now) × (n < 2 ^ 63)) }
{
    let n = points(shape.as_slice());
    if n < 1 << 63 {
        Ok(n as usize)
    } else {
        Err(NoMemory)
    }
}

/// An equal shape.
pub(crate) fn twin(shape: &Shape) -> Shape
    ensures { result ≡ shape.now }
{
    Shape::from_slice(shape.as_slice())
}

/// How many points there are, counted round 2^64.
fn rounded(shape: &[u64]) -> u64
    ensures { result ≡ size shape.now % 2 ^ 64 }
{
    match shape {
        [] => 1,
        [n, rest @ ..] => n.wrapping_mul(rounded(rest)),
    }
}

/// The steps of cells that lie in row order.
pub(crate) fn steps_of(shape: &Shape) -> Shape
    ensures { result ≡ row_steps shape.now }
{
    let sizes = shape.as_slice();
    let mut steps = Shape::new();
    for axis in 0..sizes.len() {
        steps.push(rounded(sizes.split_at(axis + 1).1));
    }
    steps
}

/// Where the cell of a point lies, in steps from a first one.
pub(crate) fn spot_of(start: u64, steps: &[u64], point: &[u64]) -> u64
    requires { length point.now ≤ length steps.now }
    ensures { result ≡ spot start steps.now point.now }
{
    let mut at = start;
    for axis in 0..point.len() {
        at = at.wrapping_add(point[axis].wrapping_mul(steps[axis]));
    }
    at
}

/// One position of a point of a box that begins at `low`.
fn position(low: &[u64], point: &[u64], axis: usize) -> u64
    requires within { axis < length low.now }
    requires small { get_or (plus low.now point.now) axis 0 < 2 ^ 64 }
    ensures { result ≡ get_or (plus low.now point.now) axis 0 }
{
    if axis < point.len() {
        low[axis] + point[axis]
    } else {
        low[axis]
    }
}

/// The place in row order of a point of a box that begins at `low`.
pub(crate) fn place_in(whole: &[u64], low: &[u64], point: &[u64]) -> usize
    requires inside { IsPoint whole.now (plus low.now point.now) }
    requires small { size whole.now < 2 ^ 63 }
    ensures { result ≡ place whole.now (plus low.now point.now) }
{
    let mut at = 0;
    for axis in 0..whole.len() {
        at = at * whole[axis] + position(low, point, axis);
    }
    at as usize
}
