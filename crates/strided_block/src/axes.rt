//! Sizes and steps of views whose axes are stepped, moved or added.
ghost use Rattle.std.specs.Prelude.{◌≡◌, ◌==◌, ◌<◌, ◌≤◌, ◌+◌, ◌∷◌, ◌++◌, length, map, get_or, insert};
ghost use Rattle.std.specs.List.{position_or_len};
ghost use Rattle.xr_arrays.specs.Nodes.{IsOrder};
ghost use Rattle.strided_block.specs.Steps.{IsRound, AreMoved};

use xr_types::Shape;

/// A step as it is counted round 2^64.
pub(crate) fn round(step: i64) -> u64
    ensures { IsRound step result }
{
    step.cast_unsigned()
}

// The number of an axis, 0 where there is no such axis.
fn number_of(numbers: &[u64], axis: u64) -> u64
    ensures { result ≡ get_or numbers.now axis 0 }
{
    if axis < numbers.len() as u64 {
        numbers[axis as usize]
    } else {
        0
    }
}

// The first place of an axis in the order.
fn position(order: &[u64], axis: u64) -> usize
    ensures { result ≡ position_or_len (λ o. o == axis) order.now }
{
    for i in 0..order.len() {
        if order[i] == axis {
            return i;
        }
    }
    order.len()
}

/// The sizes of the axes in another order.
pub(crate) fn moved_sizes(order: &[u64], shape: &[u64]) -> Shape
    requires { length order.now ≤ 16 }
    ensures { result ≡ map (λ k. get_or shape.now k 0) order.now }
{
    let mut sizes = Shape::new();
    for axis in order {
        sizes.push(number_of(shape, *axis));
    }
    sizes
}

/// As many zeros.
pub(crate) fn zeros_for(order: &[u64]) -> Shape
    requires { length order.now ≤ 16 }
    ensures { result ≡ map (λ k. 0) order.now }
{
    let mut steps = Shape::new();
    for _axis in order {
        steps.push(0);
    }
    steps
}

/// The steps of the axes in another order.
pub(crate) fn moved_steps(order: &[u64], own: &[u64]) -> Shape
    requires axes { length order.now ≤ 16 }
    requires order { IsOrder (length own.now) order.now }
    ensures { AreMoved order.now own.now result }
{
    let mut steps = zeros_for(order);
    for k in 0..own.len() {
        let at = position(order, k as u64);
        let step = number_of(steps.as_slice(), at as u64).wrapping_add(own[k]);
        steps.set(at, step);
    }
    steps
}

fn joined(front: &[u64], number: u64, back: &[u64]) -> Shape
    requires { length front.now + length back.now < 16 }
    ensures { result ≡ front.now ++ number ∷ back.now }
{
    let mut all = Shape::from_slice(front);
    all.push(number);
    for other in back {
        all.push(*other);
    }
    all
}

/// The numbers of the axes and of one more before an axis.
#[tactic(auto, using(crate::proofs::Steps::added_is))]
pub(crate) fn added(numbers: &[u64], axis: usize, number: u64) -> Shape
    requires axis { axis ≤ length numbers.now }
    requires few { length numbers.now < 16 }
    ensures { result ≡ insert numbers.now axis number }
{
    let (front, back) = numbers.split_at(axis);
    joined(front, number, back)
}
