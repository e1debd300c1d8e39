//! `transpose(d1, d2)`: dimensions in another order.
ghost use Rattle.std.specs.Prelude.{◌<◌, ◌==◌, ◌∷◌, ◌≡◌};
ghost use Rattle.xr_parts.specs.Common.{AddsAtMost, AddsForAny, All, Answers, AnswersArray, Grows, IfOk, IfSome, IsArrayIn, List, Node, [], array_in, axis_position, get_or, given, length, list_any, map, no_axis, of_array, room};
ghost use Rattle.xr_defs.specs.Parts as of;
ghost use Rattle.xr_parts.specs.Orders.{IsArrangement, IsMovedTo};

use crate::texts::as_texts;
use plan_core::Plan;
use std::alloc::{AllocError, Global};
use xr_arrays::Node;
use xr_types::{Axis, CallFault, DeepCopy, Fault, Items, NoMemory, Shape, TextBytes};
use xr_values::{Args, DataArray};

/// The first position of an axis of this name.
pub(crate) fn axis_place(axes: &[Axis], name: &TextBytes) -> Option<usize>
    ensures place { result ≡ axis_position name.now axes.now }
    ensures inside { IfSome result (λ k. k < length axes.now) }
{
    match axes {
        [] => None,
        [axis, rest @ ..] => {
            if axis.name.is(name) {
                return Some(0);
            }
            match axis_place(rest, name) {
                Some(n) => Some(n + 1),
                None => None,
            }
        }
    }
}

#[tactic(auto, unfolding(xr_defs::specs::Parts::dimension_at))]
fn dimension_at(alloc: Global, axes: &[Axis], name: &TextBytes) -> Result<u64, CallFault>
    ensures answers { Answers (λ k. k) result (of.dimension_at axes.now name.now) }
    ensures inside { IfOk result (λ k. k < length axes.now) }
{
    match axis_place(axes, name) {
        Some(k) => Ok(k as u64),
        None => Err(CallFault::Refused(Fault::NoDimension(name.deep_copy(alloc)?))),
    }
}

#[tactic(auto, using(crate::proofs::Behind::behind_both), unfolding(xr_defs::specs::Parts::dimensions_at))]
fn dimensions_at(alloc: Global, axes: &[Axis], names: &[TextBytes]) -> Result<Items<u64>, CallFault>
    ensures answers { Answers (λ ks. ks) result (of.dimensions_at axes.now names.now) }
    ensures inside { IfOk result (All (λ k. k < length axes.now)) }
{
    let mut out = Items::new(alloc);
    for name in names {
        out.push(dimension_at(alloc, axes, name)?)?;
    }
    Ok(out)
}

fn has_number(numbers: &[u64], k: u64) -> bool
    ensures { result ≡ list_any (λ j. j == k) numbers.now }
{
    numbers.iter().any(|j| *j == k)
}

fn is_once(order: &[u64]) -> bool
    ensures { result ≡ of.is_once order.now }
{
    match order {
        [] => true,
        [k, rest @ ..] => !has_number(rest, *k) && is_once(rest),
    }
}

// The axes' numbers from the last to the first.
#[tactic(auto, using(crate::proofs::Backward::back_on))]
fn backwards(alloc: Global, axes: &[Axis]) -> Result<Items<u64>, AllocError>
    ensures { IfOk result (λ order. order ≡ of.backwards axes.now) }
{
    let mut order = Items::new(alloc);
    for at in 0..axes.len() {
        order.push((axes.len() - 1 - at) as u64)?;
    }
    Ok(order)
}

#[tactic(auto, using(crate::proofs::Backward::back_fits), unfolding(xr_defs::specs::Parts::order_given, xr_types::specs::Results::unless))]
fn order_given(alloc: Global, axes: &[Axis], names: &[TextBytes]) -> Result<Items<u64>, CallFault>
    ensures answers { Answers (λ order. order) result (of.order_given axes.now names.now) }
    ensures fits { IfOk result (λ order. IsArrangement (length axes.now) order) }
{
    if names.len() == 0 {
        return Ok(backwards(alloc, axes)?);
    }
    let order = dimensions_at(alloc, axes, names)?;
    if order.as_slice().len() == axes.len() && is_once(order.as_slice()) {
        Ok(order)
    } else {
        Err(CallFault::Refused(Fault::BadArgument))
    }
}

fn axes_in(alloc: Global, axes: &[Axis], order: &[u64]) -> Result<Items<Axis>, AllocError>
    requires { All (λ k. k < length axes.now) order.now }
    ensures { IfOk result (λ xs. xs ≡ map (λ k. get_or axes.now k no_axis) order.now) }
{
    let mut out = Items::new(alloc);
    for k in order {
        out.push(axes[*k as usize].deep_copy(alloc)?)?;
    }
    Ok(out)
}

// The array with its axes in this order, over a node that is added to the plan.
fn in_order(
    alloc: Global,
    plan: &mut Plan,
    on: &DataArray,
    order: &[u64],
) -> Result<DataArray, NoMemory>
    requires array { IsArrayIn plan.old on.now }
    requires order { IsArrangement (length on.now.axes) order.now }
    ensures moved { IfOk result (IsMovedTo plan.new order.now (array_in plan.old on.now)) }
    ensures grows { Grows plan.old plan.new }
    ensures room { IfOk result (λ b. AddsForAny plan.old plan.new (array_in plan.new b)) }
{
    let axes = axes_in(alloc, on.axes.as_slice(), order)?;
    let mut array = on.deep_copy(alloc)?;
    let node = plan.push(Node::Reorder {
        input: on.node,
        order: Shape::from_slice(order),
    })?;
    array.axes = axes;
    array.node = node;
    Ok(array)
}

/// An array with its dimensions in the order of the names, or in the reversed order where there is none. Its cells are those
/// of a node that is added to the plan.
///
/// # Errors
/// `BadArgument` for an argument by keyword; then `WrongKind` for one that isn't a text; then `NoDimension` for the first
/// name that is no dimension; then `BadArgument` unless every dimension is named once.
#[tactic(auto, unfolding(xr_defs::specs::Parts::transposed, xr_types::specs::Results::unless, xr_values::specs::Meaning::given))]
pub fn transposed(
    alloc: Global,
    plan: &mut Plan,
    on: &DataArray,
    args: &Args,
) -> Result<DataArray, CallFault>
    requires { IsArrayIn plan.old on.now }
    ensures answers { (nodes : List Node) → AnswersArray plan.new result (of.transposed (array_in plan.old on.now) (given nodes args.now)) }
    ensures grows { Grows plan.old plan.new }
    ensures room { IfOk result (λ b. AddsAtMost plan.old plan.new (room (of_array (array_in plan.old on.now) ∷ of_array (array_in plan.new b) ∷ []))) }
{
    if args.keyed.len() != 0 {
        return Err(CallFault::Refused(Fault::BadArgument));
    }
    let names = as_texts(alloc, args.plain.as_slice())?;
    let order = order_given(alloc, on.axes.as_slice(), names.as_slice())?;
    Ok(in_order(alloc, plan, on, order.as_slice())?)
}
