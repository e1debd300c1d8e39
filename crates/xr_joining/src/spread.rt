//! Arrays over some axes spread over more of them, by their names.
ghost use Rattle.std.specs.Prelude.{◌≡◌, ◌≤◌, ◌+◌, ◌++◌, length, IfOk, OnOk};
ghost use Rattle.xr_types.specs.Names.{among, axis_names};
ghost use Rattle.xr_joining.specs.Spreads.{new_axes, order_in, place_in, spreading, widens};

use std::alloc::{AllocError, Global};
use xr_formulas::Step;
use xr_types::{Axis, DeepCopy, Items, Name, Shape, TextBytes};

fn has_axis(axes: &[Axis], name: &TextBytes) -> bool
    ensures { result ≡ among (axis_names axes.now) name.now }
{
    match axes {
        [] => false,
        [axis, rest @ ..] => name.is(&axis.name) || has_axis(rest, name),
    }
}

// The names of the axes that the array hasn't.
fn push_new(
    alloc: Global,
    names: &mut Items<Name>,
    own: &[Axis],
    axes: &[Axis],
) -> Result<(), AllocError>
    ensures { OnOk result (names.new ≡ names.old ++ axis_names (new_axes own.now axes.now)) }
{
    match axes {
        [] => Ok(()),
        [axis, rest @ ..] => {
            if !has_axis(own, &axis.name) {
                names.push(axis.name.deep_copy(alloc)?)?;
            }
            push_new(alloc, names, own, rest)
        }
    }
}

fn push_names(alloc: Global, names: &mut Items<Name>, axes: &[Axis]) -> Result<(), AllocError>
    ensures { OnOk result (names.new ≡ names.old ++ axis_names axes.now) }
{
    match axes {
        [] => Ok(()),
        [axis, rest @ ..] => {
            names.push(axis.name.deep_copy(alloc)?)?;
            push_names(alloc, names, rest)
        }
    }
}

fn place_in(names: &[Name], name: &TextBytes) -> usize
    ensures place { result ≡ place_in names.now name.now }
    ensures inside { result ≤ length names.now }
{
    match names {
        [] => 0,
        [first, rest @ ..] => {
            if first.is(name) {
                0
            } else {
                place_in(rest, name) + 1
            }
        }
    }
}

fn push_places(order: &mut Shape, names: &[Name], axes: &[Axis])
    requires { length order.old + length axes.now ≤ 16 }
    ensures { order.new ≡ order.old ++ order_in names.now axes.now }
{
    match axes {
        [] => {}
        [axis, rest @ ..] => {
            order.push(place_in(names, &axis.name) as u64);
            push_places(order, names, rest);
        }
    }
}

fn push_widens(steps: &mut Items<Step>, own: &[Axis], axes: &[Axis]) -> Result<(), AllocError>
    ensures { OnOk result (steps.new ≡ steps.old ++ widens (new_axes own.now axes.now)) }
{
    match axes {
        [] => Ok(()),
        [axis, rest @ ..] => {
            push_widens(steps, own, rest)?;
            if !has_axis(own, &axis.name) {
                steps.push(Step::Widen(0, axis.size))?;
            }
            Ok(())
        }
    }
}

/// Steps, and those by which an array over some of these axes is spread over all of them.
#[tactic(auto, using(std::proofs::lemmas::List::append_assoc))]
pub(crate) fn spreading(
    alloc: Global,
    steps: Items<Step>,
    axes: &[Axis],
    own: &[Axis],
) -> Result<Items<Step>, AllocError>
    requires { length axes.now ≤ 16 }
    ensures { IfOk result (λ all. all ≡ steps ++ spreading axes.now own.now) }
{
    let mut names = Items::new(alloc);
    push_new(alloc, &mut names, own, axes)?;
    push_names(alloc, &mut names, own)?;
    let mut order = Shape::new();
    push_places(&mut order, names.as_slice(), axes);
    let mut steps = steps;
    push_widens(&mut steps, own, axes)?;
    steps.push(Step::Reorder(order))?;
    Ok(steps)
}
