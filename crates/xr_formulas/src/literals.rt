//! A number at all points of some axes.
ghost use Rattle.std.specs.Prelude.{◌≡◌, ◌≤◌, ◌+◌, ◌++◌, length, IfOk, OnOk};
ghost use Rattle.xr_types.specs.Names.{shape_over};
ghost use Rattle.xr_formulas.specs.Spread.{has_none, literal, widens};

use crate::chain::{Chain, Start, Step};
use std::alloc::{AllocError, Global};
use xr_types::{Axis, DType, Items, MOST_DIMENSIONS, Shape};

fn has_none(axes: &[Axis]) -> bool
    ensures { result ≡ has_none axes.now }
{
    axes.iter().any(|axis| axis.size == 0)
}

// Adds the sizes of axes, of which there are no more than a shape holds.
fn push_sizes(shape: &mut Shape, axes: &[Axis])
    ensures { length shape.old + length axes.now ≤ 16 → shape.new ≡ shape.old ++ shape_over axes.now }
{
    match axes {
        [] => {}
        [axis, rest @ ..] => {
            if shape.len() < MOST_DIMENSIONS {
                shape.push(axis.size);
                push_sizes(shape, rest)
            }
        }
    }
}

fn push_widens(steps: &mut Items<Step>, axes: &[Axis]) -> Result<(), AllocError>
    ensures { OnOk result (steps.new ≡ steps.old ++ widens axes.now) }
{
    match axes {
        [] => Ok(()),
        [axis, rest @ ..] => {
            push_widens(steps, rest)?;
            steps.push(Step::Widen(0, axis.size))
        }
    }
}

/// The number at all points of these axes, as a cell of a kind. There are at most sixteen axes.
pub fn literal(alloc: Global, axes: &[Axis], kind: DType, n: i128) -> Result<Chain, AllocError>
    ensures { length axes.now ≤ 16 → IfOk result (λ c. c ≡ literal axes.now kind n) }
{
    let mut steps = Items::new(alloc);
    if has_none(axes) {
        let mut shape = Shape::new();
        push_sizes(&mut shape, axes);
        let start = Start::Empty(kind, shape);
        Ok(Chain { start, steps })
    } else {
        push_widens(&mut steps, axes)?;
        let start = Start::Cell(kind, n);
        Ok(Chain { start, steps })
    }
}
