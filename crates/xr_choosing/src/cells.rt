//! The cells of a choice.
ghost use Rattle.std.specs.Prelude.{◌≡◌, ◌≤◌, ◌++◌, length, IfOk, OnOk};
ghost use Rattle.xr_types.specs.Names.{shape_over};
ghost use Rattle.xr_choosing.specs.Choices.{branch_chain, choice_formula, missing, nowhere};
ghost use Rattle.xr_formulas.specs.Spread.{widens};

use crate::branches::Branch;
use std::alloc::{AllocError, Global};
use xr_arrays::Sources;
use xr_formulas::{Chain, Formula, Start, Step, literal, truth_number};
use xr_joining::{nothing, over};
use xr_types::{Axis, DType, Items, NoMemory};
use xr_values::DataArray;

fn push_widens(steps: &mut Items<Step>, axes: &[Axis]) -> Result<(), AllocError>
    ensures { OnOk result (steps.new ≡ steps.old ++ widens axes.now) }
{
    match axes {
        [] => Ok(()),
        [axis, rest @ ..] => {
            push_widens(steps, rest)?;
            steps.push(Step::Widen(0, axis.size))
        }
    }
}

// The missing cell: that of a position that isn't there.
fn nowhere(alloc: Global) -> Result<Sources, AllocError>
    ensures { IfOk result (λ from. from ≡ nowhere) }
{
    let mut from = Items::new(alloc);
    from.push(None)?;
    Ok(from)
}

// A missing cell at all points of these axes.
fn missing(alloc: Global, kind: DType, axes: &[Axis]) -> Result<Chain, AllocError>
    ensures { IfOk result (λ c. c ≡ missing kind axes.now) }
{
    let from = nowhere(alloc)?;
    let mut steps = Items::new(alloc);
    steps.push(Step::Widen(0, 1))?;
    steps.push(Step::Take {
        axis: 0,
        from,
        fill: None,
        drop: true,
    })?;
    push_widens(&mut steps, axes)?;
    let start = Start::Cell(kind, 0);
    Ok(Chain { start, steps })
}

fn branch_chain(
    alloc: Global,
    kind: DType,
    axes: &[Axis],
    branch: Branch<'_>,
) -> Result<Chain, NoMemory>
    requires { length axes.now ≤ 16 }
    ensures { IfOk result (λ c. c ≡ branch_chain kind axes.now branch.entry) }
{
    match branch {
        Branch::Array(array) => over(alloc, kind, axes, array),
        Branch::Number(n) => Ok(literal(alloc, axes, kind, n)?),
        Branch::Truth(truth) => Ok(literal(alloc, axes, kind, truth_number(truth))?),
        Branch::Missing => Ok(missing(alloc, kind, axes)?),
    }
}

/// The cells of a choice over joined axes.
pub fn formula(
    alloc: Global,
    none: bool,
    kind: DType,
    axes: &[Axis],
    cond: &DataArray,
    x: Branch<'_>,
    y: Branch<'_>,
) -> Result<Formula, NoMemory>
    requires { length axes.now ≤ 16 }
    ensures { IfOk result (λ f. f ≡ choice_formula none kind axes.now cond.now x.entry y.entry) }
{
    if none {
        let chain = nothing(alloc, kind, axes);
        return Ok(Formula::One(chain));
    }
    let test = over(alloc, DType::Bool, axes, cond)?;
    let one = branch_chain(alloc, kind, axes, x)?;
    let other = branch_chain(alloc, kind, axes, y)?;
    Ok(Formula::Three(test, one, other))
}
