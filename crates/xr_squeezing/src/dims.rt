//! Dimensions that go: whether they have one position each, and the steps that take them away.
ghost use Rattle.std.specs.Prelude.{◌≡◌, IfOk, MatchOption, OnOk};
ghost use Rattle.xr_defs.specs.Selecting.{axis_called};
ghost use Rattle.xr_defs.specs.Values.{no_axis};
ghost use Rattle.xr_squeezing.specs.Alone.{AreAlone};
ghost use Rattle.xr_squeezing.specs.Made as of;

use std::alloc::{AllocError, Global};
use xr_formulas::Step;
use xr_parts::{has_axis, is_among};
use xr_types::{Axis, Items, Name, NoMemory};

/// The axis of a name.
#[tactic(auto, using(xr_parts::proofs::Axes::called_here, xr_parts::proofs::Axes::called_on))]
pub(crate) fn axis_called<'a>(axes: &'a [Axis], name: &Name) -> Option<&'a Axis>
    ensures { MatchOption result (axis_called axes.now name.now ≡ no_axis) (λ x. axis_called axes.now name.now ≡ x.now) }
{
    match axes {
        [] => None,
        [axis, rest @ ..] => {
            if axis.name.is(name) {
                Some(axis)
            } else {
                axis_called(rest, name)
            }
        }
    }
}

/// Other names than those of dimensions of one position, each once, want memory.
#[tactic(auto, using(xr_parts::proofs::Words::distinct_cons))]
pub(crate) fn check_alone(axes: &[Axis], gone: &[Name]) -> Result<(), NoMemory>
    ensures { OnOk result (AreAlone axes.now gone.now) }
{
    match gone {
        [] => Ok(()),
        [name, rest @ ..] => match axis_called(axes, name) {
            Some(axis) if axis.size == 1 && has_axis(axes, name) && !is_among(rest, name) => {
                check_alone(axes, rest)
            }
            _ => Err(NoMemory),
        },
    }
}

/// The steps that take these dimensions away from cells over some dimensions.
pub(crate) fn steps_without(
    alloc: Global,
    gone: &[Name],
    dims: &[Name],
) -> Result<Items<Step>, AllocError>
    ensures { IfOk result (λ ss. ss ≡ of.steps_without gone.now 0 dims.now) }
{
    let mut steps = Items::new(alloc);
    let mut axis = 0;
    for dim in dims {
        if is_among(gone, dim) {
            steps.push(Step::Take {
                axis,
                from: Items::from_slice(alloc, &[Some(0)])?,
                fill: None,
                drop: true,
            })?;
        } else {
            axis += 1;
        }
    }
    Ok(steps)
}
