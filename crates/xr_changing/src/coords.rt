//! Coordinates along dimensions that are given other positions.
ghost use Rattle.std.specs.Prelude.{◌≡◌, true, map, IfOk};
ghost use Rattle.std.specs.List.{AllByRecursion};
ghost use Rattle.xr_operations.specs.Changing as of;
ghost use Rattle.xr_types.specs.Names.{among, axis_names};
ghost use Rattle.xr_defs.specs.Parts.{axes_called};
ghost use Rattle.xr_defs.specs.Selecting.{axis_called};
ghost use Rattle.xr_changing.specs.Steps.{ContentFits, CoordFits, IsRenewed};

use crate::steps::{masked_along, steps_along, taken};
use std::alloc::Global;
use xr_defs::{Content, Coord};
use xr_operations::Change;
use xr_reducing::names_of;
use xr_types::{Axis, DeepCopy, Items, Name, NoMemory, TextBytes};

// Steps that a plan wouldn't take, of which no coordinate has any, want memory.
#[tactic(auto, using(crate::proofs::Stepping::value_along))]
fn changed_content(
    alloc: Global,
    changes: &[Change],
    fill: Option<i128>,
    dims: &[Name],
    content: &Content,
) -> Result<Content, NoMemory>
    ensures is { IfOk result (λ c. c ≡ of.changed_content changes.now dims.now fill content.now) }
    ensures fits { IfOk result (λ c. ContentFits changes.now fill dims.now content.now) }
{
    match content {
        Content::Cells(cells, masked) => {
            let masked = masked_along(changes, dims, fill, *masked);
            let steps = steps_along(alloc, changes, fill, dims, cells.shape(), cells.kind())?;
            let cells = taken(alloc, steps.as_slice(), cells.copy(alloc)?)?;
            Ok(Content::Cells(cells, masked))
        }
        Content::Text(text) => Ok(Content::Text(text.deep_copy(alloc)?)),
        Content::Time(coding, time) => Ok(Content::Time(coding.deep_copy(alloc)?, *time)),
    }
}

// The axis of a name. Where there is none it wants memory.
#[tactic(auto, using(xr_parts::proofs::Axes::called_cons, xr_values::proofs::Named::bytes_eq_swap))]
fn axis_called(alloc: Global, axes: &[Axis], name: &TextBytes) -> Result<Axis, NoMemory>
    ensures is { IfOk result (λ x. x ≡ axis_called axes.now name.now) }
    ensures there { IfOk result (λ x. among (axis_names axes.now) name.now ≡ true) }
{
    match axes {
        [] => Err(NoMemory),
        [axis, rest @ ..] => {
            if axis.name.is(name) {
                Ok(axis.deep_copy(alloc)?)
            } else {
                axis_called(alloc, rest, name)
            }
        }
    }
}

/// The axes of these names.
pub fn axes_called(alloc: Global, axes: &[Axis], dims: &[Name]) -> Result<Items<Axis>, NoMemory>
    ensures is { IfOk result (λ xs. xs ≡ axes_called axes.now dims.now) }
    ensures there { IfOk result (λ xs. AllByRecursion (λ d. among (axis_names axes.now) d ≡ true) dims.now) }
{
    let mut out = Items::new(alloc);
    for dim in dims {
        out.push(axis_called(alloc, axes, dim)?)?;
    }
    Ok(out)
}

fn changed_coord(
    alloc: Global,
    changes: &[Change],
    news: &[Axis],
    fill: Option<i128>,
    coord: &Coord,
) -> Result<Coord, NoMemory>
    requires { IsRenewed changes.now news.now coord.now }
    ensures is { IfOk result (λ c. c ≡ of.changed_coord changes.now fill coord.now) }
    ensures fits { IfOk result (λ c. CoordFits changes.now fill coord.now) }
{
    let names = names_of(alloc, coord.axes.as_slice())?;
    let axes = axes_called(alloc, news, names.as_slice())?;
    Ok(Coord {
        name: coord.name.deep_copy(alloc)?,
        axes,
        attrs: coord.attrs.deep_copy(alloc)?,
        content: changed_content(alloc, changes, fill, names.as_slice(), &coord.content)?,
    })
}

/// Coordinates at other positions, with the fill where there is no old one, and with those of the new axes that they have.
pub fn changed_coords(
    alloc: Global,
    changes: &[Change],
    news: &[Axis],
    fill: Option<i128>,
    coords: &[Coord],
) -> Result<Items<Coord>, NoMemory>
    requires { AllByRecursion (IsRenewed changes.now news.now) coords.now }
    ensures is { IfOk result (λ cs. cs ≡ map (of.changed_coord changes.now fill) coords.now) }
    ensures fits { IfOk result (λ cs. AllByRecursion (CoordFits changes.now fill) coords.now) }
{
    let mut out = Items::new(alloc);
    for coord in coords {
        out.push(changed_coord(alloc, changes, news, fill, coord)?)?;
    }
    Ok(out)
}
