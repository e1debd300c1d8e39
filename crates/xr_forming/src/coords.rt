//! Coordinates.
ghost use Rattle.std.specs.Prelude.{◌≡◌, true};
ghost use Rattle.std.specs.List.{AllByRecursion};
ghost use Rattle.xr_types.specs.Names.{are_distinct, axis_names};
ghost use Rattle.xr_defs.specs.WellFormed.{IsCoordinate};
ghost use Rattle.xr_relations.specs.Aligning.{has_coord};
ghost use Rattle.xr_parts.specs.Frames.{IsThere};
ghost use Rattle.xr_forming.specs.Held.{AreNew, HoldsContent};

use crate::attributes::are_attributes;
use crate::names::{has_axis, is_named};
use crate::same::same_axis;
use xr_defs::Coord;
use xr_types::{Axis, Name};

#[tactic(auto, using(crate::proofs::There::there_here, crate::proofs::There::there_behind))]
fn is_there(axes: &[Axis], axis: &Axis) -> bool
    ensures { result ≡ true → IsThere axes.now axis.now }
{
    match axes {
        [] => false,
        [first, rest @ ..] => {
            if first.name.is(&axis.name) {
                same_axis(first, axis)
            } else {
                is_there(rest, axis)
            }
        }
    }
}

fn are_there(axes: &[Axis], own: &[Axis]) -> bool
    ensures { result ≡ true → AllByRecursion (IsThere axes.now) own.now }
{
    match own {
        [] => true,
        [axis, rest @ ..] => is_there(axes, axis) && are_there(axes, rest),
    }
}

fn are_distinct(axes: &[Axis]) -> bool
    ensures { result ≡ are_distinct (axis_names axes.now) }
{
    match axes {
        [] => true,
        [axis, rest @ ..] => !has_axis(rest, &axis.name) && are_distinct(rest),
    }
}

fn is_coordinate(axes: &[Axis], coord: &Coord) -> bool
    ensures { result ≡ true → HoldsContent coord.now → IsCoordinate axes.now coord.now }
{
    let own = coord.axes.as_slice();
    is_named(&coord.name)
        && are_there(axes, own)
        && are_distinct(own)
        && are_attributes(coord.attrs.as_slice())
}

/// Whether coordinates whose cells are as they have to be are coordinates over axes of these.
pub(crate) fn are_coordinates(axes: &[Axis], coords: &[Coord]) -> bool
    ensures { result ≡ true → AllByRecursion HoldsContent coords.now → AllByRecursion (IsCoordinate axes.now) coords.now }
{
    match coords {
        [] => true,
        [coord, rest @ ..] => is_coordinate(axes, coord) && are_coordinates(axes, rest),
    }
}

fn has_coord(coords: &[Coord], name: &Name) -> bool
    ensures { result ≡ has_coord coords.now name.now }
{
    match coords {
        [] => false,
        [coord, rest @ ..] => coord.name.is(name) || has_coord(rest, name),
    }
}

/// Whether the names of coordinates differ, and none is that of an axis.
pub(crate) fn are_new(axes: &[Axis], coords: &[Coord]) -> bool
    ensures { result ≡ true → AreNew axes.now coords.now }
{
    match coords {
        [] => true,
        [coord, rest @ ..] => {
            !has_axis(axes, &coord.name) && !has_coord(rest, &coord.name) && are_new(axes, rest)
        }
    }
}
