//! Data variables.
ghost use Rattle.std.specs.Prelude.{◌≡◌, [], true, List, map};
ghost use Rattle.std.specs.List.{list_all, AllByRecursion};
ghost use Rattle.xr_types.specs.Names.{among, are_distinct, axis_names};
ghost use Rattle.xr_arrays.specs.Nodes.{AllFit};
ghost use Rattle.xr_arrays.specs.declared.node.Node.{Node};
ghost use Rattle.xr_defs.specs.WellFormed.{IsVariable};
ghost use Rattle.xr_reducing.specs.Reduced.{is_busy};
ghost use Rattle.xr_values.specs.Stands.{variable_in};
ghost use Rattle.xr_forming.specs.Held.{IsHeld, IsShaped};

use crate::attributes::are_attributes;
use crate::names::{has_axis, is_named};
use xr_aligning::{is_held, is_variable_within};
use xr_defs::Coord;
use xr_types::{Axis, Name};
use xr_values::Variable;

fn is_among(names: &[Name], name: &Name) -> bool
    ensures { result ≡ among names.now name.now }
{
    match names {
        [] => false,
        [one, rest @ ..] => name.is(one) || is_among(rest, name),
    }
}

fn are_distinct(names: &[Name]) -> bool
    ensures { result ≡ are_distinct names.now }
{
    match names {
        [] => true,
        [name, rest @ ..] => !is_among(rest, name) && are_distinct(rest),
    }
}

fn are_there(axes: &[Axis], dims: &[Name]) -> bool
    ensures { result ≡ true → AllByRecursion (λ d. among (axis_names axes.now) d ≡ true) dims.now }
{
    match dims {
        [] => true,
        [dim, rest @ ..] => has_axis(axes, dim) && are_there(axes, rest),
    }
}

fn is_shaped(axes: &[Axis], var: &Variable) -> bool
    ensures { result ≡ true → IsShaped axes.now var.now }
{
    let dims = var.dims.as_slice();
    is_named(&var.name)
        && are_there(axes, dims)
        && are_distinct(dims)
        && are_attributes(var.attrs.as_slice())
        && is_variable_within(axes, var)
}

#[tactic(auto, using(crate::proofs::Formed::variable_formed))]
fn is_variable(axes: &[Axis], var: &Variable) -> bool
    ensures { (nodes : List Node) → result ≡ true → AllFit [] nodes → IsHeld nodes axes.now var.now → IsVariable axes.now (variable_in nodes var.now) }
{
    is_shaped(axes, var)
}

/// Whether variables whose cells are as they have to be are variables over these axes.
pub(crate) fn are_variables(axes: &[Axis], vars: &[Variable]) -> bool
    ensures { (nodes : List Node) → result ≡ true → AllFit [] nodes → AllByRecursion (IsHeld nodes axes.now) vars.now → AllByRecursion (IsVariable axes.now) (map (variable_in nodes) vars.now) }
{
    match vars {
        [] => true,
        [var, rest @ ..] => is_variable(axes, var) && are_variables(axes, rest),
    }
}

/// Whether each axis has labels, or is one of a coordinate or a variable.
pub(crate) fn are_held(coords: &[Coord], vars: &[Variable], axes: &[Axis]) -> bool
    ensures { result ≡ list_all (is_busy coords.now vars.now) axes.now }
{
    match axes {
        [] => true,
        [axis, rest @ ..] => is_held(coords, vars, axis) && are_held(coords, vars, rest),
    }
}
