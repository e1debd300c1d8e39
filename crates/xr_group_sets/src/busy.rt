//! Axes without those that nothing has, and data variables by their names.
ghost use Rattle.std.specs.Prelude.{◌≡◌, [], filter, IfOk};
ghost use Rattle.std.specs.List.{list_any};
ghost use Rattle.xr_types.specs.Names.{among, axis_names};
ghost use Rattle.xr_defs.specs.declared.value.Coord.{Coord as Other};
ghost use Rattle.xr_reducing.specs.Reduced.{is_busy};
ghost use Rattle.xr_values.specs.Variables.{with_variables};
ghost use Rattle.xr_values.specs.declared.variable.Variable.{Variable as Var};

use std::alloc::{AllocError, Global};
use xr_defs::Coord;
use xr_types::{Axis, DeepCopy, Items, Name, TextBytes};
use xr_values::{Variable, Variables};

fn is_among(names: &[Name], name: &TextBytes) -> bool
    ensures { result ≡ among names.now name.now }
{
    match names {
        [] => false,
        [first, rest @ ..] => name.is(first) || is_among(rest, name),
    }
}

fn has_axis(axes: &[Axis], name: &TextBytes) -> bool
    ensures { result ≡ among (axis_names axes.now) name.now }
{
    match axes {
        [] => false,
        [axis, rest @ ..] => name.is(&axis.name) || has_axis(rest, name),
    }
}

fn have_axis(coords: &[Coord], name: &TextBytes) -> bool
    ensures { result ≡ list_any (λ (c : Other). among (axis_names c.axes) name.now) coords.now }
{
    match coords {
        [] => false,
        [coord, rest @ ..] => has_axis(coord.axes.as_slice(), name) || have_axis(rest, name),
    }
}

fn have_dim(vars: &[Variable], name: &TextBytes) -> bool
    ensures { result ≡ list_any (λ (v : Var). among v.dims name.now) vars.now }
{
    match vars {
        [] => false,
        [var, rest @ ..] => is_among(var.dims.as_slice(), name) || have_dim(rest, name),
    }
}

fn is_busy(coords: &[Coord], vars: &[Variable], axis: &Axis) -> bool
    ensures { result ≡ is_busy coords.now vars.now axis.now }
{
    axis.labels.is_some() || have_axis(coords, &axis.name) || have_dim(vars, &axis.name)
}

/// The axes with labels, and those that a coordinate or a variable has.
pub(crate) fn busy_axes(
    alloc: Global,
    coords: &[Coord],
    vars: &[Variable],
    axes: &[Axis],
) -> Result<Items<Axis>, AllocError>
    ensures { IfOk result (λ xs. xs ≡ filter (is_busy coords.now vars.now) axes.now) }
{
    let mut out = Items::new(alloc);
    for axis in axes {
        if is_busy(coords, vars, axis) {
            out.push(axis.deep_copy(alloc)?)?;
        }
    }
    Ok(out)
}

/// Data variables by their names.
pub(crate) fn by_name(alloc: Global, vars: &[Variable]) -> Result<Variables, AllocError>
    ensures { IfOk result (λ vs. vs ≡ with_variables [] vars.now) }
{
    let mut out = Variables::new(alloc);
    for var in vars {
        out.put(alloc, var.deep_copy(alloc)?)?;
    }
    Ok(out)
}
