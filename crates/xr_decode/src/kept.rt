//! Which axes of a file a dataset keeps.
ghost use Rattle.std.specs.Prelude.{◌≡◌, drop, filter};
ghost use Rattle.std.specs.List.{list_any};
ghost use Rattle.xr_defs.specs.declared.value.Coord.{Coord as ACoord};
ghost use Rattle.xr_types.specs.Names.{among};
ghost use Rattle.xr_types.specs.Names.{axis_names};
ghost use Rattle.xr_values.specs.declared.variable.Variable.{Variable as AVariable};
ghost use Rattle.xr_decode.specs.Held.{stays};

use xr_defs::Coord;
use xr_types::{Axis, Items, Name};
use xr_values::Variable;

fn has_axis(axes: &[Axis], name: &Name) -> bool
    ensures { result ≡ among (axis_names axes.now) name.now }
{
    for axis in axes {
        if name.is(&axis.name) {
            return true;
        }
    }
    false
}

fn has_name(names: &[Name], name: &Name) -> bool
    ensures { result ≡ among names.now name.now }
{
    for other in names {
        if name.is(other) {
            return true;
        }
    }
    false
}

fn has_coordinate(coords: &[Coord], name: &Name) -> bool
    ensures { result ≡ list_any (λ (c : ACoord). among (axis_names c.axes) name.now) coords.now }
{
    for coord in coords {
        if has_axis(coord.axes.as_slice(), name) {
            return true;
        }
    }
    false
}

fn has_variable(vars: &[Variable], name: &Name) -> bool
    ensures { result ≡ list_any (λ (v : AVariable). among v.dims name.now) vars.now }
{
    for var in vars {
        if has_name(var.dims.as_slice(), name) {
            return true;
        }
    }
    false
}

fn stays(coords: &[Coord], vars: &[Variable], axis: &Axis) -> bool
    ensures { result ≡ stays coords.now vars.now axis.now }
{
    axis.labels.is_some() || has_coordinate(coords, &axis.name) || has_variable(vars, &axis.name)
}

/// The axes that stay: those with labels, and those that a coordinate or a variable has.
pub(crate) fn kept_axes(axes: Items<Axis>, coords: &[Coord], vars: &[Variable]) -> Items<Axis>
    ensures { result ≡ filter (stays coords.now vars.now) axes }
{
    let mut kept = axes.into_vec();
    kept.retain(
        |axis: &Axis| -> bool
            ensures { result ≡ stays coords.entry.now vars.entry.now axis.now }
        { stays(coords, vars, axis) },
    );
    Items::of(kept)
}
