//! Datasets without their variables of chars.
ghost use Rattle.std.specs.Prelude.{◌≡◌, filter, IfOk};
ghost use Rattle.std.specs.List.{list_any};
ghost use Rattle.xr_types.specs.Names.{among, axis_names};
ghost use Rattle.xr_defs.specs.declared.value.Coord.{Coord as Other};
ghost use Rattle.xr_values.specs.declared.variable.Variable.{Variable as Var};
ghost use Rattle.xr_reducing.specs.Reduced.{chars_out, charless, is_busy};

use std::alloc::{AllocError, Global};
use xr_defs::Coord;
use xr_formulas::is_chars;
use xr_parts::{has_axis, is_among};
use xr_types::{Axis, DeepCopy, Items, TextBytes};
use xr_values::{Dataset, Variable};

/// Axes, and the variables over them.
#[derive(Drop)]
pub struct Frame {
    pub axes: Items<Axis>,
    pub vars: Items<Variable>,
}

/// Whether some coordinate has an axis of this name.
pub(crate) fn have_axis(coords: &[Coord], name: &TextBytes) -> bool
    ensures { result ≡ list_any (λ (c : Other). among (axis_names c.axes) name.now) coords.now }
{
    coords
        .iter()
        .any(|coord| has_axis(coord.axes.as_slice(), name))
}

fn have_dim(vars: &[Variable], name: &TextBytes) -> bool
    ensures { result ≡ list_any (λ (v : Var). among v.dims name.now) vars.now }
{
    vars.iter().any(|var| is_among(var.dims.as_slice(), name))
}

fn is_busy(coords: &[Coord], vars: &[Variable], axis: &Axis) -> bool
    ensures { result ≡ is_busy coords.now vars.now axis.now }
{
    axis.labels.is_some() || have_axis(coords, &axis.name) || have_dim(vars, &axis.name)
}

fn chars_out(alloc: Global, vars: &[Variable]) -> Result<Items<Variable>, AllocError>
    ensures { IfOk result (λ vs. vs ≡ chars_out vars.now) }
{
    let mut out = Items::new(alloc);
    for var in vars {
        if !is_chars(var.kind) {
            out.push(var.deep_copy(alloc)?)?;
        }
    }
    Ok(out)
}

fn busy_axes(
    alloc: Global,
    coords: &[Coord],
    vars: &[Variable],
    axes: &[Axis],
) -> Result<Items<Axis>, AllocError>
    ensures { IfOk result (λ xs. xs ≡ filter (is_busy coords.now vars.now) axes.now) }
{
    let mut out = Items::new(alloc);
    for axis in axes {
        if is_busy(coords, vars, axis) {
            out.push(axis.deep_copy(alloc)?)?;
        }
    }
    Ok(out)
}

/// The variables of other kinds, and the axes without those that the variables of chars alone have.
pub fn without_chars(alloc: Global, on: &Dataset) -> Result<Frame, AllocError>
    ensures { IfOk result (λ f. f ≡ charless on.now) }
{
    let vars = chars_out(alloc, on.vars.as_slice())?;
    let axes = busy_axes(
        alloc,
        on.coords.as_slice(),
        vars.as_slice(),
        on.axes.as_slice(),
    )?;
    Ok(Frame { axes, vars })
}
