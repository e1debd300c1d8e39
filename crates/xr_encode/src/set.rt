//! The variables of a dataset's file, but for their cells, and the coordinates that none of them lists.
ghost use Rattle.std.specs.Prelude.{◌≡◌, ◌++◌, map, IfOk, OnOk};
ghost use Rattle.std.specs.List.{list_any};
ghost use Rattle.xr_defs.specs.Printing.{by_name};
ghost use Rattle.xr_defs.specs.Encoding.{coord_names};
ghost use Rattle.xr_encode.specs.Sets.{variable_outline, outlines_of, lists_name, unlisted_by};

use crate::coords::{is_among, listed_over};
use crate::outline::{Outline, push_coords, push_indexes};
use std::alloc::{AllocError, Global};
use xr_defs::Coord;
use xr_types::{DeepCopy, Items, Name};
use xr_values::{Dataset, Variable};

/// A data variable, which lists those of the coordinates that have its dimensions alone.
pub fn variable_outline(
    alloc: Global,
    coords: &[Coord],
    variable: &Variable,
) -> Result<Outline, AllocError>
    ensures { IfOk result (λ o. o ≡ variable_outline coords.now variable.now) }
{
    Ok(Outline {
        name: variable.name.deep_copy(alloc)?,
        dims: variable.dims.deep_copy(alloc)?,
        kind: variable.kind,
        masked: variable.masked,
        attrs: variable.attrs.deep_copy(alloc)?,
        coding: Items::new(alloc),
        lists: listed_over(alloc, variable.dims.as_slice(), coords)?,
    })
}

fn push_variables(
    alloc: Global,
    outlines: &mut Items<Outline>,
    coords: &[Coord],
    variables: &[Variable],
) -> Result<(), AllocError>
    ensures { OnOk result (outlines.new ≡ outlines.old ++ map (variable_outline coords.now) variables.now) }
{
    for variable in variables {
        outlines.push(variable_outline(alloc, coords, variable)?)?;
    }
    Ok(())
}

/// The variables of a dataset's file, given its coordinates by name.
pub fn outlines_of(
    alloc: Global,
    set: &Dataset,
    sorted: &[&Coord],
) -> Result<Items<Outline>, AllocError>
    requires { map (λ c. c.now) sorted.now ≡ by_name set.now.coords }
    ensures { IfOk result (λ os. os ≡ outlines_of set.now) }
{
    let mut outlines = Items::new(alloc);
    push_indexes(alloc, &mut outlines, set.axes.as_slice())?;
    push_coords(alloc, &mut outlines, sorted)?;
    push_variables(
        alloc,
        &mut outlines,
        set.coords.as_slice(),
        set.vars.as_slice(),
    )?;
    Ok(outlines)
}

fn is_listed(outlines: &[Outline], name: &Name) -> bool
    ensures { result ≡ list_any (lists_name name.now) outlines.now }
{
    for outline in outlines {
        if is_among(outline.lists.as_slice(), name) {
            return true;
        }
    }
    false
}

/// The names of the coordinates that no variable lists.
pub fn unlisted_by(
    alloc: Global,
    sorted: &[&Coord],
    outlines: &[Outline],
) -> Result<Items<Name>, AllocError>
    ensures { IfOk result (λ names. names ≡ unlisted_by outlines.now (coord_names (map (λ c. c.now) sorted.now))) }
{
    let mut names = Items::new(alloc);
    for coord in sorted {
        if !is_listed(outlines, &coord.name) {
            names.push(coord.name.deep_copy(alloc)?)?;
        }
    }
    Ok(names)
}
