//! Coordinates ascending by the bytes of their names.
ghost use Rattle.std.specs.Prelude.{◌≡◌, ◌≤◌, length, map, IfOk, OnOk};
ghost use Rattle.std.specs.List.{prefix_len};
ghost use Rattle.xr_defs.specs.Printing.{is_below, by_name, put_coord};
ghost use Rattle.xr_types.specs.Names.{among};
ghost use Rattle.xr_types.specs.Names.{axis_names};
ghost use Rattle.xr_defs.specs.Encoding.{all_among, coords_over, coord_names};

use std::alloc::{AllocError, Global};
use xr_defs::Coord;
use xr_types::{Axis, DeepCopy, Items, Name};

fn is_below(a: &Coord, b: &Coord) -> bool
    ensures { result ≡ is_below a.now.name b.now.name }
{
    a.name.as_bytes().cmp(b.name.as_bytes()).is_lt()
}

// How many stand before a coordinate.
fn place_of(sorted: &[&Coord], coord: &Coord) -> usize
    ensures place { result ≡ prefix_len (λ d. is_below d.now.name coord.now.name) sorted.now }
    ensures inside { result ≤ length sorted.now }
{
    for i in 0..sorted.len() {
        if !is_below(sorted[i], coord) {
            return i;
        }
    }
    sorted.len()
}

fn put_coord<'a>(sorted: &mut Vec<&'a Coord>, coord: &'a Coord) -> Result<(), AllocError>
    ensures { OnOk result (map (λ c. c.now) sorted.new.items ≡ put_coord coord.now (map (λ c. c.now) sorted.old.items)) }
{
    let place = place_of(sorted.as_slice(), coord);
    sorted.insert(place, coord)?;
    Ok(())
}

/// The coordinates by their names.
pub fn by_name<'a>(alloc: Global, coords: &'a [Coord]) -> Result<Vec<&'a Coord>, AllocError>
    ensures { IfOk result (λ sorted. map (λ c. c.now) sorted.items ≡ by_name coords.now) }
{
    let mut sorted = Vec::new(alloc);
    for i in 0..coords.len() {
        put_coord(&mut sorted, &coords[coords.len() - 1 - i])?;
    }
    Ok(sorted)
}

/// Whether a name is one of these.
pub fn is_among(names: &[Name], name: &Name) -> bool
    ensures { result ≡ among names.now name.now }
{
    for other in names {
        if name.is(other) {
            return true;
        }
    }
    false
}

// Whether each dimension of a coordinate is one of these.
fn is_over(dims: &[Name], axes: &[Axis]) -> bool
    ensures { result ≡ all_among dims.now (axis_names axes.now) }
{
    for axis in axes {
        if !is_among(dims, &axis.name) {
            return false;
        }
    }
    true
}

// The coordinates whose dimensions are all among these, by their names.
fn coords_over<'a>(
    alloc: Global,
    dims: &[Name],
    coords: &'a [Coord],
) -> Result<Vec<&'a Coord>, AllocError>
    ensures { IfOk result (λ sorted. map (λ c. c.now) sorted.items ≡ by_name (coords_over dims.now coords.now)) }
{
    let mut sorted = Vec::new(alloc);
    for i in 0..coords.len() {
        let coord = &coords[coords.len() - 1 - i];
        if is_over(dims, coord.axes.as_slice()) {
            put_coord(&mut sorted, coord)?;
        }
    }
    Ok(sorted)
}

/// The names of coordinates.
pub fn names_of(alloc: Global, coords: &[&Coord]) -> Result<Items<Name>, AllocError>
    ensures { IfOk result (λ names. names ≡ coord_names (map (λ c. c.now) coords.now)) }
{
    let mut names = Items::new(alloc);
    for coord in coords {
        names.push(coord.name.deep_copy(alloc)?)?;
    }
    Ok(names)
}

/// The names of the coordinates that a variable over these dimensions lists, ascending.
pub fn listed_over(
    alloc: Global,
    dims: &[Name],
    coords: &[Coord],
) -> Result<Items<Name>, AllocError>
    ensures { IfOk result (λ names. names ≡ coord_names (by_name (coords_over dims.now coords.now))) }
{
    let sorted = coords_over(alloc, dims, coords)?;
    names_of(alloc, sorted.as_slice())
}
