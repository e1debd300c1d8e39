//! Coordinates ascending by their names, as places among them.
ghost use Rattle.std.specs.Prelude.{◌≡◌, ◌<◌, ◌≤◌, ◌++◌, ◌∷◌, All, length, map, take, drop, insert, flat_map, IfOk, OnOk};
ghost use Rattle.xr_defs.specs.Printing.{is_below, put_coord, by_name, coord_text, coords_text};
ghost use Rattle.xr_print.specs.ByName.{coord_at, IsByName};
ghost use Rattle.xr_print.specs.Conditions.{HasTimes, HoldsTime};

use crate::coordinate::push_coord;
use crate::index::push_indexes;
use itoa::Buffer;
use std::alloc::{AllocError, Global};
use xr_defs::Coord;
use xr_types::Axis;

fn is_below(a: &[u8], b: &[u8]) -> bool
    ensures { result ≡ is_below a.now b.now }
{
    a.cmp(b).is_lt()
}

// Where the coordinate at a place belongs in an order.
fn place_for(coords: &[Coord], order: &[usize], i: usize) -> usize
    requires inside { i < length coords.now }
    requires all_inside { All (λ p. p < length coords.now) order.now }
    ensures most { result ≤ length order.now }
    ensures placed { map (coord_at coords.now) (insert order.now result i) ≡ put_coord (coord_at coords.now i) (map (coord_at coords.now) order.now) }
{
    for k in 0..order.len() {
        if !is_below(coords[order[k]].name.as_bytes(), coords[i].name.as_bytes()) {
            return k;
        }
    }
    order.len()
}

// The places of coordinates in the order of their names.
fn by_name(alloc: Global, coords: &[Coord]) -> Result<Vec<usize>, AllocError>
    ensures { IfOk result (λ v. IsByName coords.now v.items) }
{
    let mut order = Vec::with_capacity(alloc, coords.len())?;
    for done in 0..coords.len() {
        let i = coords.len() - 1 - done;
        let place = place_for(coords, order.as_slice(), i);
        order.insert(place, i)?;
    }
    Ok(order)
}

fn push_in_order(
    out: &mut Vec<u8>,
    digits: &mut Buffer,
    coords: &[Coord],
    order: &[usize],
) -> Result<(), AllocError>
    requires inside { All (λ p. p < length coords.now) order.now }
    requires times { All HoldsTime coords.now }
    ensures { OnOk result (out.new.items ≡ out.old.items ++ flat_map coord_text (map (coord_at coords.now) order.now)) }
{
    for place in order {
        push_coord(out, digits, &coords[*place])?;
    }
    Ok(())
}

/// Appends the indexes of axes, and then the other coordinates by their names.
pub(crate) fn push_coords(
    alloc: Global,
    out: &mut Vec<u8>,
    digits: &mut Buffer,
    axes: &[Axis],
    coords: &[Coord],
) -> Result<(), AllocError>
    requires times { All HasTimes axes.now }
    requires scalar_times { All HoldsTime coords.now }
    ensures { OnOk result (out.new.items ≡ out.old.items ++ coords_text axes.now coords.now) }
{
    push_indexes(out, digits, axes)?;
    let order = by_name(alloc, coords)?;
    push_in_order(out, digits, coords, order.as_slice())
}
