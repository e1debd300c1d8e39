//! The coordinates that stand for those of several datasets.
ghost use Rattle.std.specs.Prelude.{◌≡◌, ◌++◌, List, filter, flat_map, length, map, false, true, IfOk, OnOk};
ghost use Rattle.std.specs.List.{list_all, AllByRecursion};
ghost use Rattle.std.specs.Str.{bytes_eq};
ghost use Rattle.std.specs.Cmp.Lexicographic.{pointwise};
ghost use Rattle.xr_types.specs.Names.{among, axis_names};
ghost use Rattle.xr_arrays.specs.declared.node.Node.{Node};
ghost use Rattle.xr_combination.specs.Concat as calls;
ghost use Rattle.xr_combination.specs.Pieces as pieces;
ghost use Rattle.xr_defs.specs.Carrying.{is_agreed, joined_coord, named_as};
ghost use Rattle.xr_defs.specs.declared.value.Coord.{Coord as ACoord};
ghost use Rattle.xr_merging.specs.Held.{held_piece};
ghost use Rattle.xr_values.specs.Carrying.{the_attrs};
ghost use Rattle.xr_values.specs.Stands.{dataset_in};
ghost use Rattle.xr_stacking.specs.Coords.{coord_found, AreWhole, HasCoordinates, HoldsWhole, IsWhole};

use crate::held::held_end_to_end;
use crate::names::{axes_called, has_name};
use crate::parts::place_in;
use std::alloc::{AllocError, Global};
use xr_chaining::{has_axis, names_of};
use xr_combining::promoted_all;
use xr_defs::{Content, Coord};
use xr_merging::{Held, all_attrs, coords_called, in_first_order, joined_attrs, with_attrs};
use xr_types::{Attr, Axis, DType, DeepCopy, Items, Name, NoMemory};
use xr_values::{DataArray, Dataset, copy_content, same_coord};

// ---- those along the dimension

fn same_dims(axes: &[Axis], others: &[Axis]) -> bool
    ensures { result ≡ pointwise bytes_eq (axis_names axes.now) (axis_names others.now) }
{
    match (axes, others) {
        ([], []) => true,
        ([axis, axes @ ..], [other, others @ ..]) => {
            axis.name.is(&other.name) && same_dims(axes, others)
        }
        _ => false,
    }
}

fn have_dims_in_order(coord: &Coord, coords: &[&Coord]) -> bool
    ensures { result ≡ list_all (calls.have_dims_in_order coord.now) (map (λ c. c.now) coords.now) }
{
    match coords {
        [] => true,
        [other, rest @ ..] => {
            same_dims(coord.axes.as_slice(), other.axes.as_slice())
                && have_dims_in_order(coord, rest)
        }
    }
}

fn add_held<'a>(
    alloc: Global,
    out: &mut Items<Held<'a>>,
    coord: &'a Coord,
) -> Result<(), AllocError>
    ensures held { OnOk result (map held_piece out.new ≡ map held_piece out.old ++ calls.coord_pieces coord.now) }
    ensures whole { IsWhole coord.now → AllByRecursion HoldsWhole out.old → OnOk result (AllByRecursion HoldsWhole out.new) }
{
    match &coord.content {
        Content::Cells(cells, masked) => {
            let dims = names_of(alloc, coord.axes.as_slice())?;
            out.push(Held {
                dims,
                cells,
                masked: *masked,
                attrs: &coord.attrs,
            })?;
            Ok(())
        }
        Content::Text(_) => Ok(()),
        Content::Time(_, _) => Ok(()),
    }
}

fn push_held<'a>(
    alloc: Global,
    out: &mut Items<Held<'a>>,
    coords: &[&'a Coord],
) -> Result<(), AllocError>
    ensures held { OnOk result (map held_piece out.new ≡ map held_piece out.old ++ flat_map calls.coord_pieces (map (λ c. c.now) coords.now)) }
    ensures whole { AreWhole (map (λ c. c.now) coords.now) → AllByRecursion HoldsWhole out.old → OnOk result (AllByRecursion HoldsWhole out.new) }
{
    match coords {
        [] => Ok(()),
        [coord, rest @ ..] => {
            add_held(alloc, out, coord)?;
            push_held(alloc, out, rest)
        }
    }
}

fn all_held<'a>(alloc: Global, coords: &[&'a Coord]) -> Result<Items<Held<'a>>, AllocError>
    ensures held { IfOk result (λ hs. map held_piece hs ≡ flat_map calls.coord_pieces (map (λ c. c.now) coords.now)) }
    ensures whole { AreWhole (map (λ c. c.now) coords.now) → IfOk result (AllByRecursion HoldsWhole) }
{
    let mut held = Items::new(alloc);
    push_held(alloc, &mut held, coords)?;
    Ok(held)
}

fn push_kinds(out: &mut Items<DType>, held: &[Held<'_>]) -> Result<(), AllocError>
    ensures { OnOk result (out.new ≡ out.old ++ pieces.kinds_of (map held_piece held.now)) }
{
    match held {
        [] => Ok(()),
        [one, rest @ ..] => {
            out.push(one.cells.kind())?;
            push_kinds(out, rest)
        }
    }
}

fn kinds_of(alloc: Global, held: &[Held<'_>]) -> Result<Items<DType>, AllocError>
    ensures { IfOk result (λ ts. ts ≡ pieces.kinds_of (map held_piece held.now)) }
{
    let mut kinds = Items::new(alloc);
    push_kinds(&mut kinds, held)?;
    Ok(kinds)
}

fn is_some_masked(held: &[Held<'_>]) -> bool
    ensures { result ≡ pieces.is_some_masked (map held_piece held.now) }
{
    match held {
        [] => false,
        [one, rest @ ..] => one.masked || is_some_masked(rest),
    }
}

// The coordinate of their cells end to end. A dimension that the first hasn't got wants memory.
fn end_to_end(
    alloc: Global,
    dim: &Name,
    axes: &[Axis],
    name: &Name,
    kind: DType,
    held: &[Held<'_>],
) -> Result<Coord, NoMemory>
    requires { AllByRecursion HoldsWhole held.now }
    ensures { IfOk result (λ c. c ≡ calls.piece_coord axes.now name.now (calls.piece_concatenated false dim.now kind (map held_piece held.now))) }
{
    match held {
        [] => Err(NoMemory),
        [first, ..] => {
            let dims = first.dims.as_slice();
            if !has_name(dims, dim) {
                return Err(NoMemory);
            }
            let axis = place_in(dims, dim);
            let arrays = in_first_order(alloc, held)?;
            let cells = held_end_to_end(alloc, kind, axis, arrays.as_slice())?;
            let own = axes_called(alloc, axes, dims)?;
            let attrs = all_attrs(alloc, held)?;
            Ok(Coord {
                name: name.deep_copy(alloc)?,
                axes: own,
                attrs,
                content: Content::Cells(cells, is_some_masked(held)),
            })
        }
    }
}

// Where all have it over the same dimensions, in kinds that become one.
fn push_joined(
    alloc: Global,
    out: &mut Items<Coord>,
    dim: &Name,
    axes: &[Axis],
    coord: &Coord,
    coords: &[&Coord],
) -> Result<(), NoMemory>
    requires { AreWhole (map (λ c. c.now) coords.now) }
    ensures { OnOk result (out.new ≡ out.old ++ calls.coord_concatenated dim.now axes.now coord.now (map (λ c. c.now) coords.now)) }
{
    if !have_dims_in_order(coord, coords) {
        return Ok(());
    }
    let held = all_held(alloc, coords)?;
    let held = held.as_slice();
    let kinds = kinds_of(alloc, held)?;
    match promoted_all(kinds.as_slice()) {
        None => Ok(()),
        Some(kind) => {
            let one = end_to_end(alloc, dim, axes, &coord.name, kind, held)?;
            out.push(one)?;
            Ok(())
        }
    }
}

// ---- the others

#[tactic(auto, unfolding(xr_defs::specs::Carrying::is_agreed))]
fn is_agreed(alloc: Global, coord: &Coord, coords: &[&Coord]) -> Result<bool, AllocError>
    ensures { IfOk result (λ b. b ≡ is_agreed (map (λ c. c.now) coords.now) coord.now) }
{
    match coords {
        [] => Ok(true),
        [other, rest @ ..] => {
            if other.name.is(&coord.name) && !same_coord(alloc, coord, other)? {
                return Ok(false);
            }
            is_agreed(alloc, coord, rest)
        }
    }
}

fn push_attrs(
    alloc: Global,
    out: &mut Items<DataArray>,
    coord: &Coord,
    coords: &[&Coord],
) -> Result<(), AllocError>
    ensures { OnOk result (the_attrs out.new ≡ the_attrs out.old ++ map (λ (d : ACoord). d.attrs) (filter (named_as coord.now) (map (λ c. c.now) coords.now))) }
{
    for one in coords {
        if one.name.is(&coord.name) {
            out.push(with_attrs(alloc, &one.attrs)?)?;
        }
    }
    Ok(())
}

// The coordinate with the attributes that those of its name have in common.
fn joined_coord(alloc: Global, coord: &Coord, coords: &[&Coord]) -> Result<Coord, NoMemory>
    ensures { IfOk result (λ c. c ≡ joined_coord (map (λ c. c.now) coords.now) coord.now) }
{
    let mut lists = Items::new(alloc);
    push_attrs(alloc, &mut lists, coord, coords)?;
    let attrs = joined_attrs(alloc, lists.as_slice())?;
    Ok(Coord {
        name: coord.name.deep_copy(alloc)?,
        axes: coord.axes.deep_copy(alloc)?,
        attrs,
        content: copy_content(alloc, &coord.content)?,
    })
}

fn push_kept(
    alloc: Global,
    out: &mut Items<Coord>,
    coord: &Coord,
    coords: &[&Coord],
) -> Result<(), NoMemory>
    ensures { OnOk result (out.new ≡ out.old ++ calls.coord_kept coord.now (map (λ c. c.now) coords.now)) }
{
    if !is_agreed(alloc, coord, coords)? {
        return Ok(());
    }
    let one = joined_coord(alloc, coord, coords)?;
    out.push(one)?;
    Ok(())
}

// ---- all of them

fn push_found(
    alloc: Global,
    out: &mut Items<Coord>,
    dim: &Name,
    axes: &[Axis],
    coord: &Coord,
    coords: &[&Coord],
) -> Result<(), NoMemory>
    requires { AreWhole (map (λ c. c.now) coords.now) }
    ensures { OnOk result (out.new ≡ out.old ++ coord_found dim.now axes.now coord.now (map (λ c. c.now) coords.now)) }
{
    if has_axis(coord.axes.as_slice(), dim) {
        push_joined(alloc, out, dim, axes, coord, coords)
    } else {
        push_kept(alloc, out, coord, coords)
    }
}

#[tactic(auto, using(crate::proofs::Whole::those_whole, crate::proofs::Whole::none_of_all, crate::proofs::Whole::one_of_all))]
fn push_of_all(
    alloc: Global,
    out: &mut Items<Coord>,
    dim: &Name,
    axes: &[Axis],
    sets: &[Dataset],
    coord: &Coord,
) -> Result<(), NoMemory>
    requires { (nodes : List Node) → AllByRecursion HasCoordinates (map (dataset_in nodes) sets.now) }
    ensures { (nodes : List Node) → OnOk result (out.new ≡ out.old ++ calls.coord_of_all dim.now axes.now (map (dataset_in nodes) sets.now) coord.now) }
{
    let coords = coords_called(alloc, sets, &coord.name)?;
    let coords = coords.as_slice();
    if coord.name.is(dim) || coords.len() != sets.len() {
        return Ok(());
    }
    push_found(alloc, out, dim, axes, coord, coords)
}

fn push_coords(
    alloc: Global,
    out: &mut Items<Coord>,
    dim: &Name,
    axes: &[Axis],
    sets: &[Dataset],
    coords: &[Coord],
) -> Result<(), NoMemory>
    requires { (nodes : List Node) → AllByRecursion HasCoordinates (map (dataset_in nodes) sets.now) }
    ensures { (nodes : List Node) → OnOk result (out.new ≡ out.old ++ flat_map (calls.coord_of_all dim.now axes.now (map (dataset_in nodes) sets.now)) coords.now) }
{
    match coords {
        [] => Ok(()),
        [coord, rest @ ..] => {
            push_of_all(alloc, out, dim, axes, sets, coord)?;
            push_coords(alloc, out, dim, axes, sets, rest)
        }
    }
}

/// The coordinates of datasets over joined axes that stand for those of all: of a name that all have, those along the dimension end
/// to end, over these axes, where they have the same dimensions and kinds that become one, and the first of others that are equal.
pub fn coords_concatenated(
    alloc: Global,
    dim: &Name,
    axes: &[Axis],
    sets: &[Dataset],
) -> Result<Items<Coord>, NoMemory>
    requires { (nodes : List Node) → AllByRecursion HasCoordinates (map (dataset_in nodes) sets.now) }
    ensures { (nodes : List Node) → IfOk result (λ cs. cs ≡ flat_map (calls.coord_of_all dim.now axes.now (map (dataset_in nodes) sets.now)) (pieces.first_set (map (dataset_in nodes) sets.now)).coords) }
{
    let mut out = Items::new(alloc);
    match sets {
        [] => Ok(out),
        [first, ..] => {
            push_coords(alloc, &mut out, dim, axes, sets, first.coords.as_slice())?;
            Ok(out)
        }
    }
}
