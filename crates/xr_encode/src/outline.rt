//! Variables to be written, but for their cells: indexes in the order of the axes, other coordinates by name, data
//! variables in order.
ghost use Rattle.std.specs.Prelude.{◌≡◌, ◌∷◌, ◌++◌, [], false, map, IfOk, OnOk};
ghost use Rattle.xr_defs.specs.Encoding.{stored_labels, stored_content, stored_coord, stored_cells, stored_times};
ghost use Rattle.xr_times.specs.Counts.{written_unit};
ghost use Rattle.xr_types.specs.Names.{axis_names};
ghost use Rattle.xr_defs.specs.Decoding.{string_name};
ghost use Rattle.xr_types.specs.declared.kind.DType.TheVariants as kinds;
ghost use Rattle.xr_encode.specs.Outlines.{outline_of, index_outlines, coord_outlines};

use crate::coding::coding_attrs;
use crate::name::{lone_width, string_name, text_width};
use cf_time::written_unit;
use std::alloc::{AllocError, Global};
use std::slice::from_ref;
use xr_defs::{Content, Coord};
use xr_types::{Attr, Axis, DType, DeepCopy, Items, LabelList, Name, TimeCoding, copy_all};

/// A variable to be written, but for its cells. `coding` are the attributes that say how its numbers count times, and
/// `lists` the coordinates that its attribute `coordinates` will name.
#[derive(Drop)]
pub struct Outline {
    pub name: Name,
    pub dims: Items<Name>,
    pub kind: DType,
    pub masked: bool,
    pub attrs: Items<Attr>,
    pub coding: Items<Attr>,
    pub lists: Items<Name>,
}

// A variable that lists no coordinates.
fn cells_outline(
    alloc: Global,
    name: &Name,
    dims: Items<Name>,
    kind: DType,
    masked: bool,
    attrs: &[Attr],
) -> Result<Outline, AllocError>
    ensures { IfOk result (λ o. o ≡ outline_of (stored_cells name.now dims kind masked attrs.now [])) }
{
    Ok(Outline {
        name: name.deep_copy(alloc)?,
        dims,
        kind,
        masked,
        attrs: copy_all(alloc, attrs)?,
        coding: Items::new(alloc),
        lists: Items::new(alloc),
    })
}

// A variable of texts of a width.
fn texts_outline(
    alloc: Global,
    name: &Name,
    mut dims: Items<Name>,
    attrs: &[Attr],
    width: u64,
) -> Result<Outline, AllocError>
    ensures { IfOk result (λ o. o ≡ outline_of (stored_cells name.now (dims ++ string_name width ∷ []) kinds.Char false attrs.now [])) }
{
    dims.push(string_name(alloc, width)?)?;
    cells_outline(alloc, name, dims, DType::Char, false, attrs)
}

// A variable of times, as counts of the unit in which they are written.
fn times_outline(
    alloc: Global,
    name: &Name,
    dims: Items<Name>,
    attrs: &[Attr],
    coding: &TimeCoding,
    times: &[i64],
) -> Result<Outline, AllocError>
    ensures { IfOk result (λ o. o ≡ outline_of (stored_times name.now dims attrs.now coding.now [] (written_unit coding.now.units times.now))) }
{
    let unit = written_unit(&coding.units, times);
    let mut outline = cells_outline(alloc, name, dims, DType::Int64, false, attrs)?;
    outline.coding = coding_attrs(alloc, coding, unit)?;
    Ok(outline)
}

fn one_name(alloc: Global, name: &Name) -> Result<Items<Name>, AllocError>
    ensures { IfOk result (λ names. names ≡ name.now ∷ []) }
{
    let mut names = Items::new(alloc);
    names.push(name.deep_copy(alloc)?)?;
    Ok(names)
}

/// The variable of the labels of an axis.
pub fn labels_outline(
    alloc: Global,
    name: &Name,
    attrs: &[Attr],
    list: &LabelList,
) -> Result<Outline, AllocError>
    ensures { IfOk result (λ o. o ≡ outline_of (stored_labels name.now attrs.now list.now)) }
{
    let dims = one_name(alloc, name)?;
    match list {
        LabelList::Numbers(kind, _) => cells_outline(alloc, name, dims, *kind, false, attrs),
        LabelList::Times(coding, times) => {
            times_outline(alloc, name, dims, attrs, coding, times.as_slice())
        }
        LabelList::Texts(texts) => {
            texts_outline(alloc, name, dims, attrs, text_width(texts.as_slice()))
        }
    }
}

fn push_index(alloc: Global, outlines: &mut Items<Outline>, axis: &Axis) -> Result<(), AllocError>
    ensures { OnOk result (outlines.new ≡ outlines.old ++ index_outlines (axis.now ∷ [])) }
{
    match &axis.labels {
        Some(labels) => outlines.push(labels_outline(
            alloc,
            &axis.name,
            labels.attrs.as_slice(),
            &labels.list,
        )?),
        None => Ok(()),
    }
}

/// Adds the indexes of axes.
pub fn push_indexes(
    alloc: Global,
    outlines: &mut Items<Outline>,
    axes: &[Axis],
) -> Result<(), AllocError>
    ensures { OnOk result (outlines.new ≡ outlines.old ++ index_outlines axes.now) }
{
    for axis in axes {
        push_index(alloc, outlines, axis)?;
    }
    Ok(())
}

fn names_of_axes(alloc: Global, axes: &[Axis]) -> Result<Items<Name>, AllocError>
    ensures { IfOk result (λ names. names ≡ axis_names axes.now) }
{
    let mut names = Items::new(alloc);
    for axis in axes {
        names.push(axis.name.deep_copy(alloc)?)?;
    }
    Ok(names)
}

/// The variable of a coordinate that is no index.
pub fn coord_outline(alloc: Global, coord: &Coord) -> Result<Outline, AllocError>
    ensures { IfOk result (λ o. o ≡ outline_of (stored_coord coord.now)) }
{
    let attrs = coord.attrs.as_slice();
    match &coord.content {
        Content::Cells(cells, masked) => {
            let dims = names_of_axes(alloc, coord.axes.as_slice())?;
            cells_outline(alloc, &coord.name, dims, cells.kind(), *masked, attrs)
        }
        Content::Text(text) => {
            texts_outline(
                alloc,
                &coord.name,
                Items::new(alloc),
                attrs,
                lone_width(text),
            )
        }
        Content::Time(coding, time) => {
            times_outline(
                alloc,
                &coord.name,
                Items::new(alloc),
                attrs,
                coding,
                from_ref(time),
            )
        }
    }
}

/// Adds coordinates that are no index.
pub fn push_coords(
    alloc: Global,
    outlines: &mut Items<Outline>,
    coords: &[&Coord],
) -> Result<(), AllocError>
    ensures { OnOk result (outlines.new ≡ outlines.old ++ coord_outlines (map (λ c. c.now) coords.now)) }
{
    for coord in coords {
        outlines.push(coord_outline(alloc, coord)?)?;
    }
    Ok(())
}
