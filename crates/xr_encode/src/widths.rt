//! The widths of the texts of a file, each once, in the order in which they are needed.
ghost use Rattle.std.specs.Prelude.{◌≡◌, ◌==◌, ◌<◌, ◌^◌, ◌++◌, ◌∷◌, [], map, filter_map, IfOk, OnOk};
ghost use Rattle.std.specs.List.{list_any, AllByRecursion};
ghost use Rattle.xr_defs.specs.Encoding.{labels_width, index_width, content_width, coord_width, each_once};
ghost use Rattle.xr_encode.specs.Widths.{once_more, each_once_more};

use crate::name::{lone_width, text_width};
use std::alloc::{AllocError, Global};
use xr_defs::{Content, Coord};
use xr_types::{Axis, Items, LabelList};

fn has(widths: &[u64], width: u64) -> bool
    ensures { result ≡ list_any (λ m. m == width) widths.now }
{
    for other in widths {
        if *other == width {
            return true;
        }
    }
    false
}

fn push_once(widths: &mut Items<u64>, width: u64) -> Result<(), AllocError>
    ensures { OnOk result (widths.new ≡ once_more widths.old width) }
{
    if has(widths.as_slice(), width) {
        Ok(())
    } else {
        widths.push(width)
    }
}

fn labels_width(list: &LabelList) -> Option<u64>
    ensures { result ≡ labels_width list.now }
{
    match list {
        LabelList::Numbers(_, _) => None,
        LabelList::Times(_, _) => None,
        LabelList::Texts(texts) => Some(text_width(texts.as_slice())),
    }
}

pub fn index_width(axis: &Axis) -> Option<u64>
    ensures { result ≡ index_width axis.now }
{
    match &axis.labels {
        Some(labels) => labels_width(&labels.list),
        None => None,
    }
}

fn coord_width(coord: &Coord) -> Option<u64>
    ensures { result ≡ coord_width coord.now }
{
    match &coord.content {
        Content::Cells(_, _) => None,
        Content::Text(text) => Some(lone_width(text)),
        Content::Time(_, _) => None,
    }
}

fn push_axes(widths: &mut Items<u64>, axes: &[Axis]) -> Result<(), AllocError>
    ensures { OnOk result (widths.new ≡ each_once_more widths.old (filter_map index_width axes.now)) }
{
    for axis in axes {
        if let Some(width) = index_width(axis) {
            push_once(widths, width)?;
        }
    }
    Ok(())
}

fn push_coords(widths: &mut Items<u64>, coords: &[&Coord]) -> Result<(), AllocError>
    ensures { OnOk result (widths.new ≡ each_once_more widths.old (filter_map coord_width (map (λ c. c.now) coords.now))) }
{
    for coord in coords {
        if let Some(width) = coord_width(coord) {
            push_once(widths, width)?;
        }
    }
    Ok(())
}

/// What the list holds are numbers of 64 bits, which is known once they are read.
pub fn read_widths(widths: &[u64])
    ensures { AllByRecursion (λ n. n < 2 ^ 64) widths.now }
{
    for width in widths {
        let _width = *width;
    }
}

/// The widths of the texts of these axes and then of these coordinates.
#[tactic(auto, using(crate::proofs::Once::once_each))]
pub fn text_widths(
    alloc: Global,
    axes: &[Axis],
    coords: &[&Coord],
) -> Result<Items<u64>, AllocError>
    ensures { IfOk result (λ widths. widths ≡ each_once [] (filter_map index_width axes.now ++ filter_map coord_width (map (λ c. c.now) coords.now))) }
{
    let mut widths = Items::new(alloc);
    push_axes(&mut widths, axes)?;
    push_coords(&mut widths, coords)?;
    Ok(widths)
}
