//! Coordinates without dimensions of one position, and the labels of the dimensions among them.
ghost use Rattle.std.specs.Prelude.{◌≡◌, ◌<◌, ◌++◌, IfOk, OnOk};
ghost use Rattle.xr_types.specs.Kinds.{InRange};
ghost use Rattle.xr_defs.specs.Selecting.{label_content, label_coord};
ghost use Rattle.xr_defs.specs.Values.{label_count};
ghost use Rattle.xr_defs.specs.WellFormed.{AreLabels};
ghost use Rattle.xr_formulas.specs.Chains.{one_cell};
ghost use Rattle.xr_operations.specs.Indexing as of;
ghost use Rattle.xr_parts.specs.Frames.{IsFrame};
ghost use Rattle.xr_squeezing.specs.Alone.{AreAlone};
ghost use Rattle.xr_squeezing.specs.Made.{HasFirst, Leaves};

use crate::dims::{axis_called, steps_without};
use std::alloc::{AllocError, Global};
use xr_arrays::{ArrayValue, Cells};
use xr_changing::taken;
use xr_defs::{Content, Coord};
use xr_reducing::{axes_left, names_of};
use xr_types::{Axis, DType, DeepCopy, Items, LabelList, Name, NoMemory};

// ---- labels

// An array without dimensions.
fn scalar(alloc: Global, kind: DType, n: i128) -> Result<ArrayValue, AllocError>
    requires { InRange kind n }
    ensures { IfOk result (λ a. a ≡ one_cell kind n) }
{
    let cells = match kind {
        DType::Bool => Cells::Bool(Items::of(vec![in alloc; n as u8]?)),
        DType::Char => Cells::Char(Items::of(vec![in alloc; n as u8]?)),
        DType::Int8 => Cells::Int8(Items::of(vec![in alloc; n as i8]?)),
        DType::Int16 => Cells::Int16(Items::of(vec![in alloc; n as i16]?)),
        DType::Int32 => Cells::Int32(Items::of(vec![in alloc; n as i32]?)),
        DType::Int64 => Cells::Int64(Items::of(vec![in alloc; n as i64]?)),
        DType::UInt8 => Cells::UInt8(Items::of(vec![in alloc; n as u8]?)),
        DType::UInt16 => Cells::UInt16(Items::of(vec![in alloc; n as u16]?)),
        DType::UInt32 => Cells::UInt32(Items::of(vec![in alloc; n as u32]?)),
        DType::UInt64 => Cells::UInt64(Items::of(vec![in alloc; n as u64]?)),
    };
    Ok(ArrayValue::of(Items::new(alloc), cells, None))
}

// The first label, as a coordinate without dimensions holds it.
fn label_content(alloc: Global, list: &LabelList) -> Result<Content, AllocError>
    requires some { 0 < label_count list.now }
    requires range { AreLabels list.now }
    ensures { IfOk result (λ c. c ≡ label_content list.now 0) }
{
    Ok(match list {
        LabelList::Numbers(kind, numbers) => {
            Content::Cells(scalar(alloc, *kind, numbers.get(0))?, false)
        }
        LabelList::Times(coding, times) => {
            Content::Time(coding.deep_copy(alloc)?, times.as_slice()[0])
        }
        LabelList::Texts(texts) => Content::Text(texts.as_slice()[0].deep_copy(alloc)?),
    })
}

// The first label of an axis of one position, if it has labels, comes behind other coordinates, as one without dimensions.
fn push_label(alloc: Global, out: &mut Items<Coord>, axis: &Axis) -> Result<(), AllocError>
    requires { HasFirst axis.now }
    ensures { OnOk result (out.new ≡ out.old ++ label_coord axis.now 0) }
{
    match &axis.labels {
        None => Ok(()),
        Some(labels) => {
            let coord = Coord {
                name: axis.name.deep_copy(alloc)?,
                axes: Items::new(alloc),
                attrs: labels.attrs.deep_copy(alloc)?,
                content: label_content(alloc, &labels.list)?,
            };
            out.push(coord)
        }
    }
}

// ---- coordinates

fn squeezed_coord(alloc: Global, gone: &[Name], coord: &Coord) -> Result<Coord, NoMemory>
    requires { Leaves gone.now coord.now.axes coord.now.content }
    ensures { IfOk result (λ c. c ≡ of.squeezed_coord gone.now coord.now) }
{
    let axes = axes_left(alloc, gone, coord.axes.as_slice())?;
    let dims = names_of(alloc, coord.axes.as_slice())?;
    let content = match &coord.content {
        Content::Cells(cells, masked) => {
            let steps = steps_without(alloc, gone, dims.as_slice())?;
            let left = taken(alloc, steps.as_slice(), cells.copy(alloc)?)?;
            Content::Cells(left, *masked)
        }
        Content::Text(text) => Content::Text(text.deep_copy(alloc)?),
        Content::Time(coding, time) => Content::Time(coding.deep_copy(alloc)?, *time),
    };
    Ok(Coord {
        name: coord.name.deep_copy(alloc)?,
        axes,
        attrs: coord.attrs.deep_copy(alloc)?,
        content,
    })
}

/// The coordinates without these dimensions, of one position each, and behind them the labels of the dimensions.
#[tactic(auto, using(crate::proofs::Leaving::coord_leaves, crate::proofs::Leaving::first_label))]
pub(crate) fn squeezed_coords(
    alloc: Global,
    gone: &[Name],
    axes: &[Axis],
    coords: &[Coord],
) -> Result<Items<Coord>, NoMemory>
    requires frame { IsFrame axes.now coords.now }
    requires alone { AreAlone axes.now gone.now }
    ensures { IfOk result (λ cs. cs ≡ of.squeezed_coords gone.now axes.now coords.now) }
{
    let mut out = Items::new(alloc);
    for coord in coords {
        out.push(squeezed_coord(alloc, gone, coord)?)?;
    }
    for name in gone {
        if let Some(axis) = axis_called(axes, name) {
            push_label(alloc, &mut out, axis)?;
        }
    }
    Ok(out)
}
