//! Groups by the labels of an index, or by the cells of a coordinate of one dimension.
ghost use Rattle.std.specs.Prelude.{◌≡◌, Bool, IfOk, find, option_map};
ghost use Rattle.xr_defs.specs.Parts.{is_labelled_as};
ghost use Rattle.xr_defs.specs.declared.value.Content.TheVariants as contents;
ghost use Rattle.xr_types.specs.Results.{Answers};
ghost use Rattle.xr_groups.specs.Groupings as of;

use crate::cells::cell_keys;
use crate::changes::{copy_attrs, number_change, text_change, time_change};
use crate::keys::integer_keys;
use std::alloc::{AllocError, Global};
use xr_arrays::ArrayValue;
use xr_defs::{Content, Coord};
use xr_formulas::is_integer_kind;
use xr_groups::Change;
use xr_types::{Axis, CallFault, DeepCopy, Fault, LabelList, Labels, TextBytes};

// Groups by the labels of a dimension's index.
#[tactic(auto, unfolding(xr_groups::specs::Groupings::index_groups))]
fn index_groups(alloc: Global, dimension: &TextBytes, labels: &Labels) -> Result<Change, AllocError>
    ensures { IfOk result (λ c. c ≡ of.index_groups dimension.now labels.now) }
{
    let name = dimension.deep_copy(alloc)?;
    let attrs = copy_attrs(alloc, labels.attrs.as_slice())?;
    match &labels.list {
        LabelList::Numbers(kind, numbers) => {
            let keys = integer_keys(alloc, numbers)?;
            number_change(alloc, dimension, name, *kind, attrs, &keys)
        }
        LabelList::Times(coding, times) => {
            time_change(alloc, dimension, name, coding, attrs, times.as_slice())
        }
        LabelList::Texts(texts) => text_change(alloc, dimension, name, attrs, texts.as_slice()),
    }
}

#[tactic(auto, unfolding(xr_groups::specs::Groupings::index_change))]
fn index_change(alloc: Global, axis: &Axis) -> Result<Change, CallFault>
    ensures { Answers (λ c. c) result (of.index_change axis.now) }
{
    match &axis.labels {
        None => Err(CallFault::Refused(Fault::NoVariable(axis.name.deep_copy(alloc)?))),
        Some(labels) => {
            let change = index_groups(alloc, &axis.name, labels)?;
            Ok(change)
        }
    }
}

// Groups by cells, which are whole numbers.
#[tactic(auto, unfolding(xr_groups::specs::Groupings::content_change, xr_types::specs::Results::unless))]
fn cells_change(
    alloc: Global,
    dimension: &TextBytes,
    coord: &Coord,
    cells: &ArrayValue,
) -> Result<Change, CallFault>
    ensures { (masked : Bool) → Answers (λ c. c) result (of.content_change dimension.now coord.now (contents.Cells cells.now masked)) }
{
    let kind = cells.kind();
    if !is_integer_kind(kind) {
        return Err(CallFault::Refused(Fault::WrongKind));
    }
    let keys = cell_keys(alloc, cells)?;
    let name = coord.name.deep_copy(alloc)?;
    let attrs = copy_attrs(alloc, coord.attrs.as_slice())?;
    let change = number_change(alloc, dimension, name, kind, attrs, &keys)?;
    Ok(change)
}

#[tactic(auto, unfolding(xr_groups::specs::Groupings::content_change))]
fn content_change(alloc: Global, dimension: &TextBytes, coord: &Coord) -> Result<Change, CallFault>
    ensures { Answers (λ c. c) result (of.content_change dimension.now coord.now coord.now.content) }
{
    match &coord.content {
        Content::Cells(cells, _) => cells_change(alloc, dimension, coord, cells),
        Content::Text(_) => Err(CallFault::Refused(Fault::WrongKind)),
        Content::Time(_, _) => Err(CallFault::Refused(Fault::WrongKind)),
    }
}

// Groups by a coordinate of one dimension.
#[tactic(auto, unfolding(xr_groups::specs::Groupings::coord_over))]
fn coord_over(alloc: Global, coord: &Coord) -> Result<Change, CallFault>
    ensures { Answers (λ c. c) result (of.coord_over coord.now coord.now.axes) }
{
    match coord.axes.as_slice() {
        [axis] => content_change(alloc, &axis.name, coord),
        _ => Err(CallFault::Refused(Fault::BadArgument)),
    }
}

fn coord_called<'a>(coords: &'a [Coord], name: &TextBytes) -> Option<&'a Coord>
    ensures { option_map (λ c. c.now) result ≡ find (of.is_called name.now) coords.now }
{
    match coords {
        [] => None,
        [coord, rest @ ..] => {
            if coord.name.is(name) {
                return Some(coord);
            }
            coord_called(rest, name)
        }
    }
}

fn index_called<'a>(axes: &'a [Axis], name: &TextBytes) -> Option<&'a Axis>
    ensures { option_map (λ x. x.now) result ≡ find (is_labelled_as name.now) axes.now }
{
    match axes {
        [] => None,
        [axis, rest @ ..] => {
            if axis.name.is(name) && axis.labels.is_some() {
                return Some(axis);
            }
            index_called(rest, name)
        }
    }
}

/// Groups by the values of a coordinate of this name, or by the labels of an index.
///
/// # Errors
/// `NoVariable` where there is none, `BadArgument` for a coordinate of no dimension or several, and `WrongKind` for one whose cells are
/// no whole numbers.
#[tactic(auto, unfolding(xr_groups::specs::Groupings::coordinate_change))]
pub(crate) fn coordinate_change(
    alloc: Global,
    name: &TextBytes,
    axes: &[Axis],
    coords: &[Coord],
) -> Result<Change, CallFault>
    ensures { Answers (λ c. c) result (of.coordinate_change name.now axes.now coords.now) }
{
    match coord_called(coords, name) {
        Some(coord) => coord_over(alloc, coord),
        None => match index_called(axes, name) {
            None => Err(CallFault::Refused(Fault::NoVariable(name.deep_copy(alloc)?))),
            Some(axis) => index_change(alloc, axis),
        },
    }
}
