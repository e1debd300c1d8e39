//! `x["v"]`: a data variable or a coordinate as an array.
ghost use Rattle.std.specs.Prelude.{if◌then◌else◌, ◌∷◌, ◌≡◌};
ghost use Rattle.xr_parts.specs.Common.{AddsAtMost, AddsForAny, AllByRecursion, AnswersArray, Axis as Dimension, Coord as Other, Grows, IfOk, InKind, InRange, IsArrayIn, IsDatasetIn, IsDimension, IsIndex, List, MatchOption, NoVariable, NotLoaded, Some, [], all_among, among, array_in, axis_called, axis_names, bytes_eq, coords_over, dataset_in, false, find, is_integer_kind, kind_of, length, map, of_array, of_set, option_copied, room, true, wide};
ghost use Rattle.std.specs.List.{All};
ghost use Rattle.xr_defs.specs.Parts as of;
ghost use Rattle.xr_parts.specs.Frames.{IsFrame, IsThere};
ghost use Rattle.xr_parts.specs.Pieces.{array_over, label_coord, other_part, AnswersCoord};

use crate::dataset_of::has_axis;
use crate::orders::axis_place;
use crate::texts::is_among;
use plan_core::Plan;
use std::alloc::{AllocError, Global};
use xr_arrays::{ArrayValue, Cells, Node};
use xr_defs::{Content, Coord};
use xr_types::{
    Attr, Axis, CallFault, DType, DeepCopy, Elem, Fault, Integers, Items, LabelList, Labels, Name,
    NoMemory, TextBytes,
};
use xr_values::{DataArray, Dataset, Variable, copy_coord};

fn have_axes(axes: &[Axis], some: &[Axis]) -> bool
    ensures { result ≡ all_among (axis_names axes.now) (axis_names some.now) }
{
    match some {
        [] => true,
        [axis, rest @ ..] => has_axis(axes, &axis.name) && have_axes(axes, rest),
    }
}

// The coordinates whose dimensions are all among these axes.
fn coords_over(alloc: Global, axes: &[Axis], coords: &[Coord]) -> Result<Items<Coord>, AllocError>
    ensures { IfOk result (λ cs. cs ≡ coords_over (axis_names axes.now) coords.now) }
{
    let mut out = Items::new(alloc);
    for coord in coords {
        if have_axes(axes, coord.axes.as_slice()) {
            out.push(copy_coord(alloc, coord)?)?;
        }
    }
    Ok(out)
}

#[tactic(auto, using(crate::proofs::Axes::none_called, crate::proofs::Axes::place_called))]
fn find_axis<'a>(axes: &'a [Axis], name: &TextBytes) -> Option<&'a Axis>
    ensures { MatchOption result (among (axis_names axes.now) name.now ≡ false) (λ x. x.now ≡ axis_called axes.now name.now) }
{
    match axis_place(axes, name) {
        Some(k) => Some(&axes[k]),
        None => None,
    }
}

fn axes_called(alloc: Global, axes: &[Axis], dims: &[Name]) -> Result<Items<Axis>, AllocError>
    requires { AllByRecursion (λ d. among (axis_names axes.now) d ≡ true) dims.now }
    ensures { IfOk result (λ xs. xs ≡ of.axes_called axes.now dims.now) }
{
    let mut out = Items::new(alloc);
    for dim in dims {
        match find_axis(axes, dim) {
            Some(axis) => out.push(axis.deep_copy(alloc)?)?,
            None => unreachable!(),
        }
    }
    Ok(out)
}

fn variable_as_array(
    alloc: Global,
    on: &Dataset,
    variable: &Variable,
) -> Result<DataArray, AllocError>
    requires { AllByRecursion (λ d. among (axis_names on.now.axes) d ≡ true) variable.now.dims }
    ensures { IfOk result (λ a. a ≡ array_over on.now variable.now) }
{
    let axes = axes_called(alloc, on.axes.as_slice(), variable.dims.as_slice())?;
    let coords = coords_over(alloc, axes.as_slice(), on.coords.as_slice())?;
    Ok(DataArray {
        name: Some(variable.name.deep_copy(alloc)?),
        axes,
        kind: variable.kind,
        masked: variable.masked,
        attrs: variable.attrs.deep_copy(alloc)?,
        coords,
        node: variable.node,
    })
}

// Numbers of a kind at the width of its cells.
#[tactic(auto, using(crate::proofs::Narrowed::kept_number))]
fn cells_of<T: Elem + Drop>(alloc: Global, numbers: &Integers) -> Result<Items<T>, AllocError>
    requires { All (InRange T.kind) numbers.now }
    ensures { IfOk result (λ cells. map T.number cells ≡ numbers.now) }
{
    let mut out = Items::new(alloc);
    for at in 0..numbers.len() {
        out.push(T::wrap_from(numbers.get(at)))?;
    }
    Ok(out)
}

fn typed_cells(alloc: Global, kind: DType, numbers: &Integers) -> Result<Cells, AllocError>
    requires integer { is_integer_kind kind ≡ true }
    requires range { All (InRange kind) numbers.now }
    ensures numbers { IfOk result (λ cells. wide cells ≡ numbers.now) }
    ensures kind { IfOk result (λ cells. kind_of cells ≡ kind) }
    ensures range { IfOk result InKind }
{
    match kind {
        DType::Int8 => Ok(Cells::Int8(cells_of(alloc, numbers)?)),
        DType::Int16 => Ok(Cells::Int16(cells_of(alloc, numbers)?)),
        DType::Int32 => Ok(Cells::Int32(cells_of(alloc, numbers)?)),
        DType::Int64 => Ok(Cells::Int64(cells_of(alloc, numbers)?)),
        DType::UInt8 => Ok(Cells::UInt8(cells_of(alloc, numbers)?)),
        DType::UInt16 => Ok(Cells::UInt16(cells_of(alloc, numbers)?)),
        DType::UInt32 => Ok(Cells::UInt32(cells_of(alloc, numbers)?)),
        DType::UInt64 => Ok(Cells::UInt64(cells_of(alloc, numbers)?)),
        DType::Bool | DType::Char => unreachable!(),
    }
}

// The labels of an axis as a coordinate.
fn label_coord(
    alloc: Global,
    axis: &Axis,
    attrs: &Items<Attr>,
    kind: DType,
    numbers: &Integers,
) -> Result<Coord, AllocError>
    requires integer { is_integer_kind kind ≡ true }
    requires range { All (InRange kind) numbers.now }
    ensures { IfOk result (λ c. c ≡ label_coord axis.now attrs.now kind numbers.now) }
{
    let mut axes = Items::new(alloc);
    axes.push(axis.deep_copy(alloc)?)?;
    let cells = typed_cells(alloc, kind, numbers)?;
    let shape = Items::of(vec![in alloc; numbers.len() as u64]?);
    Ok(Coord {
        name: axis.name.deep_copy(alloc)?,
        axes,
        attrs: attrs.deep_copy(alloc)?,
        content: Content::Cells(ArrayValue::of(shape, cells, None), false),
    })
}

// Texts and times have no cells.
fn list_coord(alloc: Global, axis: &Axis, labels: &Labels) -> Result<Coord, CallFault>
    requires formed { IsDimension axis.now }
    requires index { IsIndex axis.now.size labels.now }
    ensures { (axes : List Dimension) (coords : List Other) → IsThere axes axis.now → AnswersCoord axes coords result (of.list_as_array coords axis.now labels.now labels.now.list) }
{
    match &labels.list {
        LabelList::Numbers(kind, numbers) => {
            let coord = label_coord(alloc, axis, &labels.attrs, *kind, numbers)?;
            Ok(coord)
        }
        _ => Err(CallFault::Refused(Fault::WrongKind)),
    }
}

fn index_coord(alloc: Global, axis: &Axis) -> Result<Coord, CallFault>
    requires { IsDimension axis.now }
    ensures { (axes : List Dimension) (coords : List Other) → IsThere axes axis.now → AnswersCoord axes coords result (of.index_as_array coords axis.now) }
{
    match &axis.labels {
        Some(labels) => list_coord(alloc, axis, labels),
        None => Err(CallFault::Refused(Fault::NoVariable(axis.name.deep_copy(alloc)?))),
    }
}

fn find_coord<'a>(coords: &'a [Coord], name: &TextBytes) -> Option<&'a Coord>
    ensures { option_copied result ≡ find (λ (c : Other). bytes_eq c.name name.now) coords.now }
{
    coords.iter().find(|coord| coord.name.is(name))
}

fn find_index<'a>(axes: &'a [Axis], name: &TextBytes) -> Option<&'a Axis>
    ensures { option_copied result ≡ find (of.is_labelled_as name.now) axes.now }
{
    axes.iter()
        .find(|axis| axis.name.is(name) && axis.labels.is_some())
}

// What isn't loaded has a fault of its own.
fn not_there(alloc: Global, skipped: &[Name], name: &TextBytes) -> Result<Fault, AllocError>
    ensures { IfOk result (λ f. f ≡ (if among skipped.now name.now then NotLoaded name.now else NoVariable name.now)) }
{
    let name_again = name.deep_copy(alloc)?;
    if is_among(skipped, name) {
        Ok(Fault::NotLoaded(name_again))
    } else {
        Ok(Fault::NoVariable(name_again))
    }
}

// The coordinate of a name, or the index as one.
#[tactic(auto, using(crate::proofs::Picked::index_there))]
fn part_called(
    alloc: Global,
    axes: &[Axis],
    coords: &[Coord],
    skipped: &[Name],
    name: &TextBytes,
) -> Result<Coord, CallFault>
    requires { IsFrame axes.now coords.now }
    ensures { AnswersCoord axes.now coords.now result (other_part axes.now coords.now skipped.now name.now) }
{
    if let Some(coord) = find_coord(coords, name) {
        return Ok(copy_coord(alloc, coord)?);
    }
    match find_index(axes, name) {
        Some(axis) => index_coord(alloc, axis),
        None => Err(CallFault::Refused(not_there(alloc, skipped, name)?)),
    }
}

// What isn't a data variable, over a node with its cells, with the coordinates beside it.
fn pick_part(
    alloc: Global,
    plan: &mut Plan,
    axes: &[Axis],
    coords: &[Coord],
    skipped: &[Name],
    name: &TextBytes,
) -> Result<DataArray, CallFault>
    requires { IsFrame axes.now coords.now }
    ensures answers { AnswersArray plan.new result (other_part axes.now coords.now skipped.now name.now) }
    ensures grows { Grows plan.old plan.new }
    ensures room { IfOk result (λ b. AddsForAny plan.old plan.new (array_in plan.new b)) }
{
    let coord = part_called(alloc, axes, coords, skipped, name)?;
    let Coord {
        name,
        axes,
        attrs,
        content,
    } = coord;
    match content {
        Content::Cells(cells, masked) => {
            let coords = coords_over(alloc, axes.as_slice(), coords)?;
            let kind = cells.kind();
            let node = plan.push(Node::Source { cells })?;
            Ok(DataArray {
                name: Some(name),
                axes,
                kind,
                masked,
                attrs,
                coords,
                node,
            })
        }
        Content::Text(_text) => Err(CallFault::Refused(Fault::WrongKind)),
        Content::Time(_coding, _seconds) => Err(CallFault::Refused(Fault::WrongKind)),
    }
}

/// A data variable, a coordinate or an index of a dataset as an array, with the coordinates whose dimensions are all among
/// its own. A coordinate's cells are those of a node that is added to the plan.
///
/// # Errors
/// `WrongKind` for a coordinate or an index of texts or times; `NotLoaded` for a variable that wasn't loaded, and
/// `NoVariable` for any other name.
#[tactic(auto, using(crate::proofs::Picked::not_called, plan_core::proofs::Added::adds_none))]
pub fn pick_of_set(
    alloc: Global,
    plan: &mut Plan,
    on: &Dataset,
    name: &TextBytes,
) -> Result<DataArray, CallFault>
    requires { IsDatasetIn plan.old on.now }
    ensures answers { AnswersArray plan.new result (of.picked_of_set (dataset_in plan.old on.now) name.now) }
    ensures grows { Grows plan.old plan.new }
    ensures room { IfOk result (λ b. AddsAtMost plan.old plan.new (room (of_set (dataset_in plan.old on.now) ∷ of_array (array_in plan.new b) ∷ []))) }
{
    match on.vars.named(name) {
        Some(variable) => Ok(variable_as_array(alloc, on, variable)?),
        None => pick_part(
            alloc,
            plan,
            on.axes.as_slice(),
            on.coords.as_slice(),
            on.skipped.as_slice(),
            name,
        ),
    }
}

/// A coordinate or an index of an array as an array, with the coordinates whose dimensions are all among its own. Its cells
/// are those of a node that is added to the plan.
///
/// # Errors
/// `WrongKind` for one of texts or times; `NoVariable` for any other name.
#[tactic(auto, unfolding(xr_defs::specs::Parts::picked_of_array))]
pub fn pick_of_array(
    alloc: Global,
    plan: &mut Plan,
    on: &DataArray,
    name: &TextBytes,
) -> Result<DataArray, CallFault>
    requires { IsArrayIn plan.old on.now }
    ensures answers { AnswersArray plan.new result (of.picked_of_array (array_in plan.old on.now) name.now) }
    ensures grows { Grows plan.old plan.new }
    ensures room { IfOk result (λ b. AddsAtMost plan.old plan.new (room (of_array (array_in plan.old on.now) ∷ of_array (array_in plan.new b) ∷ []))) }
{
    pick_part(
        alloc,
        plan,
        on.axes.as_slice(),
        on.coords.as_slice(),
        &[],
        name,
    )
}
