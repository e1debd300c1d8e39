//! The axis along which values are put together.
ghost use Rattle.std.specs.Prelude.{◌≡◌, ◌++◌, ◌∷◌, [], true, List, Some, find, flat_map, length, map, option_copied, option_map, sum, IfOk, OnOk};
ghost use Rattle.std.specs.Str.{bytes_eq};
ghost use Rattle.xr_arrays.specs.Arrays.{hidden};
ghost use Rattle.xr_arrays.specs.declared.node.Node.{Node};
ghost use Rattle.xr_types.specs.declared.axis.Axis.{Axis as AnAxis};
ghost use Rattle.xr_types.specs.Results.{Answers};
ghost use Rattle.xr_defs.specs.Building as building;
ghost use Rattle.xr_defs.specs.Selecting as selecting;
ghost use Rattle.xr_defs.specs.declared.value.Content.TheVariants as contents;
ghost use Rattle.xr_defs.specs.declared.value.Coord.{Coord as ACoord};
ghost use Rattle.xr_operations.specs.Alignment as alignment;
ghost use Rattle.xr_combination.specs.Concat as calls;
ghost use Rattle.xr_combination.specs.Pieces.{coords_called};
ghost use Rattle.xr_values.specs.Stands.{dataset_in};
ghost use Rattle.xr_chaining.specs.Joining.{axes_along, first_label, hides};

use crate::dimension::has_axis;
use crate::labels::{index_along, index_of_scalars};
use std::alloc::{AllocError, Global};
use stored_cells::as_typed;
use xr_arrays::ArrayValue;
use xr_defs::{Content, Coord};
use xr_types::{
    Axis, CallFault, DType, DeepCopy, Integers, Items, LabelList, Labels, Name, NoMemory, Shared,
    TextBytes, TimeCoding,
};
use xr_values::{Dataset, integers_of};

// ---- a dimension that all have

fn push_indexes<'a>(out: &mut Items<&'a Labels>, axes: &[&'a Axis]) -> Result<(), AllocError>
    ensures { OnOk result (map (λ l. l.now) out.new ≡ map (λ l. l.now) out.old ++ alignment.indexes (map (λ x. x.now) axes.now)) }
{
    match axes {
        [] => Ok(()),
        [axis, rest @ ..] => {
            if let Some(labels) = &axis.labels {
                out.push(labels)?;
            }
            push_indexes(out, rest)
        }
    }
}

fn indexes<'a>(alloc: Global, axes: &[&'a Axis]) -> Result<Items<&'a Labels>, AllocError>
    ensures { IfOk result (λ ls. map (λ l. l.now) ls ≡ alignment.indexes (map (λ x. x.now) axes.now)) }
{
    let mut out = Items::new(alloc);
    push_indexes(&mut out, axes)?;
    Ok(out)
}

// Sizes past 64 bits, which nothing holds, want memory.
fn size_of_all(axes: &[&Axis]) -> Result<u64, NoMemory>
    ensures { IfOk result (λ n. n ≡ sum (map (λ (x : AnAxis). x.size) (map (λ x. x.now) axes.now))) }
{
    match axes {
        [] => Ok(0),
        [axis, rest @ ..] => {
            let behind = size_of_all(rest)?;
            match axis.size.checked_add(behind) {
                Some(size) => Ok(size),
                None => Err(NoMemory),
            }
        }
    }
}

fn axis_with(
    alloc: Global,
    dim: &Name,
    size: u64,
    labels: Option<Labels>,
) -> Result<Axis, AllocError>
    ensures { IfOk result (λ x. x ≡ record { name = dim.now; size = size; labels = labels }) }
{
    let name = dim.deep_copy(alloc)?;
    Ok(Axis { name, size, labels })
}

#[tactic(auto, unfolding(xr_combination::specs::Concat::chained_axis))]
fn chained_axis(alloc: Global, dim: &Name, axes: &[&Axis]) -> Result<Axis, CallFault>
    ensures { Answers (λ x. x) result (calls.chained_axis dim.now (map (λ x. x.now) axes.now)) }
{
    let labelled = indexes(alloc, axes)?;
    let labels = index_along(alloc, axes.len(), labelled.as_slice())?;
    let size = size_of_all(axes)?;
    let axis = axis_with(alloc, dim, size, labels)?;
    Ok(axis)
}

/// The axis of a name. One that isn't there wants memory.
#[tactic(auto, using(xr_parts::proofs::Axes::called_here, xr_parts::proofs::Axes::called_on))]
pub fn axis_called<'a>(axes: &'a [Axis], name: &Name) -> Result<&'a Axis, NoMemory>
    ensures { IfOk result (λ x. x.now ≡ selecting.axis_called axes.now name.now) }
{
    match axes {
        [] => Err(NoMemory),
        [axis, rest @ ..] => {
            if axis.name.is(name) {
                Ok(axis)
            } else {
                axis_called(rest, name)
            }
        }
    }
}

fn push_along<'a>(
    out: &mut Items<&'a Axis>,
    dim: &Name,
    sets: &'a [Dataset],
) -> Result<(), NoMemory>
    ensures { (nodes : List Node) → OnOk result (map (λ x. x.now) out.new ≡ map (λ x. x.now) out.old ++ axes_along dim.now (map (dataset_in nodes) sets.now)) }
{
    match sets {
        [] => Ok(()),
        [set, rest @ ..] => {
            let axis = axis_called(set.axes.as_slice(), dim)?;
            out.push(axis)?;
            push_along(out, dim, rest)
        }
    }
}

fn all_along<'a>(
    alloc: Global,
    dim: &Name,
    sets: &'a [Dataset],
) -> Result<Items<&'a Axis>, NoMemory>
    ensures { (nodes : List Node) → IfOk result (λ xs. map (λ x. x.now) xs ≡ axes_along dim.now (map (dataset_in nodes) sets.now)) }
{
    let mut out = Items::new(alloc);
    push_along(&mut out, dim, sets)?;
    Ok(out)
}

fn axis_along(alloc: Global, dim: &Name, sets: &[Dataset]) -> Result<Axis, CallFault>
    ensures { (nodes : List Node) → Answers (λ x. x) result (calls.axis_along dim.now (map (dataset_in nodes) sets.now)) }
{
    let axes = all_along(alloc, dim, sets)?;
    chained_axis(alloc, dim, axes.as_slice())
}

// ---- a new dimension

fn is_integer_kind(kind: DType) -> bool
    ensures { result ≡ building.is_integer_kind kind }
{
    match kind {
        DType::Bool | DType::Char => false,
        DType::Int8 | DType::Int16 | DType::Int32 | DType::Int64 => true,
        DType::UInt8 | DType::UInt16 | DType::UInt32 | DType::UInt64 => true,
    }
}

fn is_hidden(mask: &[u8]) -> bool
    ensures { result ≡ hides mask.now }
{
    match mask {
        [] => true,
        [byte, ..] => *byte != 0,
    }
}

// The label that a number is, unless it is hidden.
#[tactic(auto, using(crate::proofs::Scalars::bare_label, crate::proofs::Scalars::shown_label, crate::proofs::Scalars::hidden_label))]
fn label_shown(kind: DType, numbers: Integers, mask: Option<&Items<u8>>) -> Option<LabelList>
    requires integer { building.is_integer_kind kind ≡ true }
    requires one { length numbers ≡ 1 }
    ensures { result ≡ first_label kind (hidden numbers (option_copied mask.entry)) }
{
    match mask {
        None => Some(LabelList::Numbers(kind, numbers)),
        Some(bytes) => {
            if is_hidden(bytes.as_slice()) {
                None
            } else {
                Some(LabelList::Numbers(kind, numbers))
            }
        }
    }
}

// More numbers than one, which no scalar has, want memory.
#[tactic(auto, using(crate::proofs::Scalars::no_label))]
fn number_list(alloc: Global, cells: &ArrayValue) -> Result<Option<LabelList>, AllocError>
    ensures { IfOk result (λ l. l ≡ first_label cells.now.kind cells.now.cells) }
{
    let kind = cells.kind();
    if !is_integer_kind(kind) {
        return Ok(None);
    }
    let typed = as_typed(alloc, cells)?;
    let (all, mask) = typed.parts();
    let numbers = integers_of(alloc, all)?;
    if numbers.len() != 1 {
        return Err(AllocError);
    }
    Ok(label_shown(kind, numbers, mask))
}

fn text_list(alloc: Global, text: &TextBytes) -> Result<LabelList, AllocError>
    ensures { IfOk result (λ l. Some l ≡ calls.scalar_list (contents.Text text.now)) }
{
    let mut texts = Items::new(alloc);
    texts.push(text.deep_copy(alloc)?)?;
    Ok(LabelList::Texts(Shared::of(alloc, texts)?))
}

fn time_list(alloc: Global, coding: &TimeCoding, time: i64) -> Result<LabelList, AllocError>
    ensures { IfOk result (λ l. Some l ≡ calls.scalar_list (contents.Time coding.now time)) }
{
    let mut times = Items::new(alloc);
    times.push(time)?;
    let times = Shared::of(alloc, times)?;
    Ok(LabelList::Times(coding.deep_copy(alloc)?, times))
}

#[tactic(auto, unfolding(crate::specs::Joining::first_label))]
fn scalar_list(alloc: Global, content: &Content) -> Result<Option<LabelList>, AllocError>
    ensures { IfOk result (λ l. l ≡ calls.scalar_list content.now) }
{
    match content {
        Content::Cells(cells, _) => number_list(alloc, cells),
        Content::Text(text) => Ok(Some(text_list(alloc, text)?)),
        Content::Time(coding, time) => Ok(Some(time_list(alloc, coding, *time)?)),
    }
}

fn push_scalar(alloc: Global, out: &mut Items<Labels>, coord: &Coord) -> Result<(), AllocError>
    ensures { OnOk result (out.new ≡ out.old ++ calls.scalar_index coord.now) }
{
    match scalar_list(alloc, &coord.content)? {
        None => Ok(()),
        Some(list) => {
            let attrs = coord.attrs.deep_copy(alloc)?;
            out.push(Labels { list, attrs })
        }
    }
}

fn push_scalars(alloc: Global, out: &mut Items<Labels>, coords: &[&Coord]) -> Result<(), AllocError>
    ensures { OnOk result (out.new ≡ out.old ++ flat_map calls.scalar_index (map (λ c. c.now) coords.now)) }
{
    match coords {
        [] => Ok(()),
        [coord, rest @ ..] => {
            push_scalar(alloc, out, coord)?;
            push_scalars(alloc, out, rest)
        }
    }
}

fn scalars(alloc: Global, coords: &[&Coord]) -> Result<Items<Labels>, AllocError>
    ensures { IfOk result (λ ls. ls ≡ flat_map calls.scalar_index (map (λ c. c.now) coords.now)) }
{
    let mut out = Items::new(alloc);
    push_scalars(alloc, &mut out, coords)?;
    Ok(out)
}

fn push_each<'a>(out: &mut Items<&'a Labels>, labels: &'a [Labels]) -> Result<(), AllocError>
    ensures { OnOk result (map (λ l. l.now) out.new ≡ map (λ l. l.now) out.old ++ labels.now) }
{
    match labels {
        [] => Ok(()),
        [one, rest @ ..] => {
            out.push(one)?;
            push_each(out, rest)
        }
    }
}

fn each<'a>(alloc: Global, labels: &'a [Labels]) -> Result<Items<&'a Labels>, AllocError>
    ensures { IfOk result (λ ls. map (λ l. l.now) ls ≡ labels.now) }
{
    let mut out = Items::new(alloc);
    push_each(&mut out, labels)?;
    Ok(out)
}

fn axis_of_scalars(
    alloc: Global,
    dim: &Name,
    count: usize,
    coords: &[&Coord],
) -> Result<Axis, AllocError>
    ensures { IfOk result (λ x. x ≡ calls.axis_of_scalars dim.now count (map (λ c. c.now) coords.now)) }
{
    let indexes = scalars(alloc, coords)?;
    let indexes = each(alloc, indexes.as_slice())?;
    let labels = index_of_scalars(alloc, count, indexes.as_slice())?;
    axis_with(alloc, dim, count as u64, labels)
}

// ---- coordinates of a name

fn coord_called<'a>(coords: &'a [Coord], name: &Name) -> Option<&'a Coord>
    ensures { option_map (λ c. c.now) result ≡ find (λ (c : ACoord). bytes_eq c.name name.now) coords.now }
{
    match coords {
        [] => None,
        [coord, rest @ ..] => {
            if coord.name.is(name) {
                Some(coord)
            } else {
                coord_called(rest, name)
            }
        }
    }
}

fn push_found<'a>(
    out: &mut Items<&'a Coord>,
    name: &Name,
    set: &'a Dataset,
) -> Result<(), AllocError>
    ensures { (nodes : List Node) → OnOk result (map (λ c. c.now) out.new ≡ map (λ c. c.now) out.old ++ coords_called name.now (dataset_in nodes set.now ∷ [])) }
{
    match coord_called(set.coords.as_slice(), name) {
        None => Ok(()),
        Some(coord) => out.push(coord),
    }
}

fn push_called<'a>(
    out: &mut Items<&'a Coord>,
    name: &Name,
    sets: &'a [Dataset],
) -> Result<(), AllocError>
    ensures { (nodes : List Node) → OnOk result (map (λ c. c.now) out.new ≡ map (λ c. c.now) out.old ++ coords_called name.now (map (dataset_in nodes) sets.now)) }
{
    match sets {
        [] => Ok(()),
        [set, rest @ ..] => {
            push_found(out, name, set)?;
            push_called(out, name, rest)
        }
    }
}

/// The coordinates of a name, of each dataset that has one.
pub fn all_called<'a>(
    alloc: Global,
    name: &Name,
    sets: &'a [Dataset],
) -> Result<Items<&'a Coord>, AllocError>
    ensures { (nodes : List Node) → IfOk result (λ cs. map (λ c. c.now) cs ≡ coords_called name.now (map (dataset_in nodes) sets.now)) }
{
    let mut out = Items::new(alloc);
    push_called(&mut out, name, sets)?;
    Ok(out)
}

// ---- the axis

fn new_axis(alloc: Global, dim: &Name, sets: &[Dataset]) -> Result<Axis, AllocError>
    ensures { (nodes : List Node) → IfOk result (λ x. x ≡ calls.new_axis dim.now (map (dataset_in nodes) sets.now)) }
{
    let coords = all_called(alloc, dim, sets)?;
    axis_of_scalars(alloc, dim, sets.len(), coords.as_slice())
}

/// Whether a dimension is new: the first dataset hasn't got it.
pub fn is_new(dim: &Name, sets: &[Dataset]) -> bool
    ensures { (nodes : List Node) → result ≡ calls.is_new dim.now (map (dataset_in nodes) sets.now) }
{
    match sets {
        [] => true,
        [first, ..] => !has_axis(first.axes.as_slice(), dim),
    }
}

/// The axis along which datasets are put together. One of a new dimension has as many positions as there are datasets, and the
/// labels that their scalar coordinates of its name give.
///
/// # Errors
/// Along a dimension that is there, `LabelKind` where some have labels and others don't, and for labels of two kinds; then
/// `WouldPromote` for whole numbers that aren't promoted to one kind.
#[tactic(auto, unfolding(xr_combination::specs::Concat::joining_axis))]
pub fn joining_axis(alloc: Global, dim: &Name, sets: &[Dataset]) -> Result<Axis, CallFault>
    ensures { (nodes : List Node) → Answers (λ x. x) result (calls.joining_axis dim.now (map (dataset_in nodes) sets.now)) }
{
    if is_new(dim, sets) {
        let axis = new_axis(alloc, dim, sets)?;
        Ok(axis)
    } else {
        axis_along(alloc, dim, sets)
    }
}
