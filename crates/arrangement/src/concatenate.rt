//! Arrays put one after the other.
ghost use Rattle.std.specs.Prelude.{◌≡◌, ◌<◌, ◌+◌, ◌++◌, ◌^◌, [], length, map, flat_map, get_or, ◌≤◌, Option, Some, None, All, IfOk, IfSome, option_map};
ghost use Rattle.xr_types.specs.Kinds.{InRange};
ghost use Rattle.xr_types.specs.declared.kind.DType.TheVariants.{Bool};
ghost use Rattle.xr_types.specs.Points.{size};
ghost use Rattle.xr_arrays.specs.Arrays.{hidden, wide, kind_of, InKind};
ghost use Rattle.xr_arrays.specs.Nodes.{Continues, concatenated, first_array, most_node_cells};
ghost use Rattle.plan_core.specs.Concats.{joined_mask, row_of};

use crate::arrange::rearrange;
use crate::join::Joining;
use crate::shapes::size_of;
use crate::taking::push_holes;
use crate::typed::Typed;
use std::alloc::{AllocError, Global};
use stored_cells::as_typed;
use xr_arrays::{ArrayValue, Cells};
use xr_types::{DType, Items};

// Cells so far, with a mask where one of their arrays has one.
#[derive(Drop)]
struct Gathered<T> {
    cells: Items<T>,
    mask: Option<Items<u8>>,
}

// The mask with that of so many cells more.
fn next_mask(
    alloc: Global,
    mask: Option<Items<u8>>,
    before: usize,
    count: usize,
    more: Option<&Items<u8>>,
) -> Result<Option<Items<u8>>, AllocError>
    requires { IfSome mask (λ m. length m ≡ before) }
    ensures { IfOk result (λ m. m ≡ joined_mask mask before count (option_map (λ m. m.now) more.entry)) }
{
    let mut bytes = match (mask, more) {
        (None, None) => return Ok(None),
        (None, Some(_)) => Vec::from_elem(alloc, 0u8, before)?,
        (Some(mask), _) => mask.into_vec(),
    };
    match more {
        Some(more) => bytes.extend_from_slice(more.as_slice())?,
        None => push_holes(&mut bytes, count, 0)?,
    }
    Ok(Some(Items::of(bytes)))
}

fn with_typed<T: Typed>(
    alloc: Global,
    so_far: Gathered<T>,
    typed: &stored_cells::Typed,
) -> Result<Gathered<T>, AllocError>
    requires kind { T.Keeps typed.now.kind }
    requires mask { IfSome so_far.mask (λ m. length m ≡ length so_far.cells) }
    ensures cells { IfOk result (λ g. hidden (map T.number g.cells) g.mask ≡ hidden (map T.number so_far.cells) so_far.mask ++ typed.now.cells) }
    ensures mask { IfOk result (λ g. IfSome g.mask (λ m. length m ≡ length g.cells)) }
    ensures whole { IfOk result (λ g. length typed.now.cells ≡ size typed.now.shape) }
    ensures truths { typed.now.kind ≡ Bool → All (λ x. InRange Bool (T.number x)) so_far.cells → IfOk result (λ g. All (λ x. InRange Bool (T.number x)) g.cells) }
{
    let (cells, mask) = typed.parts();
    let more = T::slice(cells);
    let mut all = so_far.cells.into_vec();
    let mask = next_mask(alloc, so_far.mask, all.len(), more.len(), mask)?;
    all.extend_from_slice(more)?;
    Ok(Gathered {
        cells: Items::of(all),
        mask,
    })
}

fn with_input<T: Typed>(
    alloc: Global,
    so_far: Gathered<T>,
    a: &ArrayValue,
) -> Result<Gathered<T>, AllocError>
    requires kind { T.Keeps a.now.kind }
    requires mask { IfSome so_far.mask (λ m. length m ≡ length so_far.cells) }
    ensures cells { IfOk result (λ g. hidden (map T.number g.cells) g.mask ≡ hidden (map T.number so_far.cells) so_far.mask ++ a.now.cells) }
    ensures mask { IfOk result (λ g. IfSome g.mask (λ m. length m ≡ length g.cells)) }
    ensures whole { IfOk result (λ g. length a.now.cells ≡ size a.now.shape) }
    ensures truths { a.now.kind ≡ Bool → All (λ x. InRange Bool (T.number x)) so_far.cells → IfOk result (λ g. All (λ x. InRange Bool (T.number x)) g.cells) }
{
    let typed = as_typed(alloc, a)?;
    with_typed(alloc, so_far, &typed)
}

fn gather<T: Typed>(
    alloc: Global,
    inputs: &[&ArrayValue],
    kind: DType,
) -> Result<Gathered<T>, AllocError>
    requires kind { T.Keeps kind }
    requires kinds { All (λ a. a.now.kind ≡ kind) inputs.now }
    ensures cells { IfOk result (λ g. hidden (map T.number g.cells) g.mask ≡ flat_map (λ a. a.now.cells) inputs.now) }
    ensures mask { IfOk result (λ g. IfSome g.mask (λ m. length m ≡ length g.cells)) }
    ensures whole { IfOk result (λ g. All (λ a. length a.now.cells ≡ size a.now.shape) inputs.now) }
    ensures truths { kind ≡ Bool → IfOk result (λ g. All (λ x. InRange Bool (T.number x)) g.cells) }
{
    let mut all = Gathered {
        cells: Items::new(alloc),
        mask: None,
    };
    for a in inputs {
        all = with_input(alloc, all, a)?;
    }
    Ok(all)
}

// An array of one axis.
fn in_a_row(
    alloc: Global,
    cells: Cells,
    count: usize,
    mask: Option<Items<u8>>,
) -> Result<ArrayValue, AllocError>
    requires count { count ≡ length (wide cells) }
    requires range { InKind cells }
    requires mask { IfSome mask (λ m. length m ≡ count) }
    ensures { IfOk result (λ a. a ≡ row_of (kind_of cells) (hidden (wide cells) mask)) }
{
    let shape = Items::from_slice(alloc, &[count as u64])?;
    Ok(ArrayValue::of(shape, cells, mask))
}

// The cells of all arrays, as an array of one axis.
fn one_after_the_other(
    alloc: Global,
    inputs: &[&ArrayValue],
    kind: DType,
) -> Result<ArrayValue, AllocError>
    requires kinds { All (λ a. a.now.kind ≡ kind) inputs.now }
    ensures cells { IfOk result (λ b. b ≡ row_of kind (flat_map (λ a. a.now.cells) inputs.now)) }
    ensures whole { IfOk result (λ b. All (λ a. length a.now.cells ≡ size a.now.shape) inputs.now) }
{
    match kind {
        DType::Bool => truths(alloc, inputs),
        DType::Char => {
            let all = gather::<u8>(alloc, inputs, kind)?;
            let count = all.cells.as_slice().len();
            in_a_row(alloc, Cells::Char(all.cells), count, all.mask)
        }
        DType::Int8 => {
            let all = gather::<i8>(alloc, inputs, kind)?;
            let count = all.cells.as_slice().len();
            in_a_row(alloc, Cells::Int8(all.cells), count, all.mask)
        }
        DType::Int16 => {
            let all = gather::<i16>(alloc, inputs, kind)?;
            let count = all.cells.as_slice().len();
            in_a_row(alloc, Cells::Int16(all.cells), count, all.mask)
        }
        DType::Int32 => {
            let all = gather::<i32>(alloc, inputs, kind)?;
            let count = all.cells.as_slice().len();
            in_a_row(alloc, Cells::Int32(all.cells), count, all.mask)
        }
        DType::Int64 => {
            let all = gather::<i64>(alloc, inputs, kind)?;
            let count = all.cells.as_slice().len();
            in_a_row(alloc, Cells::Int64(all.cells), count, all.mask)
        }
        DType::UInt8 => {
            let all = gather::<u8>(alloc, inputs, kind)?;
            let count = all.cells.as_slice().len();
            in_a_row(alloc, Cells::UInt8(all.cells), count, all.mask)
        }
        DType::UInt16 => {
            let all = gather::<u16>(alloc, inputs, kind)?;
            let count = all.cells.as_slice().len();
            in_a_row(alloc, Cells::UInt16(all.cells), count, all.mask)
        }
        DType::UInt32 => {
            let all = gather::<u32>(alloc, inputs, kind)?;
            let count = all.cells.as_slice().len();
            in_a_row(alloc, Cells::UInt32(all.cells), count, all.mask)
        }
        DType::UInt64 => {
            let all = gather::<u64>(alloc, inputs, kind)?;
            let count = all.cells.as_slice().len();
            in_a_row(alloc, Cells::UInt64(all.cells), count, all.mask)
        }
    }
}

fn truths(alloc: Global, inputs: &[&ArrayValue]) -> Result<ArrayValue, AllocError>
    requires kinds { All (λ a. a.now.kind ≡ Bool) inputs.now }
    ensures cells { IfOk result (λ b. b ≡ row_of Bool (flat_map (λ a. a.now.cells) inputs.now)) }
    ensures whole { IfOk result (λ b. All (λ a. length a.now.cells ≡ size a.now.shape) inputs.now) }
{
    let all = gather::<u8>(alloc, inputs, DType::Bool)?;
    let count = all.cells.as_slice().len();
    in_a_row(alloc, Cells::Bool(all.cells), count, all.mask)
}

// How many positions each array has along an axis.
fn positions(alloc: Global, inputs: &[&ArrayValue], axis: usize) -> Result<Vec<u64>, AllocError>
    ensures { IfOk result (λ v. v.items ≡ map (λ a. get_or a.now.shape axis 0) inputs.now) }
{
    let mut counts = Vec::new(alloc);
    for a in inputs {
        counts.push(size_of(a.shape(), axis))?;
    }
    Ok(counts)
}

/// The arrays one after the other along an axis.
pub fn concat(alloc: Global, inputs: &[&ArrayValue], axis: usize) -> Result<ArrayValue, AllocError>
    requires some { 0 < length inputs.now }
    requires axis { axis < length (first_array (map (λ a. a.now) inputs.now)).shape }
    requires each { All (λ a. Continues axis (first_array (map (λ a. a.now) inputs.now)) a.now) inputs.now }
    requires small { size (concatenated (map (λ a. a.now) inputs.now) axis).shape ≤ most_node_cells }
    ensures { IfOk result (λ b. b ≡ concatenated (map (λ a. a.now) inputs.now) axis) }
{
    let first = inputs[0];
    let counts = positions(alloc, inputs, axis)?;
    let all = one_after_the_other(alloc, inputs, first.kind())?;
    let joining = Joining {
        shape: first.shape(),
        axis,
        counts: &counts,
        cells: all.shape()[0],
    };
    rearrange(alloc, &all, &joining, None)
}
