//! Running sums of arrays.
ghost use Rattle.std.specs.Prelude.{◌≡◌, ◌<◌, ◌≤◌, length, map, IfOk, IfSome, option_map};
ghost use Rattle.xr_types.specs.Points.{size};
ghost use Rattle.xr_types.specs.declared.operation.FoldKind.TheVariants.{Sum};
ghost use Rattle.xr_arrays.specs.Arrays.{hidden, IsArray};
ghost use Rattle.xr_arrays.specs.Nodes.{scanned, most_node_cells};
ghost use Rattle.xr_arrays.specs.Stored.{stored_array, IsStored};
ghost use Rattle.row_folds.specs.Rows.{array_of};

use crate::running::scan_source;
use crate::source::{Masked, Stored, Whole};
use std::alloc::{AllocError, Global};
use stored_cells::{Fills, NoFill, OneFill, decoded};
use xr_arrays::{ArrayValue, Cells, Form, StoredArray, TypedArray};
use xr_types::{DType, Elem, Items, NcType};

fn scan_slice<T: Elem>(
    alloc: Global,
    kind: DType,
    shape: &[u64],
    axis: usize,
    cells: &[T],
    mask: Option<&Items<u8>>,
) -> Result<ArrayValue, AllocError>
    requires axis { axis < length shape.now }
    requires mask { IfSome mask (λ m. length m.now ≡ length cells.now) }
    requires whole { length cells.now ≡ size shape.now }
    requires few { size shape.now ≤ most_node_cells }
    ensures { IfOk result (λ b. b ≡ scanned Sum (array_of kind shape.now (hidden (map T.number cells.now) (option_map (λ m. m.now) mask.entry))) axis) }
{
    match mask {
        Some(mask) => {
            let mask = mask.as_slice();
            scan_source(alloc, kind, shape, axis, Masked { cells, mask })
        }
        None => scan_source(alloc, kind, shape, axis, Whole { cells }),
    }
}

fn scan_typed(
    alloc: Global,
    shape: &[u64],
    axis: usize,
    typed: &TypedArray,
) -> Result<ArrayValue, AllocError>
    requires array { IsArray typed.now }
    requires shape { typed.now.shape ≡ shape.now }
    requires axis { axis < length shape.now }
    requires few { size shape.now ≤ most_node_cells }
    ensures { IfOk result (λ b. b ≡ scanned Sum typed.now axis) }
{
    let (cells, mask) = typed.parts();
    match cells {
        Cells::Bool(v) => scan_slice(alloc, DType::Bool, shape, axis, v.as_slice(), mask),
        Cells::Char(v) => scan_slice(alloc, DType::Char, shape, axis, v.as_slice(), mask),
        Cells::Int8(v) => scan_slice(alloc, DType::Int8, shape, axis, v.as_slice(), mask),
        Cells::Int16(v) => scan_slice(alloc, DType::Int16, shape, axis, v.as_slice(), mask),
        Cells::Int32(v) => scan_slice(alloc, DType::Int32, shape, axis, v.as_slice(), mask),
        Cells::Int64(v) => scan_slice(alloc, DType::Int64, shape, axis, v.as_slice(), mask),
        Cells::UInt8(v) => scan_slice(alloc, DType::UInt8, shape, axis, v.as_slice(), mask),
        Cells::UInt16(v) => scan_slice(alloc, DType::UInt16, shape, axis, v.as_slice(), mask),
        Cells::UInt32(v) => scan_slice(alloc, DType::UInt32, shape, axis, v.as_slice(), mask),
        Cells::UInt64(v) => scan_slice(alloc, DType::UInt64, shape, axis, v.as_slice(), mask),
    }
}

// The running sums of numbers as a file stores them, of which some stand for missing cells.
fn scan_numbers<F: Fills + Drop>(
    alloc: Global,
    kind: NcType,
    shape: &[u64],
    axis: usize,
    bytes: &[u8],
    fills: F,
) -> Result<ArrayValue, AllocError>
    requires stored { IsStored shape.now kind bytes.now }
    requires array { IsArray (stored_array shape.now kind bytes.now (F.numbers fills)) }
    requires axis { axis < length shape.now }
    requires few { size shape.now ≤ most_node_cells }
    ensures { IfOk result (λ b. b ≡ scanned Sum (stored_array shape.now kind bytes.now (F.numbers fills)) axis) }
{
    let source = Stored { bytes, fills };
    match kind {
        NcType::Byte => scan_source::<i8, Stored<'_, F>>(alloc, DType::Int8, shape, axis, source),
        NcType::Char => scan_source::<u8, Stored<'_, F>>(alloc, DType::Char, shape, axis, source),
        NcType::Short => scan_source::<i16, Stored<'_, F>>(
            alloc,
            DType::Int16,
            shape,
            axis,
            source,
        ),
        NcType::Int => scan_source::<i32, Stored<'_, F>>(alloc, DType::Int32, shape, axis, source),
        NcType::UByte => scan_source::<u8, Stored<'_, F>>(alloc, DType::UInt8, shape, axis, source),
        NcType::UShort => scan_source::<u16, Stored<'_, F>>(
            alloc,
            DType::UInt16,
            shape,
            axis,
            source,
        ),
        NcType::UInt => scan_source::<u32, Stored<'_, F>>(
            alloc,
            DType::UInt32,
            shape,
            axis,
            source,
        ),
        NcType::Int64 => scan_source::<i64, Stored<'_, F>>(
            alloc,
            DType::Int64,
            shape,
            axis,
            source,
        ),
        NcType::UInt64 => scan_source::<u64, Stored<'_, F>>(
            alloc,
            DType::UInt64,
            shape,
            axis,
            source,
        ),
        // An array of these has no cells that are whole numbers.
        NcType::Float | NcType::Double => unreachable!(),
    }
}

// The running sums of an array as a file stores it. Where one number at most stands for missing cells nothing is decoded into
// memory.
fn scan_stored(
    alloc: Global,
    shape: &[u64],
    axis: usize,
    array: &StoredArray,
) -> Result<ArrayValue, AllocError>
    requires array { IsArray array.now }
    requires shape { array.now.shape ≡ shape.now }
    requires axis { axis < length shape.now }
    requires few { size shape.now ≤ most_node_cells }
    ensures { IfOk result (λ b. b ≡ scanned Sum array.now axis) }
{
    let parts = array.parts();
    match parts.fills {
        [] => {
            let raw = parts.pieces.bytes(alloc, parts.kind)?;
            scan_numbers(alloc, parts.kind, shape, axis, raw.as_slice(), NoFill)
        }
        [fill] => {
            let raw = parts.pieces.bytes(alloc, parts.kind)?;
            let fills = OneFill { fill: *fill };
            scan_numbers(alloc, parts.kind, shape, axis, raw.as_slice(), fills)
        }
        _ => {
            let typed = decoded(alloc, array)?;
            scan_typed(alloc, shape, axis, &typed)
        }
    }
}

/// At each position of an axis the sum of the cells up to it.
pub fn scan(alloc: Global, a: &ArrayValue, axis: usize) -> Result<ArrayValue, AllocError>
    requires array { IsArray a.now }
    requires axis { axis < length a.now.shape }
    requires few { size a.now.shape ≤ most_node_cells }
    ensures { IfOk result (λ b. b ≡ scanned Sum a.now axis) }
{
    match a.form() {
        Form::Typed(array) => scan_typed(alloc, a.shape(), axis, array),
        Form::Stored(array) => scan_stored(alloc, a.shape(), axis, array),
    }
}
