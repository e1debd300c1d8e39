//! Folds of axes.
ghost use Rattle.std.specs.Prelude.{◌≡◌, ◌≤◌, ◌++◌, ℤ, List, length, map, Option, IfOk, OnOk, All, IfSome, option_map};
ghost use Rattle.xr_types.specs.Points.{size};
ghost use Rattle.xr_arrays.specs.Arrays.{hidden, kind_of, wide, IsArray, IsCell};
ghost use Rattle.xr_arrays.specs.Nodes.{kept, folded, AreFed, most_node_cells};
ghost use Rattle.xr_arrays.specs.Pieces.{together, values_in, AreInside};
ghost use Rattle.xr_arrays.specs.Stored.{stored_array, IsStored};
ghost use Rattle.row_folds.specs.Rows.{array_of, kept_one, IsFolding};
ghost use Rattle.row_folds.specs.Runs.{ArePart};

use crate::celled::Celled;
use crate::folded::folded;
use crate::sizes::points;
use crate::source::{InPieces, Masked, Whole};
use std::alloc::{AllocError, Global};
use stored_cells::{Fills, NoFill, OneFill, decoded};
use xr_arrays::{ArrayValue, Cells, Feed, Form, Pieces, Run, StoredArray, TypedArray};
use xr_types::{DType, FoldKind, Items, NcType};

fn push_kept(sizes: &mut Vec<u64>, feed: &Feed, size: u64) -> Result<(), AllocError>
    ensures { OnOk result (sizes.new.items ≡ sizes.old.items ++ kept_one feed.now size) }
{
    match feed {
        Feed::Keep => sizes.push(size)?,
        Feed::By(lists) => sizes.push(lists.len())?,
        Feed::All => {}
    }
    Ok(())
}

// The sizes of the axes that stay.
fn kept_sizes(alloc: Global, feeds: &[Feed], shape: &[u64]) -> Result<Vec<u64>, AllocError>
    requires { length feeds.now ≡ length shape.now }
    ensures { IfOk result (λ v. v.items ≡ kept feeds.now shape.now) }
{
    let mut sizes = Vec::new(alloc);
    for i in 0..feeds.len() {
        push_kept(&mut sizes, &feeds[i], shape[i])?;
    }
    Ok(sizes)
}

fn fold_slice<T: Celled>(
    alloc: Global,
    fold: FoldKind,
    kind: DType,
    feeds: &[Feed],
    shape: &[u64],
    sizes: &[u64],
    cells: &[T],
    mask: Option<&Items<u8>>,
) -> Result<ArrayValue, AllocError>
    requires mask { IfSome mask (λ m. length m.now ≡ length cells.now) }
    requires folding { IsFolding feeds.now shape.now sizes.now (length cells.now) }
    requires range { All (IsCell kind) (hidden (map T.number cells.now) (option_map (λ m. m.now) mask)) }
    requires keeps { T.Keeps kind }
    ensures { IfOk result (λ b. b ≡ folded fold feeds.now (array_of kind shape.now (hidden (map T.number cells.now) (option_map (λ m. m.now) mask.entry)))) }
{
    match mask {
        Some(mask) => {
            let mask = mask.as_slice();
            folded(
                alloc,
                fold,
                kind,
                feeds,
                shape,
                sizes,
                Masked { cells, mask },
            )
        }
        None => folded(alloc, fold, kind, feeds, shape, sizes, Whole { cells }),
    }
}

fn fold_typed(
    alloc: Global,
    fold: FoldKind,
    feeds: &[Feed],
    shape: &[u64],
    sizes: &[u64],
    typed: &TypedArray,
) -> Result<ArrayValue, AllocError>
    requires array { IsArray typed.now }
    requires shape { typed.now.shape ≡ shape.now }
    requires folding { IsFolding feeds.now shape.now sizes.now (size shape.now) }
    ensures { IfOk result (λ b. b ≡ folded fold feeds.now typed.now) }
{
    let (cells, mask) = typed.parts();
    match cells {
        Cells::Bool(v) => fold_slice(
            alloc,
            fold,
            DType::Bool,
            feeds,
            shape,
            sizes,
            v.as_slice(),
            mask,
        ),
        Cells::Char(v) => fold_slice(
            alloc,
            fold,
            DType::Char,
            feeds,
            shape,
            sizes,
            v.as_slice(),
            mask,
        ),
        Cells::Int8(v) => fold_slice(
            alloc,
            fold,
            DType::Int8,
            feeds,
            shape,
            sizes,
            v.as_slice(),
            mask,
        ),
        Cells::Int16(v) => fold_slice(
            alloc,
            fold,
            DType::Int16,
            feeds,
            shape,
            sizes,
            v.as_slice(),
            mask,
        ),
        Cells::Int32(v) => fold_slice(
            alloc,
            fold,
            DType::Int32,
            feeds,
            shape,
            sizes,
            v.as_slice(),
            mask,
        ),
        Cells::Int64(v) => fold_slice(
            alloc,
            fold,
            DType::Int64,
            feeds,
            shape,
            sizes,
            v.as_slice(),
            mask,
        ),
        Cells::UInt8(v) => fold_slice(
            alloc,
            fold,
            DType::UInt8,
            feeds,
            shape,
            sizes,
            v.as_slice(),
            mask,
        ),
        Cells::UInt16(v) => fold_slice(
            alloc,
            fold,
            DType::UInt16,
            feeds,
            shape,
            sizes,
            v.as_slice(),
            mask,
        ),
        Cells::UInt32(v) => fold_slice(
            alloc,
            fold,
            DType::UInt32,
            feeds,
            shape,
            sizes,
            v.as_slice(),
            mask,
        ),
        Cells::UInt64(v) => fold_slice(
            alloc,
            fold,
            DType::UInt64,
            feeds,
            shape,
            sizes,
            v.as_slice(),
            mask,
        ),
    }
}

// The first values of an array, if it has any.
fn first_run<'a>(pieces: &'a Pieces, kind: NcType, shape: &[u64]) -> Run<'a>
    requires inside { AreInside kind pieces.now }
    requires stored { IsStored shape.now kind (together kind pieces.now) }
    ensures within { result.count ≤ values_in pieces.now }
    ensures part { ArePart kind (together kind pieces.now) result.bytes.now 0 result.count }
{
    if points(shape) == 0 {
        return Run {
            bytes: &[],
            count: 0,
        };
    }
    pieces.run(kind, 0)
}

// The fold of numbers as a file stores them, of which some stand for missing cells.
fn fold_numbers<F: Fills + Drop>(
    alloc: Global,
    fold: FoldKind,
    kind: NcType,
    feeds: &[Feed],
    shape: &[u64],
    sizes: &[u64],
    pieces: &Pieces,
    fills: F,
) -> Result<ArrayValue, AllocError>
    requires inside { AreInside kind pieces.now }
    requires stored { IsStored shape.now kind (together kind pieces.now) }
    requires array { IsArray (stored_array shape.now kind (together kind pieces.now) (F.numbers fills)) }
    requires folding { IsFolding feeds.now shape.now sizes.now (size shape.now) }
    ensures { IfOk result (λ b. b ≡ folded fold feeds.now (stored_array shape.now kind (together kind pieces.now) (F.numbers fills))) }
{
    let source = InPieces {
        pieces,
        kind,
        first: first_run(pieces, kind, shape),
        fills,
    };
    match kind {
        NcType::Byte => folded::<i8, InPieces<'_, F>>(
            alloc,
            fold,
            DType::Int8,
            feeds,
            shape,
            sizes,
            source,
        ),
        NcType::Char => folded::<u8, InPieces<'_, F>>(
            alloc,
            fold,
            DType::Char,
            feeds,
            shape,
            sizes,
            source,
        ),
        NcType::Short => folded::<i16, InPieces<'_, F>>(
            alloc,
            fold,
            DType::Int16,
            feeds,
            shape,
            sizes,
            source,
        ),
        NcType::Int => folded::<i32, InPieces<'_, F>>(
            alloc,
            fold,
            DType::Int32,
            feeds,
            shape,
            sizes,
            source,
        ),
        NcType::UByte => folded::<u8, InPieces<'_, F>>(
            alloc,
            fold,
            DType::UInt8,
            feeds,
            shape,
            sizes,
            source,
        ),
        NcType::UShort => folded::<u16, InPieces<'_, F>>(
            alloc,
            fold,
            DType::UInt16,
            feeds,
            shape,
            sizes,
            source,
        ),
        NcType::UInt => folded::<u32, InPieces<'_, F>>(
            alloc,
            fold,
            DType::UInt32,
            feeds,
            shape,
            sizes,
            source,
        ),
        NcType::Int64 => folded::<i64, InPieces<'_, F>>(
            alloc,
            fold,
            DType::Int64,
            feeds,
            shape,
            sizes,
            source,
        ),
        NcType::UInt64 => folded::<u64, InPieces<'_, F>>(
            alloc,
            fold,
            DType::UInt64,
            feeds,
            shape,
            sizes,
            source,
        ),
        // An array of these has no cells that are whole numbers.
        NcType::Float | NcType::Double => unreachable!(),
    }
}

// The fold of an array as a file stores it. Where one number at most stands for missing cells nothing is decoded into memory.
fn fold_stored(
    alloc: Global,
    fold: FoldKind,
    feeds: &[Feed],
    shape: &[u64],
    sizes: &[u64],
    array: &StoredArray,
) -> Result<ArrayValue, AllocError>
    requires array { IsArray array.now }
    requires shape { array.now.shape ≡ shape.now }
    requires folding { IsFolding feeds.now shape.now sizes.now (size shape.now) }
    ensures { IfOk result (λ b. b ≡ folded fold feeds.now array.now) }
{
    let parts = array.parts();
    let pieces = parts.pieces;
    match parts.fills {
        [] => fold_numbers(alloc, fold, parts.kind, feeds, shape, sizes, pieces, NoFill),
        [fill] => {
            let fills = OneFill { fill: *fill };
            fold_numbers(alloc, fold, parts.kind, feeds, shape, sizes, pieces, fills)
        }
        _ => {
            let typed = decoded(alloc, array)?;
            fold_typed(alloc, fold, feeds, shape, sizes, &typed)
        }
    }
}

/// The fold of the cells that agree along the axes that are kept.
pub fn fold(
    alloc: Global,
    fold: FoldKind,
    a: &ArrayValue,
    feeds: &[Feed],
) -> Result<ArrayValue, AllocError>
    requires array { IsArray a.now }
    requires feeds { length feeds.now ≡ length a.now.shape }
    requires fed { AreFed feeds.now a.now.shape }
    requires few { size a.now.shape ≤ most_node_cells }
    requires small { size (kept feeds.now a.now.shape) ≤ most_node_cells }
    ensures { IfOk result (λ b. b ≡ folded fold feeds.now a.now) }
{
    let sizes = kept_sizes(alloc, feeds, a.shape())?;
    match a.form() {
        Form::Typed(array) => fold_typed(alloc, fold, feeds, a.shape(), &sizes, array),
        Form::Stored(array) => fold_stored(alloc, fold, feeds, a.shape(), &sizes, array),
    }
}
