//! Running sums along lines of blocks, against NumPy's `cumsum`.
ghost use Rattle.std.specs.Prelude.{◌≡◌, ◌<◌, [], ◌∷◌, All, IfOk};
ghost use Rattle.xr_types.specs.declared.kind.DType.TheVariants.{Int8, Int64};
ghost use Rattle.xr_arrays.specs.Arrays.{IsCell};
ghost use Rattle.xr_arrays.specs.Folds.{total_kind};
ghost use Rattle.strided_block.specs.Typed.{block_kind, win_kind};
ghost use Rattle.strided_block.specs.Views.{IsWhole};

use fold_kernel::{Partial, scan};
use std::alloc::Global;
use std::process::Abort;
use std::test::Fail;
use strided_block::{CellBlock, CellView, CellWin};
use xr_types::{DType, FoldKind, Shape, is_unsigned};

/// The sums down the second column of a block, into that of a window, from 1000 on.
#[tactic(auto, using(strided_block::proofs::Wholes::still_whole, strided_block::proofs::Wholes::same_shape))]
fn scan_column(block: &CellBlock, out: &mut CellWin)
    requires block { block.now.mask.shape ≡ 3 ∷ 2 ∷ [] }
    requires numbers { block_kind block.now.cells ≡ Int8 }
    requires out { out.old.mask.shape ≡ 3 ∷ 2 ∷ [] }
    requires sums { win_kind out.old.cells ≡ Int64 }
    requires whole { IsWhole out.old.mask }
    ensures whole { IsWhole out.new.mask }
    ensures shape { out.new.mask.shape ≡ 3 ∷ 2 ∷ [] }
{
    out.fill(None);
    let mut before = Partial::empty(FoldKind::Sum, DType::Int8);
    before.absorb(0, Some(1000));
    let column = block.view().sub(1, 1, 2);
    scan(before, &column, 0, &Shape::from_slice(&[2, 1]), out);
}

/// Three rows of two cells.
fn two_columns(alloc: Global) -> Result<CellBlock, Fail>
    ensures kind { IfOk result (λ b. block_kind b.cells ≡ Int8) }
    ensures shape { IfOk result (λ b. b.mask.shape ≡ 3 ∷ 2 ∷ []) }
{
    let shape = Shape::from_slice(&[3, 2]);
    let cells = [Some(1), Some(100), Some(2), None, Some(3), Some(127)];
    Ok(
        CellBlock::from_slice(alloc, DType::Int8, &shape, &cells)
            .ok()
            .ok_or("memory")?,
    )
}

/// A window of as many cells, all 0.
fn two_columns_of_sums(alloc: Global) -> Result<CellWin, Fail>
    ensures kind { IfOk result (λ w. win_kind w.cells ≡ Int64) }
    ensures shape { IfOk result (λ w. w.mask.shape ≡ 3 ∷ 2 ∷ []) }
    ensures whole { IfOk result (λ w. IsWhole w.mask) }
{
    let shape = Shape::from_slice(&[3, 2]);
    let zeros = CellBlock::zeroed(alloc, DType::Int64, &shape)
        .ok()
        .ok_or("memory")?;
    Ok(CellWin::whole(zeros))
}

/// The sums down the second column, of a block as large.
fn column_of_sums(alloc: Global, block: &CellBlock) -> Result<CellBlock, Fail>
    requires shape { block.now.mask.shape ≡ 3 ∷ 2 ∷ [] }
    requires numbers { block_kind block.now.cells ≡ Int8 }
    ensures { IfOk result (λ b. b.mask.shape ≡ 3 ∷ 2 ∷ []) }
{
    let mut out = two_columns_of_sums(alloc)?;
    scan_column(block, &mut out);
    Ok(out.into_block())
}

/// A row of the block holds a missing cell and this sum.
fn has_row(rt: &impl Abort, view: &CellView<'_>, row: u64, sum: i128)
    requires shape { view.now.mask.shape ≡ 3 ∷ 2 ∷ [] }
    requires row { row < 3 }
{
    let first = view.get(&Shape::from_slice(&[row, 0]));
    let second = view.get(&Shape::from_slice(&[row, 1]));
    assert!(rt; first.is_none() && second == Some(sum), "row {row}");
}

// `1000 + numpy.ma.array([100, 0, 127], mask=[0, 1, 0], dtype="int8").filled(0).cumsum(dtype="int64")`
#[test]
fn sums_down_a_column(rt: HostRuntime) -> Result<(), Fail> {
    let block = two_columns(rt.alloc())?;
    let made = column_of_sums(rt.alloc(), &block)?;
    let view = made.view();
    has_row(&rt, &view, 0, 1100);
    has_row(&rt, &view, 1, 1100);
    has_row(&rt, &view, 2, 1227);
    Ok(())
}

/// The sums along a row of four cells.
#[tactic(auto, using(strided_block::proofs::Wholes::still_whole, strided_block::proofs::Wholes::same_shape))]
fn scan_row(block: &CellBlock, out: &mut CellWin)
    requires block { block.now.mask.shape ≡ 4 ∷ [] }
    requires out { out.old.mask.shape ≡ 4 ∷ [] }
    requires sums { win_kind out.old.cells ≡ total_kind (block_kind block.now.cells) }
    requires whole { IsWhole out.old.mask }
    ensures whole { IsWhole out.new.mask }
    ensures shape { out.new.mask.shape ≡ 4 ∷ [] }
{
    let before = Partial::empty(FoldKind::Sum, block.kind());
    scan(before, &block.view(), 0, &Shape::from_slice(&[0]), out);
}

fn four() -> Shape
    ensures { result ≡ 4 ∷ [] }
{
    Shape::from_slice(&[4])
}

/// A row of four cells of a kind.
fn row_of(alloc: Global, kind: DType) -> Result<CellBlock, Fail>
    ensures { IfOk result (λ b. b.mask.shape ≡ 4 ∷ []) }
{
    Ok(
        CellBlock::from_slice(alloc, kind, &four(), &cells_of(kind))
            .ok()
            .ok_or("memory")?,
    )
}

/// The kind of sums of a kind.
fn sum_kind(kind: DType) -> DType
    ensures { result ≡ total_kind kind }
{
    if is_unsigned(kind) {
        DType::UInt64
    } else {
        DType::Int64
    }
}

fn row_of_sums(alloc: Global, block: &CellBlock) -> Result<CellBlock, Fail>
    requires { block.now.mask.shape ≡ 4 ∷ [] }
    ensures { IfOk result (λ b. b.mask.shape ≡ 4 ∷ []) }
{
    let zeros = CellBlock::zeroed(alloc, sum_kind(block.kind()), &four())
        .ok()
        .ok_or("memory")?;
    let mut out = CellWin::whole(zeros);
    scan_row(block, &mut out);
    Ok(out.into_block())
}

fn has_cells(rt: &impl Abort, block: &CellBlock, sums: [i128; 4])
    requires { block.now.mask.shape ≡ 4 ∷ [] }
{
    let view = block.view();
    for i in 0..4 {
        let sum = view.get(&Shape::from_slice(&[i]));
        assert_eq!(rt; sum, Some(sums[i as usize]), "cell {i}");
    }
}

fn cells_of(kind: DType) -> [Option<i128>; 4]
    ensures { All (IsCell kind) result }
{
    match kind {
        DType::Bool => [Some(1), Some(0), Some(1), Some(1)],
        DType::Char => [Some(97), Some(255), None, Some(255)],
        DType::Int8 => [Some(100), Some(-128), Some(127), Some(5)],
        DType::Int16 => [Some(32767), None, Some(32767), Some(-1)],
        DType::Int32 => [None, Some(-2147483648), Some(-1), Some(7)],
        DType::Int64 => [Some(9223372036854775807), Some(1), Some(-1), Some(5)],
        DType::UInt8 => [Some(200), None, Some(255), Some(1)],
        DType::UInt16 => [Some(65535), Some(65535), None, Some(2)],
        DType::UInt32 => [Some(4294967295), Some(4294967295), Some(0), None],
        DType::UInt64 => [
            Some(18446744073709551615),
            Some(2),
            None,
            Some(9223372036854775808),
        ],
    }
}

// `numpy.array(cells, dtype=kind).cumsum(dtype="int64")`, a missing cell being 0; `uint8` for bytes of text. Of kinds
// without a sign, sums of Python's whole numbers modulo 2^64.
fn sums_of(kind: DType) -> [i128; 4] {
    match kind {
        DType::Bool => [1, 1, 2, 3],
        DType::Char => [97, 352, 352, 607],
        DType::Int8 => [100, -28, 99, 104],
        DType::Int16 => [32767, 32767, 65534, 65533],
        DType::Int32 => [0, -2147483648, -2147483649, -2147483642],
        DType::Int64 => [
            9223372036854775807,
            -9223372036854775808,
            9223372036854775807,
            -9223372036854775804,
        ],
        DType::UInt8 => [200, 200, 455, 456],
        DType::UInt16 => [65535, 131070, 131070, 131072],
        DType::UInt32 => [4294967295, 8589934590, 8589934590, 8589934590],
        DType::UInt64 => [18446744073709551615, 1, 1, 9223372036854775809],
    }
}

fn try_row(rt: &impl Abort, alloc: Global, kind: DType) -> Result<(), Fail> {
    let block = row_of(alloc, kind)?;
    let made = row_of_sums(alloc, &block)?;
    has_cells(rt, &made, sums_of(kind));
    Ok(())
}

#[test]
fn sums_along_a_row(rt: HostRuntime) -> Result<(), Fail> {
    try_row(&rt, rt.alloc(), DType::Bool)?;
    try_row(&rt, rt.alloc(), DType::Char)?;
    try_row(&rt, rt.alloc(), DType::Int8)?;
    try_row(&rt, rt.alloc(), DType::Int16)?;
    try_row(&rt, rt.alloc(), DType::Int32)?;
    try_row(&rt, rt.alloc(), DType::Int64)?;
    try_row(&rt, rt.alloc(), DType::UInt8)?;
    try_row(&rt, rt.alloc(), DType::UInt16)?;
    try_row(&rt, rt.alloc(), DType::UInt32)?;
    try_row(&rt, rt.alloc(), DType::UInt64)
}
