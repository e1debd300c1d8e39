//! Views by steps: axes in another order, positions from the last one back, and cells that are repeated.
ghost use Rattle.std.specs.Prelude.{◌≡◌, [], ◌∷◌, IfOk};
ghost use Rattle.xr_types.specs.Points.{IsPoint};
ghost use Rattle.strided_block.specs.Typed.{block_shape, view_shape};

use std::alloc::Global;
use std::process::Abort;
use std::test::Fail;
use strided_block::{Block, CellBlock, CellView, TypedBlock, TypedView, View};
use xr_types::{DType, Shape};

fn three_by_four() -> Shape
    ensures { result ≡ 3 ∷ 4 ∷ [] }
{
    Shape::from_slice(&[3, 4])
}

fn two_by_two() -> Shape
    ensures { result ≡ 2 ∷ 2 ∷ [] }
{
    Shape::from_slice(&[2, 2])
}

/// The order in which the second of two axes comes first.
fn exchanged() -> Shape
    ensures { result ≡ 1 ∷ 0 ∷ [] }
{
    Shape::from_slice(&[1, 0])
}

fn point(row: u64, column: u64) -> Shape
    ensures { result ≡ row ∷ column ∷ [] }
{
    Shape::from_slice(&[row, column])
}

fn zero_to_eleven() -> [i64; 12] {
    [0, 1, 2, 3, 4, 5, 6, 7, 8, 9, 10, 11]
}

/// The cells 0 to 11 in three rows.
fn three_rows(alloc: Global) -> Result<Block<i64>, Fail>
    ensures { IfOk result (λ b. b.shape ≡ 3 ∷ 4 ∷ []) }
{
    Ok(
        Block::from_slice(alloc, &three_by_four(), &zero_to_eleven())
            .ok()
            .ok_or("memory")?,
    )
}

/// A view shows this number at a row and a column.
fn shows(rt: &impl Abort, view: &View<'_, i64>, row: u64, column: u64, number: i64)
    requires { IsPoint view.now.shape (row ∷ column ∷ []) }
{
    assert_eq!(rt; view.get(&point(row, column)), number);
}

/// The columns as rows, the last one first.
#[tactic(auto, using(crate::proofs::Orders::two_exchanged))]
fn columns_back<'a>(view: View<'a, i64>) -> View<'a, i64>
    requires { view.shape ≡ 3 ∷ 4 ∷ [] }
    ensures { result.shape ≡ 4 ∷ 3 ∷ [] }
{
    view.permute(&exchanged()).step(0, 3, -1, 4)
}

#[test]
fn columns_from_the_last_one_back(rt: HostRuntime) -> Result<(), Fail> {
    let block = three_rows(rt.alloc())?;
    let back = columns_back(block.view());
    assert_eq!(rt; back.shape().as_slice(), [4, 3].as_slice());
    shows(&rt, &back, 0, 0, 3);
    shows(&rt, &back, 0, 2, 11);
    shows(&rt, &back, 3, 0, 0);
    shows(&rt, &back, 3, 2, 8);
    Ok(())
}

#[test]
fn every_second_column_and_one_row_again(rt: HostRuntime) -> Result<(), Fail> {
    let block = three_rows(rt.alloc())?;
    let odd = block.view().step(1, 1, 2, 2);
    shows(&rt, &odd, 0, 0, 1);
    shows(&rt, &odd, 2, 1, 11);
    let again = block.view().step(0, 1, 0, 5);
    shows(&rt, &again, 4, 2, 6);
    assert!(rt; !again.lies_together(0));
    Ok(())
}

#[test]
fn rows_that_are_repeated(rt: HostRuntime) -> Result<(), Fail> {
    let block = three_rows(rt.alloc())?;
    let wide = block.view().widen(1, 2);
    assert_eq!(rt; wide.shape().as_slice(), [3, 2, 4].as_slice());
    assert_eq!(rt; wide.get(&Shape::from_slice(&[2, 0, 3])), 11);
    assert_eq!(rt; wide.get(&Shape::from_slice(&[2, 1, 3])), 11);
    Ok(())
}

/// Numbers in two rows: 1 and 2, and then 3 and 4.
fn typed_rows(alloc: Global) -> Result<TypedBlock, Fail>
    ensures { IfOk result (λ b. block_shape b ≡ 2 ∷ 2 ∷ []) }
{
    let cells = [Some(1), Some(2), Some(3), Some(4)];
    Ok(
        TypedBlock::from_slice(alloc, DType::Int16, &two_by_two(), &cells)
            .ok()
            .ok_or("memory")?,
    )
}

/// The columns as rows, the last one first.
#[tactic(auto, using(crate::proofs::Orders::two_exchanged))]
fn typed_columns_back<'a>(view: TypedView<'a>) -> TypedView<'a>
    requires { view_shape view ≡ 2 ∷ 2 ∷ [] }
    ensures { view_shape result ≡ 2 ∷ 2 ∷ [] }
{
    view.permute(&exchanged()).step(0, 1, -1, 2)
}

#[test]
fn typed_columns_from_the_last_one_back(rt: HostRuntime) -> Result<(), Fail> {
    let block = typed_rows(rt.alloc())?;
    let back = typed_columns_back(block.view());
    assert_eq!(rt; back.get(&point(0, 0)), 2);
    assert_eq!(rt; back.get(&point(0, 1)), 4);
    assert_eq!(rt; back.get(&point(1, 0)), 1);
    let wide = block.view().widen(0, 3);
    assert_eq!(rt; wide.get(&Shape::from_slice(&[2, 1, 0])), 3);
    Ok(())
}

/// Numbers in two rows, of which the second is missing.
fn rows_with_a_hole(alloc: Global) -> Result<CellBlock, Fail>
    ensures { IfOk result (λ b. b.mask.shape ≡ 2 ∷ 2 ∷ []) }
{
    let cells = [Some(1), None, Some(3), Some(4)];
    Ok(
        CellBlock::from_slice(alloc, DType::Int16, &two_by_two(), &cells)
            .ok()
            .ok_or("memory")?,
    )
}

/// The columns as rows, the last one first.
#[tactic(auto, using(crate::proofs::Orders::two_exchanged))]
fn cell_columns_back<'a>(view: CellView<'a>) -> CellView<'a>
    requires { view.mask.shape ≡ 2 ∷ 2 ∷ [] }
    ensures { result.mask.shape ≡ 2 ∷ 2 ∷ [] }
{
    view.permute(&exchanged()).step(0, 1, -1, 2)
}

#[test]
fn holes_from_the_last_column_back(rt: HostRuntime) -> Result<(), Fail> {
    let block = rows_with_a_hole(rt.alloc())?;
    let back = cell_columns_back(block.view());
    assert_eq!(rt; back.get(&point(0, 0)), None);
    assert_eq!(rt; back.get(&point(0, 1)), Some(4));
    assert_eq!(rt; back.get(&point(1, 0)), Some(1));
    let wide = block.view().widen(2, 2);
    assert_eq!(rt; wide.get(&Shape::from_slice(&[0, 1, 1])), None);
    Ok(())
}
