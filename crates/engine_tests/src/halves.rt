//! Two halves of one block, each written on its own.
ghost use Rattle.std.specs.Prelude.{◌≡◌, [], ◌∷◌};
ghost use Rattle.xr_types.specs.declared.kind.DType.TheVariants.{Int16};
ghost use Rattle.strided_block.specs.Typed.{block_kind};

use std::test::Fail;
use strided_block::{Block, CellBlock, CellWin, Win};
use xr_types::{DType, Shape};

/// A block of two rows of three: 7 in the first column, 9 in the others.
fn two_columns(block: Block<i32>) -> Block<i32>
    requires { block.shape ≡ 2 ∷ 3 ∷ [] }
    ensures { result.shape ≡ 2 ∷ 3 ∷ [] }
{
    let (mut left, mut right) = Win::whole(block).split(1, 1);
    left.fill(7);
    right.fill(9);
    left.join(right, 1).into_block()
}

#[test]
fn two_halves_of_a_window(rt: HostRuntime) -> Result<(), Fail> {
    let block = Block::zeroed(rt.alloc(), &Shape::from_slice(&[2, 3]))
        .ok()
        .ok_or("memory")?;
    let block = two_columns(block);
    let view = block.view();
    assert!(rt; view.lies_together(0));
    assert_eq!(rt; view.run(&Shape::new()), [7, 9, 9, 7, 9, 9].as_slice());
    Ok(())
}

/// Cells of two rows of three: 7 in the first column, missing in the second, -9 in the last.
fn three_columns(block: CellBlock) -> CellBlock
    requires shape { block.mask.shape ≡ 2 ∷ 3 ∷ [] }
    requires kind { block_kind block.cells ≡ Int16 }
    ensures { result.mask.shape ≡ 2 ∷ 3 ∷ [] }
{
    let (mut left, rest) = CellWin::whole(block).split(1, 1);
    let (mut middle, mut right) = rest.split(1, 1);
    left.fill(Some(7));
    middle.fill(None);
    right.fill(Some(-9));
    left.join(middle.join(right, 1), 1).into_block()
}

#[test]
fn three_parts_of_a_window_of_cells(rt: HostRuntime) -> Result<(), Fail> {
    let block = CellBlock::zeroed(rt.alloc(), DType::Int16, &Shape::from_slice(&[2, 3]))
        .ok()
        .ok_or("memory")?;
    let block = three_columns(block);
    let view = block.view();
    for row in 0..2 {
        let cells = [
            view.get(&Shape::from_slice(&[row, 0])),
            view.get(&Shape::from_slice(&[row, 1])),
            view.get(&Shape::from_slice(&[row, 2])),
        ];
        assert_eq!(rt; cells, [Some(7), None, Some(-9)]);
    }
    Ok(())
}
