//! Blocks of cells, their windows and their views, with ample memory.
ghost use Rattle.std.specs.Prelude.{◌≡◌, [], ◌∷◌, IfOk, length, take};
ghost use Rattle.xr_types.specs.declared.kind.DType.TheVariants.{Bool, Int16};
ghost use Rattle.xr_types.specs.Points.{IsPoint};
ghost use Rattle.strided_block.specs.Typed.{block_kind, block_shape, view_shape, win_kind, win_box, IsWide};
ghost use Rattle.strided_block.specs.Views.{IsWhole};

use std::alloc::Global;
use std::process::Abort;
use std::test::Fail;
use strided_block::{
    Block, CellBlock, CellView, CellWin, TypedBlock, TypedView, TypedWin, View, Win, scan_line,
    zip_cells,
};
use xr_types::{DType, Elem, Shape};

fn two_by_three() -> Shape
    ensures { result ≡ 2 ∷ 3 ∷ [] }
{
    Shape::from_slice(&[2, 3])
}

fn two_by_two() -> Shape
    ensures { result ≡ 2 ∷ 2 ∷ [] }
{
    Shape::from_slice(&[2, 2])
}

fn point(row: u64, column: u64) -> Shape
    ensures { result ≡ row ∷ column ∷ [] }
{
    Shape::from_slice(&[row, column])
}

fn one_to_six() -> [i16; 6] {
    [1, 2, 3, 4, 5, 6]
}

/// The cells 1 to 6 in two rows.
fn two_rows(alloc: Global) -> Result<Block<i16>, Fail>
    ensures { IfOk result (λ b. b.shape ≡ 2 ∷ 3 ∷ []) }
{
    Ok(
        Block::from_slice(alloc, &two_by_three(), &one_to_six())
            .ok()
            .ok_or("memory")?,
    )
}

/// Two rows of three zeros.
fn zeros<T: Elem + Drop>(alloc: Global) -> Result<Block<T>, Fail>
    ensures { IfOk result (λ b. b.shape ≡ 2 ∷ 3 ∷ []) }
{
    Ok(Block::zeroed(alloc, &two_by_three()).ok().ok_or("memory")?)
}

fn has_sizes(rt: &impl Abort, shape: &Shape, sizes: [u64; 2]) {
    assert_eq!(rt; shape.as_slice(), sizes.as_slice());
}

/// A view shows this number at a row and a column.
fn shows<T: Elem>(rt: &impl Abort, view: &View<'_, T>, row: u64, column: u64, number: i128)
    requires { IsPoint view.now.shape (row ∷ column ∷ []) }
{
    assert_eq!(rt; view.get(&point(row, column)).widen(), number);
}

/// The points that begin with `lead` lie side by side, and hold these numbers.
fn runs<T: Elem>(rt: &impl Abort, view: &View<'_, T>, lead: &Shape, numbers: &[i128])
    requires { IsPoint (take (length lead.now) view.now.shape) lead.now }
{
    assert!(rt; view.lies_together(lead.len()));
    let run = view.run(lead);
    assert!(rt; run.len() == numbers.len());
    for i in 0..run.len() {
        assert_eq!(rt; run[i].widen(), numbers[i], "cell {i}");
    }
}

#[test]
fn a_block_in_row_order(rt: HostRuntime) -> Result<(), Fail> {
    let block = two_rows(rt.alloc())?;
    has_sizes(&rt, block.shape(), [2, 3]);
    let view = block.view();
    shows(&rt, &view, 1, 0, 4);
    runs(&rt, &view, &Shape::new(), &[1, 2, 3, 4, 5, 6]);
    let part = view.sub(1, 1, 3);
    has_sizes(&rt, part.shape(), [2, 2]);
    shows(&rt, &part, 1, 1, 6);
    assert!(rt; !part.lies_together(0));
    runs(&rt, &part, &Shape::from_slice(&[1]), &[5, 6]);
    Ok(())
}

/// A row, a cell and a column in a window of two rows of three.
#[tactic(auto, using(strided_block::proofs::Wholes::cut_whole, strided_block::proofs::Wholes::cut_shape))]
fn write_numbers(win: &mut Win<i32>)
    requires shape { win.old.shape ≡ 2 ∷ 3 ∷ [] }
    requires whole { IsWhole win.old }
    ensures shape { win.new.shape ≡ 2 ∷ 3 ∷ [] }
    ensures whole { IsWhole win.new }
{
    win.fill(9);
    win.put_row(&point(1, 0), &[-5, 6]);
    win.set(&point(0, 2), 7);
    win.fill_line(0, &point(1, 1), 8);
}

#[test]
fn a_window_of_numbers(rt: HostRuntime) -> Result<(), Fail> {
    let block = zeros(rt.alloc())?;
    shows(&rt, &block.view(), 1, 2, 0);
    let mut win = Win::whole(block);
    has_sizes(&rt, win.shape(), [2, 3]);
    write_numbers(&mut win);
    shows(&rt, &win.view(), 1, 0, -5);
    let block = win.into_block();
    runs(&rt, &block.view(), &Shape::new(), &[9, 8, 7, -5, 8, 9]);
    Ok(())
}

/// Sums, of pairs at each point and along a row.
#[tactic(auto, using(strided_block::proofs::Wholes::cut_whole, strided_block::proofs::Wholes::cut_shape))]
fn write_sums(block: &Block<i16>, win: &mut Win<i64>)
    requires block { block.now.shape ≡ 2 ∷ 3 ∷ [] }
    requires shape { win.old.shape ≡ 2 ∷ 3 ∷ [] }
    requires whole { IsWhole win.old }
    ensures shape { win.new.shape ≡ 2 ∷ 3 ∷ [] }
    ensures whole { IsWhole win.new }
{
    let all = block.view();
    zip_cells(
        |w: i16, x: i16, y: i16, z: i16| -> i64 {
            i64::from(w)
                .wrapping_mul(10)
                .wrapping_add(i64::from(x.min(y).max(z)))
        },
        &all,
        &all,
        &all,
        &all,
        win,
    );
    let row = block.view().sub(0, 1, 2);
    scan_line(
        |last: i64, x: i16, y: i16| -> i64 {
            last.wrapping_mul(10).wrapping_add(i64::from(x.max(y)))
        },
        1,
        &row,
        &row,
        1,
        &point(0, 2),
        win,
    );
}

/// A block of those sums.
fn sums(alloc: Global, block: &Block<i16>) -> Result<Block<i64>, Fail>
    requires { block.now.shape ≡ 2 ∷ 3 ∷ [] }
    ensures { IfOk result (λ b. b.shape ≡ 2 ∷ 3 ∷ []) }
{
    let mut win = Win::whole(zeros(alloc)?);
    write_sums(block, &mut win);
    Ok(win.into_block())
}

#[test]
fn cells_made_of_others(rt: HostRuntime) -> Result<(), Fail> {
    let block = two_rows(rt.alloc())?;
    let made = sums(rt.alloc(), &block)?;
    runs(
        &rt,
        &made.view(),
        &Shape::new(),
        &[14, 145, 1456, 44, 55, 66],
    );
    Ok(())
}

/// Truth values in two rows: true and false, and then false and true.
fn truths(alloc: Global) -> Result<TypedBlock, Fail>
    ensures kind { IfOk result (λ b. block_kind b ≡ Bool) }
    ensures shape { IfOk result (λ b. block_shape b ≡ 2 ∷ 2 ∷ []) }
{
    let cells = [Some(1), Some(0), Some(0), Some(1)];
    Ok(
        TypedBlock::from_slice(alloc, DType::Bool, &two_by_two(), &cells)
            .ok()
            .ok_or("memory")?,
    )
}

/// A view shows this number at a row and a column.
fn shows_typed(rt: &impl Abort, view: &TypedView<'_>, row: u64, column: u64, number: i128)
    requires { IsPoint (view_shape view.now) (row ∷ column ∷ []) }
{
    assert_eq!(rt; view.get(&point(row, column)), number);
}

#[test]
fn typed_cells_in_row_order(rt: HostRuntime) -> Result<(), Fail> {
    let block = truths(rt.alloc())?;
    assert!(rt; block.kind() == DType::Bool);
    let view = block.view();
    assert!(rt; view.kind() == DType::Bool);
    shows_typed(&rt, &view, 1, 1, 1);
    shows_typed(&rt, &view, 1, 0, 0);
    shows_typed(&rt, &view.sub(1, 1, 2), 0, 0, 0);
    Ok(())
}

fn write_typed(win: &mut TypedWin)
    requires shape { (win_box win.old).shape ≡ 2 ∷ 2 ∷ [] }
    requires kind { win_kind win.old ≡ Int16 }
    requires whole { IsWide (win_box win.old) }
    ensures kind { win_kind win.new ≡ Int16 }
    ensures place { win_box win.new ≡ win_box win.old }
{
    win.fill(-3);
    win.put_row(&point(1, 0), &[Some(-32768), Some(32767)]);
    win.set(&point(0, 1), 7);
}

fn typed_zeros(alloc: Global) -> Result<TypedBlock, Fail>
    ensures kind { IfOk result (λ b. block_kind b ≡ Int16) }
    ensures shape { IfOk result (λ b. block_shape b ≡ 2 ∷ 2 ∷ []) }
{
    Ok(
        TypedBlock::zeroed(alloc, DType::Int16, &two_by_two())
            .ok()
            .ok_or("memory")?,
    )
}

#[test]
fn a_window_of_typed_cells(rt: HostRuntime) -> Result<(), Fail> {
    let mut win = TypedWin::whole(typed_zeros(rt.alloc())?);
    write_typed(&mut win);
    assert!(rt; win.kind() == DType::Int16);
    shows_typed(&rt, &win.view(), 1, 0, -32768);
    let block = win.into_block();
    let view = block.view();
    shows_typed(&rt, &view, 0, 0, -3);
    shows_typed(&rt, &view, 0, 1, 7);
    shows_typed(&rt, &view, 1, 1, 32767);
    Ok(())
}

/// Truth values in two rows, of which the second is missing.
fn truths_with_a_hole(alloc: Global) -> Result<CellBlock, Fail>
    ensures kind { IfOk result (λ b. block_kind b.cells ≡ Bool) }
    ensures shape { IfOk result (λ b. b.mask.shape ≡ 2 ∷ 2 ∷ []) }
{
    let cells = [Some(1), None, Some(0), Some(1)];
    Ok(
        CellBlock::from_slice(alloc, DType::Bool, &two_by_two(), &cells)
            .ok()
            .ok_or("memory")?,
    )
}

/// A view shows this cell at a row and a column.
fn shows_cell(rt: &impl Abort, view: &CellView<'_>, row: u64, column: u64, cell: Option<i128>)
    requires { IsPoint view.now.mask.shape (row ∷ column ∷ []) }
{
    assert_eq!(rt; view.get(&point(row, column)), cell);
}

#[test]
fn cells_with_holes_in_row_order(rt: HostRuntime) -> Result<(), Fail> {
    let block = truths_with_a_hole(rt.alloc())?;
    assert!(rt; block.kind() == DType::Bool);
    has_sizes(&rt, block.shape(), [2, 2]);
    let view = block.view();
    assert!(rt; view.kind() == DType::Bool);
    has_sizes(&rt, view.shape(), [2, 2]);
    shows_cell(&rt, &view, 0, 0, Some(1));
    shows_cell(&rt, &view, 0, 1, None);
    shows_cell(&rt, &view, 1, 0, Some(0));
    shows_cell(&rt, &view.sub(0, 1, 2), 0, 1, Some(1));
    Ok(())
}

/// A row with a missing cell, and one cell, in a window of two rows of three.
#[tactic(auto, using(strided_block::proofs::Wholes::still_whole, strided_block::proofs::Wholes::same_shape))]
fn write_cells(win: &mut CellWin)
    requires shape { win.old.mask.shape ≡ 2 ∷ 3 ∷ [] }
    requires kind { win_kind win.old.cells ≡ Int16 }
    requires whole { IsWhole win.old.mask }
    ensures shape { win.new.mask.shape ≡ 2 ∷ 3 ∷ [] }
    ensures whole { IsWhole win.new.mask }
{
    win.fill(None);
    win.put_row(&point(1, 0), &[Some(-32768), None]);
    win.set(&point(0, 2), Some(7));
    win.set(&point(0, 0), None);
}

fn cell_zeros(alloc: Global) -> Result<CellBlock, Fail>
    ensures kind { IfOk result (λ b. block_kind b.cells ≡ Int16) }
    ensures shape { IfOk result (λ b. b.mask.shape ≡ 2 ∷ 3 ∷ []) }
{
    Ok(
        CellBlock::zeroed(alloc, DType::Int16, &two_by_three())
            .ok()
            .ok_or("memory")?,
    )
}

#[test]
fn a_window_is_written_and_given_back(rt: HostRuntime) -> Result<(), Fail> {
    let zeros = cell_zeros(rt.alloc())?;
    shows_cell(&rt, &zeros.view(), 1, 2, Some(0));
    let mut win = CellWin::whole(zeros);
    write_cells(&mut win);
    assert!(rt; win.kind() == DType::Int16);
    has_sizes(&rt, win.shape(), [2, 3]);
    shows_cell(&rt, &win.view(), 0, 2, Some(7));
    let block = win.into_block();
    let view = block.view();
    shows_cell(&rt, &view, 0, 0, None);
    shows_cell(&rt, &view, 0, 2, Some(7));
    shows_cell(&rt, &view, 1, 0, Some(-32768));
    shows_cell(&rt, &view, 1, 1, None);
    shows_cell(&rt, &view, 1, 2, None);
    Ok(())
}
