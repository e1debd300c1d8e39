//! The calls over views, against the values that NumPy gives.
ghost use Rattle.std.specs.Prelude.{◌≡◌, ◌≢◌, [], ◌∷◌, IfOk, All};
ghost use Rattle.xr_types.specs.declared.kind.DType.TheVariants.{Bool, Int16};
ghost use Rattle.xr_arrays.specs.Arrays.{IsCell};
ghost use Rattle.strided_block.specs.Typed.{block_kind, view_kind, win_kind};
ghost use Rattle.strided_block.specs.Views.{IsWhole};
ghost use Rattle.elem_kernel.specs.Conditions.{IsBinary, IsComparison, IsArithmetic, IsOnIntegers, IsSign, IsUnary};

use crate::operations::{kinds, one, push_number, tables, two};
use elem_kernel::{binary, cast, choose, compare, fill, unary};
use std::alloc::Global;
use std::test::Fail;
use strided_block::{CellBlock, CellView, CellWin};
use xr_types::{DType, OpKind, Shape};

/// The numbers at the edges of a kind's range, with a few between.
fn edge_cells(kind: DType) -> [Option<i128>; 6]
    ensures { All (IsCell kind) result }
{
    match kind {
        DType::Bool => [Some(0), Some(1), Some(0), Some(1), Some(0), Some(1)],
        DType::Char | DType::UInt8 => [Some(0), Some(1), Some(2), Some(7), Some(127), Some(255)],
        DType::Int8 => [Some(-128), Some(-7), Some(-1), Some(0), Some(2), Some(127)],
        DType::Int16 => [
            Some(-32_768),
            Some(-7),
            Some(-1),
            Some(0),
            Some(2),
            Some(32_767),
        ],
        DType::Int32 => [
            Some(-2_147_483_648),
            Some(-7),
            Some(-1),
            Some(0),
            Some(2),
            Some(2_147_483_647),
        ],
        DType::Int64 => [
            Some(-9_223_372_036_854_775_808),
            Some(-7),
            Some(-1),
            Some(0),
            Some(2),
            Some(9_223_372_036_854_775_807),
        ],
        DType::UInt16 => [
            Some(0),
            Some(1),
            Some(2),
            Some(7),
            Some(32_767),
            Some(65_535),
        ],
        DType::UInt32 => [
            Some(0),
            Some(1),
            Some(2),
            Some(7),
            Some(2_147_483_647),
            Some(4_294_967_295),
        ],
        DType::UInt64 => [
            Some(0),
            Some(1),
            Some(2),
            Some(7),
            Some(9_223_372_036_854_775_807),
            Some(18_446_744_073_709_551_615),
        ],
    }
}

fn six() -> Shape
    ensures { result ≡ 6 ∷ [] }
{
    Shape::from_slice(&[6])
}

/// A row of cells, some of which may be missing.
fn row_of(alloc: Global, kind: DType, cells: &[Option<i128>; 6]) -> Result<CellBlock, Fail>
    requires { All (IsCell kind) cells.now }
    ensures kind { IfOk result (λ b. block_kind b.cells ≡ kind) }
    ensures shape { IfOk result (λ b. b.mask.shape ≡ 6 ∷ []) }
{
    Ok(
        CellBlock::from_slice(alloc, kind, &six(), cells)
            .ok()
            .ok_or("memory")?,
    )
}

fn edge_row(alloc: Global, kind: DType) -> Result<CellBlock, Fail>
    ensures kind { IfOk result (λ b. block_kind b.cells ≡ kind) }
    ensures shape { IfOk result (λ b. b.mask.shape ≡ 6 ∷ []) }
{
    row_of(alloc, kind, &edge_cells(kind))
}

fn window(alloc: Global, kind: DType) -> Result<CellWin, Fail>
    ensures kind { IfOk result (λ w. win_kind w.cells ≡ kind) }
    ensures shape { IfOk result (λ w. w.mask.shape ≡ 6 ∷ []) }
    ensures whole { IfOk result (λ w. IsWhole w.mask) }
{
    let zeros = CellBlock::zeroed(alloc, kind, &six()).ok().ok_or("memory")?;
    Ok(CellWin::whole(zeros))
}

/// Six times one cell.
#[tactic(auto, using(strided_block::proofs::Wholes::still_whole, strided_block::proofs::Wholes::same_shape))]
fn copies(alloc: Global, kind: DType, cell: Option<i128>) -> Result<CellBlock, Fail>
    requires { IsCell kind cell }
    ensures kind { IfOk result (λ b. block_kind b.cells ≡ kind) }
    ensures shape { IfOk result (λ b. b.mask.shape ≡ 6 ∷ []) }
{
    let mut out = window(alloc, kind)?;
    fill(cell, &mut out);
    Ok(out.into_block())
}

#[tactic(auto, using(strided_block::proofs::Wholes::still_whole, strided_block::proofs::Wholes::same_shape))]
fn of_binary(
    alloc: Global,
    op: OpKind,
    kind: DType,
    a: &CellView<'_>,
    b: &CellView<'_>,
) -> Result<CellBlock, Fail>
    requires op { IsBinary op }
    requires integers { IsArithmetic op → kind ≢ Bool }
    requires kinds { (view_kind a.now.cells ≡ kind) × (view_kind b.now.cells ≡ kind) }
    requires shapes { (a.now.mask.shape ≡ 6 ∷ []) × (b.now.mask.shape ≡ 6 ∷ []) }
    ensures { IfOk result (λ b. b.mask.shape ≡ 6 ∷ []) }
{
    let mut out = window(alloc, kind)?;
    binary(op, a, b, &mut out);
    Ok(out.into_block())
}

#[tactic(auto, using(strided_block::proofs::Wholes::still_whole, strided_block::proofs::Wholes::same_shape))]
fn of_comparison(
    alloc: Global,
    op: OpKind,
    a: &CellView<'_>,
    b: &CellView<'_>,
) -> Result<CellBlock, Fail>
    requires op { IsComparison op }
    requires kinds { view_kind b.now.cells ≡ view_kind a.now.cells }
    requires shapes { (a.now.mask.shape ≡ 6 ∷ []) × (b.now.mask.shape ≡ 6 ∷ []) }
    ensures { IfOk result (λ b. b.mask.shape ≡ 6 ∷ []) }
{
    let mut out = window(alloc, DType::Bool)?;
    compare(op, a, b, &mut out);
    Ok(out.into_block())
}

/// An operation of two operands, where the kind has it.
fn of_two(
    alloc: Global,
    op: OpKind,
    kind: DType,
    a: &CellView<'_>,
    b: &CellView<'_>,
) -> Result<CellBlock, Fail>
    requires left { view_kind a.now.cells ≡ kind }
    requires right { view_kind b.now.cells ≡ kind }
    requires shapes { (a.now.mask.shape ≡ 6 ∷ []) × (b.now.mask.shape ≡ 6 ∷ []) }
    ensures { IfOk result (λ b. b.mask.shape ≡ 6 ∷ []) }
{
    let made = match op {
        OpKind::And | OpKind::Or | OpKind::Xor | OpKind::FillNa => of_binary(alloc, op, kind, a, b),
        OpKind::Add
        | OpKind::Subtract
        | OpKind::Multiply
        | OpKind::FloorDivide
        | OpKind::Remainder => {
            if kind == DType::Bool {
                return Err(Fail::new("no arithmetic on truth values"));
            }
            of_binary(alloc, op, kind, a, b)
        }
        OpKind::Equal
        | OpKind::NotEqual
        | OpKind::Less
        | OpKind::LessEqual
        | OpKind::Greater
        | OpKind::GreaterEqual => of_comparison(alloc, op, a, b),
        _ => return Err(Fail::new("one operand")),
    };
    made
}

/// An operation of one operand that gives a cell of its kind.
#[tactic(auto, using(strided_block::proofs::Wholes::still_whole, strided_block::proofs::Wholes::same_shape))]
fn of_one(alloc: Global, op: OpKind, kind: DType, a: &CellView<'_>) -> Result<CellBlock, Fail>
    requires op { IsSign op }
    requires unary { IsUnary op }
    requires integers { IsOnIntegers op → kind ≢ Bool }
    requires kind { view_kind a.now.cells ≡ kind }
    requires shape { a.now.mask.shape ≡ 6 ∷ [] }
    ensures { IfOk result (λ b. b.mask.shape ≡ 6 ∷ []) }
{
    let mut out = window(alloc, kind)?;
    unary(op, a, &mut out);
    Ok(out.into_block())
}

/// The same, where the kind has the operation.
fn of_sign(alloc: Global, op: OpKind, kind: DType, a: &CellView<'_>) -> Result<CellBlock, Fail>
    requires kind { view_kind a.now.cells ≡ kind }
    requires shape { a.now.mask.shape ≡ 6 ∷ [] }
    ensures { IfOk result (λ b. b.mask.shape ≡ 6 ∷ []) }
{
    match op {
        OpKind::Invert => of_one(alloc, op, kind, a),
        OpKind::Negate => {
            if kind == DType::Bool {
                return Err(Fail::new("no negated truth value"));
            }
            of_one(alloc, op, kind, a)
        }
        _ => Err(Fail::new("another operation")),
    }
}

#[tactic(auto, using(strided_block::proofs::Wholes::still_whole, strided_block::proofs::Wholes::same_shape))]
fn of_cast(alloc: Global, to: DType, a: &CellView<'_>) -> Result<CellBlock, Fail>
    requires { a.now.mask.shape ≡ 6 ∷ [] }
    ensures { IfOk result (λ b. b.mask.shape ≡ 6 ∷ []) }
{
    let mut out = window(alloc, to)?;
    cast(a, &mut out);
    Ok(out.into_block())
}

fn push_row(out: &mut String, alloc: Global, row: &CellBlock) -> Result<(), Fail>
    requires { row.now.mask.shape ≡ 6 ∷ [] }
{
    let view = row.view();
    for i in 0..6 {
        push_number(out, alloc, view.get(&Shape::from_slice(&[i])))?;
    }
    Ok(())
}

/// Writes a line of a table: a name and the cells of a row.
fn push_line(out: &mut String, alloc: Global, name: &str, row: &CellBlock) -> Result<(), Fail>
    requires { row.now.mask.shape ≡ 6 ∷ [] }
{
    out.push_str(name)?;
    push_row(out, alloc, row)?;
    Ok(out.push_str("\n")?)
}

/// The same of a row that was made for it.
fn push_made(
    out: &mut String,
    alloc: Global,
    name: &str,
    made: Result<CellBlock, Fail>,
) -> Result<(), Fail>
    requires { IfOk made (λ b. b.mask.shape ≡ 6 ∷ []) }
{
    let made = made?;
    push_line(out, alloc, name, &made)
}

/// The operation on one cell and each cell of a row.
fn beside(
    alloc: Global,
    op: OpKind,
    kind: DType,
    cell: Option<i128>,
    row: &CellBlock,
) -> Result<CellBlock, Fail>
    requires cell { IsCell kind cell }
    requires kind { block_kind row.now.cells ≡ kind }
    requires shape { row.now.mask.shape ≡ 6 ∷ [] }
    ensures { IfOk result (λ b. b.mask.shape ≡ 6 ∷ []) }
{
    let left = copies(alloc, kind, cell)?;
    of_two(alloc, op, kind, &left.view(), &row.view())
}

fn push_beside(
    out: &mut String,
    alloc: Global,
    op: OpKind,
    kind: DType,
    row: &CellBlock,
) -> Result<(), Fail>
    requires kind { block_kind row.now.cells ≡ kind }
    requires shape { row.now.mask.shape ≡ 6 ∷ [] }
{
    let view = row.view();
    for i in 0..6 {
        let made = beside(alloc, op, kind, view.get(&Shape::from_slice(&[i])), row)?;
        push_row(out, alloc, &made)?;
    }
    Ok(())
}

fn push_pairs(
    out: &mut String,
    alloc: Global,
    name: &str,
    op: OpKind,
    kind: DType,
) -> Result<(), Fail> {
    out.push_str(name)?;
    let edges = edge_row(alloc, kind)?;
    push_beside(out, alloc, op, kind, &edges)?;
    Ok(out.push_str("\n")?)
}

/// An operation of one operand on the edges of a kind, where the kind has it.
fn of_edges(alloc: Global, op: OpKind, kind: DType) -> Result<CellBlock, Fail>
    ensures { IfOk result (λ b. b.mask.shape ≡ 6 ∷ []) }
{
    let edges = edge_row(alloc, kind)?;
    of_sign(alloc, op, kind, &edges.view())
}

fn edges_cast(alloc: Global, kind: DType, to: DType) -> Result<CellBlock, Fail>
    ensures { IfOk result (λ b. b.mask.shape ≡ 6 ∷ []) }
{
    let edges = edge_row(alloc, kind)?;
    of_cast(alloc, to, &edges.view())
}

/// Writes what the operations of a kind give, of two operands and of one, each from one operation on.
fn push_table(
    out: &mut String,
    alloc: Global,
    kind: DType,
    first_of_two: usize,
    first_of_one: usize,
) -> Result<(), Fail> {
    for (name, op) in two().iter().skip(first_of_two) {
        push_pairs(out, alloc, name, *op, kind)?;
    }
    for (name, op) in one().iter().skip(first_of_one) {
        push_made(out, alloc, name, of_edges(alloc, *op, kind))?;
    }
    for (name, to) in kinds() {
        push_made(out, alloc, name, edges_cast(alloc, kind, to))?;
    }
    Ok(())
}

#[test]
fn views_of_edges_are_as_in_numpy(rt: HostRuntime) -> Result<(), Fail> {
    for (kind, first_of_two, first_of_one, wanted) in tables() {
        let mut out = String::new(rt.alloc());
        push_table(&mut out, rt.alloc(), kind, first_of_two, first_of_one)?;
        assert_eq!(rt; out.as_str(), wanted);
    }
    Ok(())
}

// What numpy.ma gives of [7, --, -7, --, 2, -1] and [2, 2, --, --, -1, 0], a division by 0 being 0 and there.
const MISSING: &str = "\
add 9 none none none 1 -1
subtract 5 none none none 3 -1
multiply 14 none none none -2 0
floor_divide 3 none none none -2 0
remainder 1 none none none 0 0
bitwise_and 2 none none none 2 0
bitwise_or 7 none none none -1 -1
bitwise_xor 5 none none none -3 -1
equal 0 none none none 0 0
not_equal 1 none none none 1 1
less 0 none none none 0 1
less_equal 0 none none none 0 1
greater 1 none none none 1 0
greater_equal 1 none none none 1 0
fillna 7 2 -7 none 2 -1
negative -7 none 7 none -2 1
isnull 0 1 0 1 0 0
notnull 1 0 1 0 1 1
astype bool 1 none 1 none 1 1
where 7 2 none none none -1
";

#[tactic(auto, using(strided_block::proofs::Wholes::still_whole, strided_block::proofs::Wholes::same_shape))]
fn of_null_test(alloc: Global, missing: bool, a: &CellView<'_>) -> Result<CellBlock, Fail>
    requires { a.now.mask.shape ≡ 6 ∷ [] }
    ensures { IfOk result (λ b. b.mask.shape ≡ 6 ∷ []) }
{
    let mut out = window(alloc, DType::Bool)?;
    if missing {
        unary(OpKind::IsNull, a, &mut out);
    } else {
        unary(OpKind::NotNull, a, &mut out);
    }
    Ok(out.into_block())
}

#[tactic(auto, using(strided_block::proofs::Wholes::still_whole, strided_block::proofs::Wholes::same_shape))]
fn of_choice(
    alloc: Global,
    cond: &CellView<'_>,
    a: &CellView<'_>,
    b: &CellView<'_>,
) -> Result<CellBlock, Fail>
    requires condition { view_kind cond.now.cells ≡ Bool }
    requires kinds { (view_kind a.now.cells ≡ Int16) × (view_kind b.now.cells ≡ Int16) }
    requires shapes { (cond.now.mask.shape ≡ 6 ∷ []) × (a.now.mask.shape ≡ 6 ∷ []) × (b.now.mask.shape ≡ 6 ∷ []) }
    ensures { IfOk result (λ b. b.mask.shape ≡ 6 ∷ []) }
{
    let mut out = window(alloc, DType::Int16)?;
    choose(cond, a, b, &mut out);
    Ok(out.into_block())
}

fn shorts(alloc: Global) -> Result<CellBlock, Fail>
    ensures kind { IfOk result (λ b. block_kind b.cells ≡ Int16) }
    ensures shape { IfOk result (λ b. b.mask.shape ≡ 6 ∷ []) }
{
    let cells = [Some(7), None, Some(-7), None, Some(2), Some(-1)];
    row_of(alloc, DType::Int16, &cells)
}

fn other_shorts(alloc: Global) -> Result<CellBlock, Fail>
    ensures kind { IfOk result (λ b. block_kind b.cells ≡ Int16) }
    ensures shape { IfOk result (λ b. b.mask.shape ≡ 6 ∷ []) }
{
    let cells = [Some(2), Some(2), None, None, Some(-1), Some(0)];
    row_of(alloc, DType::Int16, &cells)
}

fn choices(alloc: Global) -> Result<CellBlock, Fail>
    ensures kind { IfOk result (λ b. block_kind b.cells ≡ Bool) }
    ensures shape { IfOk result (λ b. b.mask.shape ≡ 6 ∷ []) }
{
    let cells = [Some(1), Some(0), Some(0), Some(1), None, Some(1)];
    row_of(alloc, DType::Bool, &cells)
}

fn choice(alloc: Global, a: &CellView<'_>, b: &CellView<'_>) -> Result<CellBlock, Fail>
    requires kinds { (view_kind a.now.cells ≡ Int16) × (view_kind b.now.cells ≡ Int16) }
    requires shapes { (a.now.mask.shape ≡ 6 ∷ []) × (b.now.mask.shape ≡ 6 ∷ []) }
    ensures { IfOk result (λ b. b.mask.shape ≡ 6 ∷ []) }
{
    let cond = choices(alloc)?;
    of_choice(alloc, &cond.view(), a, b)
}

fn push_of_two(
    out: &mut String,
    alloc: Global,
    a: &CellView<'_>,
    b: &CellView<'_>,
) -> Result<(), Fail>
    requires kinds { (view_kind a.now.cells ≡ Int16) × (view_kind b.now.cells ≡ Int16) }
    requires shapes { (a.now.mask.shape ≡ 6 ∷ []) × (b.now.mask.shape ≡ 6 ∷ []) }
{
    for (name, op) in two() {
        push_made(out, alloc, name, of_two(alloc, op, DType::Int16, a, b))?;
    }
    let filled = of_two(alloc, OpKind::FillNa, DType::Int16, a, b);
    push_made(out, alloc, "fillna", filled)
}

fn push_of_one(out: &mut String, alloc: Global, a: &CellView<'_>) -> Result<(), Fail>
    requires kind { view_kind a.now.cells ≡ Int16 }
    requires shape { a.now.mask.shape ≡ 6 ∷ [] }
{
    let negated = of_sign(alloc, OpKind::Negate, DType::Int16, a);
    push_made(out, alloc, "negative", negated)?;
    push_made(out, alloc, "isnull", of_null_test(alloc, true, a))?;
    push_made(out, alloc, "notnull", of_null_test(alloc, false, a))?;
    push_made(out, alloc, "astype bool", of_cast(alloc, DType::Bool, a))
}

fn push_missing(
    out: &mut String,
    alloc: Global,
    a: &CellView<'_>,
    b: &CellView<'_>,
) -> Result<(), Fail>
    requires kinds { (view_kind a.now.cells ≡ Int16) × (view_kind b.now.cells ≡ Int16) }
    requires shapes { (a.now.mask.shape ≡ 6 ∷ []) × (b.now.mask.shape ≡ 6 ∷ []) }
{
    push_of_two(out, alloc, a, b)?;
    push_of_one(out, alloc, a)?;
    push_made(out, alloc, "where", choice(alloc, a, b))
}

fn push_operands(out: &mut String, alloc: Global) -> Result<(), Fail> {
    let a = shorts(alloc)?;
    let b = other_shorts(alloc)?;
    push_missing(out, alloc, &a.view(), &b.view())
}

#[test]
fn missing_operands_are_as_in_numpy(rt: HostRuntime) -> Result<(), Fail> {
    let mut out = String::new(rt.alloc());
    push_operands(&mut out, rt.alloc())?;
    assert_eq!(rt; out.as_str(), MISSING);
    Ok(())
}
