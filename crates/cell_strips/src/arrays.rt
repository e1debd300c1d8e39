//! Operations on each cell of whole arrays.
ghost use Rattle.std.specs.Prelude.{◌≡◌, ◌≢◌, true, IfOk, option_map};
ghost use Rattle.xr_types.specs.declared.kind.DType.TheVariants as kinds;
ghost use Rattle.xr_types.specs.declared.operation.OpKind.TheVariants as ops;
ghost use Rattle.xr_arrays.specs.Arrays.{seen, kind_of, IsArray};
ghost use Rattle.xr_arrays.specs.declared.typed.Cells.TheVariants.{Bool as Truths};
ghost use Rattle.xr_arrays.specs.Elements.{unary_of, binary_of, choose_of, result_kind, takes_one, takes_two, Gives, Suits};
ghost use Rattle.elem_kernel.specs.Conditions.{IsOnIntegers, IsPlain, IsSign};
ghost use Rattle.cell_strips.specs.Rows.{count, OfTwo, Parts, Fits};

use crate::cells::{cast_cells, combine_cells, compare_cells, count, pick_cells, turn_cells};
use crate::masks::{bytes_of, copy_mask, join_masks, lent, pick_masks, tell};
use std::alloc::{AllocError, Global};
use stored_cells::{Typed, as_typed};
use xr_arrays::{ArrayValue, Cells, TypedArray};
use xr_types::{DType, Items, OpKind};

/// The cells of an array, and its mask where there is one.
pub(crate) fn parts<'t, 'a>(array: &'t Typed<'a>) -> (&'t Cells, Option<&'t Items<u8>>)
    ensures { Parts array.now result.0.now (option_map (λ m. m.now) result.1) }
{
    array.parts()
}

/// The cells of an array, and its mask where there is one.
pub(crate) fn typed_parts(array: &TypedArray) -> (&Cells, Option<&Items<u8>>)
    ensures { Parts array.now result.0.now (option_map (λ m. m.now) result.1) }
{
    array.parts()
}

/// The array of these cells.
pub(crate) fn array(shape: Items<u64>, cells: Cells, mask: Option<Items<u8>>) -> ArrayValue
    requires { Fits shape cells mask }
    ensures { result ≡ seen shape cells mask }
{
    ArrayValue::of(shape, cells, mask)
}

// What an operation on two numbers gives of those of cells of one kind.
fn operate_cells(alloc: Global, op: OpKind, a: &Cells, b: &Cells) -> Result<Cells, AllocError>
    requires op { IsPlain op }
    requires kinds { kind_of b.now ≡ kind_of a.now }
    requires integers { IsOnIntegers op → kind_of a.now ≢ kinds.Bool }
    requires long { count b.now ≡ count a.now }
    ensures kind { IfOk result (λ c. kind_of c ≡ result_kind op (kind_of a.now)) }
    ensures long { IfOk result (λ c. count c ≡ count a.now) }
    ensures cells { IfOk result (OfTwo op (kind_of a.now) a.now b.now) }
{
    match op {
        OpKind::Equal
        | OpKind::NotEqual
        | OpKind::Less
        | OpKind::LessEqual
        | OpKind::Greater
        | OpKind::GreaterEqual => compare_cells(alloc, op, a, b),
        _ => combine_cells(alloc, op, a, b),
    }
}

fn operate(
    alloc: Global,
    op: OpKind,
    shape: &[u64],
    a: &Typed,
    b: &Typed,
) -> Result<ArrayValue, AllocError>
    requires op { IsPlain op }
    requires two { takes_two op ≡ true }
    requires array { IsArray a.now }
    requires other { IsArray b.now }
    requires shapes { (b.now.shape ≡ a.now.shape) × (shape.now ≡ a.now.shape) }
    requires kind { b.now.kind ≡ a.now.kind }
    requires suits { Suits op a.now.kind }
    ensures { IfOk result (λ c. c ≡ binary_of op (result_kind op a.now.kind) a.now b.now) }
{
    let (xs, mx) = parts(a);
    let (ys, my) = parts(b);
    let mask = join_masks(alloc, count(xs), mx, my)?;
    let cells = operate_cells(alloc, op, xs, ys)?;
    let shape = Items::from_slice(alloc, shape)?;
    Ok(array(shape, cells, mask))
}

fn fill(alloc: Global, shape: &[u64], a: &Typed, b: &Typed) -> Result<ArrayValue, AllocError>
    requires array { IsArray a.now }
    requires other { IsArray b.now }
    requires shapes { (b.now.shape ≡ a.now.shape) × (shape.now ≡ a.now.shape) }
    requires kind { b.now.kind ≡ a.now.kind }
    ensures { IfOk result (λ c. c ≡ binary_of ops.FillNa a.now.kind a.now b.now) }
{
    let (xs, mx) = parts(a);
    let (ys, my) = parts(b);
    let by = bytes_of(alloc, count(xs), mx)?;
    let mask = pick_masks(alloc, by.as_slice(), None, my)?;
    let cells = pick_cells(alloc, by.as_slice(), xs, ys)?;
    let shape = Items::from_slice(alloc, shape)?;
    Ok(array(shape, cells, mask))
}

fn turn(
    alloc: Global,
    op: OpKind,
    kind: DType,
    shape: &[u64],
    a: &Typed,
) -> Result<ArrayValue, AllocError>
    requires op { IsSign op }
    requires array { IsArray a.now }
    requires shape { shape.now ≡ a.now.shape }
    requires gives { Gives op kind a.now.kind }
    requires suits { Suits op a.now.kind }
    ensures { IfOk result (λ b. b ≡ unary_of op kind a.now) }
{
    let (xs, mx) = parts(a);
    let mask = copy_mask(alloc, mx)?;
    let cells = turn_cells(alloc, op, xs)?;
    let shape = Items::from_slice(alloc, shape)?;
    Ok(array(shape, cells, mask))
}

fn cast(alloc: Global, kind: DType, shape: &[u64], a: &Typed) -> Result<ArrayValue, AllocError>
    requires array { IsArray a.now }
    requires shape { shape.now ≡ a.now.shape }
    ensures { IfOk result (λ b. b ≡ unary_of ops.Cast kind a.now) }
{
    let (xs, mx) = parts(a);
    let mask = copy_mask(alloc, mx)?;
    let cells = cast_cells(alloc, kind, xs)?;
    let shape = Items::from_slice(alloc, shape)?;
    Ok(array(shape, cells, mask))
}

fn missing(alloc: Global, shape: &[u64], a: &Typed) -> Result<ArrayValue, AllocError>
    requires array { IsArray a.now }
    requires shape { shape.now ≡ a.now.shape }
    ensures { IfOk result (λ b. b ≡ unary_of ops.IsNull kinds.Bool a.now) }
{
    let (xs, mx) = parts(a);
    let truths = tell(alloc, count(xs), mx, 0, 1)?;
    let shape = Items::from_slice(alloc, shape)?;
    Ok(array(shape, Cells::Bool(truths), None))
}

fn present(alloc: Global, shape: &[u64], a: &Typed) -> Result<ArrayValue, AllocError>
    requires array { IsArray a.now }
    requires shape { shape.now ≡ a.now.shape }
    ensures { IfOk result (λ b. b ≡ unary_of ops.NotNull kinds.Bool a.now) }
{
    let (xs, mx) = parts(a);
    let truths = tell(alloc, count(xs), mx, 1, 0)?;
    let shape = Items::from_slice(alloc, shape)?;
    Ok(array(shape, Cells::Bool(truths), None))
}

/// An operation of one operand on each cell, in one go: of a strip, or of an array as small as one.
pub fn operate_one(
    alloc: Global,
    op: OpKind,
    kind: DType,
    a: &ArrayValue,
) -> Result<ArrayValue, AllocError>
    requires array { IsArray a.now }
    requires one { takes_one op ≡ true }
    requires gives { Gives op kind a.now.kind }
    requires suits { Suits op a.now.kind }
    ensures { IfOk result (λ b. b ≡ unary_of op kind a.now) }
{
    let typed = as_typed(alloc, a)?;
    match op {
        OpKind::Cast => cast(alloc, kind, a.shape(), &typed),
        OpKind::IsNull => missing(alloc, a.shape(), &typed),
        OpKind::NotNull => present(alloc, a.shape(), &typed),
        _ => turn(alloc, op, kind, a.shape(), &typed),
    }
}

/// An operation on the cells of two arrays, in one go.
pub fn operate_two(
    alloc: Global,
    op: OpKind,
    a: &ArrayValue,
    b: &ArrayValue,
) -> Result<ArrayValue, AllocError>
    requires array { IsArray a.now }
    requires other { IsArray b.now }
    requires two { takes_two op ≡ true }
    requires shape { b.now.shape ≡ a.now.shape }
    requires kind { b.now.kind ≡ a.now.kind }
    requires suits { Suits op a.now.kind }
    ensures { IfOk result (λ c. c ≡ binary_of op (result_kind op a.now.kind) a.now b.now) }
{
    let first = as_typed(alloc, a)?;
    let second = as_typed(alloc, b)?;
    match op {
        OpKind::FillNa => fill(alloc, a.shape(), &first, &second),
        _ => operate(alloc, op, a.shape(), &first, &second),
    }
}

// The truth values of cells.
fn truths(cells: &Cells) -> &[u8]
    requires { kind_of cells.now ≡ kinds.Bool }
    ensures { cells.now ≡ Truths result.now }
{
    match cells {
        Cells::Bool(v) => v.as_slice(),
        _ => unreachable!(),
    }
}

fn choose_typed(
    alloc: Global,
    shape: &[u64],
    cond: &Typed,
    a: &Typed,
    b: &Typed,
) -> Result<ArrayValue, AllocError>
    requires arrays { IsArray cond.now × IsArray a.now × IsArray b.now }
    requires cond_kind { cond.now.kind ≡ kinds.Bool }
    requires shapes { (cond.now.shape ≡ a.now.shape) × (b.now.shape ≡ a.now.shape) × (shape.now ≡ a.now.shape) }
    requires kind { b.now.kind ≡ a.now.kind }
    ensures { IfOk result (λ c. c ≡ choose_of cond.now a.now b.now) }
{
    let (tests, hidden) = parts(cond);
    let (xs, mx) = parts(a);
    let (ys, my) = parts(b);
    let by = truths(tests);
    let picked = pick_masks(alloc, by, my, mx)?;
    let mask = join_masks(alloc, by.len(), hidden, lent(&picked))?;
    let cells = pick_cells(alloc, by, ys, xs)?;
    let shape = Items::from_slice(alloc, shape)?;
    Ok(array(shape, cells, mask))
}

/// The cells of one array where a truth value is 1, and those of another where it is 0, in one go.
pub fn choose_cells(
    alloc: Global,
    cond: &ArrayValue,
    a: &ArrayValue,
    b: &ArrayValue,
) -> Result<ArrayValue, AllocError>
    requires cond { IsArray cond.now }
    requires array { IsArray a.now }
    requires other { IsArray b.now }
    requires cond_kind { cond.now.kind ≡ kinds.Bool }
    requires cond_shape { cond.now.shape ≡ a.now.shape }
    requires shape { b.now.shape ≡ a.now.shape }
    requires kind { b.now.kind ≡ a.now.kind }
    ensures { IfOk result (λ c. c ≡ choose_of cond.now a.now b.now) }
{
    let tests = as_typed(alloc, cond)?;
    let first = as_typed(alloc, a)?;
    let second = as_typed(alloc, b)?;
    choose_typed(alloc, a.shape(), &tests, &first, &second)
}
