//! Cells of several arrays, point by point.
ghost use Rattle.std.specs.Prelude.{◌≡◌, ◌<◌, true, pos, length, get_or, IfOk, None};
ghost use Rattle.std.specs.List.{list_all, range_with_len};
ghost use Rattle.xr_types.specs.Points.{size};
ghost use Rattle.xr_arrays.specs.Arrays.{wide};
ghost use Rattle.xr_defs.specs.Carrying.{same_cell};
ghost use Rattle.xr_defs.specs.Values.{present};
ghost use Rattle.xr_combination.specs.Concat as concats;
ghost use Rattle.xr_combination.specs.Merge as calls;
ghost use Rattle.xr_combination.specs.Pieces as pieces;
ghost use Rattle.xr_merging.specs.Columns.{column, have_shape, one_with, AreWithin, Reach};

use std::alloc::{AllocError, Global};
use stored_cells::{Typed, as_typed};
use xr_arrays::{ArrayValue, Cells};
use xr_types::{Items, NoMemory};

// ---- one cell

#[tactic(auto, using(crate::proofs::Masked::pos_at))]
fn number_at(cells: &Cells, at: usize) -> i128
    requires { at < length (wide cells.now) }
    ensures { result ≡ get_or (wide cells.now) at (pos 0) }
{
    match cells {
        Cells::Bool(v) | Cells::Char(v) | Cells::UInt8(v) => i128::from(v.as_slice()[at]),
        Cells::Int8(v) => i128::from(v.as_slice()[at]),
        Cells::Int16(v) => i128::from(v.as_slice()[at]),
        Cells::Int32(v) => i128::from(v.as_slice()[at]),
        Cells::Int64(v) => i128::from(v.as_slice()[at]),
        Cells::UInt16(v) => i128::from(v.as_slice()[at]),
        Cells::UInt32(v) => i128::from(v.as_slice()[at]),
        Cells::UInt64(v) => i128::from(v.as_slice()[at]),
    }
}

fn cell_at(array: &Typed<'_>, at: usize) -> Option<i128>
    requires { at < length array.now.cells }
    ensures { result ≡ get_or array.now.cells at None }
{
    let (cells, mask) = array.parts();
    match mask {
        None => Some(number_at(cells, at)),
        Some(bytes) => {
            if bytes.as_slice()[at] == 0 {
                Some(number_at(cells, at))
            } else {
                None
            }
        }
    }
}

// ---- the cells of all arrays at a place

fn are_one_at(arrays: &[Typed<'_>], at: usize, found: Option<i128>) -> bool
    requires { Reach at arrays.now }
    ensures { result ≡ one_with found (present (column arrays.now at)) }
{
    match arrays {
        [] => true,
        [array, rest @ ..] => match cell_at(array, at) {
            None => are_one_at(rest, at, found),
            Some(n) => match found {
                None => are_one_at(rest, at, Some(n)),
                Some(m) => m == n && are_one_at(rest, at, found),
            },
        },
    }
}

pub(crate) fn shared_at(arrays: &[Typed<'_>], at: usize) -> Option<i128>
    requires { Reach at arrays.now }
    ensures { result ≡ calls.shared_cell (column arrays.now at) }
{
    match arrays {
        [] => None,
        [array, rest @ ..] => match cell_at(array, at) {
            Some(n) => Some(n),
            None => shared_at(rest, at),
        },
    }
}

// ---- how many there are

fn count(cells: &Cells) -> usize
    ensures { result ≡ length (wide cells.now) }
{
    match cells {
        Cells::Bool(v) | Cells::Char(v) | Cells::UInt8(v) => v.as_slice().len(),
        Cells::Int8(v) => v.as_slice().len(),
        Cells::Int16(v) => v.as_slice().len(),
        Cells::Int32(v) => v.as_slice().len(),
        Cells::Int64(v) => v.as_slice().len(),
        Cells::UInt16(v) => v.as_slice().len(),
        Cells::UInt32(v) => v.as_slice().len(),
        Cells::UInt64(v) => v.as_slice().len(),
    }
}

fn count_of(array: &Typed<'_>) -> usize
    ensures cells { result ≡ length array.now.cells }
    ensures whole { result ≡ size array.now.shape }
{
    let (cells, _) = array.parts();
    count(cells)
}

pub(crate) fn first_count(arrays: &[Typed<'_>]) -> usize
    ensures { result ≡ size (concats.first_array arrays.now).shape }
{
    match arrays {
        [] => 1,
        [array, ..] => count_of(array),
    }
}

pub(crate) fn are_within(count: usize, arrays: &[Typed<'_>]) -> bool
    ensures { result ≡ true → AreWithin count arrays.now }
{
    match arrays {
        [] => true,
        [array, rest @ ..] => count_of(array) == count && are_within(count, rest),
    }
}

fn are_shaped(shape: &[u64], arrays: &[ArrayValue]) -> bool
    ensures { result ≡ have_shape shape.now arrays.now }
{
    match arrays {
        [] => true,
        [array, rest @ ..] => shape == array.shape() && are_shaped(shape, rest),
    }
}

pub(crate) fn are_alike(arrays: &[ArrayValue]) -> bool
    ensures { result ≡ have_shape (concats.first_array arrays.now).shape arrays.now }
{
    match arrays {
        [] => true,
        [array, ..] => are_shaped(array.shape(), arrays),
    }
}

pub(crate) fn all_typed<'a>(
    alloc: Global,
    arrays: &'a [ArrayValue],
) -> Result<Items<Typed<'a>>, AllocError>
    ensures { IfOk result (λ ts. ts ≡ arrays.now) }
{
    let mut all = Items::new(alloc);
    for array in arrays {
        all.push(as_typed(alloc, array)?)?;
    }
    Ok(all)
}

// ---- comparisons

#[tactic(auto, using(crate::proofs::Columns::reach, crate::proofs::Columns::passes_more, crate::proofs::Columns::fails_here))]
fn agree_typed(arrays: &[Typed<'_>], count: usize) -> bool
    requires { AreWithin count arrays.now }
    ensures { result ≡ list_all (λ k. calls.are_one (present (column arrays.now k))) (range_with_len 0 count) }
{
    for at in 0..count {
        if !are_one_at(arrays, at, None) {
            return false;
        }
    }
    true
}

/// Whether at each point the cells that aren't missing are equal. Arrays of several shapes, which no values over joined axes have,
/// want memory.
#[tactic(auto, using(crate::proofs::Columns::agree_is))]
pub fn agree(alloc: Global, arrays: &[ArrayValue]) -> Result<bool, NoMemory>
    ensures { IfOk result (λ b. b ≡ calls.agree arrays.now) }
{
    if !are_alike(arrays) {
        return Err(NoMemory);
    }
    let typed = all_typed(alloc, arrays)?;
    let typed = typed.as_slice();
    let count = first_count(typed);
    if !are_within(count, typed) {
        return Err(NoMemory);
    }
    Ok(agree_typed(typed, count))
}

fn same_cell(a: Option<i128>, b: Option<i128>) -> bool
    ensures { result ≡ same_cell a b }
{
    match (a, b) {
        (None, None) => true,
        (Some(m), Some(n)) => m == n,
        _ => false,
    }
}

#[tactic(auto, using(xr_values::proofs::Equal::other_length, xr_values::proofs::Equal::same_on, xr_values::proofs::Equal::same_all))]
fn same_typed(a: &Typed<'_>, b: &Typed<'_>) -> bool
    ensures { result ≡ pieces.same_cells a.now b.now }
{
    let count = count_of(a);
    if count != count_of(b) {
        return false;
    }
    for at in 0..count {
        if !same_cell(cell_at(a, at), cell_at(b, at)) {
            return false;
        }
    }
    true
}

fn all_as(first: &Typed<'_>, others: &[Typed<'_>]) -> bool
    ensures { result ≡ list_all (pieces.same_cells first.now) others.now }
{
    match others {
        [] => true,
        [other, rest @ ..] => same_typed(first, other) && all_as(first, rest),
    }
}

fn all_same_typed(arrays: &[Typed<'_>]) -> bool
    ensures { result ≡ pieces.all_same arrays.now }
{
    match arrays {
        [] => true,
        [first, others @ ..] => all_as(first, others),
    }
}

/// Whether the arrays have equal cells, missing ones too, whatever their kinds.
pub fn all_same(alloc: Global, arrays: &[ArrayValue]) -> Result<bool, AllocError>
    ensures { IfOk result (λ b. b ≡ pieces.all_same arrays.now) }
{
    let typed = all_typed(alloc, arrays)?;
    Ok(all_same_typed(typed.as_slice()))
}
