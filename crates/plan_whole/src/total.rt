//! The sum of all cells of an array.
ghost use Rattle.std.specs.Prelude.{◌≡◌, ◌==◌, ◌≤◌, ◌+◌, ℤ, List, length, map, zip, take, Option, Some, None, IfOk, IfSome, ◌+ℤ◌, ◌∷◌, option_map};
ghost use Rattle.std.specs.Int.{int_wrap, w64};
ghost use Rattle.xr_types.specs.Points.{size};
ghost use Rattle.xr_arrays.specs.Arrays.{cell, hidden, wide, IsArray};
ghost use Rattle.xr_arrays.specs.Folds.{sum_of};
ghost use Rattle.plan_core.specs.Rows.{those};

use arrangement::points;
use cell_strips::{Strips, strip_length};
use std::alloc::{AllocError, Global};
use stored_cells::sum;
use xr_arrays::{ArrayValue, Cells, Form, StoredArray, TypedArray};
use xr_types::{Elem, Items};

/// The sum, wrapped at 64 bits.
#[tactic(auto, using(std::proofs::lemmas::Int::wraps))]
pub fn added(a: i64, b: i64) -> i64
    ensures { result ≡ int_wrap w64 (a +ℤ b) }
{
    a.wrapping_add(b)
}

// The sum with one more cell.
fn more<T: Elem>(sum: i64, cell: T) -> i64
    ensures { (rest : ℤ) → int_wrap w64 (result +ℤ rest) ≡ int_wrap w64 (sum +ℤ (T.number cell +ℤ rest)) }
{
    added(sum, i64::wrap_from(cell.widen()))
}

fn total_of<T: Elem>(cells: &[T]) -> i64
    ensures { result ≡ int_wrap w64 (sum_of (map T.number cells.now)) }
{
    let mut sum = 0;
    for cell in cells {
        sum = more(sum, *cell);
    }
    sum
}

// The sum with one more cell, unless its byte in the mask isn't 0.
fn more_shown<T: Elem>(sum: i64, x: T, byte: u8) -> i64
    ensures { (rest : List (Option ℤ)) → int_wrap w64 (result +ℤ sum_of (those rest)) ≡ int_wrap w64 (sum +ℤ sum_of (those (cell (T.number x, byte) ∷ rest))) }
{
    if byte == 0 { more(sum, x) } else { sum }
}

fn total_masked<T: Elem>(cells: &[T], mask: &[u8]) -> i64
    requires { length mask.now ≡ length cells.now }
    ensures { result ≡ int_wrap w64 (sum_of (those (map cell (zip (map T.number cells.now) mask.now)))) }
{
    let mut sum = 0;
    for i in 0..cells.len() {
        sum = more_shown(sum, cells[i], mask[i]);
    }
    sum
}

fn total_in<T: Elem>(cells: &[T], mask: Option<&Items<u8>>) -> i64
    requires { IfSome mask (λ m. length m.now ≡ length cells.now) }
    ensures { result ≡ int_wrap w64 (sum_of (those (hidden (map T.number cells.now) (option_map (λ m. m.now) mask.entry)))) }
{
    match mask {
        Some(mask) => total_masked(cells, mask.as_slice()),
        None => total_of(cells),
    }
}

fn total_cells(cells: &Cells, mask: Option<&Items<u8>>) -> i64
    requires { IfSome mask (λ m. length m.now ≡ length (wide cells.now)) }
    ensures { result ≡ int_wrap w64 (sum_of (those (hidden (wide cells.now) (option_map (λ m. m.now) mask.entry)))) }
{
    match cells {
        Cells::Bool(v) => total_in(v.as_slice(), mask),
        Cells::Char(v) => total_in(v.as_slice(), mask),
        Cells::Int8(v) => total_in(v.as_slice(), mask),
        Cells::Int16(v) => total_in(v.as_slice(), mask),
        Cells::Int32(v) => total_in(v.as_slice(), mask),
        Cells::Int64(v) => total_in(v.as_slice(), mask),
        Cells::UInt8(v) => total_in(v.as_slice(), mask),
        Cells::UInt16(v) => total_in(v.as_slice(), mask),
        Cells::UInt32(v) => total_in(v.as_slice(), mask),
        Cells::UInt64(v) => total_in(v.as_slice(), mask),
    }
}

fn total_typed(array: &TypedArray) -> i64
    ensures whole { length array.now.cells ≡ size array.now.shape }
    ensures sum { result ≡ int_wrap w64 (sum_of (those array.now.cells)) }
{
    let (cells, mask) = array.parts();
    total_cells(cells, mask)
}

fn total_stored(array: &StoredArray) -> i64
    ensures whole { length array.now.cells ≡ size array.now.shape }
    ensures sum { result ≡ int_wrap w64 (sum_of (those array.now.cells)) }
{
    let parts = array.parts();
    let count = points(array.shape()) as usize;
    let mut total = 0;
    let mut from = 0;
    while from < count {
        let run = parts.pieces.run(parts.kind, from);
        total = added(total, sum(parts.kind, run.bytes, parts.fills));
        from += run.count;
    }
    total
}

/// The sum of the cells that aren't missing, wrapped at 64 bits.
pub fn total(a: &ArrayValue) -> i64
    ensures whole { length a.now.cells ≡ size a.now.shape }
    ensures sum { result ≡ int_wrap w64 (sum_of (those a.now.cells)) }
{
    match a.form() {
        Form::Typed(array) => total_typed(array),
        Form::Stored(array) => total_stored(array),
    }
}

// The sum with the cells of the next strip.
fn more_strip<S: Strips>(
    alloc: Global,
    source: &S,
    so_far: i64,
    from: usize,
    n: usize,
) -> Result<i64, AllocError>
    requires ready { S.Ready source.now }
    requires inside { from + n ≤ size (S.whole source.now).shape }
    requires so_far { so_far ≡ int_wrap w64 (sum_of (those (take from (S.whole source.now).cells))) }
    ensures { IfOk result (λ k. k ≡ int_wrap w64 (sum_of (those (take (from + n) (S.whole source.now).cells)))) }
{
    let strip = source.strip(alloc, from, n)?;
    Ok(added(so_far, total(&strip)))
}

/// The sum of the cells that aren't missing of an array that comes strip by strip, wrapped at 64 bits. `count` is how many
/// cells the array has.
pub fn total_strips<S: Strips>(alloc: Global, source: &S, count: usize) -> Result<i64, AllocError>
    requires ready { S.Ready source.now }
    requires array { IsArray (S.whole source.now) }
    requires count { count ≡ size (S.whole source.now).shape }
    ensures { IfOk result (λ k. k ≡ int_wrap w64 (sum_of (those (S.whole source.now).cells))) }
{
    let mut sum = 0;
    let mut from = 0;
    'strips: while from < count {
        let n = strip_length(count - from);
        sum = more_strip(alloc, source, sum, from, n)?;
        from += n;
    }
    Ok(sum)
}
