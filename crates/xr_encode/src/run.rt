//! Neighbouring cells, with a mask or without one.
ghost use Rattle.std.specs.Prelude.{◌≡◌, ◌<◌, ◌≤◌, ◌+◌, ◌^◌, true, ℤ, List, Option, map, length, get_or, take, drop, min, IfOk, Some, None};
ghost use Rattle.std.specs.List.{list_all, list_any};
ghost use Rattle.xr_arrays.specs.Arrays.{hidden};
ghost use Rattle.xr_defs.specs.Encoding.{holds, holds_cell, value_bytes};
ghost use Rattle.xr_encode.specs.Rows.{number_or, cells_bytes, are_held, is_number};

use crate::number::{Written, holds};
use bytes::Bytes;
use std::alloc::{AllocError, Global};
use xr_types::{Elem, NcType};

/// Cells in row order, some of which may be missing.
pub trait Run: Copy + Drop {
    /// Their numbers, or None where one is missing.
    ghost cells: { Self → List (Option ℤ) };

    fn len(self) -> usize
        ensures { result ≡ length (cells self) };

    fn number(self, i: usize) -> Option<i128>
        requires { i < length (cells self) }
        ensures { result ≡ get_or (cells self) i result };
}

/// Cells without a mask.
#[derive(Clone, Copy)]
pub struct Whole<'a, T> {
    pub cells: &'a [T],
}

impl<'a, T: Elem> Run for Whole<'a, T> {
    ghost cells = { λ r. hidden (map T.number r.cells.now) None };

    fn len(self) -> usize {
        self.cells.len()
    }

    fn number(self, i: usize) -> Option<i128> {
        Some(self.cells[i].widen())
    }
}

/// Cells with a mask of as many bytes, in which 0 marks one that is there.
#[derive(Clone, Copy)]
pub struct Masked<'a, T> {
    pub cells: &'a [T],
    pub mask: &'a [u8],
}

impl<'a, T: Elem> Run for Masked<'a, T> {
    ghost cells = { λ r. hidden (map T.number r.cells.now) (Some r.mask.now) };

    #[tactic(auto, using(crate::proofs::Runs::masked_length))]
    fn len(self) -> usize {
        if self.mask.len() < self.cells.len() {
            self.mask.len()
        } else {
            self.cells.len()
        }
    }

    #[tactic(auto, using(crate::proofs::Runs::masked_length))]
    fn number(self, i: usize) -> Option<i128> {
        if self.mask[i] == 0 {
            Some(self.cells[i].widen())
        } else {
            None
        }
    }
}

/// Whether a type holds each number.
pub fn are_held<R: Run>(kind: NcType, run: R) -> bool
    ensures { result ≡ list_all (holds_cell kind) (R.cells run) }
{
    for i in 0..run.len() {
        if let Some(n) = run.number(i) {
            if !holds(kind, n) {
                return false;
            }
        }
    }
    true
}

// Whether a cell is there and has this number.
fn is_number(cell: Option<i128>, number: i128) -> bool
    ensures { result ≡ is_number number cell }
{
    match cell {
        Some(n) => n == number,
        None => false,
    }
}

/// Whether a cell that is there has this number. All cells are looked at, which is faster than to stop at one.
pub fn has_number<R: Run>(run: R, number: i128) -> bool
    ensures { result ≡ list_any (is_number number) (R.cells run) }
{
    let mut found = false;
    for i in 0..run.len() {
        found = found | is_number(run.number(i), number);
    }
    found
}

// The bytes of a cell.
fn cell_bytes<const N: usize, W: Written<N>>(cell: Option<i128>, fill: i128) -> [u8; N]
    requires { holds W.kind (number_or fill cell) ≡ true }
    ensures { result ≡ value_bytes W.kind (number_or fill cell) }
{
    match cell {
        Some(n) => W::bytes(n),
        None => W::bytes(fill),
    }
}

// Puts the bytes of so many cells from a place on into a strip.
fn fill_strip<const N: usize, R: Run, W: Written<N>>(
    strip: &mut [[u8; N]],
    run: R,
    from: usize,
    n: usize,
    fill: i128,
)
    requires width { N ≤ 8 }
    requires inside { from + n ≤ length (R.cells run) }
    requires fits { from + n < 2 ^ 64 }
    requires room { n ≤ length strip.old }
    requires held { are_held W.kind fill (R.cells run) ≡ true }
    ensures room { length strip.new ≡ length strip.old }
    ensures bytes { take n strip.new ≡ map (λ c. value_bytes W.kind (number_or fill c)) (take n (drop from (R.cells run))) }
{
    for i in 0..n {
        strip[i] = cell_bytes::<N, W>(run.number(from + i), fill);
    }
}

fn lesser(a: usize, b: usize) -> usize
    ensures { result ≡ min a b }
{
    if a < b { a } else { b }
}

// The bytes of the cells in a type, with a number for each missing one. They are put into a strip, as many at a time as it has room for.
fn bytes_of<const N: usize, R: Run, W: Written<N>>(
    alloc: Global,
    run: R,
    fill: i128,
    strip: &mut [[u8; N]],
) -> Result<Bytes, AllocError>
    requires width { N ≤ 8 }
    requires held { are_held W.kind fill (R.cells run) ≡ true }
    requires room { 0 < length strip.old }
    ensures { IfOk result (λ raw. raw ≡ cells_bytes W.kind fill (R.cells run)) }
{
    let total = run.len();
    let mut out = Vec::with_capacity(alloc, total.saturating_mul(N))?;
    let mut from = 0;
    'strips: while from < total {
        let n = lesser(strip.len(), total - from);
        fill_strip::<N, R, W>(strip, run, from, n, fill);
        out.extend_from_slice(strip[..n].as_flattened())?;
        from += n;
    }
    Ok(Bytes::from_vec(out)?)
}

// How many cells a strip has: few enough for their bytes to stay in a processor's own memory.
const STRIP: usize = 256;

/// The bytes of the cells in a type that holds them, with a number for each missing one.
#[tactic(auto, using(crate::proofs::Runs::no_bytes))]
pub fn bytes_in<R: Run>(
    alloc: Global,
    kind: NcType,
    run: R,
    fill: i128,
) -> Result<Bytes, AllocError>
    requires { are_held kind fill (R.cells run) ≡ true }
    ensures { IfOk result (λ raw. raw ≡ cells_bytes kind fill (R.cells run)) }
{
    match kind {
        NcType::Byte => bytes_of::<1, R, i8>(alloc, run, fill, &mut [[0u8; 1]; STRIP]),
        NcType::Char | NcType::UByte => bytes_of::<1, R, u8>(
            alloc,
            run,
            fill,
            &mut [[0u8; 1]; STRIP],
        ),
        NcType::Short => bytes_of::<2, R, i16>(alloc, run, fill, &mut [[0u8; 2]; STRIP]),
        NcType::Int => bytes_of::<4, R, i32>(alloc, run, fill, &mut [[0u8; 4]; STRIP]),
        // these hold none
        NcType::Float | NcType::Double => Ok(Bytes::new()),
        NcType::UShort => bytes_of::<2, R, u16>(alloc, run, fill, &mut [[0u8; 2]; STRIP]),
        NcType::UInt => bytes_of::<4, R, u32>(alloc, run, fill, &mut [[0u8; 4]; STRIP]),
        NcType::Int64 => bytes_of::<8, R, i64>(alloc, run, fill, &mut [[0u8; 8]; STRIP]),
        NcType::UInt64 => bytes_of::<8, R, u64>(alloc, run, fill, &mut [[0u8; 8]; STRIP]),
    }
}
