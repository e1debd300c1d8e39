//! The cells of results, from what folds keep.
ghost use Rattle.std.specs.Prelude.{◌≡◌, ◌<◌, ◌^◌, ◌≤◌, ℕ, ℤ, pos, List, length, map, zip, get_or, Option, Some, None, is_none, IfOk, if◌then◌else◌};
ghost use Rattle.std.specs.List.{list_any};
ghost use Rattle.xr_types.specs.Kinds.{wrap_to};
ghost use Rattle.xr_types.specs.declared.kind.DType.TheVariants.{Int64, UInt64};
ghost use Rattle.xr_arrays.specs.Folds.{truth};
ghost use Rattle.plan_core.specs.Arrangements.{filling, gap};
ghost use Rattle.row_folds.specs.Rows.{shown};

use crate::accumulator::{
    AllNonzero, AnyNonzero, Counted, First, Greatest, GreatestAt, Last, Least, LeastAt, Present,
    Product,
};
use std::alloc::{AllocError, Global};
use xr_types::{Elem, Items};

/// A fold whose result is a cell of a type.
pub trait Finish<O: Elem>: Copy + Drop {
    /// The cell of the result.
    ghost cell: { Self → Option ℤ };

    /// Its number, or 0 where it is missing.
    fn number(self) -> O
        ensures { O.number result ≡ filling (cell self) };

    /// 1 where it is missing, else 0.
    fn gap(self) -> u8
        ensures { result ≡ gap (cell self) };
}

impl Finish<u64> for i64 {
    ghost cell = { λ a. Some (wrap_to UInt64 a) };

    fn number(self) -> u64 {
        u64::wrap_from(i128::from(self))
    }

    fn gap(self) -> u8 {
        0
    }
}

impl Finish<i64> for Product {
    ghost cell = { λ a. Some a.product };

    fn number(self) -> i64 {
        self.product
    }

    fn gap(self) -> u8 {
        0
    }
}

impl Finish<u64> for Product {
    ghost cell = { λ a. Some (wrap_to UInt64 a.product) };

    fn number(self) -> u64 {
        u64::wrap_from(i128::from(self.product))
    }

    fn gap(self) -> u8 {
        0
    }
}

impl Finish<i64> for Counted {
    ghost cell = { λ a. Some a.count };

    fn number(self) -> i64 {
        self.count
    }

    fn gap(self) -> u8 {
        0
    }
}

impl Finish<u8> for AnyNonzero {
    ghost cell = { λ a. Some (truth a.any) };

    fn number(self) -> u8 {
        u8::from(self.any)
    }

    fn gap(self) -> u8 {
        0
    }
}

impl Finish<u8> for AllNonzero {
    ghost cell = { λ a. Some (truth a.all) };

    fn number(self) -> u8 {
        u8::from(self.all)
    }

    fn gap(self) -> u8 {
        0
    }
}

// The number of a cell, or 0 where it is missing.
fn number_or_zero<T: Elem>(some: bool, number: T) -> T
    ensures { T.number result ≡ filling (shown some (T.number number)) }
{
    if some { number } else { T::wrap_from(0) }
}

fn gap_of(some: bool) -> u8
    ensures { (n : ℤ) → result ≡ gap (shown some n) }
{
    if some { 0 } else { 1 }
}

fn position_or_zero(some: bool, position: u64) -> i64
    ensures { result ≡ filling (shown some (wrap_to Int64 (pos position))) }
{
    if some {
        i64::wrap_from(i128::from(position))
    } else {
        0
    }
}

impl<T: Elem> Finish<T> for First<T> {
    ghost cell = { λ a. shown a.some (T.number a.number) };

    fn number(self) -> T {
        number_or_zero(self.some, self.number)
    }

    fn gap(self) -> u8 {
        gap_of(self.some)
    }
}

impl<T: Elem> Finish<T> for Last<T> {
    ghost cell = { λ a. shown a.some (T.number a.number) };

    fn number(self) -> T {
        number_or_zero(self.some, self.number)
    }

    fn gap(self) -> u8 {
        gap_of(self.some)
    }
}

impl<T: Elem> Finish<i64> for LeastAt<T> {
    ghost cell = { λ a. shown a.some (wrap_to Int64 (pos a.position)) };

    fn number(self) -> i64 {
        position_or_zero(self.some, self.position)
    }

    fn gap(self) -> u8 {
        gap_of(self.some)
    }
}

impl<T: Elem> Finish<i64> for GreatestAt<T> {
    ghost cell = { λ a. shown a.some (wrap_to Int64 (pos a.position)) };

    fn number(self) -> i64 {
        position_or_zero(self.some, self.position)
    }

    fn gap(self) -> u8 {
        gap_of(self.some)
    }
}

/// The least or the greatest number, where there is one.
pub trait Extreme<T: Elem>: Copy + Drop {
    ghost extreme: { Self → ℤ };

    fn extreme(self) -> T
        ensures { T.number result ≡ extreme self };
}

impl<T: Elem> Extreme<T> for Least<T> {
    ghost extreme = { λ a. T.number a.number };

    fn extreme(self) -> T {
        self.number
    }
}

impl<T: Elem> Extreme<T> for Greatest<T> {
    ghost extreme = { λ a. T.number a.number };

    fn extreme(self) -> T {
        self.number
    }
}

/// The cells of a result.
pub trait Outcome<O: Elem>: Copy + Drop {
    ghost cells: { Self → List (Option ℤ) };

    fn len(self) -> usize
        ensures { result ≡ length (cells self) };

    /// The number of a cell, or 0 where it is missing.
    fn number(self, i: usize) -> O
        requires { i < length (cells self) }
        ensures { O.number result ≡ filling (get_or (cells self) i None) };

    /// 1 where a cell is missing, else 0.
    fn gap(self, i: usize) -> u8
        requires { i < length (cells self) }
        ensures { result ≡ gap (get_or (cells self) i None) };
}

/// Folds whose results are cells.
#[derive(Clone, Copy)]
pub struct Finished<'a, A> {
    pub rows: &'a [A],
}

impl<'a, O: Elem, A: Finish<O>> Outcome<O> for Finished<'a, A> {
    ghost cells = { λ s. map A.cell s.rows.now };

    fn len(self) -> usize {
        self.rows.len()
    }

    fn number(self, i: usize) -> O {
        self.rows[i].number()
    }

    fn gap(self, i: usize) -> u8 {
        self.rows[i].gap()
    }
}

/// Least or greatest numbers, and whether there is one.
#[derive(Clone, Copy)]
pub struct Chosen<'a, A> {
    pub rows: &'a [A],
    pub some: &'a [Present],
}

impl<'a, T: Elem, A: Extreme<T>> Outcome<T> for Chosen<'a, A> {
    ghost cells = { λ s. map (λ c. shown c.1.some (A.extreme c.0)) (zip s.rows.now s.some.now) };

    fn len(self) -> usize {
        self.rows.len().min(self.some.len())
    }

    fn number(self, i: usize) -> T {
        number_or_zero(self.some[i].some, self.rows[i].extreme())
    }

    fn gap(self, i: usize) -> u8 {
        gap_of(self.some[i].some)
    }
}

/// Least or greatest numbers, each of which is there.
#[derive(Clone, Copy)]
pub struct Reached<'a, A> {
    pub rows: &'a [A],
}

impl<'a, T: Elem, A: Extreme<T>> Outcome<T> for Reached<'a, A> {
    ghost cells = { λ s. map (λ a. Some (A.extreme a)) s.rows.now };

    fn len(self) -> usize {
        self.rows.len()
    }

    fn number(self, i: usize) -> T {
        self.rows[i].extreme()
    }

    fn gap(self, _i: usize) -> u8 {
        0
    }
}

/// The numbers of the cells.
pub fn numbers<O: Elem, R: Outcome<O>>(alloc: Global, cells: R) -> Result<Vec<O>, AllocError>
    ensures { IfOk result (λ v. map O.number v.items ≡ map filling (R.cells cells)) }
{
    let count = cells.len();
    let mut all = Vec::with_capacity(alloc, count)?;
    for i in 0..count {
        all.push(cells.number(i))?;
    }
    Ok(all)
}

fn has_missing<O: Elem, R: Outcome<O>>(cells: R) -> bool
    ensures { result ≡ list_any is_none (R.cells cells) }
{
    for i in 0..cells.len() {
        if cells.gap(i) != 0 {
            return true;
        }
    }
    false
}

/// A byte for each cell, where one is missing.
pub fn mask<O: Elem, R: Outcome<O>>(
    alloc: Global,
    cells: R,
) -> Result<Option<Items<u8>>, AllocError>
    ensures { IfOk result (λ m. m ≡ (if list_any is_none (R.cells cells) then Some (map gap (R.cells cells)) else None)) }
{
    if !has_missing(cells) {
        return Ok(None);
    }
    let count = cells.len();
    let mut mask = Vec::with_capacity(alloc, count)?;
    for i in 0..count {
        mask.push(cells.gap(i))?;
    }
    Ok(Some(Items::of(mask)))
}
