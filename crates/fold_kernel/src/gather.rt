//! One loop over a run for every fold that takes the cells in turn.
ghost use Rattle.std.specs.Prelude.{◌≡◌, ◌||◌, ◌&&◌, [], ◌∷◌, take, drop, length, ℤ, pos, ◌+ℤ◌, ◌*ℤ◌, int_lt, if◌then◌else◌};
ghost use Rattle.std.specs.Int.{int_wrap, w64};
ghost use Rattle.xr_arrays.specs.Folds.{is_nonzero, truth};
ghost use Rattle.fold_kernel.specs.Rows.{gathered, half};

use crate::row::Row;
use xr_types::Elem;

/// The sum, wrapped at 64 bits.
#[tactic(auto, using(std::proofs::lemmas::Int::wraps))]
pub fn added(a: i64, b: i64) -> i64
    ensures { result ≡ int_wrap w64 (a +ℤ b) }
{
    a.wrapping_add(b)
}

/// The product, wrapped at 64 bits.
#[tactic(auto, using(std::proofs::lemmas::Int::wraps))]
pub fn multiplied(a: i64, b: i64) -> i64
    ensures { result ≡ int_wrap w64 (a *ℤ b) }
{
    a.wrapping_mul(b)
}

/// A truth value as 1 or 0.
pub fn truth(test: bool) -> i64
    ensures { result ≡ truth test }
{
    i64::from(test)
}

/// What the present cells of a run are gathered into, one after the other.
pub trait Gathering<T>: Copy + Drop {
    ghost with: { Self → T → Self };

    fn with(self, cell: T) -> Self
        ensures { result ≡ with self cell };
}

/// Gathers the present cells of a run.
pub fn gather<T: Copy, R: Row<T>, G: Gathering<T>>(start: G, row: R) -> G
    ensures { result ≡ gathered G.with start (R.items row) }
{
    let mut all = start;
    for i in 0..row.len() {
        if let Some(cell) = row.get(i) {
            all = all.with(cell);
        }
    }
    all
}

/// Gathers the present cells of the first half of a run, and beside them those of the second: two streams come from
/// memory faster than one.
pub fn gather_halves<T: Copy, R: Row<T>, G: Gathering<T>>(start: G, row: R) -> (G, G)
    ensures first { result.0 ≡ gathered G.with start (take (half (length (R.items row))) (R.items row)) }
    ensures second { result.1 ≡ gathered G.with start (drop (half (length (R.items row))) (R.items row)) }
{
    let half = row.len() / 2;
    let mut first = start;
    let mut second = start;
    for i in 0..half {
        first = with_next(first, row.get(i));
        second = with_next(second, row.get(half + i));
    }
    for i in half + half..row.len() {
        second = with_next(second, row.get(i));
    }
    (first, second)
}

fn with_next<T: Copy, G: Gathering<T>>(all: G, cell: Option<T>) -> G
    ensures { result ≡ gathered G.with all (cell ∷ []) }
{
    match cell {
        Some(cell) => all.with(cell),
        None => all,
    }
}

/// The sum so far, wrapped at 64 bits.
#[derive(Clone, Copy)]
pub struct Total(pub i64);

impl<T: Elem> Gathering<T> for Total {
    ghost with = { λ s x. record { 0 = int_wrap w64 (s.0 +ℤ T.number x) } };

    #[tactic(auto, using(std::proofs::lemmas::Int::wraps))]
    fn with(self, cell: T) -> Total {
        Total(added(self.0, i64::wrap_from(cell.widen())))
    }
}

/// The product so far, wrapped at 64 bits.
#[derive(Clone, Copy)]
pub struct Product(pub i64);

impl<T: Elem> Gathering<T> for Product {
    ghost with = { λ s x. record { 0 = int_wrap w64 (s.0 *ℤ T.number x) } };

    #[tactic(auto, using(std::proofs::lemmas::Int::wraps))]
    fn with(self, cell: T) -> Product {
        Product(multiplied(self.0, i64::wrap_from(cell.widen())))
    }
}

/// Whether some cell so far isn't 0.
#[derive(Clone, Copy)]
pub struct AnyNonzero(pub bool);

impl<T: Elem> Gathering<T> for AnyNonzero {
    ghost with = { λ s x. record { 0 = s.0 || is_nonzero (T.number x) } };

    fn with(self, cell: T) -> AnyNonzero {
        AnyNonzero(self.0 || cell.widen() != 0)
    }
}

/// Whether no cell so far is 0.
#[derive(Clone, Copy)]
pub struct AllNonzero(pub bool);

impl<T: Elem> Gathering<T> for AllNonzero {
    ghost with = { λ s x. record { 0 = s.0 && is_nonzero (T.number x) } };

    fn with(self, cell: T) -> AllNonzero {
        AllNonzero(self.0 && cell.widen() != 0)
    }
}

/// The least cell so far.
#[derive(Clone, Copy)]
pub struct Least<T>(pub T);

impl<T: Elem> Gathering<T> for Least<T> {
    ghost with = { λ s x. if int_lt (T.number x) (T.number s.0) then record { 0 = x } else s };

    fn with(self, cell: T) -> Least<T> {
        if cell.widen() < self.0.widen() {
            Least(cell)
        } else {
            self
        }
    }
}

/// The greatest cell so far.
#[derive(Clone, Copy)]
pub struct Greatest<T>(pub T);

impl<T: Elem> Gathering<T> for Greatest<T> {
    ghost with = { λ s x. if int_lt (T.number s.0) (T.number x) then record { 0 = x } else s };

    fn with(self, cell: T) -> Greatest<T> {
        if cell.widen() > self.0.widen() {
            Greatest(cell)
        } else {
            self
        }
    }
}
