//! A fold of cells that is under way.
ghost use Rattle.std.specs.Prelude.{◌≡◌, ◌≤◌, ◌<◌, ◌+◌, ◌^◌, ℕ, ℤ, List, [], ◌∷◌, ◌++◌, map, length, Option, Some, None};
ghost use Rattle.xr_arrays.specs.Arrays.{hidden};
ghost use Rattle.xr_types.specs.Kinds.{wrap_to};
ghost use Rattle.xr_arrays.specs.Folds.{fold_of, numbered, present, total_kind};
ghost use Rattle.xr_types.specs.declared.operation.FoldKind.TheVariants.{Sum};
ghost use Rattle.fold_kernel.specs.Partials.{StandsFor, joined_number, number_of, chosen, keeps_first, first_found};
ghost use Rattle.fold_kernel.specs.Rows.{placed};

use crate::found::Found;
use crate::gather::{added, multiplied, truth};
use crate::row::{Masked, Row, Whole};
use crate::run::{run_found, run_number};
use std::marker::Model;
use xr_types::{DType, Elem, FoldKind, is_unsigned, wrap};

/// A fold of the cells that it has absorbed so far, each with its position. It takes no memory.
#[derive(Drop)]
pub struct Partial {
    kind: FoldKind,
    of: DType,
    /// The sum or the product, wrapped at 64 bits with a sign whatever its kind, the count, or 1 or 0 for any and all.
    number: i64,
    /// The cell that min, max, first, last, argmin or argmax has chosen.
    found: Option<Found>,
}

impl Model for Partial {
    ghost use Rattle.fold_kernel.specs.Partials.{Folded, seen};

    ghost Value = { Folded };

    ghost view = { λ p. seen p.kind p.of p.number p.found };
}

impl Partial {
    /// The fold of no cells of a kind.
    pub fn empty(kind: FoldKind, of: DType) -> Partial
        ensures fold { (result.kind ≡ kind) × (result.of ≡ of) }
        ensures stands { StandsFor result [] }
    {
        Partial {
            kind,
            of,
            number: empty_number(kind),
            found: None,
        }
    }

    /// The fold of one cell.
    fn of_cell(kind: FoldKind, of: DType, position: u64, cell: Option<i128>) -> Partial
        ensures fold { (result.kind ≡ kind) × (result.of ≡ of) }
        ensures stands { StandsFor result ((position, cell) ∷ []) }
    {
        Partial {
            kind,
            of,
            number: cell_number(kind, cell),
            found: cell_found(position, cell),
        }
    }

    /// The fold of a run whose first cell has this position.
    fn of_run<T: Elem, R: Row<T>>(kind: FoldKind, of: DType, first: u64, row: R) -> Partial
        requires { first + length (R.items row) ≤ 2 ^ 62 }
        ensures fold { (result.kind ≡ kind) × (result.of ≡ of) }
        ensures stands { StandsFor result (placed T.number first (R.items row)) }
    {
        Partial {
            kind,
            of,
            number: run_number(kind, row),
            found: run_found(kind, first, row),
        }
    }

    /// Puts the cells of another partial of the same fold behind these.
    fn join(&mut self, later: &Partial)
        requires kind { self.old.kind ≡ later.now.kind }
        requires of { self.old.of ≡ later.now.of }
        ensures fold { (self.new.kind ≡ self.old.kind) × (self.new.of ≡ self.old.of) }
        ensures stands { (a b : List (ℕ × Option ℤ)) → StandsFor self.old a → StandsFor later.now b → length a + length b ≤ 2 ^ 62 → StandsFor self.new (a ++ b) }
    {
        self.number = joined(self.kind, self.number, later.number);
        self.found = choose(self.kind, self.found, later.found);
    }

    /// Puts a cell behind the others. Its position is greater than theirs.
    pub fn absorb(&mut self, position: u64, cell: Option<i128>)
        ensures fold { (self.new.kind ≡ self.old.kind) × (self.new.of ≡ self.old.of) }
        ensures stands { (cells : List (ℕ × Option ℤ)) → StandsFor self.old cells → length cells < 2 ^ 62 → StandsFor self.new (cells ++ (position, cell) ∷ []) }
    {
        let one = Partial::of_cell(self.kind, self.of, position, cell);
        self.join(&one);
    }

    /// Puts the cells of a run behind the others. The first of them has this position, the next one the next.
    pub fn absorb_run<T: Elem>(&mut self, first: u64, cells: &[T])
        requires { first + length cells.now ≤ 2 ^ 62 }
        ensures fold { (self.new.kind ≡ self.old.kind) × (self.new.of ≡ self.old.of) }
        ensures stands { (before : List (ℕ × Option ℤ)) → StandsFor self.old before → length before + length cells.now ≤ 2 ^ 62 → StandsFor self.new (before ++ numbered first (hidden (map T.number cells.now) None)) }
    {
        let run = Partial::of_run(self.kind, self.of, first, Whole { cells });
        self.join(&run);
    }

    /// The same for a run with a mask, in which 0 marks a present cell.
    pub fn absorb_masked<T: Elem>(&mut self, first: u64, cells: &[T], mask: &[u8])
        requires positions { first + length cells.now ≤ 2 ^ 62 }
        requires mask { length mask.now ≡ length cells.now }
        ensures fold { (self.new.kind ≡ self.old.kind) × (self.new.of ≡ self.old.of) }
        ensures stands { (before : List (ℕ × Option ℤ)) → StandsFor self.old before → length before + length cells.now ≤ 2 ^ 62 → StandsFor self.new (before ++ numbered first (hidden (map T.number cells.now) (Some mask.now))) }
    {
        let run = Partial::of_run(self.kind, self.of, first, Masked { cells, mask });
        self.join(&run);
    }

    /// The fold of these cells and, behind them, of those of a later partial of the same fold and kind, whose positions
    /// are greater.
    pub fn combine(self, later: Partial) -> Partial
        requires kind { self.kind ≡ later.kind }
        requires of { self.of ≡ later.of }
        ensures fold { (result.kind ≡ self.kind) × (result.of ≡ self.of) }
        ensures stands { (a b : List (ℕ × Option ℤ)) → StandsFor self a → StandsFor later b → length a + length b ≤ 2 ^ 62 → StandsFor result (a ++ b) }
    {
        let mut both = self;
        both.join(&later);
        both
    }

    /// The sum of the cells, as a cell of its kind.
    #[tactic(auto, using(crate::proofs::Totals::total_again))]
    pub(crate) fn total<S: Elem>(&self) -> S
        requires sum { self.now.kind ≡ Sum }
        requires kind { S.kind ≡ total_kind self.now.of }
        ensures { Some (S.number result) ≡ self.now.value }
    {
        S::wrap_from(i128::from(self.number))
    }

    /// The same fold with this sum.
    #[tactic(auto, using(crate::proofs::Totals::total_again))]
    pub(crate) fn with_total<S: Elem>(self, total: S) -> Partial
        requires sum { self.kind ≡ Sum }
        requires kind { S.kind ≡ total_kind self.of }
        ensures { result ≡ record self { value = Some (S.number total) } }
    {
        Partial {
            kind: self.kind,
            of: self.of,
            number: i64::wrap_from(total.widen()),
            found: self.found,
        }
    }

    /// The fold of the cells, or None where it gives a missing cell.
    pub fn finish(self) -> Option<i128>
        ensures { (cells : List (ℕ × Option ℤ)) → StandsFor self cells → result ≡ fold_of self.kind self.of cells }
    {
        match self.kind {
            FoldKind::Min | FoldKind::Max | FoldKind::First | FoldKind::Last => match self.found {
                Some(cell) => Some(cell.number),
                None => None,
            },
            FoldKind::ArgMin | FoldKind::ArgMax => match self.found {
                Some(cell) => Some(i128::from(cell.position)),
                None => None,
            },
            FoldKind::Sum | FoldKind::Prod => Some(of_total(self.of, self.number)),
            FoldKind::Count | FoldKind::Any | FoldKind::All => Some(i128::from(self.number)),
        }
    }
}

/// The sum or the product of cells of a kind, of a number that agrees with it in 64 bits.
fn of_total(of: DType, number: i64) -> i128
    ensures { result ≡ wrap_to (total_kind of) number }
{
    if is_unsigned(of) {
        wrap(DType::UInt64, i128::from(number))
    } else {
        wrap(DType::Int64, i128::from(number))
    }
}

/// The number of no cells.
fn empty_number(kind: FoldKind) -> i64
    ensures { result ≡ number_of kind [] }
{
    match kind {
        FoldKind::Prod | FoldKind::All => 1,
        _ => 0,
    }
}

/// The number of one cell.
fn cell_number(kind: FoldKind, cell: Option<i128>) -> i64
    ensures { (p : ℕ) → result ≡ number_of kind (present ((p, cell) ∷ [])) }
{
    match cell {
        Some(number) => present_number(kind, number),
        None => empty_number(kind),
    }
}

fn present_number(kind: FoldKind, number: i128) -> i64
    ensures { (p : ℕ) → result ≡ number_of kind ((p, number) ∷ []) }
{
    match kind {
        FoldKind::Sum | FoldKind::Prod => i64::wrap_from(number),
        FoldKind::Count => 1,
        FoldKind::Any | FoldKind::All => truth(number != 0),
        _ => 0,
    }
}

/// The cell that a fold of one cell chooses.
fn cell_found(position: u64, cell: Option<i128>) -> Option<Found>
    ensures { result ≡ first_found (present ((position, cell) ∷ [])) }
{
    match cell {
        Some(number) => Some(Found { position, number }),
        None => None,
    }
}

/// The number of two parts.
fn joined(kind: FoldKind, a: i64, b: i64) -> i64
    ensures { result ≡ joined_number kind a b }
{
    match kind {
        FoldKind::Sum | FoldKind::Count => added(a, b),
        FoldKind::Prod => multiplied(a, b),
        FoldKind::Any => a.max(b),
        FoldKind::All => a.min(b),
        _ => 0,
    }
}

/// Whether the first of two cells is chosen.
fn keeps(kind: FoldKind, a: i128, b: i128) -> bool
    ensures { result ≡ keeps_first kind a b }
{
    match kind {
        FoldKind::Min | FoldKind::ArgMin => a <= b,
        FoldKind::Max | FoldKind::ArgMax => b <= a,
        FoldKind::First => true,
        _ => false,
    }
}

/// The cell of two parts.
fn choose(kind: FoldKind, a: Option<Found>, b: Option<Found>) -> Option<Found>
    ensures { result ≡ chosen kind a b }
{
    match (a, b) {
        (Some(x), Some(y)) => {
            if keeps(kind, x.number, y.number) {
                Some(x)
            } else {
                Some(y)
            }
        }
        (Some(x), None) => Some(x),
        (None, b) => b,
    }
}
