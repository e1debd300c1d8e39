//! Running sums along a run.
ghost use Rattle.std.specs.Prelude.{◌≡◌, ◌<◌, ◌+◌, ◌+ℤ◌, ◌∷◌, ◌++◌, ℕ, ℤ, List, Option, Some, None, map, length, take, fold, slice_index_or};
ghost use Rattle.xr_arrays.specs.Arrays.{hidden};
ghost use Rattle.xr_types.specs.Kinds.{wrap_to};
ghost use Rattle.xr_arrays.specs.Folds.{fold_of, numbered, total_kind};
ghost use Rattle.xr_types.specs.declared.operation.FoldKind.TheVariants.{Sum};
ghost use Rattle.fold_kernel.specs.Partials.{StandsFor};
ghost use Rattle.fold_kernel.specs.Rows.{with_cell};

use crate::partial::Partial;
use crate::row::{Masked, Row, Whole};
use xr_types::Elem;

/// Writes for each cell of a run the sum of the cells up to it, those before the run among them, as a cell of the kind
/// of sums, and gives the sum of all.
pub fn scan_run<T: Elem, S: Elem>(before: Partial, cells: &[T], out: &mut [S]) -> Partial
    requires sum { before.kind ≡ Sum }
    requires kind { S.kind ≡ total_kind before.of }
    requires lengths { length out.old ≡ length cells.now }
    ensures fold { (result.kind ≡ before.kind) × (result.of ≡ before.of) }
    ensures stands { (b : List (ℕ × Option ℤ)) (first : ℕ) → StandsFor before b → StandsFor result (b ++ numbered first (hidden (map T.number cells.now) None)) }
    ensures sums { (b : List (ℕ × Option ℤ)) (first i : ℕ) (z : S) → StandsFor before b → i < length cells.now → Some (S.number (slice_index_or out.new i z)) ≡ fold_of Sum before.of (b ++ numbered first (take (i + 1) (hidden (map T.number cells.now) None))) }
{
    let start: S = before.total();
    let total = scan_row(start, Whole { cells }, out);
    before.with_total(total)
}

/// The same for a run with a mask, in which 0 marks a present cell. A missing cell adds nothing.
pub fn scan_masked<T: Elem, S: Elem>(
    before: Partial,
    cells: &[T],
    mask: &[u8],
    out: &mut [S],
) -> Partial
    requires sum { before.kind ≡ Sum }
    requires kind { S.kind ≡ total_kind before.of }
    requires mask { length mask.now ≡ length cells.now }
    requires lengths { length out.old ≡ length cells.now }
    ensures fold { (result.kind ≡ before.kind) × (result.of ≡ before.of) }
    ensures stands { (b : List (ℕ × Option ℤ)) (first : ℕ) → StandsFor before b → StandsFor result (b ++ numbered first (hidden (map T.number cells.now) (Some mask.now))) }
    ensures sums { (b : List (ℕ × Option ℤ)) (first i : ℕ) (z : S) → StandsFor before b → i < length cells.now → Some (S.number (slice_index_or out.new i z)) ≡ fold_of Sum before.of (b ++ numbered first (take (i + 1) (hidden (map T.number cells.now) (Some mask.now)))) }
{
    let start: S = before.total();
    let total = scan_row(start, Masked { cells, mask }, out);
    before.with_total(total)
}

fn scan_row<T: Elem, S: Elem, R: Row<T>>(start: S, row: R, out: &mut [S]) -> S
    requires { length out.old ≡ length (R.items row) }
    ensures total { S.number result ≡ fold (with_cell S.kind T.number) (S.number start) (R.items row) }
    ensures sums { (i : ℕ) (z : S) → i < length out.old → S.number (slice_index_or out.new i z) ≡ fold (with_cell S.kind T.number) (S.number start) (take (i + 1) (R.items row)) }
{
    let mut total = start;
    for i in 0..out.len() {
        let sum = more(total, row.get(i));
        out[i] = sum;
        total = sum;
    }
    total
}

// The sum with the number of one more cell.
#[tactic(auto, using(crate::proofs::Totals::kind_bounds))]
fn plus<T: Elem, S: Elem>(total: S, cell: T) -> S
    ensures { S.number result ≡ wrap_to S.kind (S.number total +ℤ T.number cell) }
{
    S::wrap_from(total.widen() + cell.widen())
}

/// The sum with one more cell.
pub(crate) fn more<T: Elem, S: Elem>(total: S, cell: Option<T>) -> S
    ensures { S.number result ≡ with_cell S.kind T.number (S.number total) cell }
{
    match cell {
        Some(cell) => plus(total, cell),
        None => total,
    }
}
